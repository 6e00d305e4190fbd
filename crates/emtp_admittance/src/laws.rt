//! What an engineer may count on in the admittances of branches. The functions do nothing: their clauses are proved, and a
//! caller has them by a call.

ghost use Rattle.std.specs.Prelude.{◌≡◌, ◌-ℤ◌, ℤ, IfSome};
ghost use Rattle.emtp_admittance.specs.Impedance.{across_ends, capacitive_reactance, inductive_reactance, series_port};
ghost use Rattle.emtp_admittance.specs.EqualReactances.{resistance_alone};
ghost use Rattle.emtp_admittance.specs.Inverses.{IsInverseAcross};
ghost use Rattle.emtp_case.specs.declared.branch.Lumped.{Lumped};

/// Where both reactances of a series branch are equal, only its resistance is left between its ends.
pub fn equal_reactances_leave_the_resistance()
    ensures { (w : ℤ) (b : Lumped) → inductive_reactance w b.l ≡ capacitive_reactance w b.c
        → IfSome (series_port w b) (λ y. y ≡ across_ends (resistance_alone b.r)) }
{}

/// The admittance between the ends of a series branch is the inverse of R + jX, where X is the inductive reactance less the
/// capacitive one: times the impedance it is 1, up to half a pS times |R| + |X| in each part. No lesser share of |R| + |X|
/// holds: 640 megohm come to just this.
pub fn series_impedance_is_r_and_x()
    ensures { (w : ℤ) (b : Lumped)
        → IfSome (series_port w b) (IsInverseAcross b.r (inductive_reactance w b.l -ℤ capacitive_reactance w b.c)) }
{}
