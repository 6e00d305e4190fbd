//! A series branch and its fictitious resistance r = 1/g - Z. The functions do nothing: their clauses are proved.

ghost use Rattle.std.specs.Prelude.{◌≡◌, ◌≤◌, ◌*◌, ◌≤ℤ◌, ◌∷◌, ◌++◌, [], ℕ, ℤ, pos, length, List, Some, false, slice_get, unsigned_abs};
ghost use Rattle.emtp_case.specs.declared.branch.Branch.TheVariants.{Lumped as OfLumped};
ghost use Rattle.emtp_case.specs.declared.branch.Lumped.{Lumped};
ghost use Rattle.emtp_laws_of_energy.specs.Course.{AreLeftAlone, AreSteps, Grows, KeepsAllButAThousandth, KeepsItsCurrent, Moment, RisesByItsVoltage, latest};
ghost use Rattle.emtp_acting.specs.Fictitious.{drifts, fictitious_of};
ghost use Rattle.emtp_laws_of_energy.specs.Energy.{BalancesItsEnergy, BalancesSince, StoresWhatItTakes};
ghost use Rattle.emtp_laws_of_energy.specs.Series.{HasFictitiousDrop, IsSmallFictitious, conducted_resistance};

use emtp_case::Case;

/// The fictitious resistance of a series branch is at most half a pS times the square of its impedance Z in a step, and the
/// two-thousandth part more; times g it is at most half a pS times Z.
pub fn fictitious_resistance_is_small(case: &Case)
    ensures { (b : ℕ) (x : Lumped) → slice_get case.now.parts.branches b ≡ Some (OfLumped x)
        → IsSmallFictitious case.now.parts.run.dt x }
{}

/// In each record the voltage of a series branch is R i + vL + vC + r i, within 1 nV, half a nV more where there is a
/// capacitance, and half a nA times 1/g, twice that where it has a voltage.
pub fn series_voltage_has_its_fictitious_drop(case: &Case)
    ensures { (x : Lumped) (past : List Moment) → AreSteps case.now.parts.run.dt x past
        → HasFictitiousDrop case.now.parts.run.dt x (latest past).voltage (latest past).state }
{}

/// The current of an inductance, alone or with a resistance, rises in a step by g (v + v') - 2 g (R + r) i', within 1 nA,
/// half a nA more for each of the two voltages that isn't 0, and what 1.5 nV drive through g.
pub fn inductance_rises_by_its_voltage(case: &Case)
    ensures { (x : Lumped) (m : Moment) (past : List Moment) → x.c ≡ pos 0
        → AreSteps case.now.parts.run.dt x (m ∷ past)
        → RisesByItsVoltage case.now.parts.run.dt x m (latest past) }
{}

/// Left alone, an inductance keeps its current: over n steps without a voltage it changes by at most n times the part 2 g |R
/// + r| of its greatest magnitude, which without R is the part |r| dt/L but for its two-thousandth and for what 2L/dt rounds,
/// and n times 1 nA and what 1.5 nV drive through g.
pub fn inductance_left_alone_keeps_its_current(case: &Case)
    ensures { (x : Lumped) (limit : ℕ) (alone past : List Moment) (m : Moment) → x.c ≡ pos 0
        → AreSteps case.now.parts.run.dt x (alone ++ (m ∷ past)) → AreLeftAlone limit (alone ++ (m ∷ []))
        → KeepsItsCurrent case.now.parts.run.dt x limit (length alone) (latest (alone ++ (m ∷ past))) m }
{}

/// Where R + r is below 0, a current that nothing drives grows in each step by the part 2 g |R + r| of itself, but for 1 nA
/// and what 1.5 nV drive through g.
pub fn negative_resistance_makes_current_grow(case: &Case)
    ensures { (x : Lumped) (m : Moment) (past : List Moment) → x.c ≡ pos 0
        → conducted_resistance case.now.parts.run.dt x ≤ℤ pos 0
        → AreSteps case.now.parts.run.dt x (m ∷ past) → m.voltage ≡ pos 0 → (latest past).voltage ≡ pos 0
        → Grows case.now.parts.run.dt x m (latest past) }
{}

/// Where |r| T / L doesn't exceed a thousandth, an inductance that is left alone for no longer than T keeps its current but
/// for a thousandth of its greatest magnitude (6 % of that more at most), and 1 nA and what 1.5 nV drive through g a step.
pub fn inductance_that_does_not_drift_keeps_its_current(case: &Case)
    ensures { (x : Lumped) (duration : ℤ) (limit : ℕ) (alone past : List Moment) (m : Moment) → x.r ≡ pos 0
        → x.c ≡ pos 0 → drifts (fictitious_of case.now.parts.run.dt x) duration x.l ≡ false
        → length alone * unsigned_abs case.now.parts.run.dt ≤ unsigned_abs duration
        → AreSteps case.now.parts.run.dt x (alone ++ (m ∷ past)) → AreLeftAlone limit (alone ++ (m ∷ []))
        → KeepsAllButAThousandth case.now.parts.run.dt x limit (length alone) (latest (alone ++ (m ∷ past)))
        m }
{}

/// What an inductance alone takes in over a step, dt (v + v')/2 (i + i')/2, is the rise of what it stores, L/2 (i^2 - i'^2),
/// and the heat r dt ((i + i')/2)^2 in its fictitious resistance, within dt times the mean of the currents times 1/2 nA / g,
/// 1/4 nA / g more for each of the two voltages that isn't 0, 3/4 nV and 1/4 micro-ohm of the rise of the current.
pub fn inductance_alone_stores_what_it_takes(case: &Case)
    ensures { (x : Lumped) (m : Moment) (past : List Moment) → x.r ≡ pos 0 → x.c ≡ pos 0
        → AreSteps case.now.parts.run.dt x (m ∷ past)
        → StoresWhatItTakes case.now.parts.run.dt x m (latest past) }
{}

/// From rest on, and over any steps of a run, a series branch takes in the heat in its resistance, what its inductance and
/// its capacitance store more, and the heat in its fictitious resistance, which may be below 0, within what the steps round:
/// in each dt times the mean of its currents times 1 nA / g, 3/4 nV (5/4 nV with a capacitance) and 1/4 micro-ohm of the rise of
/// its current; and C times the mean of its capacitance's voltages times 1/2 nV and 1/2 micro-ohm of the sum of its currents.
pub fn series_branch_balances_its_energy(case: &Case)
    ensures from_rest { (x : Lumped) (past : List Moment) → AreSteps case.now.parts.run.dt x past
        → BalancesItsEnergy case.now.parts.run.dt x past }
    ensures since { (x : Lumped) (new past : List Moment) → AreSteps case.now.parts.run.dt x (new ++ past)
        → BalancesSince case.now.parts.run.dt x new past }
{}
