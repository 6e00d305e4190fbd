//! A reactor of one point: an inductance in flux form, which has no fictitious resistance. The functions do nothing: their
//! clauses are proved.

ghost use Rattle.std.specs.Prelude.{◌≡◌, ◌∷◌, ◌++◌, [], ℕ, pos, true, List};
ghost use Rattle.emtp_case.specs.declared.branch.Point.{Point};
ghost use Rattle.emtp_case.specs.declared.branch.Pseudo.{Pseudo};
ghost use Rattle.emtp_laws_of_energy.specs.Coil.{AddsUpItsVoltage, AreLeftAlone, AreSteps, HasCurrentOfFlux, IntegratesItsVoltage, IsCoil, StoresItsEnergy};
ghost use Rattle.emtp_pseudo.specs.Pseudos.{newest};
ghost use Rattle.emtp_pseudo.specs.declared.moment.Moment.{Moment};
ghost use Rattle.emtp_pseudo.specs.held.Pseudos.{IsPseudoAt};

use emtp_case::Case;

/// Left alone, a reactor of one point keeps its current and its flux to the last digit: once its voltage is 0 in two records,
/// each further record without a voltage has the same current, flux and segment.
pub fn coil_left_alone_keeps_its_current(case: &Case)
    ensures { (x : Pseudo) (p : Point) (alone past : List Moment) (m : Moment) → IsCoil case.now.parts x p
        → AreSteps case.now.parts x (alone ++ (m ∷ past)) → AreLeftAlone (alone ++ (m ∷ []))
        → (newest past).voltage ≡ pos 0 → (newest (alone ++ (m ∷ past))).state ≡ m.state }
{}

/// Without a voltage in a record and in the one before, its current is that of its flux on its line, flux / L to the nearest
/// nA.
pub fn coil_without_a_voltage_has_the_current_of_its_flux(case: &Case)
    ensures { (x : Pseudo) (p : Point) (past : List Moment) (m : Moment) → IsCoil case.now.parts x p
        → AreSteps case.now.parts x (m ∷ past) → m.voltage ≡ pos 0 → (newest past).voltage ≡ pos 0
        → HasCurrentOfFlux p m.state }
{}

/// From rest on the flux of a reactor is the integral of its voltage by the trapezoidal rule, within half a pWb a step.
pub fn reactor_flux_is_the_integral_of_its_voltage(case: &Case)
    ensures { (x : Pseudo) (past : List Moment) → x.reactor ≡ true → AreSteps case.now.parts x past
        → AddsUpItsVoltage case.now.parts.run.dt past }
{}

/// From rest on the current of a reactor of one point is the integral of its voltage over L, within 1.5 nA, half a pS times
/// the sum of the newest two voltages, and half a pWb over L for each step and one more: nothing of it goes by the current.
pub fn coil_integrates_its_voltage(case: &Case)
    ensures { (b : ℕ) (x : Pseudo) (p : Point) (past : List Moment) → IsPseudoAt case.now.parts b x → IsCoil case.now.parts x p
        → AreSteps case.now.parts x past → IntegratesItsVoltage case.now.parts.run.dt p past }
{}

/// From rest on what a reactor of one point takes in is what it stores, flux^2 / 2L, and no heat of either sign, within what
/// its steps round: in each the rise of the flux times 1.5 nA, a quarter of a pS times the sums of the voltages, and half a
/// pWb over L; and half a pWb times the mean of the currents.
pub fn coil_stores_what_it_takes(case: &Case)
    ensures { (b : ℕ) (x : Pseudo) (p : Point) (past : List Moment) → IsPseudoAt case.now.parts b x → IsCoil case.now.parts x p
        → AreSteps case.now.parts x past → StoresItsEnergy case.now.parts.run.dt p past }
{}
