//! The records of a run. The functions do nothing: their clauses are proved.

ghost use Rattle.std.specs.Prelude.{◌≡◌, ℕ, Some, slice_get};
ghost use Rattle.emtp_case.specs.declared.branch.Branch.TheVariants.{Lumped as OfLumped, Pseudo as OfPseudo};
ghost use Rattle.emtp_case.specs.declared.branch.Lumped.{Lumped};
ghost use Rattle.emtp_case.specs.declared.branch.Pseudo.{Pseudo};
ghost use Rattle.emtp_laws_of_energy.specs.Coil as coil;
ghost use Rattle.emtp_laws_of_energy.specs.Course.{AreSteps};
ghost use Rattle.emtp_laws_of_energy.specs.Energy.{BalancesItsEnergy};
ghost use Rattle.emtp_laws_of_energy.specs.Runs.{moments_of};
ghost use Rattle.emtp_machine.specs.Laws.{records_upto};
ghost use Rattle.emtp_pseudo.specs.Pseudos as pseudo;

use emtp_case::Case;

/// In a run each series branch moves from record to record by its law, at the voltage between its nodes; so all laws over its
/// steps hold of its records.
pub fn series_branches_make_their_steps(case: &Case)
    ensures { (n b : ℕ) (x : Lumped) → slice_get case.now.parts.branches b ≡ Some (OfLumped x)
        → AreSteps case.now.parts.run.dt x (moments_of b x (records_upto case.now.parts n)) }
{}

/// So does each pseudo-nonlinear branch.
pub fn reactors_make_their_steps(case: &Case)
    ensures { (n b : ℕ) (x : Pseudo) → slice_get case.now.parts.branches b ≡ Some (OfPseudo x)
        → coil.AreSteps case.now.parts x (pseudo.moments_of x b (records_upto case.now.parts n)) }
{}

/// In a run what a series branch has taken in up to a record is the heat in its resistance, what it stores, and the heat in
/// its fictitious resistance, within what its steps round.
pub fn series_branches_balance_their_energy(case: &Case)
    ensures { (n b : ℕ) (x : Lumped) → slice_get case.now.parts.branches b ≡ Some (OfLumped x)
        → BalancesItsEnergy case.now.parts.run.dt x (moments_of b x (records_upto case.now.parts n)) }
{}
