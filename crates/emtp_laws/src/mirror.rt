//! What is true of a network at rest, and of one whose sources all have the opposite amplitudes. The functions do nothing:
//! their clauses are proved.

ghost use Rattle.std.specs.Prelude.{◌≡◌, ℕ, pos, All, List, map, None};
ghost use Rattle.emtp_case.specs.held.Case.{HasNoControl, IsCase};
ghost use Rattle.emtp_case.specs.StepRecord.{StepRecord, record_back};
ghost use Rattle.emtp_case.specs.declared.source.Source.{Source};
ghost use Rattle.emtp_machine.specs.History.{history, history_upto, samples};
ghost use Rattle.emtp_machine.specs.Laws.{records_upto};
ghost use Rattle.emtp_net.specs.Step.{network_part};
ghost use Rattle.emtp_laws.specs.Mirror.{HasNoSign, IsQuiet, bare_records, mirror_image, mirrored_history, mirrored_records, mirrored_sample, without_control};
ghost use Rattle.emtp_laws.specs.Mirror as mirror;

use emtp_case::Case;

/// A network without control, valves and controlled switches whose sources are all 0 stays at rest: in no record of a run is
/// there a voltage, a current, a wave or a flux.
pub fn quiet_network_stays_at_rest(case: &Case)
    requires plain { HasNoSign case.now.parts }
    requires control { HasNoControl case.now.parts }
    requires quiet { All (λ (s : Source). s.amplitude ≡ pos 0) case.now.parts.sources }
    ensures { (n k : ℕ) → IsQuiet (record_back (records_upto case.now.parts n) k) }
{}

/// Where all sources have the opposite amplitudes, and there is neither a control nor a valve, a run has the opposite voltages,
/// currents, waves, fluxes and segments in each record and in each sample, to the last digit, the same states of the switches,
/// and the same end.
pub fn mirrored_run(case: &Case)
    requires plain { HasNoSign case.now.parts }
    requires control { HasNoControl case.now.parts }
    ensures samples { samples (mirror_image case.now.parts) (history (mirror_image case.now.parts))
        ≡ map (mirrored_sample case.now.parts.channels) (samples case.now.parts (history case.now.parts)) }
    ensures records { (n : ℕ) → history_upto (mirror_image case.now.parts) n ≡ mirrored_history (history_upto case.now.parts n) }
{}

/// So has each step after the mirrored records, whatever they are; a step that ends in a fault ends in the same one.
pub fn mirrored_step(case: &Case)
    requires plain { HasNoSign case.now.parts }
    ensures { (H : List StepRecord)
        → network_part (mirror_image case.now.parts) (mirrored_records H)
        ≡ mirror.mirrored_step (network_part case.now.parts H) }
{}

/// With a control that the network doesn't go by, and without a valve, the network's records are mirrored as long as neither
/// run has ended, whatever the control computes.
pub fn mirrored_run_with_control(case: &Case)
    requires plain { HasNoSign case.now.parts }
    ensures { (n : ℕ) → (history_upto case.now.parts n).end ≡ None
        → (history_upto (mirror_image case.now.parts) n).end ≡ None
        → without_control (records_upto (mirror_image case.now.parts) n)
        ≡ bare_records (records_upto case.now.parts n) }
{}

/// A network that doesn't go by the control, and has no valve, takes the same step whatever the control keeps.
pub fn network_is_blind_to_the_control(case: &Case)
    requires plain { HasNoSign case.now.parts }
    ensures { (H : List StepRecord) → network_part case.now.parts (without_control H) ≡ network_part case.now.parts H }
{}

/// The mirror image of a case is a case, and its mirror image is the case itself.
pub fn mirror_image_is_a_case(case: &Case)
    ensures case { IsCase (mirror_image case.now.parts) }
    ensures twice { mirror_image (mirror_image case.now.parts) ≡ case.now.parts }
{}
