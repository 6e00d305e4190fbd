//! Supplemental cards: devices and formulas.

ghost use Rattle.std.specs.Prelude.{◌≡◌, ◌≤◌, length, Err, Ok, IfOk};
ghost use Rattle.emtp_taccards.specs.ExtraCard.{extra_card};
ghost use Rattle.emtp_taccards.specs.held.ExtraCard.{HasExtraNumbers};

use crate::device_card::{DeviceCard, device};
use crate::formula_card::{FormulaCard, formula};
use emtp_card::{Bad, Line, MAX_BYTES, Refused, field_text};
use std::alloc::Global;

/// A supplemental card, its names not resolved.
#[derive(Drop)]
pub enum ExtraCard {
    /// A device.
    Device(DeviceCard),
    /// A formula.
    Formula(FormulaCard),
}

/// Reads a supplemental card: a formula where columns 9 and 10 are blank, else a device.
///
/// A refusal is the fault of the line's bytes, else the least fault of its fields, rules and expression.
#[tactic(auto, unfolding(crate::specs::ExtraCard::extra_card))]
pub fn extra(alloc: Global, line: Line<'_>) -> Result<ExtraCard, Refused>
    requires { length line.bytes.now ≤ MAX_BYTES }
    ensures ok { IfOk result (λ card. extra_card line.entry.number line.entry.bytes.now ≡ Ok card) }
    ensures bad { (bad : Bad) → result ≡ Err (Refused.Bad bad) → extra_card line.entry.number line.entry.bytes.now ≡ Err bad }
    ensures numbers { IfOk result HasExtraNumbers }
{
    if field_text(line.bytes, 9, 10).is_empty() {
        return match formula(alloc, &line) {
            Ok(card) => Ok(ExtraCard::Formula(card)),
            Err(refused) => Err(refused),
        };
    }
    match device(&line) {
        Ok(card) => Ok(ExtraCard::Device(card)),
        Err(bad) => Err(Refused::Bad(bad)),
    }
}
