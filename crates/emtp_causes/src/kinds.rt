//! The names of kinds of lines.

ghost use Rattle.std.specs.Prelude.{◌≡◌};
ghost use Rattle.emtp_causes.specs.Kinds.{kind_name};

use crate::texts::{
    BEGIN_CARD, BLOCK_CARD, BRANCH_CARD, CARD_BEHIND, COEFFICIENT_CARD, COMMENT_LINE,
    FIRST_RUN_CARD, HYBRID_CARD, INITIAL_CARD, OUTPUT_CARD, POINT_CARD, SECOND_RUN_CARD,
    SECTION_END, SOURCE_CARD, SUPPLEMENTAL_CARD, SWITCH_CARD, TACS_OUTPUT_CARD, TACS_SOURCE_CARD,
    TOLERANCE_CARD, VINTAGE_CARD,
};
use emtp_walk::Kind;

/// The words for a kind of line.
pub fn kind_name(kind: Kind) -> &'static [u8]
    ensures { result.now ≡ kind_name kind }
{
    match kind {
        Kind::Comment => COMMENT_LINE,
        Kind::SectionEnd => SECTION_END,
        Kind::Begin => BEGIN_CARD,
        Kind::Tolerance => TOLERANCE_CARD,
        Kind::FirstRun => FIRST_RUN_CARD,
        Kind::SecondRun => SECOND_RUN_CARD,
        Kind::Hybrid => HYBRID_CARD,
        Kind::Block => BLOCK_CARD,
        Kind::Coefficients(_) => COEFFICIENT_CARD,
        Kind::TacsSource => TACS_SOURCE_CARD,
        Kind::Extra => SUPPLEMENTAL_CARD,
        Kind::TacsOutput => TACS_OUTPUT_CARD,
        Kind::Initial => INITIAL_CARD,
        Kind::Vintage => VINTAGE_CARD,
        Kind::Branch(_) => BRANCH_CARD,
        Kind::Point(_) => POINT_CARD,
        Kind::Switch => SWITCH_CARD,
        Kind::Source => SOURCE_CARD,
        Kind::Output => OUTPUT_CARD,
        Kind::After => CARD_BEHIND,
    }
}
