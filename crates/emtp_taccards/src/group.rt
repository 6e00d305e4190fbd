//! The group and the name of a supplemental card.

ghost use Rattle.std.specs.Prelude.{◌≡◌};
ghost use Rattle.emtp_taccards.specs.Group.{group_field, group_of, head_of};

use emtp_card::{Fault, Why, field_whole, in_column};
use emtp_case::{Group, Name};
use emtp_netcards::{both, needed_name};

/// The group and the name of a card.
#[tactic(auto, unfolding(crate::specs::Group::head_of))]
pub(crate) fn head(line: &[u8]) -> Result<(Group, Name), Fault>
    ensures { result ≡ head_of line.now }
{
    both(
        in_column(1, group_field(line)),
        in_column(3, needed_name(line, 3)),
    )
}

/// The group of a card: 99 before the blocks, 88 or 98 after them.
pub(crate) fn group_field(line: &[u8]) -> Result<Group, Why>
    ensures { result ≡ group_field line.now }
{
    match field_whole(line, 1, 2) {
        Ok(Some(number)) => group_of(number),
        Ok(None) | Err(_) => Err(Why::BadType),
    }
}

fn group_of(number: i64) -> Result<Group, Why>
    ensures { result ≡ group_of number }
{
    match number {
        99 => Ok(Group::Input),
        88 => Ok(Group::Inside),
        98 => Ok(Group::Output),
        _ => Err(Why::BadType),
    }
}
