//! Limits by count.

ghost use Rattle.std.specs.Prelude.{◌≡◌};
ghost use Rattle.emtp_sense.specs.Limits.{too_many};

use emtp_card::{Fault, Why};

/// The fault of a limit by count that is exceeded, at this column.
pub fn too_many(is: bool, column: u32) -> Option<Fault>
    ensures { result ≡ too_many is column }
{
    if is {
        Some(Fault {
            column,
            why: Why::TooMany,
        })
    } else {
        None
    }
}
