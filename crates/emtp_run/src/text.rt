//! Short texts that take no memory.

use arrayvec::ArrayVec;
pub use emtp_comtrade::{push, push_number};

/// A note, a summary or a few cards.
pub type Text = ArrayVec<u8, TEXT_ROOM>;

/// The most bytes of a text: a line of words and numbers, or four cards.
pub const TEXT_ROOM: usize = 400;
