//! The blocks of the control: transfer functions with limited outputs, which are solved together in each step.
//!
//! A block's polynomials in s are taken through the bilinear rule, so over a step the block is one row: its output, less
//! its gain times the inputs that are outputs of blocks, is what the other inputs and the past bring (EMTP Theory Book in
//! outline; units and roundings are this project's own). A block at a limit has the row of that limit. The crate stands on
//! `emtp_fix`, `emtp_elim` and `emtp_case`; the control's step stands on it.
//!
//! ```text
//! let mut blocks = BlockRows::open(alloc, &case)?;
//! blocks.history(&known, &mut rhs);        // the right sides of the step
//! eliminate_plain(alloc, &blocks, &rhs, &mut x)?;
//! blocks.accept(&known, &mut x)?;          // moves the limiters and chains; x has the recorded outputs
//! ```
#![tactic(auto)]

mod accepting;
mod block_rows;
mod diagram;
mod inputs;
mod law;
mod laws;
mod limits;
mod moving;
mod next;
mod right;
mod scaling;

pub use block_rows::{BlockRange, BlockRows};
pub use laws::{
    first_order_is_trapezoidal, leaves_its_limit, limit_is_recorded, rows_are_the_matrix,
};
