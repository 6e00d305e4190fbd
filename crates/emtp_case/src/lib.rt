//! The records of a case: what the cards of a network and its control say, in whole numbers.
//!
//! A [`Case`] is its records, `case.parts`, and the fact that they fit each other: each number is in its range, each
//! place exists, each limit is kept. It stands on `emtp_fix` alone, and every crate that reads cards or steps a
//! network stands on it. A reader fills a [`Draft`] card by card; `CALLING.md` says how a fact is cited.
//!
//! ```text
//! let mut draft = Draft::new(alloc, run)?;
//! draft.add_node(Name::new(b"SRC"))?;
//! draft.add_lumped(branch)?;
//! let case = draft.finish_network();
//! ```
#![tactic(auto)]

mod branch;
mod case;
mod channel;
mod channel_name;
mod coefficients;
mod control;
mod draft;
mod end_names;
mod expr;
mod history_values;
mod impedance;
mod items;
mod laws;
mod limit;
mod name;
mod row_kind;
mod row_order;
mod run_data;
mod source;
mod switch;

pub use branch::{
    Branch, Line, LineState, Lumped, LumpedState, Phase, PhaseState, Point, Pseudo, PseudoState,
    Trio,
};
pub use case::{Case, Parts};
pub use channel::Channel;
pub use coefficients::{bilinear, bilinear_step, coefficient_divisor, coefficient_quotient};
pub use control::{
    Block, BlockState, Bound, Device, DeviceCode, DeviceState, Extra, Formula, Group, Input,
    Limiter,
};
pub use draft::Draft;
pub use end_names::{branch_name, switch_name};
pub use expr::{BinaryOp, MOST_VALUES, Node, UnaryOp};
pub use history_values::line_history_values;
pub use impedance::{
    capacitor_impedance, inductor_impedance, line_impedance, series_impedance, slope,
};
pub use items::Items;
pub use laws::{
    defined_in_turn, one_back, one_more_in_table, one_more_pair, one_more_point, two_modes,
};
pub use limit::{
    LARGEST_TIME_STEP, LEAST_TIME_STEP, MOST_BRANCHES, MOST_CHANNELS, MOST_CONTROL_CARDS,
    MOST_HISTORY_VALUES, MOST_NODES, MOST_POINTS, MOST_SOURCES, MOST_STEPS, MOST_STORED_VALUES,
    MOST_SWITCHES, MOST_VARIABLES,
};
pub use name::Name;
pub use row_kind::RowKind;
pub use row_order::{RowOrder, order};
pub use run_data::RunData;
pub use source::{Shape, Source};
pub use switch::{Switch, SwitchKind, SwitchState, Times};
