//! The hash units of one group of a switch: which are in use, with which mask, and for how many
//! rows.
#![tactic(auto)]

mod finds;
mod groups;
pub mod laws;
mod units;
mod uses;

pub use groups::{GroupKeys, MOST_UNITS};
pub use units::MOST_USES;
pub use uses::KeyUse;
