//! What a measurement task is: its name, kind, rows, key, attribute, filter and size; what its cells hold,
//! and what they answer.
#![tactic(auto)]

mod answers;
mod kinds;
pub mod laws;
mod names;
mod ranks;
mod sizes;
mod tasks;

pub use answers::{Reply, Tally, answer};
pub use kinds::Kind;
pub use names::{NAME_BYTES, Name};
pub use ranks::{raw_estimate, tally_add};
pub use sizes::histogram;
pub use tasks::{Task, TaskFault};
