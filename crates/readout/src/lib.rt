//! What a switch tells of its tasks, as lines.
#![tactic(auto)]

mod card;
mod cells;
mod dist;
mod faults;
mod judging;
mod lines;
mod pieces;
mod places;
mod query;
mod readout;
mod refusals;
mod requests;
mod show;
mod stat;
#[cfg(test)]
mod tests;
mod views;

pub use faults::ReadFault;
pub use readout::Readout;
pub use refusals::{Refusal, Stop, refused_line};
pub use requests::Ask;
pub use std::alloc::AllocError as OutOfMemory;
pub use views::{Placed, Side, TaskView};
