//! The operations that a task's rows make on registers, and that what they leave are its cells.
#![tactic(auto)]

pub mod laws;
mod lowering;

pub use lowering::{lower, start_value};
