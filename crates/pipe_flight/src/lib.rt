//! Packets that stand before different groups of a pipe at once, while its rules change.
#![tactic(auto)]

mod flights;
pub mod laws;
mod passing;
#[cfg(test)]
mod tests;
mod waiting;

pub use flights::Flight;
pub use std::alloc::AllocError as OutOfMemory;
