//! The way of a packet through the groups of a switch: on each array the call of the entry that
//! takes it. The rules that packets meet are changed here, and copied.
#![tactic(auto)]

pub mod laws;
mod making;
mod pipe;
#[cfg(test)]
mod tests;

pub use pipe::Pipe;
pub use std::alloc::AllocError as OutOfMemory;
