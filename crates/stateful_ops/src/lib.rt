//! The operations that a packet makes on a register.
#![tactic(auto)]

mod ops;

pub use ops::{Done, Op, apply};
