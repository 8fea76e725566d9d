//! What a row of a task is to the switch: an entry with the packets that it takes, the units of
//! its key, its registers, and the operation that it makes on one of them; and the table of the
//! entries of an array.
#![tactic(auto)]

mod entries;
mod finds;
mod operations;
mod ranks;
mod tables;

pub use entries::Entry;
pub use operations::{Code, First, Micro, Second};
pub use std::alloc::AllocError as OutOfMemory;
pub use tables::Table;
