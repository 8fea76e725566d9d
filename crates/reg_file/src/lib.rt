//! The register arrays of a switch: in memory, and in memory with a list of the calls made.
#![tactic(auto)]

mod call_log;
mod ram;
#[cfg(test)]
mod tests;
mod trace;
mod traits;
mod words;

pub use ram::RamFile;
pub use std::alloc::AllocError as OutOfMemory;
pub use trace::TraceFile;
pub use traits::{
    Call, DeviceFault, LEAST_BITS, MOST_ARRAYS, MOST_BITS, RegFile, ShapeFail, is_shape,
};
