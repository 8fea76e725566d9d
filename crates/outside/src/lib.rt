//! What is said of every object of the outside: a file, a sink, a register file.
//!
//! Definitions, with their lemmas in proofs/: when a count of faults rose, what is told after a call
//! and stays, grows or moves, and what of a text was sent so far. Code has only what objects in
//! memory share: the numbers of the calls that fail.
#![tactic(auto)]

mod fault_schedule;

pub use fault_schedule::FaultSchedule;
