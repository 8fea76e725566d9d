//! The model of a switch: definitions and what holds of them.
#![tactic(auto)]

pub mod laws;
