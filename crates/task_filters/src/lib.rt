//! Filters: which packets a task counts.
#![tactic(auto)]

mod filters;
pub mod laws;
mod terms;

pub use filters::Filter;
