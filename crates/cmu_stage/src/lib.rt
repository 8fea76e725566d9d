//! One packet on one array: the keys that its group makes of it, and the call of the entry that
//! takes it.
#![tactic(auto)]

mod keys;
mod operations;
mod passing;
mod standing;
#[cfg(test)]
mod tests;

pub use keys::{Keys, compress};
pub use passing::{Outs, pass};
pub use standing::may_stand;
