//! Regions of registers, the address that a hash has in one, and the shape of the switch whose
//! arrays they stand in.
#![tactic(auto)]

mod regions;
mod shapes;

pub use regions::{Region, address, index};
pub use shapes::{GroupShape, MOST_GROUPS, Shape};
