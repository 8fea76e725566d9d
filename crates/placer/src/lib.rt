//! Where the rows of a task go on a switch.
#![tactic(auto)]

pub mod laws;
mod places;
mod planning;
mod resizing;
mod sizes;

pub use places::{NoRoom, Place, Placement, Refusal};
pub use planning::plan;
pub use resizing::plan_resize;
pub use sizes::size_bits;
