//! Tasks that are added, resized, removed and released while packets pass.
#![tactic(auto)]

mod faults;
mod fills;
pub mod laws;
mod making;
mod rows;
mod seats;
mod stage;
mod switch;

pub use faults::{AddFault, ReleaseFault, ResizeFault, StartFail, Unknown};
pub use laws::{add_restored, change_stands, one_call_an_array};
pub use switch::Switch;
