//! Profiles: the shape of a switch and the key of its hash, read from TOML.
#![tactic(auto)]

mod faults;
mod groups;
pub mod laws;
mod profiles;
mod reading;
#[cfg(test)]
mod tests;

pub use faults::{ProfileFail, ProfileFault, ProfileKey};
pub use profiles::{Profile, default_profile};
pub use reading::read_profile;
