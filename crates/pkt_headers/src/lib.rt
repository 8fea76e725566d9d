//! What the switch knows of a packet: the header fields of its frame, and its weights.
#![tactic(auto)]

mod frames;
pub mod laws;
mod networks;
mod packets;
#[cfg(test)]
mod tests;
mod transports;

pub use packets::{Attr, Packet, packet_of, weight};
