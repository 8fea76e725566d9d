//! The packets in flight, one by one.
ghost use Rattle.std.specs.Prelude.{◌≡◌, ◌==◌, map, take};
ghost use Rattle.std.specs.List.{list_any, position};
ghost use Rattle.pipe_flight.specs.Orders.{is_old};
ghost use Rattle.pipe_flight.specs.States.{flying, kept_waiting};

use cmu_stage::Outs;
use pkt_headers::Packet;

/// A packet before a group. One that is kept keeps the old rules.
#[derive(Clone, Copy, Debug, PartialEq, Eq)]
pub(crate) struct Waiting {
    pub(crate) packet: Packet,
    pub(crate) group: u32,
    pub(crate) kept: bool,
    pub(crate) outs: Outs,
}

/// Whether a packet stands before the group.
pub(crate) fn any_at(waiting: &[Waiting], group: u32) -> bool
    ensures { result ≡ list_any (λ one. one.group == group) waiting.now }
{
    waiting.iter().any(|one| one.group == group)
}

/// The place in the order of the packet before the group.
pub(crate) fn place_of(waiting: &[Waiting], group: u32) -> Option<usize>
    ensures { result ≡ position (λ one. one.group == group) waiting.now }
{
    waiting.iter().position(|one| one.group == group)
}

/// Whether the first packet is old.
pub(crate) fn first_old(waiting: &[Waiting]) -> bool
    ensures { result ≡ list_any is_old (take 1 (map flying waiting.now)) }
{
    match waiting.first() {
        Some(one) => one.kept,
        None => false,
    }
}

/// Makes all packets old.
pub(crate) fn keep_all(waiting: &mut [Waiting])
    ensures { waiting.new ≡ map kept_waiting waiting.old }
{
    'all: for one in waiting.iter_mut() {
        one.kept = true;
    }
}
