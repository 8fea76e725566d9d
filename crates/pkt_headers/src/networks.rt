//! The headers of the network layer: IPv4 and IPv6.
ghost use Rattle.std.specs.Prelude.{◌≡◌, ◌+◌, ◌*◌, ◌<◌, ◌≤◌, IfSome, length, if◌then◌else◌, Some, None};
ghost use Rattle.pkt_headers.specs.Frames.{type_before};
ghost use Rattle.pkt_headers.specs.Networks.{network_in, has_ipv4, has_ipv6, ipv4_header, ipv6_header, no_network};

use crate::frames::{TYPE_BYTES, bytes_at, word};
use std::marker::Model;

// ---- types of Ethernet

const IPV4: u16 = 0x0800;

const IPV6: u16 = 0x86dd;

// ---- IPv4, whose header may have options

const IPV4_BYTES: usize = 20;

const IPV4_SERVICE: usize = 1;

const IPV4_FRAGMENT: usize = 6;

const IPV4_TTL: usize = 8;

const IPV4_PROTOCOL: usize = 9;

const IPV4_ADDRESSES: usize = 12;

// ---- IPv6

const IPV6_BYTES: usize = 40;

const IPV6_PROTOCOL: usize = 6;

const IPV6_TTL: usize = 7;

const IPV6_ADDRESSES: usize = 8;

/// What stands for the addresses of the other version.
const NO_IPV4: [u8; 8] = [0; 8];

const NO_IPV6: [u8; 32] = [0; 32];

/// What the header says: the addresses of its version, source first, with zeros for those of the
/// other version; where the payload begins, and whether with a header of the transport layer.
#[derive(Drop)]
pub(crate) struct Network {
    pub ipv4: [u8; 8],
    pub ipv6: [u8; 32],
    pub protocol: u8,
    pub service: u8,
    pub ttl: u8,
    pub payload: usize,
    pub first: bool,
}

impl Model for Network {
    ghost use Rattle.pkt_headers.specs.Networks.{NetworkHeader};

    ghost Value = { NetworkHeader };

    ghost view = { λ n. record { ipv4 = n.ipv4; ipv6 = n.ipv6; protocol = n.protocol; service = n.service; ttl = n.ttl; payload = n.payload; first = n.first } };
}

impl Network {
    /// What there is without a header.
    pub fn none() -> Network
        ensures { result ≡ no_network }
    {
        Network {
            ipv4: NO_IPV4,
            ipv6: NO_IPV6,
            protocol: 0,
            service: 0,
            ttl: 0,
            payload: 0,
            first: false,
        }
    }
}

/// The header at this offset.
#[tactic(auto, using(std::proofs::lemmas::Bool::Decides::nat_tests), unfolding(crate::specs::Networks::network_in, crate::specs::Networks::has_ipv4, crate::specs::Networks::has_ipv6))]
pub(crate) fn network_in(frame: &[u8], at: usize) -> Option<Network>
    requires low { 14 ≤ at }
    requires high { at ≤ 22 }
    ensures value { result ≡ network_in frame.now at }
    ensures inside { IfSome result (λ network. network.payload ≤ length frame.now) }
{
    if frame.len() < at {
        return None;
    }
    match word(frame, at - TYPE_BYTES) {
        IPV4 => ipv4_in(frame, at),
        IPV6 => ipv6_in(frame, at),
        _ => None,
    }
}

#[tactic(auto, using(std::proofs::lemmas::Bool::Decides::nat_tests), unfolding(crate::specs::Networks::has_ipv4))]
fn ipv4_in(frame: &[u8], at: usize) -> Option<Network>
    requires kind { type_before frame.now at ≡ 0x0800 }
    requires high { at ≤ 22 }
    ensures value { result ≡ (if has_ipv4 frame.now at then Some (ipv4_header frame.now at) else None) }
    ensures inside { IfSome result (λ network. network.payload ≤ length frame.now) }
{
    if frame.len() < at + IPV4_BYTES || frame[at] / 16 != 4 {
        return None;
    }
    let size = 4 * usize::from(frame[at] % 16);
    if size < IPV4_BYTES || frame.len() < at + size {
        return None;
    }
    Some(Network {
        ipv4: bytes_at(frame, at + IPV4_ADDRESSES),
        ipv6: NO_IPV6,
        protocol: frame[at + IPV4_PROTOCOL],
        service: frame[at + IPV4_SERVICE],
        ttl: frame[at + IPV4_TTL],
        payload: at + size,
        // the low 13 bits are the fragment's offset
        first: word(frame, at + IPV4_FRAGMENT) % 0x2000 == 0,
    })
}

#[tactic(auto, using(std::proofs::lemmas::Bool::Decides::nat_tests), unfolding(crate::specs::Networks::has_ipv6))]
fn ipv6_in(frame: &[u8], at: usize) -> Option<Network>
    requires kind { type_before frame.now at ≡ 0x86dd }
    requires high { at ≤ 22 }
    ensures value { result ≡ (if has_ipv6 frame.now at then Some (ipv6_header frame.now at) else None) }
    ensures inside { IfSome result (λ network. network.payload ≤ length frame.now) }
{
    if frame.len() < at + IPV6_BYTES || frame[at] / 16 != 6 {
        return None;
    }
    Some(Network {
        ipv4: NO_IPV4,
        ipv6: bytes_at(frame, at + IPV6_ADDRESSES),
        protocol: frame[at + IPV6_PROTOCOL],
        // the eight bits between the version and the flow label
        service: 16 * (frame[at] % 16) + frame[at + 1] / 16,
        ttl: frame[at + IPV6_TTL],
        payload: at + IPV6_BYTES,
        first: true,
    })
}
