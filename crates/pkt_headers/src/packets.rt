//! Packets, and what each of them adds to a sketch.
ghost use Rattle.std.specs.Prelude.{◌≡◌, ◌+◌, ◌++◌, length};
ghost use Rattle.pkt_headers.specs.Packets.{packet_in, vector_of, weight_of};

use crate::frames::{TYPE_BYTES, network_offset, type_bytes};
use crate::networks::{Network, network_in};
use crate::transports::{Transport, transport_in};
use key_mask::{KEY_BYTES, KeyVec};

/// What the switch knows of a packet. What its frame does not have is 0.
#[derive(Clone, Copy, Debug, PartialEq, Eq)]
pub struct Packet {
    pub vec: KeyVec,
    /// The length on the wire, in bytes.
    pub len: u32,
    pub ttl: u8,
    /// The flags of TCP.
    pub flags: u8,
}

/// What a sketch counts of a packet.
#[derive(Clone, Copy, Debug, PartialEq, Eq)]
pub enum Attr {
    Packets,
    Bytes,
    Ttl,
    Flags,
    Flow,
}

/// The packet of an Ethernet frame, of which `frame` may be the first bytes alone, and
/// `orig_len` is the length on the wire.
pub fn packet_of(frame: &[u8], orig_len: u32) -> Packet
    ensures { result ≡ packet_in frame.now orig_len }
{
    let at = network_offset(frame);
    let network = network_in(frame, at).unwrap_or(Network::none());
    let transport = transport_in(frame, &network).unwrap_or(Transport::none());
    let kind = type_bytes(frame, at);
    Packet {
        vec: KeyVec(vector(&network, &transport, kind)),
        len: orig_len,
        ttl: network.ttl,
        flags: transport.flags,
    }
}

/// The fields of a key vector, one after another.
fn vector(network: &Network, transport: &Transport, kind: [u8; TYPE_BYTES]) -> [u8; KEY_BYTES]
    ensures { result ≡ vector_of network.now transport.now kind }
{
    let [source_high, source_low, destination_high, destination_low] = transport.ports;
    let [kind_high, kind_low] = kind;
    let between = [
        source_high,
        source_low,
        destination_high,
        destination_low,
        network.protocol,
        network.service,
        kind_high,
        kind_low,
    ];
    let mut first = [0; 16];
    put_both(&mut first, &network.ipv4, &between);
    let mut bytes = [0; KEY_BYTES];
    put_both(&mut bytes, &first, &network.ipv6);
    bytes
}

/// Writes one behind the other.
fn put_both(bytes: &mut [u8], front: &[u8], back: &[u8])
    requires { length front.now + length back.now ≡ length bytes.old }
    ensures { bytes.new ≡ front.now ++ back.now }
{
    bytes[..front.len()].copy_from_slice(front);
    bytes[front.len()..].copy_from_slice(back);
}

/// What the packet weighs in a sketch of this attribute.
pub fn weight(packet: &Packet, attr: Attr) -> u32
    ensures { result ≡ weight_of packet.now attr }
{
    match attr {
        Attr::Packets => 1,
        Attr::Bytes => packet.len,
        Attr::Ttl => u32::from(packet.ttl),
        Attr::Flags => u32::from(packet.flags),
        Attr::Flow => 0,
    }
}
