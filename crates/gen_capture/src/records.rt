//! The bytes of the capture: its header, and a record of 70 bytes for each packet.
ghost use Rattle.std.specs.Prelude.{◌≡◌};
ghost use Rattle.gen_capture.specs.Captures.{record_bytes};

use crate::packets::GenPacket;

/// A capture in little-endian order, with times in microseconds, of Ethernet frames.
pub(crate) const HEADER: [u8; 24] = [
    0xd4, 0xc3, 0xb2, 0xa1, 2, 0, 4, 0, 0, 0, 0, 0, 0, 0, 0, 0, 0, 0, 4, 0, 1, 0, 0, 0,
];

/// The bytes of a record: 16, and the 54 of its frame.
pub(crate) const RECORD_BYTES: usize = 70;

/// The record of a packet, with the time 0.
#[rattlefmt::skip]
pub(crate) fn record_of(packet: GenPacket) -> [u8; RECORD_BYTES]
    ensures { result ≡ record_bytes packet }
{
    let len = packet.len.to_le_bytes();
    let from = packet.source_port.to_be_bytes();
    let to = packet.destination_port.to_be_bytes();
    [
        0, 0, 0, 0, 0, 0, 0, 0, 54, 0, 0, 0, len[0], len[1], len[2], len[3],
        2, 0, 0, 0, 0, 2, 2, 0, 0, 0, 0, 1, 8, 0,
        0x45, 0, 0, 0x28, 0, 0, 0, 0, 64, 6, 0, 0,
        10, 0, 0, packet.source, 192, 168, 1, packet.destination,
        from[0], from[1], to[0], to[1],
        0, 0, 0, 0, 0, 0, 0, 0, 0x50, 0x10, 0, 0, 0, 0, 0, 0,
    ]
}
