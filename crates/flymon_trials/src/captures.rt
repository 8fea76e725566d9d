//! Captures of small TCP packets.
use std::alloc::{AllocError, Global};

/// The header of a little-endian capture in microseconds, of Ethernet frames.
const HEADER: &[u8; 24] =
    b"\xd4\xc3\xb2\xa1\x02\x00\x04\x00\x00\x00\x00\x00\x00\x00\x00\x00\x00\x00\x04\x00\x01\x00\x00\x00";

/// A record's times and its two lengths, 54 both.
const RECORD: &[u8; 16] = b"\x00\x00\x00\x00\x00\x00\x00\x00\x36\x00\x00\x00\x36\x00\x00\x00";

/// The same in big-endian order and nanoseconds.
const BIG_HEADER: &[u8; 24] =
    b"\xa1\xb2\x3c\x4d\x00\x02\x00\x04\x00\x00\x00\x00\x00\x00\x00\x00\x00\x04\x00\x00\x00\x00\x00\x01";

const BIG_RECORD: &[u8; 16] = b"\x00\x00\x00\x00\x00\x00\x00\x00\x00\x00\x00\x36\x00\x00\x00\x36";

/// The Ethernet header of an IPv4 frame.
const ETHERNET: &[u8; 14] = b"\x02\x00\x00\x00\x00\x02\x02\x00\x00\x00\x00\x01\x08\x00";

/// An IPv4 header to the first byte of its source address, 10.x.y.z.
const TO_SOURCE: &[u8; 13] = b"\x45\x00\x00\x28\x00\x00\x00\x00\x40\x06\x00\x00\x0a";

/// The destination 192.168.1.1, and a TCP header from port 1024 to port 80 as far as its flags.
const TO_FLAGS: &[u8; 17] = b"\xc0\xa8\x01\x01\x04\x00\x00\x50\x00\x00\x00\x00\x00\x00\x00\x00\x50";

/// The rest of the TCP header.
const FROM_FLAGS: &[u8; 6] = b"\x00\x00\x00\x00\x00\x00";

/// The flags of a SYN.
const SYN: u8 = 2;

/// A TCP packet to 192.168.1.1, with its length on the wire. 54 bytes of it are captured.
#[derive(Clone, Copy, Debug)]
pub struct Sent {
    /// The low 24 bits of its source address, 10.x.y.z.
    pub source: u32,
    pub flags: u8,
    pub length: u32,
}

/// A SYN from 10.0.0.1.
pub const FIRST: Sent = Sent {
    source: 1,
    flags: SYN,
    length: 54,
};

/// A SYN from 10.0.0.2.
pub const SECOND: Sent = Sent {
    source: 2,
    flags: SYN,
    length: 54,
};

/// A SYN from 10.0.0.3.
pub const THIRD: Sent = Sent {
    source: 3,
    flags: SYN,
    length: 54,
};

/// A capture of one packet from 10.0.0.x for each x of `sources`, 70 bytes a record.
pub fn capture_of(alloc: Global, sources: &[u32]) -> Result<Vec<u8>, AllocError> {
    capture_with(alloc, HEADER, RECORD, sources)
}

/// The same capture in big-endian order and nanoseconds.
pub fn big_capture_of(alloc: Global, sources: &[u32]) -> Result<Vec<u8>, AllocError> {
    capture_with(alloc, BIG_HEADER, BIG_RECORD, sources)
}

/// A little-endian capture of these packets.
pub fn capture_of_packets(alloc: Global, packets: &[Sent]) -> Result<Vec<u8>, AllocError> {
    let mut bytes = Vec::from_slice(alloc, HEADER)?;
    'packets: for packet in packets {
        bytes.extend_from_slice(&RECORD[..12])?;
        bytes.extend_from_slice(&packet.length.to_le_bytes())?;
        push_frame(&mut bytes, packet.source, packet.flags)?;
    }
    Ok(bytes)
}

fn capture_with(
    alloc: Global,
    header: &[u8],
    record: &[u8],
    sources: &[u32],
) -> Result<Vec<u8>, AllocError> {
    let mut bytes = Vec::from_slice(alloc, header)?;
    'packets: for source in sources {
        bytes.extend_from_slice(record)?;
        push_frame(&mut bytes, *source, SYN)?;
    }
    Ok(bytes)
}

/// Appends the frame of a packet from 10.x.y.z, `source` being the number of x, y and z.
fn push_frame(bytes: &mut Vec<u8>, source: u32, flags: u8) -> Result<(), AllocError> {
    bytes.extend_from_slice(ETHERNET)?;
    bytes.extend_from_slice(TO_SOURCE)?;
    bytes.extend_from_slice(&source.to_be_bytes()[1..])?;
    bytes.extend_from_slice(TO_FLAGS)?;
    bytes.push(flags)?;
    bytes.extend_from_slice(FROM_FLAGS)
}
