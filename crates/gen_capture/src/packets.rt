//! The generator: a state gives the next one, and a packet by its high half.
ghost use Rattle.std.specs.Prelude.{◌≡◌};
ghost use Rattle.gen_capture.specs.Packets.{step, server_port, packet_of};

/// A TCP packet from the host 10.0.0.`source` to the host 192.168.1.`destination`.
#[derive(Clone, Copy)]
pub(crate) struct GenPacket {
    pub source: u8,
    pub source_port: u16,
    pub destination: u8,
    pub destination_port: u16,
    // The number of bytes that the record tells, of which the frame has the first 54.
    pub len: u32,
}

// The constants of Knuth's MMIX, for a linear congruential generator of 64 bits.
const MULTIPLIER: u64 = 6364136223846793005;

const INCREMENT: u64 = 1442695040888963407;

/// The state behind this one.
pub(crate) fn step(state: u64) -> u64
    ensures { result ≡ step state }
{
    MULTIPLIER.wrapping_mul(state).wrapping_add(INCREMENT)
}

/// The port that a packet goes to: that of HTTP, or of HTTPS.
fn server_port(high: u64) -> u16
    ensures { result ≡ server_port high }
{
    if high % 2 == 0 { 80 } else { 443 }
}

/// The packet of a state.
pub(crate) fn packet_of(state: u64) -> GenPacket
    ensures { result ≡ packet_of state }
{
    let high = state >> 32;
    GenPacket {
        source: (high >> 24) as u8,
        source_port: 1024 + (high >> 8 & 0xff) as u16,
        destination: (high >> 16 & 0xff) as u8,
        destination_port: server_port(high),
        len: 60 + (high & 0x3ff) as u32,
    }
}
