//! A region is an aligned run of registers, a power of two of them.
ghost use Rattle.std.specs.Prelude.{◌≡◌, ◌+◌, ◌^◌, ◌<◌, ◌≤◌};
ghost use Rattle.addr_translate.specs.Blocks.{index_of, IsAligned};

use std::marker::Model;

/// `2^bits` registers of an array, from `base` on.
#[derive(Clone, Copy, Debug, PartialEq, Eq)]
pub struct Region {
    pub base: u32,
    pub bits: u32,
}

impl Model for Region {
    ghost use Rattle.addr_translate.specs.Blocks.{Block, IsAligned};

    ghost Value = { Block };

    ghost view = { λ r. record { base = r.base; bits = r.bits } };

    ghost invariant = { λ r. IsAligned r.base r.bits };

    ghost inverse = { λ block. record { base = block.base; bits = block.bits } };
}

/// The top `bits` bits of a hash, 0 for no bits.
#[tactic(auto, using(crate::proofs::BlockLemmas::index_lt))]
pub fn index(h: u32, bits: u32) -> u32
    requires { bits ≤ 20 }
    ensures value { result ≡ index_of h bits }
    ensures below { result < 2 ^ bits }
{
    // 64 bits, since all 32 are shifted out for no bits
    (u64::from(h) >> (32 - bits)) as u32
}

/// The register of the region that a hash stands for.
#[tactic(auto, using(crate::proofs::BlockLemmas::aligned_fits))]
pub fn address(region: Region, h: u32) -> u32
    ensures place { result ≡ region.base + index_of h region.bits }
    ensures from_base { region.base ≤ result }
    ensures below_end { result < region.base + 2 ^ region.bits }
    ensures kept { IsAligned region.base region.bits }
{
    region.base + index(h, region.bits)
}

#[cfg(test)]
mod tests {
    use super::*;

    // the hashes of 10.0.0.1 and 10.128.0.1 in the two halves of an array of 32 registers
    #[test]
    fn halves_of_an_array(rt: HostRuntime) {
        let low = Region { base: 0, bits: 4 };
        let high = Region { base: 16, bits: 4 };
        assert_eq!(rt; address(low, 0x919d_5c4a), 9);
        assert_eq!(rt; address(high, 0xcbcb_866f), 28);
        assert_eq!(rt; index(0xcbcb_866f, 0), 0);
    }
}
