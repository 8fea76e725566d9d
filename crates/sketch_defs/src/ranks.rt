//! The tally of a HyperLogLog row, and the estimate that rests on it.
ghost use Rattle.std.specs.Prelude.{◌≡◌, ◌+◌, ◌^◌, ◌<◌, ◌≤◌};
ghost use Rattle.sketch_defs.specs.Answers.{zero_share, rank_share, alpha, raw_of};

use crate::answers::Tally;

/// The tally with one more cell; a cell above 33 counts as 33.
pub fn tally_add(tally: Tally, cell: u32) -> Tally
    requires zeros { tally.zeros + zero_share cell < 2 ^ 32 }
    requires z { tally.z + rank_share cell < 2 ^ 128 }
    ensures zeros { result.zeros ≡ tally.zeros + zero_share cell }
    ensures z { result.z ≡ tally.z + rank_share cell }
{
    Tally {
        zeros: tally.zeros + zero_share(cell),
        z: tally.z + rank_share(cell),
    }
}

fn zero_share(cell: u32) -> u32
    ensures { result ≡ zero_share cell }
{
    u32::from(cell == 0)
}

fn rank_share(cell: u32) -> u128
    ensures { result ≡ rank_share cell }
{
    1u128 << 33u32.saturating_sub(cell)
}

/// HyperLogLog's raw estimate for 2^`bits` cells, rounded down, where `z` is the sum of
/// 2^(33 - cell).
#[tactic(auto, unfolding(crate::specs::Answers::raw_of))]
pub fn raw_estimate(bits: u32, z: u128) -> u128
    requires some { 4 ≤ bits }
    requires few { bits ≤ 20 }
    requires low { 2 ^ bits ≤ z }
    requires high { z ≤ 2 ^ (33 + bits) }
    ensures { result ≡ raw_of bits z }
{
    let square = 1u128 << (2 * bits + 33);
    let (over, under) = alpha(bits);
    let dividend = over * square;
    dividend / (under * z)
}

/// HyperLogLog's constant for 2^`bits` cells, as a fraction.
#[tactic(auto, unfolding(crate::specs::Answers::alpha))]
fn alpha(bits: u32) -> (u128, u128)
    requires { bits ≤ 20 }
    ensures over { result.0 ≡ (alpha bits).0 }
    ensures under { result.1 ≡ (alpha bits).1 }
    ensures some { 1 ≤ result.1 }
    ensures small_over { result.0 < 2 ^ 33 }
    ensures small_under { result.1 < 2 ^ 34 }
{
    match bits {
        4 => (673, 1000),
        5 => (697, 1000),
        6 => (709, 1000),
        _ => {
            let cells = 1u128 << bits;
            (7213 * cells, 10 * (1000 * cells + 1079))
        }
    }
}

#[cfg(test)]
mod tests {
    use super::{Tally, raw_estimate, tally_add};

    #[test]
    fn cells_are_tallied(rt: HostRuntime) {
        // the last of 16 cells, all 0, and the last of 64, of which one holds 2
        let all_zero = Tally {
            zeros: 15,
            z: 128_849_018_880,
        };
        let none_left = Tally {
            zeros: 16,
            z: 137_438_953_472,
        };
        assert_eq!(rt; tally_add(all_zero, 0), none_left);
        let one_left = Tally {
            zeros: 63,
            z: 541_165_879_296,
        };
        let one_more = Tally {
            zeros: 63,
            z: 543_313_362_944,
        };
        assert_eq!(rt; tally_add(one_left, 2), one_more);
    }

    #[test]
    fn cells_above_33_count_as_33(rt: HostRuntime) {
        let none = Tally { zeros: 0, z: 0 };
        let one = Tally { zeros: 0, z: 1 };
        for cell in [33, 34, u32::MAX] {
            assert_eq!(rt; tally_add(none, cell), one);
        }
    }

    #[test]
    fn raw_estimates(rt: HostRuntime) {
        assert_eq!(rt; raw_estimate(4, 137_438_953_472), 10);
        assert_eq!(rt; raw_estimate(5, 274_877_906_944), 22);
        assert_eq!(rt; raw_estimate(6, 543_313_362_944), 45);
    }
}
