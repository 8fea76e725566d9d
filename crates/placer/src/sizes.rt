//! The sizes that rows may have.
ghost use Rattle.std.specs.Prelude.{◌≡◌, ◌-◌, ◌≤◌, ◌<◌, ◌==◌, ◌&&◌, ◌^◌, IfSome, fold, map, min};
ghost use Rattle.std.specs.List.{find, range_with_len};
ghost use Rattle.placer.specs.Sights.{bits_for, least_cells, may_have, smallest_bits};

use addr_translate::{GroupShape, Shape};
use sketch_defs::Kind;

/// An array has at most 2 to this many registers.
const MOST_BITS: u32 = 20;

/// The bits of a size that rows of this kind may have, 0 to 20; none where they may not have it: it
/// is no power of two, or smaller than each partition of the switch, or greater than each, or under
/// 16 for HyperLogLog.
#[tactic(auto, unfolding(crate::specs::Sights::bits_for))]
pub fn size_bits(shape: Shape, kind: Kind, size: u32) -> Option<u32>
    ensures bits { result ≡ bits_for shape kind size }
    ensures few { IfSome result (λ bits. bits ≤ 20) }
{
    bits_below(&shape, kind, size, MOST_BITS + 1)
}

/// The first of so many numbers that are the bits of the size.
fn bits_below(shape: &Shape, kind: Kind, size: u32, count: u32) -> Option<u32>
    requires { count ≤ 21 }
    ensures bits { result ≡ find (λ bits. may_have shape.now kind bits && 2 ^ bits == size) (range_with_len 0 count) }
    ensures few { IfSome result (λ bits. bits < count) }
{
    (0..count).find(|bits| is_size(shape, kind, *bits, size))
}

/// Whether rows of the kind may have this size, and it has these bits.
fn is_size(shape: &Shape, kind: Kind, bits: u32, size: u32) -> bool
    requires { bits ≤ 20 }
    ensures { result ≡ (may_have shape.now kind bits && 2 ^ bits == size) }
{
    may_have(shape, kind, bits) && 1 << bits == size
}

/// Whether rows of the kind may have `2^bits` cells.
fn may_have(shape: &Shape, kind: Kind, bits: u32) -> bool
    ensures { result ≡ may_have shape.now kind bits }
{
    smallest_bits(shape) <= bits && bits <= shape.greatest_bits() && least_cells(kind) <= bits
}

/// The bits of the fewest cells that a row of the kind has.
fn least_cells(kind: Kind) -> u32
    ensures { result ≡ least_cells kind }
{
    match kind {
        Kind::Hll => 4,
        _ => 0,
    }
}

/// The bits of the smallest partition of all arrays.
fn smallest_bits(shape: &Shape) -> u32
    ensures { result ≡ smallest_bits shape.now }
{
    least_bits_in(groups_of(shape), shape.split())
}

/// The groups of a switch, in order.
fn groups_of(shape: &Shape) -> &[GroupShape]
    ensures { result.now ≡ shape.now.groups }
{
    &shape.groups[..shape.count as usize]
}

/// The bits of the smallest partition of these groups.
fn least_bits_in(groups: &[GroupShape], split: u32) -> u32
    ensures { result ≡ fold min 20 (map (λ g. g.bits - split) groups.now) }
{
    groups
        .iter()
        .map(|group| group.bits.saturating_sub(split))
        .fold(20, u32::min)
}

#[cfg(test)]
mod tests {
    use super::{least_bits_in, size_bits};
    use addr_translate::{GroupShape, Shape};
    use sketch_defs::Kind;

    const SMALL: GroupShape = GroupShape {
        cmus: 1,
        units: 1,
        bits: 5,
    };

    const LARGER: GroupShape = GroupShape {
        cmus: 1,
        units: 1,
        bits: 6,
    };

    const LARGEST: GroupShape = GroupShape {
        cmus: 1,
        units: 1,
        bits: 20,
    };

    #[test]
    fn sizes_of_two_shapes(rt: HostRuntime) {
        let two = Shape::of(&[SMALL, LARGER], 5);
        let fine = Shape::equal(1, LARGEST, 10);
        let rows = [
            (two, Kind::Cms, 1, Some(0)),
            (two, Kind::Cms, 64, Some(6)),
            (two, Kind::Cms, 128, None),
            (two, Kind::Cms, 3, None),
            (two, Kind::Cms, 0, None),
            (two, Kind::Hll, 8, None),
            (two, Kind::Hll, 16, Some(4)),
            (fine, Kind::Cms, 512, None),
            (fine, Kind::Cms, 1024, Some(10)),
            (fine, Kind::Cms, 1_048_576, Some(20)),
        ];
        for (shape, kind, size, told) in rows {
            assert_eq!(rt; size_bits(shape, kind, size), told);
        }
        assert_eq!(rt; least_bits_in(&[LARGEST, LARGER], 10), 0);
    }
}
