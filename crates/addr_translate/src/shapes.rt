//! The shape of a switch: its groups, and the arrays of registers that stand in them.
ghost use Rattle.std.specs.Prelude.{◌≡◌, ◌+◌, ◌-◌, ◌<◌, ◌≤◌, length, max, map, fold, sum_by, take, slice_index_or, All};
ghost use Rattle.addr_translate.specs.Geometry.{Geometry, IsGeometry, IsGroup, no_group, equal_geometry, group_in, array_count, arrays_before, groups_ended, group_number, cmu_number, bits_of, greatest_bits, least_bits_of};

use std::marker::Model;

/// The most groups of a switch.
pub const MOST_GROUPS: usize = 12;

/// One group: 1 to 4 CMUs, each with one array of `2^bits` registers, 5 to 20 bits, and 1 to 4
/// key units.
#[derive(Clone, Copy, Debug, PartialEq, Eq)]
pub struct GroupShape {
    pub cmus: u32,
    pub units: u32,
    pub bits: u32,
}

impl GroupShape {
    /// What stands in a [`Shape`] behind its last group.
    pub const UNUSED: GroupShape = GroupShape {
        cmus: 1,
        units: 1,
        bits: 5,
    };
}

/// The first `count` of the groups, 1 to 12, with [`GroupShape::UNUSED`] behind them. Arrays are
/// numbered through the groups in order, and each has at most `2^split` partitions, 5 to 10.
#[derive(Clone, Copy, Debug, PartialEq, Eq)]
pub struct Shape {
    pub count: u32,
    pub groups: [GroupShape; MOST_GROUPS],
    pub split: u32,
}

impl Model for Shape {
    ghost use Rattle.std.specs.Prelude.{◌≡◌, ◌-◌, ◌++◌, length, take, replicate};
    ghost use Rattle.addr_translate.specs.Geometry.{Geometry, IsGeometry, IsPadded, padded_groups};

    ghost Value = { Geometry };

    ghost view = { λ s. record { groups = take s.count s.groups; split = s.split } };

    ghost invariant = { λ s. IsPadded s.count s.groups × IsGeometry (record { groups = take s.count s.groups; split = s.split }) };

    ghost inverse = { λ geometry. record {
      count = length geometry.groups;
      groups = padded_groups geometry.groups;
      split = geometry.split;
    } };

    ghost use Rattle.std.proofs.Common.{ap₂, sym};

    ghost inverse_ok = { λ a h. ap₂ (λ count groups. record { count = count; groups = groups; split = a.split }) (sym h.0.counted) (sym h.0.padded) };
}

impl Shape {
    /// These groups, in this order.
    pub fn of(groups: &[GroupShape], split: u32) -> Shape
        requires some_groups { 1 ≤ length groups.now }
        requires few_groups { length groups.now ≤ 12 }
        requires each { All IsGroup groups.now }
        requires least_split { 5 ≤ split }
        requires most_split { split ≤ 10 }
        ensures { result ≡ record { groups = groups.now; split = split } }
    {
        let mut places = [GroupShape::UNUSED; MOST_GROUPS];
        places[..groups.len()].copy_from_slice(groups);
        Shape {
            count: groups.len() as u32,
            groups: places,
            split,
        }
    }

    /// So many equal groups.
    pub fn equal(count: u32, group: GroupShape, split: u32) -> Shape
        requires some_groups { 1 ≤ count }
        requires few_groups { count ≤ 12 }
        requires group { IsGroup group }
        requires least_split { 5 ≤ split }
        requires most_split { split ≤ 10 }
        ensures { result ≡ equal_geometry count group split }
    {
        Shape::of(&[group; MOST_GROUPS][..count as usize], split)
    }

    /// The groups in order.
    #[tactic(auto, using(crate::proofs::GeometryLemmas::some_arrays, crate::proofs::GeometryLemmas::few_arrays))]
    fn in_use(&self) -> &[GroupShape]
        ensures groups { result.now ≡ self.now.groups }
        ensures limits { IsGeometry self.now }
        ensures some { 1 ≤ array_count self.now }
        ensures few { array_count self.now ≤ 48 }
    {
        &self.groups[..self.count as usize]
    }

    /// The number of groups, 1 to 12.
    pub fn group_count(&self) -> u32
        ensures value { result ≡ length self.now.groups }
        ensures limits { IsGeometry self.now }
    {
        self.count
    }

    /// An array has at most 2 to this many partitions, 5 to 10.
    pub fn split(&self) -> u32
        ensures value { result ≡ self.now.split }
        ensures least { 5 ≤ result }
        ensures most { result ≤ 10 }
    {
        self.split
    }

    /// The number of arrays, 1 to 48.
    pub fn arrays(&self) -> u32
        ensures value { result ≡ array_count self.now }
        ensures some { 1 ≤ result }
        ensures few { result ≤ 48 }
    {
        arrays_in(self.in_use())
    }

    /// The number of the group in which an array stands, from 0.
    pub fn group_of(&self, array: u32) -> u32
        requires { array < array_count self.now }
        ensures value { result ≡ group_number self.now array }
        ensures exists { result < length self.now.groups }
        ensures from_first { arrays_before self.now result ≤ array }
        ensures below_end { array < arrays_before self.now result + (group_in self.now result).cmus }
    {
        group_among(self.in_use(), array)
    }

    /// The number of an array's CMU in its group, 0 to 3.
    pub fn cmu_of(&self, array: u32) -> u32
        requires { array < array_count self.now }
        ensures value { result ≡ cmu_number self.now array }
        ensures exists { result < (group_in self.now (group_number self.now array)).cmus }
        ensures place { arrays_before self.now (group_number self.now array) + result ≡ array }
    {
        array - self.first_of(self.group_of(array))
    }

    /// The number of the first array of a group, from 0.
    pub fn first_of(&self, group: u32) -> u32
        requires { group < length self.now.groups }
        ensures value { result ≡ arrays_before self.now group }
        ensures room { result + (group_in self.now group).cmus ≤ array_count self.now }
    {
        arrays_in(&self.in_use()[..group as usize])
    }

    /// The number of CMUs of a group, 1 to 4.
    pub fn cmus_of(&self, group: u32) -> u32
        requires { group < length self.now.groups }
        ensures value { result ≡ (group_in self.now group).cmus }
        ensures some { 1 ≤ result }
        ensures few { result ≤ 4 }
    {
        self.group(group).cmus
    }

    /// The number of key units of a group, 1 to 4.
    pub fn units_of(&self, group: u32) -> u32
        requires { group < length self.now.groups }
        ensures value { result ≡ (group_in self.now group).units }
        ensures some { 1 ≤ result }
        ensures few { result ≤ 4 }
    {
        self.group(group).units
    }

    /// The bits of an array, 5 to 20: it has 2 to this many registers.
    #[tactic(auto, using(crate::proofs::GeometryLemmas::bits_within))]
    pub fn bits_of(&self, array: u32) -> u32
        requires { array < array_count self.now }
        ensures value { result ≡ bits_of self.now array }
        ensures least { 5 ≤ result }
        ensures most { result ≤ 20 }
        ensures within { result ≤ greatest_bits self.now }
    {
        self.group(self.group_of(array)).bits
    }

    /// The bits of the largest arrays, 5 to 20.
    #[tactic(auto, using(crate::proofs::GeometryLemmas::greatest_at_least, crate::proofs::GeometryLemmas::greatest_at_most))]
    pub fn greatest_bits(&self) -> u32
        ensures value { result ≡ greatest_bits self.now }
        ensures least { 5 ≤ result }
        ensures most { result ≤ 20 }
    {
        most_bits_in(self.in_use())
    }

    /// The bits of an array's smallest partition, 0 to 15.
    pub fn least_of(&self, array: u32) -> u32
        requires { array < array_count self.now }
        ensures value { result ≡ least_bits_of self.now array }
        ensures below { result ≤ bits_of self.now array }
    {
        self.bits_of(array).saturating_sub(self.split)
    }

    /// A group, by its number.
    fn group(&self, group: u32) -> GroupShape
        requires { group < length self.now.groups }
        ensures value { result ≡ group_in self.now group }
        ensures limits { IsGroup result }
    {
        self.in_use()[group as usize]
    }
}

/// The number of arrays of these groups.
fn arrays_in(groups: &[GroupShape]) -> u32
    requires { sum_by (λ g. g.cmus) groups.now ≤ 48 }
    ensures { result ≡ sum_by (λ g. g.cmus) groups.now }
{
    groups.iter().map(|group| group.cmus).sum()
}

/// The bits of the largest arrays of these groups.
fn most_bits_in(groups: &[GroupShape]) -> u32
    ensures { result ≡ fold max 0 (map (λ g. g.bits) groups.now) }
{
    groups.iter().map(|group| group.bits).fold(0, u32::max)
}

/// The number of the group in which an array stands.
#[tactic(auto, using(crate::proofs::GeometryLemmas::ended_is))]
fn group_among(groups: &[GroupShape], array: u32) -> u32
    requires few { sum_by (λ g. g.cmus) groups.now ≤ 48 }
    requires long { length groups.now ≤ 12 }
    requires within { array < sum_by (λ g. g.cmus) groups.now }
    ensures value { result ≡ groups_ended groups.now array }
    ensures exists { result < length groups.now }
    ensures from_first { sum_by (λ g. g.cmus) (take result groups.now) ≤ array }
    ensures below_end { array < sum_by (λ g. g.cmus) (take result groups.now) + (slice_index_or groups.now result no_group).cmus }
{
    let mut before = 0;
    'groups: for (number, group) in groups.iter().enumerate() {
        if array - before < group.cmus {
            return number as u32;
        }
        before += group.cmus;
    }
    unreachable!()
}

#[cfg(test)]
mod tests {
    use super::*;

    const SMALLEST: GroupShape = GroupShape {
        cmus: 1,
        units: 1,
        bits: 5,
    };

    const COMMON: GroupShape = GroupShape {
        cmus: 3,
        units: 3,
        bits: 10,
    };

    const LARGEST: GroupShape = GroupShape {
        cmus: 4,
        units: 4,
        bits: 20,
    };

    // arrays; the group and the CMU of the last; the first of the last group; bits of the last, of
    // its smallest partition and of the largest arrays; the split
    const TOLD: [[u32; 8]; 4] = [
        [9, 2, 2, 6, 10, 5, 10, 5],
        [1, 0, 0, 0, 5, 0, 5, 5],
        [48, 11, 3, 44, 20, 10, 20, 10],
        [8, 2, 3, 4, 20, 14, 20, 6],
    ];

    #[test]
    fn last_array_of_each_shape(rt: HostRuntime) {
        let shapes = [
            Shape::equal(3, COMMON, 5),
            Shape::equal(1, SMALLEST, 5),
            Shape::equal(12, LARGEST, 10),
            Shape::of(&[SMALLEST, COMMON, LARGEST], 6),
        ];
        for (shape, told) in shapes.iter().zip(TOLD.iter()) {
            let last = shape.arrays() - 1;
            let group = shape.group_count() - 1;
            assert_eq!(rt; shape.arrays(), told[0]);
            assert_eq!(rt; shape.group_of(last), told[1]);
            assert_eq!(rt; shape.cmu_of(last), told[2]);
            assert_eq!(rt; shape.first_of(group), told[3]);
            assert_eq!(rt; shape.bits_of(last), told[4]);
            assert_eq!(rt; shape.least_of(last), told[5]);
            assert_eq!(rt; shape.greatest_bits(), told[6]);
            assert_eq!(rt; shape.split(), told[7]);
        }
    }

    #[test]
    fn groups_that_differ(rt: HostRuntime) {
        let shape = Shape::of(&[SMALLEST, COMMON, LARGEST], 6);
        assert_eq!(rt; shape.group_count(), 3);
        assert_eq!(rt; shape.cmus_of(1), 3);
        assert_eq!(rt; shape.units_of(2), 4);
        assert_eq!(rt; shape.arrays(), 8);
        // the one array of the first group, and the last and the first of the others
        assert_eq!(rt;
            (shape.group_of(0), shape.cmu_of(0), shape.bits_of(0)),
            (0, 0, 5)
        );
        assert_eq!(rt;
            (shape.group_of(3), shape.cmu_of(3), shape.bits_of(3)),
            (1, 2, 10)
        );
        assert_eq!(rt;
            (shape.group_of(4), shape.cmu_of(4), shape.bits_of(4)),
            (2, 0, 20)
        );
    }
}
