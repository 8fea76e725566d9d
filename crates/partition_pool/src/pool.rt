//! The pool of one array. Its taken regions are kept twice: by where they begin, and as a tree of
//! what is free, so that no call looks at each region.
ghost use Rattle.std.specs.Prelude.{◌≡◌, ◌≤◌, ◌<◌, ◌+◌, ◌-◌, ◌^◌, [], IfOk, IfSome, IfNone, Contains, true, replicate, length};
ghost use Rattle.std.specs.Option.{option_map};
ghost use Rattle.partition_pool.specs.Regions.{free_block, free_registers, is_free, put_by_base, without, IsPartition, ArePartitions};
ghost use Rattle.partition_pool.specs.Pools.{least_bits, holding_of};
ghost use Rattle.partition_pool.specs.Nodes.{tree_of, largest_free};

use crate::lease::{Frozen, Lease, Live};
use crate::tree::{Levels, is_whole, least_free, mark, power, root, size_at_node, taken_size};
use addr_translate::Region;
use std::alloc::{AllocError, Global};
use std::marker::Model;

pub type OutOfMemory = AllocError;

/// The partitions of an array of `2^bits` registers, 5 to 20 bits: aligned regions of at least
/// `2^(bits - split)` registers, or of 1 where `split`, 5 to 10, is more than `bits`.
pub struct Pool {
    number: u32,
    split: u32,
    levels: Levels,
    // for each smallest partition n + 1 where a taken region of 2^n registers begins there, else 0
    starts: Vec<u8>,
    nodes: Vec<u8>,
}

impl Model for Pool {
    ghost use Rattle.partition_pool.specs.Pools.{PoolState};
    ghost use Rattle.partition_pool.specs.Kept.{IsKept, blocks_from};

    ghost Value = { PoolState };

    ghost view = { λ p. record {
      number = p.number;
      bits = p.levels.array_bits;
      split = p.split;
      taken = blocks_from p.levels.least 0 p.starts.items;
    } };

    ghost invariant = { λ p. IsKept p.levels.array_bits p.levels.least p.split p.starts.items p.nodes.items };
}

/// So many zeros.
fn zeros(alloc: Global, count: usize) -> Result<Vec<u8>, OutOfMemory>
    ensures { IfOk result (λ v. v.items ≡ replicate count 0) }
{
    vec![in alloc; 0; count]
}

impl Pool {
    /// The pool of the array of this number, with nothing taken.
    pub fn new(alloc: Global, number: u32, bits: u32, split: u32) -> Result<Pool, OutOfMemory>
        requires least { 5 ≤ bits }
        requires most { bits ≤ 20 }
        requires least_split { 5 ≤ split }
        requires most_split { split ≤ 10 }
        ensures { IfOk result (λ p. p ≡ record { number = number; bits = bits; split = split; taken = [] }) }
    {
        let levels = Levels {
            array_bits: bits,
            least: bits.saturating_sub(split),
        };
        let count = power(bits - levels.least) as usize;
        let starts = zeros(alloc, count)?;
        let mut nodes = zeros(alloc, 2 * count - 1)?;
        // all 0, as if the whole array were taken
        mark(nodes.as_mut_slice(), levels, bits, 0, true);
        Ok(Pool {
            number,
            split,
            levels,
            starts,
            nodes,
        })
    }

    /// The array has 2 to this many registers, 5 to 20.
    pub fn bits(&self) -> u32
        ensures value { result ≡ self.now.bits }
        ensures least { 5 ≤ result }
        ensures most { result ≤ 20 }
        ensures partitions { ArePartitions (least_bits self.now) self.now.bits self.now.taken }
    {
        self.levels.array_bits
    }

    /// The array has at most 2 to this many partitions, 5 to 10.
    pub fn split(&self) -> u32
        ensures value { result ≡ self.now.split }
        ensures least { 5 ≤ result }
        ensures most { result ≤ 10 }
    {
        self.split
    }

    /// The nodes, level by level from the whole array down: the halves of place k are at 2k + 1
    /// and 2k + 2. A node is n + 1 where the greatest free partition in its block has `2^n`
    /// registers, and 0 where there is none.
    pub fn tree(&self) -> &[u8]
        ensures count { length result.now + 1 ≡ 2 ^ (self.now.bits - least_bits self.now + 1) }
        ensures nodes { result.now ≡ tree_of self.now.taken self.now.bits (least_bits self.now) }
        ensures partitions { ArePartitions (least_bits self.now) self.now.bits self.now.taken }
    {
        self.nodes.as_slice()
    }

    /// How many registers stand in no taken region.
    pub fn free_count(&self) -> u32
        ensures { result ≡ free_registers self.now.taken self.now.bits }
    {
        power(self.levels.array_bits) - taken_size(self.starts.as_slice())
    }

    /// The size of the largest partition that is free, 0 if there is none.
    pub fn largest(&self) -> u32
        ensures { result ≡ largest_free self.now.taken self.now.bits (least_bits self.now) }
    {
        size_at_node(root(self.nodes.as_slice(), self.levels))
    }

    /// The free partition of `2^bits` registers with the least base.
    pub fn find(&self, bits: u32) -> Option<Region>
        requires least { least_bits self.now ≤ bits }
        requires most { bits ≤ self.now.bits }
        ensures region { result ≡ free_block self.now.taken self.now.bits bits }
        ensures size { IfSome result (λ r. r.bits ≡ bits) }
        ensures partition { IfSome result (IsPartition (least_bits self.now) self.now.bits) }
        ensures free { IfSome result (λ r. is_free self.now.taken r ≡ true) }
    {
        least_free(self.nodes.as_slice(), self.levels, bits)
    }

    /// Whether a partition meets no taken one.
    pub fn is_free(&self, region: Region) -> bool
        requires least { least_bits self.now ≤ region.bits }
        requires inside { region.base + 2 ^ region.bits ≤ 2 ^ self.now.bits }
        ensures { result ≡ is_free self.now.taken region }
    {
        is_whole(
            self.nodes.as_slice(),
            self.levels,
            region.bits,
            region.base >> region.bits,
        )
    }

    /// Takes what [`Pool::find`] gives.
    pub fn take(&mut self, bits: u32) -> Option<Lease<Live>>
        requires least { least_bits self.old ≤ bits }
        requires most { bits ≤ self.old.bits }
        ensures lease { result ≡ option_map (holding_of self.old) (free_block self.old.taken self.old.bits bits) }
        ensures size { IfSome result (λ l. l.region.bits ≡ bits) }
        ensures partition { IfSome result (λ l. IsPartition (least_bits self.old) self.old.bits l.region) }
        ensures free { IfSome result (λ l. is_free self.old.taken l.region ≡ true) }
        ensures taken { IfSome result (λ l. self.new ≡ record self.old { taken = put_by_base l.region self.old.taken }) }
        ensures few { IfSome result (λ _. length self.old.taken < 2 ^ self.old.split) }
        ensures none { IfNone result (self.new ≡ self.old) }
    {
        let region = self.find(bits)?;
        Some(self.take_at(region))
    }

    /// Takes a partition that is free.
    pub fn take_at(&mut self, region: Region) -> Lease<Live>
        requires least { least_bits self.old ≤ region.bits }
        requires inside { region.base + 2 ^ region.bits ≤ 2 ^ self.old.bits }
        requires free { is_free self.old.taken region ≡ true }
        ensures lease { result ≡ holding_of self.old region }
        ensures taken { self.new ≡ record self.old { taken = put_by_base region self.old.taken } }
        ensures few { length self.old.taken < 2 ^ self.old.split }
    {
        let first = (region.base >> self.levels.least) as usize;
        self.starts[first] = region.bits as u8 + 1;
        mark(
            self.nodes.as_mut_slice(),
            self.levels,
            region.bits,
            region.base >> region.bits,
            false,
        );
        Lease::new(self.number, region)
    }

    /// Takes back a lease: its region is taken no longer.
    pub fn give(&mut self, lease: Lease<Live>)
        requires own { lease.pool ≡ self.old.number }
        requires taken { Contains self.old.taken lease.region }
        ensures { self.new ≡ record self.old { taken = without lease.region self.old.taken } }
    {
        self.give_back(lease.end());
    }

    /// As [`Pool::give`], of a frozen lease.
    pub fn give_frozen(&mut self, lease: Lease<Frozen>)
        requires own { lease.pool ≡ self.old.number }
        requires taken { Contains self.old.taken lease.region }
        ensures { self.new ≡ record self.old { taken = without lease.region self.old.taken } }
    {
        self.give_back(lease.end());
    }

    /// Ends a pool of which nothing is taken.
    pub fn close(self)
        requires { self.taken ≡ [] }
    {
        let Pool {
            number: _,
            split: _,
            levels: _,
            starts: _,
            nodes: _,
        } = self;
    }

    fn give_back(&mut self, region: Region)
        requires { Contains self.old.taken region }
        ensures { self.new ≡ record self.old { taken = without region self.old.taken } }
    {
        let first = (region.base >> self.levels.least) as usize;
        self.starts[first] = 0;
        mark(
            self.nodes.as_mut_slice(),
            self.levels,
            region.bits,
            region.base >> region.bits,
            true,
        );
    }
}

#[cfg(test)]
mod tests;
