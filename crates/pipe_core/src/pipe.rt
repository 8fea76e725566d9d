//! The groups of a switch, with their tables and units.
ghost use Rattle.std.specs.Prelude.{◌≡◌, ◌≢◌, ◌↔◌, ◌<◌, ◌^◌, ◌+◌, false, length, IfOk, IfSome, IsTrue, MatchOption, Some};
ghost use Rattle.std.specs.List.{All, find, list_any};
ghost use Rattle.key_mask.specs.Masks.{no_lengths};
ghost use Rattle.addr_translate.specs.Geometry.{array_count};
ghost use Rattle.reg_file.specs.Calls.{Makes, MakesOver};
ghost use Rattle.group_keys.specs.Units.{keys_for, HasRoom, AreInUse};
ghost use Rattle.match_table.specs.Tables.{admits, has_base};
ghost use Rattle.pipe_core.specs.Rules.{IsPipe, IsShaped, SameShape, Fits, table_at, entries_on, units_in, first_in, cmus_in, first_rules, installed, uninstalled, served_in, freed_in};
ghost use Rattle.pipe_core.specs.Groups.{group_calls, Steps};
ghost use Rattle.pipe_core.specs.Flow.{calls_over};

use crate::making::{copy_tables, empty_tables, free_groups, most_entries, used_among};
use addr_translate::Shape;
use cmu_stage::{Outs, compress, may_stand, pass};
use group_keys::{GroupKeys, KeyUse};
use hash_units::{ByteTables, HashKey};
use key_mask::{KEY_BYTES, Mask};
use match_table::{Entry, Table};
use pkt_headers::Packet;
use reg_file::RegFile;
use std::alloc::{AllocError, Global};
use std::marker::Model;

/// The groups of a switch: a table for each array, and the hash units of each group. The shape and
/// the key of the hash never change.
#[derive(Drop)]
pub struct Pipe {
    shape: Shape,
    hash_key: HashKey,
    hashes: ByteTables<KEY_BYTES>,
    tables: Vec<Table>,
    groups: Vec<GroupKeys>,
    /// No array from this one on has an entry: a packet passes by them.
    used: u32,
}

impl Model for Pipe {
    ghost use Rattle.std.specs.Prelude.{◌≡◌};
    ghost use Rattle.pipe_core.specs.Rules.{Rules, IsPipe, AreIdle, rules_of};

    ghost Value = { Rules };

    ghost view = { λ p. rules_of p.shape p.hash_key p.tables.items p.groups.items };

    ghost invariant = { λ p. ((p.hashes ≡ p.hash_key) × AreIdle p.used p.tables.items) × IsPipe (rules_of p.shape p.hash_key p.tables.items p.groups.items) };
}

impl Pipe {
    /// No entries, and all units free. Each table has room for the most partitions of an array.
    #[tactic(auto, using(crate::proofs::RuleLemmas::first_pipe, crate::proofs::IdleLemmas::first_idle))]
    pub fn new(alloc: Global, shape: Shape, hash_key: HashKey) -> Result<Pipe, AllocError>
        ensures { IfOk result (λ pipe. pipe ≡ first_rules shape hash_key) }
    {
        Ok(Pipe {
            shape,
            hash_key,
            hashes: ByteTables::new(alloc, &hash_key)?,
            tables: empty_tables(alloc, shape.arrays(), most_entries(&shape))?,
            groups: free_groups(alloc, &shape)?,
            used: 0,
        })
    }

    /// What arrays and units there are.
    pub fn shape(&self) -> &Shape
        ensures value { result.now ≡ self.now.geometry }
        ensures whole { IsPipe self.now }
    {
        &self.shape
    }

    /// The table of an array.
    pub fn table(&self, array: u32) -> &Table
        requires { array < array_count self.now.geometry }
        ensures { result.now ≡ table_at self.now.tables array }
    {
        &self.tables[array as usize]
    }

    /// The units of a group.
    pub fn units(&self, group: u32) -> &GroupKeys
        requires { group < length self.now.geometry.groups }
        ensures { result.now ≡ units_in self.now group }
    {
        &self.groups[group as usize]
    }

    /// The tables of all arrays, by number.
    pub fn tables(&self) -> &[Table]
        ensures { result.now ≡ self.now.tables }
    {
        &self.tables
    }

    /// The units of all groups, by number.
    pub fn groups(&self) -> &[GroupKeys]
        ensures { result.now ≡ self.now.groups }
    {
        &self.groups
    }

    /// Whether the entry may stand on the array: its region lies there, its units are units of the
    /// array's group, and a carry comes from an earlier group.
    pub fn fits(&self, array: u32, entry: &Entry) -> bool
        requires { array < array_count self.now.geometry }
        ensures { IsTrue result ↔ Fits self.now.geometry array entry.now }
    {
        let shape = &self.shape;
        let group = shape.group_of(array);
        let units = shape.units_of(group);
        may_stand(entry, shape.bits_of(array), units, shape.first_of(group))
    }

    /// Adds an entry at the end of an array's table.
    pub fn install(&mut self, array: u32, entry: Entry)
        requires array { array < array_count self.old.geometry }
        requires room { length (entries_on self.old array) < 2 ^ self.old.geometry.split }
        requires apart { IsTrue (admits (entries_on self.old array) entry.filter) }
        requires base { list_any (has_base entry.region.base) (entries_on self.old array) ≡ false }
        requires fits { Fits self.old.geometry array entry }
        ensures { self.new ≡ record self.old { tables = installed self.old.tables array entry } }
    {
        self.tables[array as usize].install(entry);
        self.used = used_among(&self.tables);
    }

    /// Takes the entry with this base out of an array's table. The others stay in their order.
    pub fn uninstall(&mut self, array: u32, base: u32) -> Entry
        requires array { array < array_count self.old.geometry }
        requires there { IsTrue (list_any (has_base base) (entries_on self.old array)) }
        ensures found { find (has_base base) (entries_on self.old array) ≡ Some result }
        ensures rules { self.new ≡ record self.old { tables = uninstalled self.old.tables array base } }
    {
        let entry = self.tables[array as usize].uninstall(base);
        self.used = used_among(&self.tables);
        entry
    }

    /// The units of a group that give the key of the mask, with one use more on each; a free unit
    /// takes the mask. Nothing changes where there are none.
    pub fn serve(&mut self, group: u32, mask: &Mask) -> Option<KeyUse>
        requires group { group < length self.old.geometry.groups }
        requires stands { mask.now ≢ no_lengths }
        requires room { All HasRoom (units_in self.old group) }
        ensures keys { result ≡ keys_for (units_in self.old group) mask.now }
        ensures rules { MatchOption result (self.new ≡ self.old)
            (λ keys. self.new ≡ record self.old { groups = served_in self.old.groups group keys mask.now }) }
        ensures in_use { IfSome result (AreInUse (units_in self.new group)) }
    {
        self.groups[group as usize].serve(mask)
    }

    /// One use less on each of these units of a group; a unit without uses is free.
    pub fn free(&mut self, group: u32, keys: KeyUse)
        requires group { group < length self.old.geometry.groups }
        requires in_use { AreInUse (units_in self.old group) keys }
        ensures { self.new ≡ record self.old { groups = freed_in self.old.groups group keys } }
    {
        self.groups[group as usize].free(keys);
    }

    /// The packet on all arrays, in order. `regs` has the pipe's shape.
    // Not inlined: the packet's vector has to stand in memory, since loops over its bytes are slow
    // where it is spread over registers.
    #[inline(never)]
    pub fn step<R: RegFile>(&self, packet: &Packet, regs: &mut R)
        requires { IsShaped self.now.geometry (R.dims regs.old) }
        ensures faults { R.faults regs.new ≡ R.faults regs.old }
        ensures dims { R.dims regs.new ≡ R.dims regs.old }
        ensures over { MakesOver (λ contents. calls_over self.now contents packet.now)
            (R.contents regs.old) (R.contents regs.new) (R.calls regs.old) (R.calls regs.new) }
        ensures steps { Steps self.now packet.now (R.contents regs.old) (R.contents regs.new) (R.calls regs.old) (R.calls regs.new) }
    {
        let mut outs = Outs { carry: [0; 48] };
        let mut first = 0;
        'groups: for group in 0..self.shape.group_count() {
            // Behind the last entry no group costs anything.
            if first >= self.used {
                return;
            }
            first = self.pass_arrays(group, first, packet, &mut outs, regs);
        }
    }

    /// The packet on the arrays of a group, in order. Bounds are taken from `outs`, and each call's
    /// carry then stands there at its array.
    pub fn group_step<R: RegFile>(&self, group: u32, packet: &Packet, outs: &mut Outs, regs: &mut R)
        requires group { group < length self.now.geometry.groups }
        requires shaped { IsShaped self.now.geometry (R.dims regs.old) }
        ensures faults { R.faults regs.new ≡ R.faults regs.old }
        ensures dims { R.dims regs.new ≡ R.dims regs.old }
        ensures makes { Makes (group_calls self.now group packet.now outs.old.carry) outs.old.carry outs.new.carry
            (R.contents regs.old) (R.contents regs.new) (R.calls regs.old) (R.calls regs.new) }
    {
        let first = self.shape.first_of(group);
        // No keys are made where no entry reads them.
        if first < self.used {
            self.pass_arrays(group, first, packet, outs, regs);
        }
    }

    /// The packet on the arrays of a group, of which `first` is the first; answers the first array
    /// behind them.
    // Not inlined: it has two callers, and only into one copy of it the search of a table is
    // inlined. That saves more for each array than to enter it costs for each group.
    #[inline(never)]
    fn pass_arrays<R: RegFile>(
        &self,
        group: u32,
        first: u32,
        packet: &Packet,
        outs: &mut Outs,
        regs: &mut R,
    ) -> u32
        requires group { group < length self.now.geometry.groups }
        requires first { first ≡ first_in self.now group }
        requires shaped { IsShaped self.now.geometry (R.dims regs.old) }
        ensures next { result ≡ first_in self.now group + cmus_in self.now group }
        ensures faults { R.faults regs.new ≡ R.faults regs.old }
        ensures dims { R.dims regs.new ≡ R.dims regs.old }
        ensures makes { Makes (group_calls self.now group packet.now outs.old.carry) outs.old.carry outs.new.carry
            (R.contents regs.old) (R.contents regs.new) (R.calls regs.old) (R.calls regs.new) }
    {
        let keys = compress(&self.hashes, &self.groups[group as usize], &packet.vec);
        let end = first + self.shape.cmus_of(group);
        'arrays: for array in first..end.min(self.used) {
            pass(
                &self.tables[array as usize],
                array,
                packet,
                &keys,
                outs,
                regs,
            );
        }
        end
    }

    /// A pipe with the same shape, key, entries and units.
    pub fn twin(&self, alloc: Global) -> Result<Pipe, AllocError>
        ensures { IfOk result (λ pipe. pipe ≡ self.now) }
    {
        let mut twin = Pipe::new(alloc, self.shape, self.hash_key)?;
        twin.copy_from(self);
        Ok(twin)
    }

    /// Takes over the entries and units of a pipe with the same shape and key.
    pub fn copy_from(&mut self, other: &Pipe)
        requires { SameShape self.old other.now }
        ensures { self.new ≡ other.now }
    {
        copy_tables(&mut self.tables, &other.tables);
        self.groups.copy_from_slice(&other.groups);
        self.used = other.used;
    }
}
