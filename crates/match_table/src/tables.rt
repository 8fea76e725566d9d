//! The table of the entries of an array.
ghost use Rattle.std.specs.Prelude.{◌≡◌, ◌≤◌, ◌<◌, ◌++◌, ◌∷◌, [], true, false, IfOk, IsTrue, ◌↔◌, Some, length, slice_index_or};
ghost use Rattle.std.specs.List.{All, AllPairs, Contains, filter, find, list_any};
ghost use Rattle.std.specs.Option.{option_copied};
ghost use Rattle.lists.specs.Sorting.{Rising, cut_by};
ghost use Rattle.match_table.specs.Tables.{EntryTable, StandApart, takes, has_base, admits, last_of_masks, lesser_mask, mask_of, masks_of, group_of};

use crate::entries::Entry;
use crate::finds::{find_in, group_in, scan};
use crate::ranks::{copy_over, mark_ends, put_in_rank, put_last, take_out};
use key_mask::KeyVec;
use std::alloc::{AllocError, Global};
use std::marker::Model;
use task_filters::Filter;

/// With this many entries a mask, one mask with another, a table is looked through mask by mask,
/// which costs more than a plain scan where a mask has few.
const GROUPED_FROM: usize = 64;

/// Entries in order of installation. No vector matches two of them, and their bases differ. They
/// stand besides in order of their masks and, under one mask, of their values.
#[derive(Drop)]
pub struct Table {
    room: u32,
    list: Vec<Entry>,
    ranked: Vec<Entry>,
    /// Where the entries of each mask end.
    ends: Vec<usize>,
}

impl Model for Table {
    ghost use Rattle.std.specs.Prelude.{vec_capacity};
    ghost use Rattle.match_table.specs.Tables.{EntryTable, IsTable};

    ghost Value = { EntryTable };

    ghost view = { λ t. record { room = t.room; entries = t.list.items } };

    ghost invariant = { λ t. IsTable t.room t.list.items t.ranked.items t.ends.items (vec_capacity t.list) (vec_capacity t.ranked) (vec_capacity t.ends) };
}

impl Table {
    /// An empty table with room for this many entries.
    pub fn new(alloc: Global, room: u32) -> Result<Table, AllocError>
        requires some { 1 ≤ room }
        requires most { room ≤ 1024 }
        ensures { let empty : EntryTable = record { room = room; entries = [] } in IfOk result (λ table. table ≡ empty) }
    {
        let list = Vec::with_capacity(alloc, room as usize)?;
        let ranked = Vec::with_capacity(alloc, room as usize)?;
        let ends = Vec::with_capacity(alloc, room as usize)?;
        Ok(Table {
            room,
            list,
            ranked,
            ends,
        })
    }

    /// Adds an entry at the end.
    pub fn install(&mut self, entry: Entry)
        requires room { length self.old.entries < self.old.room }
        requires apart { IsTrue (admits self.old.entries entry.filter) }
        requires base { list_any (has_base entry.region.base) self.old.entries ≡ false }
        ensures { self.new ≡ record self.old { entries = self.old.entries ++ entry ∷ [] } }
    {
        put_in_rank(&mut self.ranked, &entry);
        put_last(&mut self.list, entry);
        mark_ends(&self.ranked, &mut self.ends);
    }

    /// Takes out the entry with this base. The others stay in their order.
    pub fn uninstall(&mut self, base: u32) -> Entry
        requires { IsTrue (list_any (has_base base) self.old.entries) }
        ensures found { find (has_base base) self.old.entries ≡ Some result }
        ensures table { self.new ≡ record self.old { entries = cut_by (has_base base) self.old.entries } }
    {
        take_out(&mut self.ranked, base);
        mark_ends(&self.ranked, &mut self.ends);
        take_out(&mut self.list, base)
    }

    /// The one entry whose filter matches.
    pub fn find(&self, vec: &KeyVec) -> Option<&Entry>
        ensures found { option_copied result ≡ find (takes vec.now) self.now.entries }
        ensures alone { length (filter (takes vec.now) self.now.entries) ≤ 1 }
    {
        if self.list.len() / GROUPED_FROM < self.ends.len() {
            scan(&self.list, vec)
        } else {
            find_in(&self.ranked, &self.ends, vec)
        }
    }

    /// Whether the filter shares no vector with that of any entry.
    pub fn admits(&self, filter: &Filter) -> bool
        ensures { result ≡ admits self.now.entries filter.now }
    {
        self.list.iter().all(|entry| entry.filter.disjoint(filter))
    }

    /// Whether an entry more can be installed.
    pub fn has_room(&self) -> bool
        ensures { IsTrue result ↔ length self.now.entries < self.now.room }
    {
        self.list.len() < self.room as usize
    }

    /// Whether an entry has this base.
    pub fn has_base(&self, base: u32) -> bool
        ensures { result ≡ list_any (has_base base) self.now.entries }
    {
        self.list.iter().any(|entry| entry.region.base == base)
    }

    /// The entries in order of installation.
    pub fn entries(&self) -> &[Entry]
        ensures value { result.now ≡ self.now.entries }
        ensures apart { AllPairs StandApart self.now.entries }
        ensures few { length self.now.entries ≤ self.now.room }
    {
        &self.list
    }

    /// How many different masks the entries have.
    pub fn mask_count(&self) -> usize
        ensures count { result ≡ length (masks_of self.now.entries) }
        ensures rising { Rising lesser_mask (last_of_masks self.now.entries) }
        ensures whole { All (λ entry. Contains (masks_of self.now.entries) (mask_of entry)) self.now.entries }
    {
        self.ends.len()
    }

    /// The entries of the mask at this place in the order of masks, in the order of their values.
    pub fn mask_group(&self, at: usize) -> &[Entry]
        requires { at < length (masks_of self.now.entries) }
        ensures { result.now ≡ group_of (slice_index_or (masks_of self.now.entries) at []) self.now.entries }
    {
        group_in(&self.ranked, &self.ends, at)
    }

    /// A table with the same room and entries.
    pub fn twin(&self, alloc: Global) -> Result<Table, AllocError>
        ensures { IfOk result (λ table. table ≡ self.now) }
    {
        let mut twin = Table::new(alloc, self.room)?;
        twin.copy_from(self);
        Ok(twin)
    }

    /// Takes over the entries of a table with the same room.
    pub fn copy_from(&mut self, other: &Table)
        requires { self.old.room ≡ other.now.room }
        ensures { self.new ≡ other.now }
    {
        copy_over(&mut self.list, &other.list);
        copy_over(&mut self.ranked, &other.ranked);
        mark_ends(&self.ranked, &mut self.ends);
    }
}

#[cfg(test)]
mod tests;
