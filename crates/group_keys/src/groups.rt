//! The units of one group, by their numbers.
ghost use Rattle.std.specs.Prelude.{◌≡◌, ◌≢◌, ◌↔◌, ◌<◌, ◌≤◌, IfSome, IsTrue, MatchOption, None, Some, replicate, length};
ghost use Rattle.std.specs.List.{All};
ghost use Rattle.std.specs.Option.{option_copied};
ghost use Rattle.key_mask.specs.Masks.{no_lengths};
ghost use Rattle.group_keys.specs.Units.{unit_at, AreSound, HasRoom, mask_of, keys_for, served_at, served_units, freed_at, freed_units, AreUnits, AreInUse};

use crate::finds::keys_among;
use crate::units::{Unit, has_room, with_use, without_use};
use crate::uses::KeyUse;
use key_mask::Mask;
use std::marker::Model;

/// The most units of a group.
pub const MOST_UNITS: u32 = 4;

/// How many slots for units there are.
const SLOTS: usize = MOST_UNITS as usize;

/// The units of a group, by their numbers, each free or in use with a mask. A unit in use has at
/// least one use and a mask that is not empty, and no two have one mask.
#[derive(Clone, Copy, Debug, PartialEq, Eq)]
pub struct GroupKeys {
    units: [Option<Unit>; SLOTS],
    count: u32,
}

impl Model for GroupKeys {
    ghost use Rattle.std.specs.Prelude.{List, Option, take, length};
    ghost use Rattle.group_keys.specs.Units.{UsedUnit, in_slots, AreInSlots};

    ghost Value = { List (Option UsedUnit) };

    ghost view = { λ g. take g.count g.units };

    ghost invariant = { λ g. AreInSlots g.units g.count };

    ghost inverse = { λ units. record { units = in_slots units; count = length units } };

    ghost use Rattle.std.proofs.Common.{sym, ap₂};

    ghost inverse_ok = { λ a h. ap₂ (λ units count. record { units = units; count = count }) (sym h.filled) h.counted };
}

impl GroupKeys {
    /// This many units, all free.
    pub fn new(units: u32) -> GroupKeys
        requires some { 1 ≤ units }
        requires few { units ≤ 4 }
        ensures units { result ≡ replicate units None }
        ensures sound { AreSound result }
    {
        GroupKeys {
            units: [None; SLOTS],
            count: units,
        }
    }

    /// The units that give the key of this mask: the least in use with the mask, else the least
    /// pair of units in use whose masks XOR to it, else the least free one; none where there is
    /// none of these.
    #[tactic(auto, using(crate::proofs::UseLemmas::keys_stand))]
    pub fn find(&self, mask: &Mask) -> Option<KeyUse>
        requires { mask.now ≢ no_lengths }
        ensures keys { result ≡ keys_for self.now mask.now }
        ensures stand { IfSome result (AreUnits self.now) }
        ensures sound { AreSound self.now }
    {
        keys_among(&self.units[..self.count as usize], mask)
    }

    /// Whether each unit can have one use more: it has fewer than 10,000.
    pub fn has_room(&self) -> bool
        ensures { IsTrue result ↔ All HasRoom self.now }
    {
        have_room(&self.units[..self.count as usize])
    }

    /// The units that `find` gives, with one use more on each; a free unit takes the mask. Nothing
    /// changes where there are none.
    pub fn serve(&mut self, mask: &Mask) -> Option<KeyUse>
        requires stands { mask.now ≢ no_lengths }
        requires room { All HasRoom self.old }
        ensures keys { result ≡ keys_for self.old mask.now }
        ensures units { MatchOption result (self.new ≡ self.old)
            (λ keys. self.new ≡ served_units self.old keys mask.now) }
        ensures in_use { IfSome result (AreInUse self.new) }
        ensures sound { AreSound self.new }
    {
        let keys = self.find(mask)?;
        self.serve_units(keys, mask);
        Some(keys)
    }

    /// One use less on each of the units, for each time that it serves the use; a unit without uses
    /// is free.
    #[tactic(auto, unfolding(crate::specs::Units::freed_units))]
    pub fn free(&mut self, keys: KeyUse)
        requires { AreInUse self.old keys }
        ensures units { self.new ≡ freed_units self.old keys }
        ensures sound { AreSound self.new }
    {
        match keys {
            KeyUse::Single { unit } => self.free_unit(unit),
            KeyUse::Pair { one, two } => {
                self.free_unit(one);
                self.free_unit(two);
            }
        }
    }

    /// The mask of a unit in use, none of a free one.
    pub fn unit(&self, unit: u32) -> Option<Mask>
        requires { unit < length self.now }
        ensures mask { result ≡ mask_of (unit_at self.now unit) }
        ensures sound { AreSound self.now }
    {
        let unit = self.units[unit as usize]?;
        Some(unit.mask())
    }

    /// The mask of a unit in use, lent; none of a free one, and none where there is no such unit.
    pub fn mask(&self, unit: u32) -> Option<&Mask>
        requires { unit < 4 }
        ensures { option_copied result ≡ mask_of (unit_at self.now unit) }
    {
        match &self.units[unit as usize] {
            Some(unit) => Some(unit.lent_mask()),
            None => None,
        }
    }

    /// One use more on each of the units that give the key of this mask.
    #[tactic(auto, unfolding(crate::specs::Units::served_units))]
    fn serve_units(&mut self, keys: KeyUse, mask: &Mask)
        requires stands { mask.now ≢ no_lengths }
        requires room { All HasRoom self.old }
        requires found { keys_for self.old mask.now ≡ Some keys }
        requires sound { AreSound self.old }
        ensures units { self.new ≡ served_units self.old keys mask.now }
        ensures in_use { AreInUse self.new keys }
        ensures sound { AreSound self.new }
    {
        match keys {
            KeyUse::Single { unit } => self.serve_unit(unit, mask),
            KeyUse::Pair { one, two } => {
                self.serve_unit(one, mask);
                self.serve_unit(two, mask);
            }
        }
    }

    /// One use more on the unit, for this mask.
    fn serve_unit(&mut self, unit: u32, mask: &Mask)
        requires exists { unit < length self.old }
        requires room { HasRoom (unit_at self.old unit) }
        requires sound { AreSound (served_at mask.now self.old unit) }
        ensures { self.new ≡ served_at mask.now self.old unit }
    {
        let at = unit as usize;
        self.units[at] = with_use(self.units[at], mask);
    }

    /// One use less on the unit.
    fn free_unit(&mut self, unit: u32)
        requires { unit < length self.old }
        ensures units { self.new ≡ freed_at self.old unit }
        ensures sound { AreSound self.new }
    {
        let at = unit as usize;
        self.units[at] = without_use(self.units[at]);
    }
}

/// Whether each of the units can have one use more.
fn have_room(units: &[Option<Unit>]) -> bool
    ensures { IsTrue result ↔ All HasRoom units.now }
{
    units.iter().all(|unit| has_room(unit))
}

#[cfg(test)]
mod tests;
