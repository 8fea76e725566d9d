//! Places of rows, and why there are none.
ghost use Rattle.std.specs.Prelude.{◌≡◌, ◌≤◌, length};

use addr_translate::Region;
use arrayvec::ArrayVec;
use group_keys::KeyUse;
use std::marker::Model;

/// Where a row stands: its array, the units of the array's group that give the key, and its region.
#[derive(Clone, Copy, Debug, PartialEq, Eq)]
pub struct Place {
    pub array: u32,
    pub keys: KeyUse,
    pub region: Region,
}

/// What stands in a [`Placement`] behind its last place.
impl Default for Place {
    fn default() -> Place {
        Place {
            array: 0,
            keys: KeyUse::Single { unit: 0 },
            region: Region { base: 0, bits: 0 },
        }
    }
}

/// Why a task has no place: it has `need` rows, and only `have` arrays are open to it, or open with
/// a free partition of its size. Groups are counted for SuMax-Sum, whose rows stand in different
/// groups.
#[derive(Clone, Copy, Debug, PartialEq, Eq)]
pub enum Refusal {
    NoUnit { need: u32, have: u32 },
    NoPartition { need: u32, have: u32 },
}

/// The first row, from 0, whose array has no free partition of a size.
#[derive(Clone, Copy, Debug, PartialEq, Eq)]
pub struct NoRoom {
    pub row: u32,
}

/// The places of a task's rows, in their order. It is seen as their list.
#[derive(Debug, Drop)]
pub struct Placement {
    pub places: ArrayVec<Place, 4>,
}

impl Model for Placement {
    ghost use Rattle.std.specs.Prelude.{List};
    ghost use Rattle.placer.specs.declared.places.Place.{Place};

    ghost Value = { List Place };

    ghost view = { λ p. p.places.items };
}

impl Placement {
    /// The places, at most 4, the first row's first.
    pub fn places(&self) -> &[Place]
        ensures value { result.now ≡ self.now }
        ensures few { length result.now ≤ 4 }
    {
        self.places.as_slice()
    }
}
