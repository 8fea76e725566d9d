//! Where the rows of a task go, each in its own slot.
ghost use Rattle.std.specs.Prelude.{◌≡◌, ◌<◌, ◌≤◌, ◌++◌, [], ◌∷◌, length, map, slice_get};
ghost use Rattle.std.specs.List.{All};
ghost use Rattle.group_keys.specs.Units.{unit_at, units_in};
ghost use Rattle.switch_model.specs.Changes.{mask_in};
ghost use Rattle.rule_txn.specs.State.{there};
ghost use Rattle.rule_txn.specs.Stages.{place_array, served_by, arrays_there};

use crate::rows::{Leased, Served};
use arrayvec::ArrayVec;
use group_keys::{GroupKeys, KeyUse};
use key_mask::Mask;
use placer::{Place, Placement};

fn place_at(places: &[Place], row: usize) -> Option<Place>
    ensures { result ≡ slice_get places.now row }
{
    places.get(row).copied()
}

/// The places of a task's rows, the first row's first.
#[tactic(auto, using(crate::proofs::StageSeats::there_all))]
pub(crate) fn places_in(found: &Placement) -> [Option<Place>; 4]
    ensures { there result ≡ found.now }
{
    let places = found.places();
    [
        place_at(places, 0),
        place_at(places, 1),
        place_at(places, 2),
        place_at(places, 3),
    ]
}

fn array_of(place: &Option<Place>) -> Option<u32>
    ensures { result ≡ place_array place.now }
{
    match place {
        Some(place) => Some(place.array),
        None => None,
    }
}

/// The arrays of places, in the places' slots.
pub(crate) fn arrays_of(places: &[Option<Place>; 4]) -> [Option<u32>; 4]
    ensures { result ≡ map place_array places.now }
{
    [
        array_of(&places[0]),
        array_of(&places[1]),
        array_of(&places[2]),
        array_of(&places[3]),
    ]
}

/// The mask that a row with this key has for a unit: a free one takes the key.
#[tactic(auto, using(crate::proofs::StageSeats::some_mask, crate::proofs::StageSeats::no_mask))]
fn mask_in(units: &GroupKeys, unit: u32, key: &Mask) -> Mask
    requires { unit < length units.now }
    ensures { result ≡ mask_in key.now (unit_at units.now unit) }
{
    match units.unit(unit) {
        Some(mask) => mask,
        None => *key,
    }
}

/// The units of a use, each with its mask.
pub(crate) fn served_by(units: &GroupKeys, key: &Mask, keys: KeyUse) -> Served
    requires { All (λ unit. unit < length units.now) (units_in keys) }
    ensures { result ≡ served_by units.now key.now keys }
{
    match keys {
        KeyUse::Single { unit } => Served::Single {
            unit,
            mask: mask_in(units, unit, key),
        },
        KeyUse::Pair { one, two } => Served::Pair {
            one,
            one_mask: mask_in(units, one, key),
            two,
            two_mask: mask_in(units, two, key),
        },
    }
}

fn put_array(arrays: &mut ArrayVec<u32, 4>, row: &Option<Leased>)
    requires { length arrays.old.items < 4 }
    ensures { arrays.new.items ≡ arrays.old.items ++ arrays_there (row.now ∷ []) }
{
    if let Some(row) = row {
        arrays.push(row.array());
    }
}

/// The arrays of the rows that are there.
#[tactic(auto, using(crate::proofs::StageSeats::there_four, crate::proofs::StageSeats::few_there))]
pub(crate) fn arrays_there(rows: &[Option<Leased>; 4]) -> ArrayVec<u32, 4>
    ensures { result.items ≡ arrays_there rows.now }
{
    let mut arrays = ArrayVec::new();
    put_array(&mut arrays, &rows[0]);
    put_array(&mut arrays, &rows[1]);
    put_array(&mut arrays, &rows[2]);
    put_array(&mut arrays, &rows[3]);
    arrays
}
