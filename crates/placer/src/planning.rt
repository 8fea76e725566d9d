//! The arrays on which a new task's rows go.
ghost use Rattle.std.specs.Prelude.{◌≡◌, ◌<◌, ◌≤◌, ◌==◌, ℕ, All, [], ◌∷◌, ◌++◌, IfSome, None, Some, IsSome, if◌then◌else◌, length, take};
ghost use Rattle.std.specs.List.{list_any};
ghost use Rattle.addr_translate.specs.Geometry.{array_count, bits_of, group_number};
ghost use Rattle.group_keys.specs.Units.{keys_for};
ghost use Rattle.match_table.specs.Tables.{admits};
ghost use Rattle.placer.specs.Sights.{bits_for};
ghost use Rattle.placer.specs.Placement.{place_of, placed, pool_at, sight_in};
ghost use Rattle.placer.specs.Steps.{is_chained, judged, with_one};

use crate::places::{Place, Placement, Refusal};
use crate::resizing::free_in;
use crate::sizes::size_bits;
use addr_translate::{Region, Shape};
use arrayvec::ArrayVec;
use group_keys::{GroupKeys, KeyUse};
use match_table::Table;
use partition_pool::Pool;
use sketch_defs::{Kind, Task};

/// Where the rows of a new task go: on the first arrays, by number, whose entries leave its filter
/// room, whose group gives its key and which have a free partition of its size; each in the free
/// partition with the least base. Rows of SuMax-Sum go on the first such array of each group.
pub fn plan(
    shape: Shape,
    tables: &[Table],
    units: &[GroupKeys],
    pools: &[Pool],
    task: &Task,
) -> Result<Placement, Refusal>
    requires tables { length tables.now ≡ array_count shape }
    requires units { length units.now ≡ length shape.groups }
    requires pools { length pools.now ≡ array_count shape }
    requires bits { (array : ℕ) → array < array_count shape → (pool_at pools.now array).bits ≡ bits_of shape array }
    requires split { All (λ pool. pool.split ≡ shape.split) pools.now }
    requires size { IsSome (bits_for shape task.now.kind task.now.size) }
    ensures { IfSome (bits_for shape task.now.kind task.now.size)
        (λ bits. result ≡ placed shape (sight_in tables.now units.now pools.now) task.now bits) }
{
    let bits = match size_bits(shape, task.kind(), task.size()) {
        Some(bits) => bits,
        None => unreachable!(),
    };
    let mut arrays: ArrayVec<u32, 4> = ArrayVec::new();
    let mut places: ArrayVec<Place, 4> = ArrayVec::new();
    'arrays: for array in 0..shape.arrays() {
        let group = shape.group_of(array);
        let keys = keys_on(&tables[array as usize], &units[group as usize], task);
        let region = free_in(&pools[array as usize], bits);
        put_open(&mut arrays, &shape, task, array, keys.is_some());
        put_place(&mut places, &shape, task, place_of(array, keys, region));
    }
    judged(task.rows(), &arrays, places)
}

/// The units of the group that give the task's key, where the entries leave its filter room.
fn keys_on(table: &Table, units: &GroupKeys, task: &Task) -> Option<KeyUse>
    ensures { result ≡ (if admits table.now.entries task.now.filter then keys_for units.now task.now.key else None) }
{
    if table.admits(task.filter()) {
        units.find(task.key())
    } else {
        None
    }
}

/// A row on the array, where it has both units for the key and a region.
fn place_of(array: u32, keys: Option<KeyUse>, region: Option<Region>) -> Option<Place>
    ensures { result ≡ place_of array keys region }
{
    match keys {
        Some(keys) => match region {
            Some(region) => Some(Place {
                array,
                keys,
                region,
            }),
            None => None,
        },
        None => None,
    }
}

/// With the array, where it is open and one more counts.
#[tactic(auto, unfolding(crate::specs::Steps::with_one))]
fn put_open(arrays: &mut ArrayVec<u32, 4>, shape: &Shape, task: &Task, array: u32, is_open: bool)
    requires array { array < array_count shape.now }
    requires exist { All (λ other. other < array_count shape.now) arrays.old.items }
    requires few { length arrays.old.items ≤ task.now.rows }
    ensures items { arrays.new.items ≡ with_one task.now.rows task.now.kind (group_number shape.now) (if is_open then Some array else None) arrays.old.items }
{
    if !is_open {
        return;
    }
    if is_chained(task.kind()) && has_open(arrays.as_slice(), shape, shape.group_of(array)) {
        return;
    }
    put(arrays, task.rows(), array);
}

/// With the place, where there is one and one more counts.
#[tactic(auto, unfolding(crate::specs::Steps::with_one))]
fn put_place(places: &mut ArrayVec<Place, 4>, shape: &Shape, task: &Task, place: Option<Place>)
    requires array { IfSome place (λ place. place.array < array_count shape.now) }
    requires exist { All (λ other. other.array < array_count shape.now) places.old.items }
    requires few { length places.old.items ≤ task.now.rows }
    ensures { places.new.items ≡ with_one task.now.rows task.now.kind (λ place. group_number shape.now place.array) place places.old.items }
{
    if let Some(place) = place {
        put_there(places, shape, task, place);
    }
}

/// With the place, where one more counts.
#[tactic(auto, unfolding(crate::specs::Steps::with_one))]
fn put_there(places: &mut ArrayVec<Place, 4>, shape: &Shape, task: &Task, place: Place)
    requires array { place.array < array_count shape.now }
    requires exist { All (λ other. other.array < array_count shape.now) places.old.items }
    requires few { length places.old.items ≤ task.now.rows }
    ensures { places.new.items ≡ with_one task.now.rows task.now.kind (λ place. group_number shape.now place.array) (Some place) places.old.items }
{
    if is_chained(task.kind()) && has_place(places.as_slice(), shape, shape.group_of(place.array)) {
        return;
    }
    put(places, task.rows(), place);
}

/// Whether the rows of the kind stand in different groups.
fn is_chained(kind: Kind) -> bool
    ensures { result ≡ is_chained kind }
{
    matches!(kind, Kind::SumaxSum)
}

/// Whether one of the arrays stands in the group.
fn has_open(arrays: &[u32], shape: &Shape, group: u32) -> bool
    requires { All (λ other. other < array_count shape.now) arrays.now }
    ensures { result ≡ list_any (λ other. group == group_number shape.now other) arrays.now }
{
    arrays.iter().any(|other| group == shape.group_of(*other))
}

/// Whether one of the places stands in the group.
fn has_place(places: &[Place], shape: &Shape, group: u32) -> bool
    requires { All (λ other. other.array < array_count shape.now) places.now }
    ensures { result ≡ list_any (λ other. group == group_number shape.now other.array) places.now }
{
    places
        .iter()
        .any(|other| group == shape.group_of(other.array))
}

/// Appends an item where there are fewer than so many.
fn put<T: Default + Drop>(items: &mut ArrayVec<T, 4>, most: u32, item: T)
    requires most { most ≤ 4 }
    requires few { length items.old.items ≤ most }
    ensures { items.new.items ≡ take most (items.old.items ++ item ∷ []) }
{
    if (items.len() as u32) < most {
        items.push(item);
    }
}

/// The places, or how many arrays there are too few for so many rows.
fn judged(
    need: u32,
    arrays: &ArrayVec<u32, 4>,
    places: ArrayVec<Place, 4>,
) -> Result<Placement, Refusal>
    ensures { result ≡ judged need arrays.now.items places.items }
{
    let have = arrays.len() as u32;
    if have < need {
        return Err(Refusal::NoUnit { need, have });
    }
    let have = places.len() as u32;
    if have < need {
        return Err(Refusal::NoPartition { need, have });
    }
    Ok(Placement { places })
}

#[cfg(test)]
mod tests;
