//! Where a task stands, and how many cells it has there.
ghost use Rattle.std.specs.Prelude.{◌≡◌, ◌^◌, ◌<◌, ◌≤◌, length};
ghost use Rattle.readout.specs.PlacedTasks.{task_in, place_in, block_of, IsFit};

use crate::views::{Placed, Side, TaskView};
use addr_translate::Region;

/// Where the first row of a task stands.
#[tactic(auto, using(crate::proofs::PlacedTaskLemmas::rows_placed))]
pub(crate) fn first_place<V: TaskView>(view: &V, at: usize) -> Placed
    requires fit { IsFit (V.seen view.now) }
    requires task { at < length (V.seen view.now).tasks }
    ensures value { result ≡ place_in (V.seen view.now) at 0 }
    ensures exists { 0 < length (task_in (V.seen view.now) at).places }
{
    let rows = view.task(at).rows();
    prove!(0 < rows);
    view.placed(at, 0)
}

/// The partition of the side.
pub(crate) fn part_of(place: Placed, side: Side) -> Region
    ensures { result ≡ block_of side place }
{
    match side {
        Side::Live => place.region,
        Side::Frozen => place.frozen.unwrap_or(place.region),
    }
}

/// The bits of an index into a partition.
pub(crate) fn bits_of(part: Region) -> u32
    ensures value { result ≡ part.bits }
    ensures few { result ≤ 20 }
{
    part.bits
}

/// How many registers a partition has.
pub(crate) fn cell_count(part: Region) -> u32
    ensures { result ≡ 2 ^ part.bits }
{
    1 << part.bits
}
