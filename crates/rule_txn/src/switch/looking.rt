//! Packets that pass, and what a switch tells of its tasks and arrays.
ghost use Rattle.std.specs.Prelude.{◌≡◌, ◌<◌, ◌≤◌, ◌^◌, length, map, slice_index_or, IfOk, IfSome};
ghost use Rattle.outside.specs.Faults.{HasCause};
ghost use Rattle.addr_translate.specs.Geometry.{IsGeometry, array_count, greatest_bits};
ghost use Rattle.reg_file.specs.Calls.{MakesOver};
ghost use Rattle.reg_file.specs.Reads.{OnlyReads};
ghost use Rattle.pipe_core.specs.Rules.{IsPipe, IsShaped};
ghost use Rattle.pipe_core.specs.Flow.{calls_over, stages_in};
ghost use Rattle.readout.specs.PlacedTasks.{task_in, place_in, no_place, live_bits, frozen_bits, IsPlaced, block_of, HasSide, IsFit, AreWithin, register_at};
ghost use Rattle.switch_model.specs.Sights.{all_held, all_spots, all_uses};
ghost use Rattle.switch_model.specs.Soundness.{Sound};
ghost use Rattle.rule_txn.specs.State.{there};
ghost use Rattle.rule_txn.specs.Switch.{pool_for, placed_table, tables_for, groups_for, rules_for};
ghost use Rattle.rule_txn.specs.Seen.{PassesOver, placed_row, view_of};

use super::Switch;
use crate::rows::Leased;
use addr_translate::{Region, Shape};
use partition_pool::Pool;
use pipe_core::Pipe;
use pkt_headers::Packet;
use readout::{Placed, Side};
use reg_file::{DeviceFault, RegFile};
use sketch_defs::Task;

impl Switch {
    /// Passes a packet: each row that takes it makes one operation.
    pub fn packet<R: RegFile>(&self, regs: &mut R, packet: &Packet)
        requires { IsShaped self.now.geometry (R.dims regs.old) }
        ensures faults { R.faults regs.new ≡ R.faults regs.old }
        ensures dims { R.dims regs.new ≡ R.dims regs.old }
        ensures step { MakesOver (λ contents. calls_over (rules_for self.now) contents packet.now)
            (R.contents regs.old) (R.contents regs.new) (R.calls regs.old) (R.calls regs.new) }
        ensures over { PassesOver self.now packet.now (R.contents regs.old) (R.contents regs.new) (R.calls regs.old) (R.calls regs.new) }
    {
        self.pipe().step(packet, regs);
    }

    /// What arrays and units there are. They never change.
    pub fn shape(&self) -> Shape
        ensures value { result ≡ self.now.geometry }
        ensures limits { IsGeometry self.now.geometry }
        ensures sound { Sound self.now.geometry self.now.outlines }
        ensures fit { IsFit (view_of self.now) }
        ensures within { AreWithin (greatest_bits self.now.geometry) (view_of self.now) }
    {
        *self.stage.pipe().shape()
    }

    /// A live task, with its present size.
    pub fn task(&self, at: usize) -> &Task
        requires { at < length self.now.outlines }
        ensures { result.now ≡ (task_in (view_of self.now) at).task }
    {
        self.records[at].task()
    }

    /// Where a row of a live task stands.
    pub fn placed(&self, at: usize, row: u32) -> Placed
        requires task { at < length self.now.outlines }
        requires row { row < length (task_in (view_of self.now) at).places }
        ensures value { result ≡ place_in (view_of self.now) at row }
        ensures stands { let placed = task_in (view_of self.now) at in
            IsPlaced self.now.geometry (live_bits placed) (frozen_bits placed) (place_in (view_of self.now) at row) }
        ensures limits { IsGeometry self.now.geometry }
    {
        place_among(self.records[at].rows(), row)
    }

    /// The tables of all arrays, and the units of all groups.
    pub fn pipe(&self) -> &Pipe
        ensures whole { IsPipe result.now }
        ensures geometry { result.now.geometry ≡ self.now.geometry }
        ensures hash_key { result.now.hash_key ≡ self.now.hash_key }
        ensures tables { map placed_table result.now.tables ≡ tables_for self.now.geometry (all_spots self.now.outlines) }
        ensures groups { result.now.groups ≡ groups_for self.now.geometry (all_uses self.now.geometry self.now.outlines) }
        ensures acts { stages_in result.now ≡ stages_in (rules_for self.now) }
    {
        let pipe = self.stage.pipe();
        // For its clause `whole`.
        let _ = pipe.shape();
        pipe
    }

    /// The pool of an array.
    pub fn pool(&self, array: u32) -> &Pool
        requires { array < array_count self.now.geometry }
        ensures { result.now ≡ pool_for self.now.geometry (all_held self.now.outlines) array }
    {
        &self.stage.pools()[array as usize]
    }

    /// The register at this index of a row's partition.
    pub fn cell<R: RegFile>(
        &self,
        regs: &mut R,
        at: usize,
        side: Side,
        row: u32,
        index: u32,
    ) -> Result<u32, DeviceFault>
        requires shaped { IsShaped self.now.geometry (R.dims regs.old) }
        requires task { at < length self.now.outlines }
        requires row { row < length (task_in (view_of self.now) at).places }
        requires side { HasSide side (task_in (view_of self.now) at) }
        requires index { index < 2 ^ (block_of side (place_in (view_of self.now) at row)).bits }
        ensures cause { HasCause (R.faults regs.old) (R.faults regs.new) result }
        ensures reads { OnlyReads R.RegFile regs.old regs.new }
        ensures value { IfOk result (λ value. IfSome (R.contents regs.new) (λ told.
            value ≡ register_at told side (place_in (view_of self.now) at row) index)) }
    {
        let placed = self.placed(at, row);
        regs.read(placed.array, region_of(&placed, side).base + index)
    }
}

/// The region of a side; the live one where nothing is frozen.
fn region_of(placed: &Placed, side: Side) -> Region
    ensures { result ≡ block_of side placed.now }
{
    match side {
        Side::Live => placed.region,
        Side::Frozen => placed.frozen.unwrap_or(placed.region),
    }
}

fn placed_by(row: &Leased) -> Placed
    ensures { result ≡ placed_row row.now }
{
    Placed {
        array: row.array(),
        region: row.region(),
        keys: row.keys(),
        frozen: row.frozen_region(),
    }
}

/// Where the row of this number stands, of those that are there.
fn place_among(rows: &[Option<Leased>], row: u32) -> Placed
    requires { row < length (there rows.now) }
    ensures { result ≡ slice_index_or (map placed_row (there rows.now)) row no_place }
{
    match rows {
        [] => unreachable!(),
        [None, rest @ ..] => place_among(rest, row),
        [Some(first), rest @ ..] => {
            if row == 0 {
                placed_by(first)
            } else {
                place_among(rest, row - 1)
            }
        }
    }
}
