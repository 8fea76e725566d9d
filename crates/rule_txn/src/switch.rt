//! The switch: its tasks, and the rules and partitions that serve them.
ghost use Rattle.std.specs.Prelude.{◌≡◌, ◌<◌, ◌≤◌, ◌^◌, [], length, position, slice_index_or, IfOk, IfSome, OnOk, IsErrOf, Option, List};
ghost use Rattle.outside.specs.Faults.{Rose};
ghost use Rattle.outside.specs.Told.{Told, Stays};
ghost use Rattle.addr_translate.specs.Geometry.{array_count};
ghost use Rattle.placer.specs.Placement.{pool_at};
ghost use Rattle.pipe_core.specs.Rules.{IsShaped};
ghost use Rattle.reg_file.specs.Registers.{AreZero};
ghost use Rattle.switch_model.specs.Records.{Outline};
ghost use Rattle.switch_model.specs.Changes.{Add, Resize, Remove, Release, judged, is_called};
ghost use Rattle.rule_txn.specs.Switch.{SwitchState};
ghost use Rattle.rule_txn.specs.Changes.{Answers, add_cause, resize_cause, remove_cause, release_cause};
ghost use Rattle.rule_txn.specs.Fills.{Refills};

mod looking;
mod starting;
mod view;

use crate::faults::{AddFault, ReleaseFault, ResizeFault, StartFail, Unknown};
use crate::rows::{Kept, arrays_in, copy_of, place_of, put_at, thaw_rows, with_size};
use crate::seats::arrays_of;
use crate::stage::Stage;
use addr_translate::Shape;
use hash_units::HashKey;
use placer::{Refusal, size_bits};
use reg_file::{RegFile, ShapeFail};
use sketch_defs::{Name, Task};
use sketch_lower::start_value;
use std::alloc::{AllocError, Global};
use std::marker::Model;

/// Live tasks in order of their addition. After its start no call takes memory.
pub struct Switch {
    records: Vec<Kept>,
    stage: Stage,
}

impl Model for Switch {
    ghost use Rattle.std.specs.Prelude.{vec_capacity};
    ghost use Rattle.rule_txn.specs.Switch.{SwitchState, IsSwitch};

    ghost Value = { SwitchState };

    ghost view = { λ s. record { geometry = s.stage.geometry; hash_key = s.stage.hash_key; outlines = s.records.items } };

    ghost invariant = { λ s. IsSwitch s.records.items s.stage (vec_capacity s.records) };
}

impl Switch {
    /// Adds a task behind the others: on the first arrays that are open to it and have a free
    /// partition of its size, with its registers at what the kind starts with.
    pub fn add<R: RegFile>(&mut self, regs: &mut R, task: &Task) -> Result<(), AddFault>
        requires { IsShaped self.old.geometry (R.dims regs.old) }
        ensures answer { Answers add_cause (judged self.old.geometry self.old.outlines (Add task.now)) result self.old self.new }
        ensures later { R.faults regs.old ≤ R.faults regs.new }
        ensures device { IsErrOf result AddFault.Device → Rose (R.faults regs.old) (R.faults regs.new) }
        ensures dims { R.dims regs.new ≡ R.dims regs.old }
        ensures contents { Told (Refills (judged self.old.geometry self.old.outlines (Add task.now)) result) (R.contents regs.old) (R.contents regs.new) }
        ensures calls { Stays (R.calls regs.old) (R.calls regs.new) }
    {
        if self.find(task.name()).is_some() {
            return Err(AddFault::Exists);
        }
        let shape = *self.stage.pipe().shape();
        let Some(bits) = size_bits(shape, task.kind(), task.size()) else {
            return Err(AddFault::BadMemory { size: task.size() });
        };
        let places = match self.stage.plan(task) {
            Ok(places) => places,
            Err(Refusal::NoUnit { need, have }) => return Err(AddFault::NoUnit { need, have }),
            Err(Refusal::NoPartition { need, have }) => {
                return Err(AddFault::NoPartition { need, have });
            }
        };
        let copy = copy_of(task);
        let served = self.stage.served_all(task, &places);
        let start = start_value(task.kind());
        match self.stage.fresh(regs, arrays_of(&places), bits, start) {
            Err(_) => Err(AddFault::Device),
            Ok(leases) => {
                let rows = self.stage.settle_all(task, served, leases);
                self.records.push_reserved(Kept::new(copy, None, rows));
                Ok(())
            }
        }
    }

    /// Moves the rows of a task to the lowest free partitions of another size, with their registers
    /// at what the kind starts with. The old partitions are frozen: they keep their registers and
    /// take no packets.
    pub fn resize<R: RegFile>(
        &mut self,
        regs: &mut R,
        name: &Name,
        size: u32,
    ) -> Result<(), ResizeFault>
        requires { IsShaped self.old.geometry (R.dims regs.old) }
        ensures answer { Answers resize_cause (judged self.old.geometry self.old.outlines (Resize name.now size)) result self.old self.new }
        ensures later { R.faults regs.old ≤ R.faults regs.new }
        ensures device { IsErrOf result ResizeFault.Device → Rose (R.faults regs.old) (R.faults regs.new) }
        ensures dims { R.dims regs.new ≡ R.dims regs.old }
        ensures contents { Told (Refills (judged self.old.geometry self.old.outlines (Resize name.now size)) result) (R.contents regs.old) (R.contents regs.new) }
        ensures calls { Stays (R.calls regs.old) (R.calls regs.new) }
    {
        let Some(at) = self.find(name) else {
            return Err(ResizeFault::Unknown);
        };
        let kept = &self.records[at];
        if kept.frozen().is_some() {
            return Err(ResizeFault::FrozenHeld);
        }
        let shape = *self.stage.pipe().shape();
        let Some(bits) = size_bits(shape, kept.task().kind(), size) else {
            return Err(ResizeFault::BadMemory { size });
        };
        match self.stage.room_for(kept.rows(), bits) {
            Ok(()) => {}
            Err(refusal) => return Err(ResizeFault::NoRoom { row: refusal.row }),
        }
        let (task, frozen, rows) = self.records.remove(at).apart();
        let start = start_value(task.kind());
        match self.stage.fresh(regs, arrays_in(&rows), bits, start) {
            Err(_) => {
                put_at(&mut self.records, at, Kept::new(task, frozen, rows));
                Err(ResizeFault::Device)
            }
            Ok(leases) => {
                let sized = with_size(&task, size);
                let rows = self.stage.move_all(&sized, rows, leases);
                put_at(
                    &mut self.records,
                    at,
                    Kept::new(sized, Some(task.size()), rows),
                );
                Ok(())
            }
        }
    }

    /// Takes a task away, and gives back its live and frozen partitions.
    pub fn remove(&mut self, name: &Name) -> Result<(), Unknown>
        ensures { Answers remove_cause (judged self.old.geometry self.old.outlines (Remove name.now)) result self.old self.new }
    {
        let Some(at) = self.find(name) else {
            return Err(Unknown);
        };
        let (_, _, rows) = self.records.remove(at).apart();
        let frozen = self.stage.clear_all(rows);
        self.stage.give_frozen_all(frozen);
        Ok(())
    }

    /// Gives back the frozen partitions of a task.
    pub fn release(&mut self, name: &Name) -> Result<(), ReleaseFault>
        ensures { Answers release_cause (judged self.old.geometry self.old.outlines (Release name.now)) result self.old self.new }
    {
        let Some(at) = self.find(name) else {
            return Err(ReleaseFault::Unknown);
        };
        if self.records[at].frozen().is_none() {
            return Err(ReleaseFault::NoFrozen);
        }
        let (task, _, rows) = self.records.remove(at).apart();
        let (rows, frozen) = thaw_rows(rows);
        self.stage.give_frozen_all(frozen);
        put_at(&mut self.records, at, Kept::new(task, None, rows));
        Ok(())
    }

    /// The place of the live task of this name.
    pub fn find(&self, name: &Name) -> Option<usize>
        ensures place { result ≡ position (is_called name.now) self.now.outlines }
        ensures exists { IfSome result (λ at. at < length self.now.outlines) }
    {
        place_of(&self.records, name)
    }

    /// The number of live tasks.
    pub fn count(&self) -> usize
        ensures { result ≡ length self.now.outlines }
    {
        self.records.len()
    }
}
