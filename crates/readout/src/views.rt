//! What a read-out needs of a switch.
ghost use Rattle.std.specs.Prelude.{◌≡◌, ◌^◌, ◌<◌, length, position, IfOk, IfSome};
ghost use Rattle.outside.specs.Faults.{HasCause};
ghost use Rattle.addr_translate.specs.Geometry.{array_count, group_in};
ghost use Rattle.reg_file.specs.Reads.{OnlyReads};
ghost use Rattle.readout.specs.PlacedTasks.{View, task_in, place_in, is_named, block_of, HasSide, IsFit, IsShaped, register_at};

use addr_translate::{Region, Shape};
use group_keys::KeyUse;
use key_mask::Mask;
use reg_file::{DeviceFault, RegFile};
use sketch_defs::{Name, Task};

/// The partitions that a task counts in, or those that a resize froze.
#[derive(Clone, Copy, Debug, PartialEq, Eq)]
pub enum Side {
    Live,
    Frozen,
}

/// Where a row of a task stands.
#[derive(Clone, Copy, Debug, PartialEq, Eq)]
pub struct Placed {
    pub array: u32,
    pub region: Region,
    pub keys: KeyUse,
    pub frozen: Option<Region>,
}

/// The tasks of a switch, in order of their addition, with their places, and what is in use.
pub trait TaskView {
    ghost seen: { Self → View };

    fn shape(&self) -> Shape
        ensures { result ≡ (seen self.now).geometry };

    /// The number of live tasks.
    fn count(&self) -> usize
        ensures { result ≡ length (seen self.now).tasks };

    /// The place of the live task of this name in the list.
    fn find(&self, name: &Name) -> Option<usize>
        ensures { result ≡ position (is_named name.now) (seen self.now).tasks };

    /// A task, with its present size.
    fn task(&self, at: usize) -> &Task
        requires { at < length (seen self.now).tasks }
        ensures { result.now ≡ (task_in (seen self.now) at).task };

    fn placed(&self, at: usize, row: u32) -> Placed
        requires task { at < length (seen self.now).tasks }
        requires row { row < length (task_in (seen self.now) at).places }
        ensures { result ≡ place_in (seen self.now) at row };

    /// The mask of a hash unit; none where it is free.
    fn unit(&self, group: u32, unit: u32) -> Option<Mask>
        requires group { group < length (seen self.now).geometry.groups }
        requires unit { unit < (group_in (seen self.now).geometry group).units }
        ensures { result ≡ (seen self.now).mask group unit };

    /// How many registers of the array are in no partition.
    fn free_count(&self, array: u32) -> u32
        requires { array < array_count (seen self.now).geometry }
        ensures { result ≡ (seen self.now).free array };

    /// How many registers the largest free partition of the array has; 0 where there is none.
    fn largest(&self, array: u32) -> u32
        requires { array < array_count (seen self.now).geometry }
        ensures { result ≡ (seen self.now).largest array };

    /// How many live rows stand on the array.
    fn live_rows(&self, array: u32) -> u32
        requires { array < array_count (seen self.now).geometry }
        ensures { result ≡ (seen self.now).rows array };

    /// The register at this index of a row's partition.
    fn cell<R: RegFile>(
        &self,
        regs: &mut R,
        at: usize,
        side: Side,
        row: u32,
        index: u32,
    ) -> Result<u32, DeviceFault>
        requires fit { IsFit (seen self.now) }
        requires shaped { IsShaped (seen self.now).geometry (R.dims regs.old) }
        requires task { at < length (seen self.now).tasks }
        requires row { row < length (task_in (seen self.now) at).places }
        requires side { HasSide side (task_in (seen self.now) at) }
        requires index { index < 2 ^ (block_of side (place_in (seen self.now) at row)).bits }
        ensures cause { HasCause (R.faults regs.old) (R.faults regs.new) result }
        ensures reads { OnlyReads R.RegFile regs.old regs.new }
        ensures value { IfOk result (λ value. IfSome (R.contents regs.new) (λ told.
            value ≡ register_at told side (place_in (seen self.now) at row) index)) };
}
