//! The switch as read-outs see it.
use super::Switch;
use addr_translate::Shape;
use key_mask::Mask;
use readout::{Placed, Side, TaskView};
use reg_file::{DeviceFault, RegFile};
use sketch_defs::{Name, Task};

impl TaskView for Switch {
    ghost use Rattle.rule_txn.specs.Seen.{view_of};

    ghost seen = { view_of };

    fn shape(&self) -> Shape {
        self.shape()
    }

    fn count(&self) -> usize {
        self.count()
    }

    fn find(&self, name: &Name) -> Option<usize> {
        self.find(name)
    }

    fn task(&self, at: usize) -> &Task {
        self.task(at)
    }

    fn placed(&self, at: usize, row: u32) -> Placed {
        self.placed(at, row)
    }

    fn unit(&self, group: u32, unit: u32) -> Option<Mask> {
        self.pipe().units(group).unit(unit)
    }

    fn free_count(&self, array: u32) -> u32 {
        self.pool(array).free_count()
    }

    fn largest(&self, array: u32) -> u32 {
        self.pool(array).largest()
    }

    // A live row has one entry in its array's table.
    fn live_rows(&self, array: u32) -> u32 {
        self.pipe().table(array).entries().len() as u32
    }

    fn cell<R: RegFile>(
        &self,
        regs: &mut R,
        at: usize,
        side: Side,
        row: u32,
        index: u32,
    ) -> Result<u32, DeviceFault> {
        self.cell(regs, at, side, row, index)
    }
}
