//! A switch that begins, and one that ends.
ghost use Rattle.std.specs.Prelude.{◌≡◌, ◌≤◌, [], IfOk, IfSome, OnOk, IsErrOf};
ghost use Rattle.outside.specs.Faults.{Rose};
ghost use Rattle.outside.specs.Told.{Told};
ghost use Rattle.reg_file.specs.Registers.{AreZero};
ghost use Rattle.pipe_core.specs.Rules.{IsShaped};
ghost use Rattle.rule_txn.specs.Switch.{SwitchState, most_records};
ghost use Rattle.rule_txn.specs.Changes.{start_fail_of};
ghost use Rattle.rule_txn.specs.Seen.{StandsFor};

use super::Switch;
use crate::faults::StartFail;
use crate::stage::Stage;
use addr_translate::Shape;
use hash_units::HashKey;
use reg_file::{RegFile, ShapeFail};
use std::alloc::Global;

/// So many tasks may be live: each row has a partition, and an array at most `2^split` of them.
fn most_records(shape: &Shape) -> usize
    ensures { result ≡ most_records shape.now }
{
    (1usize << shape.split()) * shape.arrays() as usize
}

fn from_shape(fail: ShapeFail) -> StartFail
    ensures value { result ≡ start_fail_of fail }
    ensures device { result ≡ StartFail.Device → fail ≡ ShapeFail.Device }
{
    match fail {
        ShapeFail::Memory => StartFail::Memory,
        ShapeFail::Device => StartFail::Device,
    }
}

impl Switch {
    /// Shapes the register file, and begins with no tasks. All memory that the switch ever needs is
    /// taken here.
    pub fn start<R: RegFile>(
        alloc: Global,
        shape: Shape,
        key: HashKey,
        regs: &mut R,
    ) -> Result<Switch, StartFail>
        ensures switch { let first : SwitchState = record { geometry = shape; hash_key = key; outlines = [] } in
            IfOk result (λ switch. switch ≡ first) }
        ensures dims { OnOk result (IsShaped shape (R.dims regs.new)) }
        ensures zero { OnOk result (IfSome (R.contents regs.new) AreZero) }
        ensures contents { IfOk result (λ switch. IfSome (R.contents regs.new) (StandsFor switch [])) }
        ensures later { R.faults regs.old ≤ R.faults regs.new }
        ensures device { IsErrOf result StartFail.Device → Rose (R.faults regs.old) (R.faults regs.new) }
        ensures arrays { IsErrOf result StartFail.Device → (R.dims regs.new).arrays ≡ 0 }
        ensures calls { Told (λ _ now. now ≡ []) (R.calls regs.old) (R.calls regs.new) }
    {
        if let Err(fail) = regs.shape(alloc, shape.arrays(), shape.greatest_bits()) {
            return Err(from_shape(fail));
        }
        let Ok(stage) = Stage::new(alloc, shape, key) else {
            return Err(StartFail::Memory);
        };
        match Vec::with_capacity(alloc, most_records(stage.pipe().shape())) {
            Ok(records) => Ok(Switch { records, stage }),
            Err(_) => {
                stage.close();
                Err(StartFail::Memory)
            }
        }
    }

    /// Gives back every lease.
    pub fn close(self) {
        let Switch { records, stage } = self;
        let mut records = records;
        let mut stage = stage;
        'records: while let Some(kept) = records.pop() {
            let (_task, _size, rows) = kept.apart();
            let frozen = stage.clear_all(rows);
            stage.give_frozen_all(frozen);
        }
        records.destroy_empty();
        stage.close();
    }
}
