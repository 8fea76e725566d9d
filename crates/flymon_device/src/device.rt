//! Calls on a switch whose device fails, and the same calls made again.
ghost use Rattle.pipe_core.specs.Rules.{IsShaped};
ghost use Rattle.readout.specs.PlacedTasks.{IsFit};
ghost use Rattle.rule_txn.specs.Seen.{view_of};

use fm_io::MemSink;
use group_keys::GroupKeys;
use hash_units::standard;
use readout::{ReadFault, Readout, Side};
use reg_file::{RegFile, TraceFile};
use rule_txn::{AddFault, ResizeFault, StartFail, Switch};
use sketch_defs::{Name, Task};
use std::alloc::{AllocError, Global};
use std::process::Abort;
use std::test::Fail;
use sw_profile::default_profile;
use task_lang::{Command, parse_script};

/// A task of four rows, of which three stand in the first group.
const FOUR_ROWS: &[u8] = b"add t flag_and 4 key=src_ip attr=flags filter=all memory=256";

fn four_rows(alloc: Global) -> Result<Task, Fail> {
    let commands = parse_script(alloc, FOUR_ROWS)?;
    match commands.first() {
        Some(Command::Add(task)) => Ok(*task),
        _ => Err("a task")?,
    }
}

/// The free registers and the entries of each array, and whether all units of each group are free.
fn uses_of(alloc: Global, switch: &Switch) -> Result<Vec<u32>, AllocError> {
    let mut uses = Vec::new(alloc);
    let pipe = switch.pipe();
    'arrays: for array in 0..pipe.shape().arrays() {
        uses.push(switch.pool(array).free_count())?;
        uses.push(pipe.table(array).entries().len() as u32)?;
    }
    'groups: for units in pipe.groups() {
        uses.push(if *units == GroupKeys::new(3) { 0 } else { 1 })?;
    }
    Ok(uses)
}

/// No task; a task of four rows of 256 registers; the same resized to 512.
const UNUSED: [u32; 21] = [
    1024, 0, 1024, 0, 1024, 0, 1024, 0, 1024, 0, 1024, 0, 1024, 0, 1024, 0, 1024, 0, 0, 0, 0,
];

const ADDED: [u32; 21] = [
    768, 1, 768, 1, 768, 1, 768, 1, 1024, 0, 1024, 0, 1024, 0, 1024, 0, 1024, 0, 1, 1, 0,
];

const RESIZED: [u32; 21] = [
    256, 1, 256, 1, 256, 1, 256, 1, 1024, 0, 1024, 0, 1024, 0, 1024, 0, 1024, 0, 1, 1, 0,
];

/// Aborts unless the switch uses so much.
fn expect_uses(rt: &impl Abort, alloc: Global, switch: &Switch, case: u64, wanted: &[u32; 21]) {
    let uses = uses_of(alloc, switch).expect(rt, "memory");
    assert_eq!(rt; uses.as_slice(), wanted.as_slice(), "at {case}");
}

/// Adds a task; the registers keep their shape.
#[tactic(auto, using(crate::proofs::SwitchLemmas::stays_shaped))]
fn add_to<R: RegFile>(switch: &mut Switch, regs: &mut R, task: &Task) -> Result<(), AddFault>
    requires { IsShaped switch.old.geometry (R.dims regs.old) }
    ensures { IsShaped switch.new.geometry (R.dims regs.new) }
{
    switch.add(regs, task)
}

/// Resizes a task; the registers keep their shape.
#[tactic(auto, using(crate::proofs::SwitchLemmas::stays_shaped))]
fn resize_in<R: RegFile>(
    switch: &mut Switch,
    regs: &mut R,
    name: &Name,
    size: u32,
) -> Result<(), ResizeFault>
    requires { IsShaped switch.old.geometry (R.dims regs.old) }
    ensures { IsShaped switch.new.geometry (R.dims regs.new) }
{
    switch.resize(regs, name, size)
}

#[test]
fn starts_again(rt: HostRuntime) -> Result<(), Fail> {
    let alloc = rt.alloc();
    let shape = default_profile().shape;
    let mut regs = TraceFile::new(alloc, 0, vec![in alloc; 1]?)?;
    match Switch::start(alloc, shape, standard(), &mut regs) {
        Ok(switch) => switch.close(),
        Err(fail) => assert_eq!(rt; fail, StartFail::Device),
    }
    match Switch::start(alloc, shape, standard(), &mut regs) {
        Ok(switch) => {
            expect_uses(&rt, alloc, &switch, 2, &UNUSED);
            switch.close();
            Ok(())
        }
        Err(_) => Err("a switch")?,
    }
}

#[test]
fn adds_and_resizes_again(rt: HostRuntime) -> Result<(), Fail> {
    let alloc = rt.alloc();
    let task = four_rows(alloc)?;
    // Call 1 shapes the registers; each row is filled by a call.
    for failing in 2..10u64 {
        let mut regs = TraceFile::new(alloc, 0, vec![in alloc; failing]?)?;
        let Ok(mut switch) = Switch::start(alloc, default_profile().shape, standard(), &mut regs)
        else {
            return Err("a switch")?;
        };
        if failing < 6 {
            assert_eq!(rt;
                add_to(&mut switch, &mut regs, &task),
                Err(AddFault::Device),
                "at {failing}"
            );
            assert_eq!(rt; switch.count(), 0);
            assert_eq!(rt; switch.find(task.name()), None);
            expect_uses(&rt, alloc, &switch, failing, &UNUSED);
        }
        assert_eq!(rt;
            add_to(&mut switch, &mut regs, &task),
            Ok(()),
            "at {failing}"
        );
        assert_eq!(rt; switch.find(task.name()), Some(0));
        expect_uses(&rt, alloc, &switch, failing, &ADDED);
        if failing >= 6 {
            let refused = resize_in(&mut switch, &mut regs, task.name(), 512);
            assert_eq!(rt; refused, Err(ResizeFault::Device), "at {failing}");
            expect_uses(&rt, alloc, &switch, failing, &ADDED);
        }
        assert_eq!(rt;
            resize_in(&mut switch, &mut regs, task.name(), 512),
            Ok(()),
            "at {failing}"
        );
        assert_eq!(rt; switch.count(), 1);
        expect_uses(&rt, alloc, &switch, failing, &RESIZED);
        switch.close();
    }
    Ok(())
}

/// Tells the cells of a task; the registers keep their shape.
fn read_from<R: RegFile>(
    reader: &Readout,
    switch: &Switch,
    regs: &mut R,
    name: &Name,
    side: Side,
    sink: &mut MemSink,
) -> Result<(), ReadFault>
    requires fit { IsFit (view_of switch.now) }
    requires shaped { IsShaped switch.now.geometry (R.dims regs.old) }
    ensures { IsShaped switch.now.geometry (R.dims regs.new) }
{
    reader.cells(switch, regs, name, side, sink)
}

#[test]
fn reads_again(rt: HostRuntime) -> Result<(), Fail> {
    let alloc = rt.alloc();
    let task = four_rows(alloc)?;
    let reader = Readout::new(alloc, 10)?;
    // Call 1 shapes the registers, the next eight fill the rows of both sizes, and the tenth is the first read.
    for (side, told) in [
        (Side::Live, "read t rows 4 size 512 start 4294967295\nend\n"),
        (
            Side::Frozen,
            "frozen t rows 4 size 256 start 4294967295\nend\n",
        ),
    ] {
        let mut regs = TraceFile::new(alloc, 0, vec![in alloc; 10u64]?)?;
        let mut sink = MemSink::new(alloc, 100, 100, Vec::new(alloc))?;
        let Ok(mut switch) = Switch::start(alloc, default_profile().shape, standard(), &mut regs)
        else {
            return Err("a switch")?;
        };
        assert_eq!(rt; add_to(&mut switch, &mut regs, &task), Ok(()));
        assert_eq!(rt; resize_in(&mut switch, &mut regs, task.name(), 512), Ok(()));
        assert_eq!(rt; switch.shape().greatest_bits(), 10);
        let refused = read_from(&reader, &switch, &mut regs, task.name(), side, &mut sink);
        assert_eq!(rt; refused, Err(ReadFault::Device), "at {side:?}");
        let read = read_from(&reader, &switch, &mut regs, task.name(), side, &mut sink);
        assert_eq!(rt; read, Ok(()), "at {side:?}");
        assert_eq!(rt; sink.sent(), told.as_bytes(), "at {side:?}");
        switch.close();
    }
    Ok(())
}
