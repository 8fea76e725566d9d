//! Read-outs over a view of two tasks, of which the first has frozen partitions.
ghost use Rattle.std.specs.Prelude.{◌≡◌, ℕ, ◌+◌, ◌^◌, ◌<◌, ◌≤◌, ◌==◌, if◌then◌else◌, ◌∷◌, [], Some, None, length, IfSome, IfOk};
ghost use Rattle.addr_translate.specs.Geometry.{equal_geometry};
ghost use Rattle.sketch_defs.specs.declared.kinds.Kind.TheVariants.{Cms, Hll};
ghost use Rattle.addr_translate.specs.Blocks.{IsAligned};
ghost use Rattle.group_keys.specs.declared.uses.KeyUse.TheVariants.{Single, Pair};
ghost use Rattle.readout.specs.PlacedTasks.{AreWithin, IsFit, IsShaped};

use crate::places::part_of;
use crate::{Ask, Placed, ReadFault, Readout, Refusal, Side, TaskView, refused_line};
use addr_translate::{GroupShape, Region, Shape};
use fm_io::MemSink;
use group_keys::KeyUse;
use hash_units::standard;
use key_mask::{Mask, parse_key};
use pkt_headers::Attr;
use reg_file::{DeviceFault, RegFile, TraceFile};
use sketch_defs::{Kind, Name, Task};
use std::alloc::Global;
use std::test::Fail;
use task_filters::Filter;

/// Four arrays of 1,024 registers.
fn four_arrays() -> Shape
    ensures { result ≡ equal_geometry 2 (record { cmus = 2; units = 2; bits = 10 }) 5 }
{
    let group = GroupShape {
        cmus: 2,
        units: 2,
        bits: 10,
    };
    Shape::equal(2, group, 5)
}

/// A task of two rows, and one of one row.
#[derive(Clone, Copy, Debug)]
struct TwoTasks {
    hot: Task,
    first: Placed,
    second: Placed,
    other: Task,
    third: Placed,
}

impl TaskView for TwoTasks {
    ghost seen = { λ view. record {
      geometry = equal_geometry 2 (record { cmus = 2; units = 2; bits = 10 }) 5;
      tasks = (record { task = view.hot; places = view.first ∷ view.second ∷ [] }) ∷ (record { task = view.other; places = view.third ∷ [] }) ∷ [];
      mask = λ group unit. if unit == 0 then Some view.hot.key else None;
      free = λ array. 7;
      largest = λ array. 4;
      rows = λ array. 1;
    } };

    fn shape(&self) -> Shape {
        four_arrays()
    }

    fn count(&self) -> usize {
        2
    }

    fn find(&self, name: &Name) -> Option<usize> {
        if self.hot.name().bytes() == name.bytes() {
            Some(0)
        } else if self.other.name().bytes() == name.bytes() {
            Some(1)
        } else {
            None
        }
    }

    fn task(&self, at: usize) -> &Task {
        if at == 0 { &self.hot } else { &self.other }
    }

    fn placed(&self, at: usize, row: u32) -> Placed {
        match (at, row) {
            (0, 0) => self.first,
            (0, _) => self.second,
            _ => self.third,
        }
    }

    fn unit(&self, _group: u32, unit: u32) -> Option<Mask> {
        if unit == 0 {
            Some(*self.hot.key())
        } else {
            None
        }
    }

    fn free_count(&self, _array: u32) -> u32 {
        7
    }

    fn largest(&self, _array: u32) -> u32 {
        4
    }

    fn live_rows(&self, _array: u32) -> u32 {
        1
    }

    fn cell<R: RegFile>(
        &self,
        regs: &mut R,
        at: usize,
        side: Side,
        row: u32,
        index: u32,
    ) -> Result<u32, DeviceFault> {
        let place = self.placed(at, row);
        let array = place.array;
        let base = part_of(place, side).base;
        let addr = base + index;
        regs.read(array, addr)
    }
}

/// A key of one unit.
const SINGLE: KeyUse = KeyUse::Single { unit: 0 };

/// A key of two units.
const PAIR: KeyUse = KeyUse::Pair { one: 0, two: 1 };

/// A row on this array, with its partition and key.
fn place(array: u32, base: u32, bits: u32, keys: KeyUse, frozen: Option<Region>) -> Placed
    requires { IsAligned base bits }
    ensures { result ≡ (record { array = array; region = record { base = base; bits = bits }; keys = keys; frozen = frozen }) }
{
    let region = Region { base, bits };
    Placed {
        array,
        region,
        keys,
        frozen,
    }
}

/// The view of a task of two rows of 4 cells, with frozen rows of 2, and of a task of one row of
/// `2^bits` cells.
fn view_of(hot: Task, other: Task, bits: u32) -> TwoTasks
    requires hot_rows { hot.rows ≡ 2 }
    requires hot_size { hot.size ≡ 4 }
    requires hot_kind { hot.kind ≡ Cms }
    requires other_rows { other.rows ≡ 1 }
    requires other_size { other.size ≡ 2 ^ bits }
    requires few { bits ≤ 9 }
    requires ranks { other.kind ≡ Hll → 4 ≤ bits }
    ensures fit { IsFit (⟦<TwoTasks as TaskView>⟧.seen result) }
    ensures room { AreWithin 9 (⟦<TwoTasks as TaskView>⟧.seen result) }
{
    TwoTasks {
        hot,
        first: place(1, 32, 2, SINGLE, Some(Region { base: 8, bits: 1 })),
        second: place(3, 64, 2, PAIR, Some(Region { base: 16, bits: 1 })),
        other,
        third: place(0, 0, bits, SINGLE, None),
    }
}

/// A task of this kind that counts packets, or distinct flows, by their source.
fn task_of(name: &[u8], kind: Kind, rows: u32, attr: Attr, size: u32) -> Option<Task>
    ensures kind { IfSome result (λ task. task.kind ≡ kind) }
    ensures rows { IfSome result (λ task. task.rows ≡ rows) }
    ensures size { IfSome result (λ task. task.size ≡ size) }
{
    let name = Name::parse(name)?;
    let key = parse_key(b"src_ip").ok()?;
    let filter = Filter::parse(b"all").ok()?;
    Task::new(name, kind, rows, key, attr, filter, size).ok()
}

/// Registers of the view's shape. The first call shapes them, six put values into the cells of both
/// tasks and into the frozen rows, and each further one reads.
fn registers(alloc: Global, failing: Vec<u64>) -> Result<TraceFile, Fail>
    ensures { IfOk result (λ regs. IsShaped (equal_geometry 2 (record { cmus = 2; units = 2; bits = 10 }) 5) (⟦<TraceFile as RegFile>⟧.dims regs)) }
{
    let mut regs = TraceFile::new(alloc, 0, failing)?;
    regs.shape(alloc, 4, 10)?;
    regs.fill(1, 32, 1, 5)?;
    regs.fill(1, 34, 1, 9)?;
    regs.fill(3, 66, 1, 3)?;
    regs.fill(1, 9, 1, 2)?;
    regs.fill(3, 16, 1, 8)?;
    regs.fill(0, 0, 512, 7)?;
    Ok(regs)
}

/// The view with a second task of 512 cells, each of which counts.
fn sizes_view() -> Option<TwoTasks>
    ensures fit { IfSome result (λ view. IsFit (⟦<TwoTasks as TaskView>⟧.seen view)) }
    ensures room { IfSome result (λ view. AreWithin 9 (⟦<TwoTasks as TaskView>⟧.seen view)) }
{
    let hot = task_of(b"hot", Kind::Cms, 2, Attr::Packets, 4)?;
    let other = task_of(b"m", Kind::Mrac, 1, Attr::Packets, 512)?;
    Some(view_of(hot, other, 9))
}

/// What the calls of a read-out send that have a name and nothing else.
#[derive(Clone, Copy, Debug)]
enum Call {
    Show,
    Stat,
    Read,
    Frozen,
    Dist,
    Card,
    Query(&'static str),
}

/// The block of all tasks.
const SHOWN: &str = "tasks 2
task hot cms 2 key=src_ip attr=packets filter=all memory=4
row 0 group 0 cmu 1 base 32 size 4 keys 0 frozen base 8 size 2
row 1 group 1 cmu 1 base 64 size 4 keys 0+1 frozen base 16 size 2
task m mrac 1 key=src_ip attr=packets filter=all memory=512
row 0 group 0 cmu 0 base 0 size 512 keys 0
end
";

/// The block of what is in use.
const USED: &str = "stat groups 2 arrays 4
group 0 units ffffffff000000000000000000000000 -
group 1 units ffffffff000000000000000000000000 -
array 0 free 7 largest 4 live 1
array 1 free 7 largest 4 live 1
array 2 free 7 largest 4 live 1
array 3 free 7 largest 4 live 1
end
";

/// Calls, the task, what they answer, and what they send.
const REPLIES: [(Call, &str, Result<(), ReadFault>, &str); 15] = [
    (Call::Show, "hot", Ok(()), SHOWN),
    (Call::Stat, "hot", Ok(()), USED),
    (
        Call::Read,
        "hot",
        Ok(()),
        "read hot rows 2 size 4 start 0\ncell 0 0 5\ncell 0 2 9\ncell 1 2 3\nend\n",
    ),
    (
        Call::Frozen,
        "hot",
        Ok(()),
        "frozen hot rows 2 size 2 start 0\ncell 0 1 2\ncell 1 0 8\nend\n",
    ),
    // The hash of 10.0.0.1 begins with 0x91, and its second byte with 0x9d: cell 2 of both rows.
    (
        Call::Query("src_ip:10.0.0.1"),
        "hot",
        Ok(()),
        "query hot 3\n",
    ),
    (Call::Query("proto:6"), "hot", Err(ReadFault::BadKey), ""),
    (Call::Query("all"), "m", Err(ReadFault::NoAnswer), ""),
    (Call::Dist, "m", Ok(()), "dist m\nsize 7 cells 512\nend\n"),
    (Call::Dist, "hot", Err(ReadFault::NoAnswer), ""),
    (Call::Card, "m", Err(ReadFault::NoAnswer), ""),
    (Call::Card, "gone", Err(ReadFault::Unknown), ""),
    (Call::Frozen, "m", Err(ReadFault::NoFrozen), ""),
    (Call::Read, "gone", Err(ReadFault::Unknown), ""),
    (Call::Query("all"), "gone", Err(ReadFault::Unknown), ""),
    (Call::Dist, "gone", Err(ReadFault::Unknown), ""),
];

/// Carries out the call.
fn answer(
    readout: &mut Readout,
    view: &TwoTasks,
    regs: &mut TraceFile,
    call: Call,
    name: &Name,
    sink: &mut MemSink,
) -> Result<(), ReadFault>
    requires fit { IsFit (⟦<TwoTasks as TaskView>⟧.seen view.now) }
    requires shaped { IsShaped (equal_geometry 2 (record { cmus = 2; units = 2; bits = 10 }) 5) (⟦<TraceFile as RegFile>⟧.dims regs.old) }
    requires room { AreWithin readout.old (⟦<TwoTasks as TaskView>⟧.seen view.now) }
    ensures shaped { ⟦<TraceFile as RegFile>⟧.dims regs.new ≡ ⟦<TraceFile as RegFile>⟧.dims regs.old }
    ensures room { readout.new ≡ readout.old }
{
    match call {
        Call::Show => readout.show(view, sink),
        Call::Stat => readout.stat(view, sink),
        Call::Read => readout.cells(view, regs, name, Side::Live, sink),
        Call::Frozen => readout.cells(view, regs, name, Side::Frozen, sink),
        Call::Dist => readout.dist(view, regs, name, sink),
        Call::Card => readout.card(view, regs, name, sink),
        Call::Query(at) => {
            let Ok(at) = Filter::parse(at.as_bytes()) else {
                return Err(ReadFault::BadKey);
            };
            readout.query(view, regs, &standard(), name, &at, sink)
        }
    }
}

/// What a call answers, and what it sends to a sink of this room, where these calls of the
/// registers fail.
fn reply_of(
    alloc: Global,
    call: Call,
    name: &str,
    failing: Vec<u64>,
    room: usize,
) -> Result<(Result<(), ReadFault>, MemSink), Fail> {
    let view = sizes_view().ok_or("a view")?;
    let name = Name::parse(name.as_bytes()).ok_or("a name")?;
    let mut readout = Readout::new(alloc, 9)?;
    let mut regs = registers(alloc, failing)?;
    let mut sink = MemSink::new(alloc, room, 4096, Vec::new(alloc))?;
    let result = answer(&mut readout, &view, &mut regs, call, &name, &mut sink);
    Ok((result, sink))
}

/// The lines of 512 cells that hold 7.
fn block(alloc: Global) -> Result<String, Fail> {
    let mut text = String::from_str(alloc, "read m rows 1 size 512 start 0\n")?;
    for index in 0..512u32 {
        let line = format!(in alloc; "cell 0 {index} 7\n")?;
        text.push_str(line.as_str())?;
    }
    text.push_str("end\n")?;
    Ok(text)
}

#[test]
fn answers_of_two_tasks(rt: HostRuntime) -> Result<(), Fail> {
    let alloc = rt.alloc();
    for (call, name, wanted, text) in REPLIES {
        let (result, sink) = reply_of(alloc, call, name, Vec::new(alloc), 4096)?;
        assert_eq!(rt; result, wanted, "at {call:?}");
        assert_eq!(rt; sink.sent(), text.as_bytes(), "at {call:?}");
    }
    Ok(())
}

/// Calls that are refused before the first register is read, which is call 8.
const REFUSED: [(Call, &str, ReadFault); 5] = [
    (Call::Frozen, "m", ReadFault::NoFrozen),
    (Call::Card, "hot", ReadFault::NoAnswer),
    (Call::Dist, "hot", ReadFault::NoAnswer),
    (Call::Query("all"), "m", ReadFault::NoAnswer),
    (Call::Query("all"), "hot", ReadFault::BadKey),
];

#[test]
fn refusals_read_no_register(rt: HostRuntime) -> Result<(), Fail> {
    let alloc = rt.alloc();
    for (call, name, fault) in REFUSED {
        let (result, sink) = reply_of(alloc, call, name, vec![in alloc; 8]?, 4096)?;
        assert_eq!(rt; result, Err(fault), "at {call:?}");
        assert_eq!(rt; sink.sent(), b"".as_slice(), "at {call:?}");
    }
    Ok(())
}

/// How many bytes of the block were sent where call `failing` fails and the sink has this room. A
/// piece is sent where fewer than 512 bytes are left in it: one of 3,587 holds the head and 282
/// lines.
const STOPS: [(u64, usize, Result<(), ReadFault>, usize); 6] = [
    (0, 8192, Ok(()), 6581),
    (9, 8192, Err(ReadFault::Device), 0),
    (408, 8192, Err(ReadFault::Device), 3587),
    (519, 8192, Err(ReadFault::Device), 3587),
    (0, 100, Err(ReadFault::Write), 100),
    (0, 5000, Err(ReadFault::Write), 5000),
];

#[test]
fn blocks_stop_within(rt: HostRuntime) -> Result<(), Fail> {
    let alloc = rt.alloc();
    let text = block(alloc)?;
    assert_eq!(rt; text.as_bytes().len(), 6581);
    for (failing, room, wanted, count) in STOPS {
        let (result, sink) = reply_of(alloc, Call::Read, "m", vec![in alloc; failing]?, room)?;
        assert_eq!(rt; result, wanted, "at {failing} and {room}");
        assert_eq!(rt;
            sink.sent(),
            &text.as_bytes()[..count],
            "at {failing} and {room}"
        );
    }
    Ok(())
}

#[test]
fn view_of_four_arrays(rt: HostRuntime) -> Result<(), Fail> {
    let view = sizes_view().ok_or("a view")?;
    assert_eq!(rt; view.shape(), four_arrays());
    assert_eq!(rt; view.count(), 2);
    assert_eq!(rt; view.unit(1, 1), None);
    assert_eq!(rt; view.unit(1, 0), Some(*view.task(0).key()));
    assert_eq!(rt; view.free_count(3), 7);
    assert_eq!(rt; view.largest(3), 4);
    assert_eq!(rt; view.live_rows(3), 1);
    Ok(())
}

#[test]
fn requests_of_two_tasks(rt: HostRuntime) -> Result<(), Fail> {
    let alloc = rt.alloc();
    let name = Name::parse(b"hot").ok_or("a name")?;
    let view = sizes_view().ok_or("a view")?;
    let mut readout = Readout::new(alloc, 9)?;
    let mut regs = registers(alloc, Vec::new(alloc))?;
    let mut sink = MemSink::new(alloc, 4096, 4096, Vec::new(alloc))?;
    let ask = Ask::Dist;
    let refused = readout.read_out(&view, &mut regs, &standard(), &name, &ask, &mut sink);
    assert_eq!(rt; refused, Ok(Err(Refusal::NoAnswer)));
    assert_eq!(rt; sink.sent(), b"".as_slice());
    let line = refused_line(&ask, &name, Refusal::NoAnswer);
    assert_eq!(rt; line.as_str(), "refused dist hot no answer\n");
    let other = Name::parse(b"m").ok_or("a name")?;
    let told = readout.read_out(&view, &mut regs, &standard(), &other, &ask, &mut sink);
    assert_eq!(rt; told, Ok(Ok(())));
    Ok(())
}
