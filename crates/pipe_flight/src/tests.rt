//! The calls of packets in flight on a switch of three groups, and rules that change under them.
ghost use Rattle.std.specs.Prelude.{◌≡◌, ◌<◌, IfOk, IsTrue};
ghost use Rattle.std.specs.List.{list_any};
ghost use Rattle.addr_translate.specs.Geometry.{array_count};
ghost use Rattle.match_table.specs.Tables.{has_base};
ghost use Rattle.pipe_core.specs.Rules.{IsShaped, SameShape, entries_on};

use crate::flights::Flight;
use addr_translate::{GroupShape, Region, Shape};
use hash_units::standard;
use key_mask::{KEY_BYTES, KeyVec, parse_key};
use match_table::{Code, Entry, First, Micro, Second};
use pipe_core::Pipe;
use pkt_headers::{Attr, Packet};
use reg_file::{Call, RegFile, TraceFile};
use stateful_ops::Op;
use std::alloc::Global;
use std::test::Fail;
use task_filters::Filter;

/// Three groups of one array of 32 registers and one unit each.
fn three_arrays() -> Shape {
    let group = GroupShape {
        cmus: 1,
        units: 1,
        bits: 5,
    };
    Shape::equal(3, group, 5)
}

/// A TCP packet from 10.0.0 and this to 192.168.1.1.
fn packet_from(last: u8) -> Packet {
    let mut bytes = [0; KEY_BYTES];
    bytes[..13].copy_from_slice(&[10, 0, 0, last, 192, 168, 1, 1, 4, 0, 0, 80, 6]);
    Packet {
        vec: KeyVec(bytes),
        len: 54,
        ttl: 64,
        flags: 2,
    }
}

/// Row `group` of a count of packets by source address stands on the group's array.
fn put_row(pipe: &mut Pipe, group: u32) -> Result<(), Fail> {
    let mask = parse_key(b"src_ip").ok().ok_or("a key")?;
    if group >= pipe.shape().group_count() || mask.is_empty() || !pipe.units(group).has_room() {
        return Err("a group with room for uses")?;
    }
    let entry = Entry {
        row: group,
        filter: Filter::parse(b"all").ok().ok_or("a filter")?,
        keys: pipe.serve(group, &mask).ok_or("units")?,
        region: Region { base: 0, bits: 5 },
        micro: Micro {
            code: Code::CondAdd,
            first: First::Weight(Attr::Packets),
            second: Second::Top,
        },
    };
    put_in(pipe, group, entry)
}

/// Installs an entry on an array with none.
fn put_in(pipe: &mut Pipe, array: u32, entry: Entry) -> Result<(), Fail> {
    if array >= pipe.shape().arrays() || !pipe.fits(array, &entry) {
        return Err("an array for the entry")?;
    }
    let table = pipe.table(array);
    if table.entries().is_empty()
        && table.admits(&entry.filter)
        && !table.has_base(entry.region.base)
    {
        pipe.install(array, entry);
        return Ok(());
    }
    Err("a table that admits the entry")?
}

/// A pipe on which each packet is counted by its source address in a row of each group.
fn counting_pipe(alloc: Global) -> Result<Pipe, Fail> {
    let mut pipe = Pipe::new(alloc, three_arrays(), standard())?;
    for group in 0..3 {
        put_row(&mut pipe, group)?;
    }
    Ok(pipe)
}

/// Registers of the pipe's shape.
fn file_for(alloc: Global, pipe: &Pipe) -> Result<TraceFile, Fail>
    ensures { IfOk result (λ file. IsShaped pipe.now.geometry (⟦<TraceFile as RegFile>⟧.dims file)) }
{
    let mut file = TraceFile::new(alloc, 16, Vec::new(alloc))?;
    file.shape(alloc, pipe.shape().arrays(), pipe.shape().greatest_bits())?;
    Ok(file)
}

/// The packet before the group passes it, where one stands there.
fn pass_group<R: RegFile>(flight: &mut Flight, pipe: &Pipe, regs: &mut R, group: u32)
    requires same { SameShape flight.old.before pipe.now }
    requires shaped { IsShaped pipe.now.geometry (R.dims regs.old) }
    ensures before { flight.new.before ≡ flight.old.before }
    ensures dims { R.dims regs.new ≡ R.dims regs.old }
{
    let groups = pipe.shape().group_count();
    if group < groups
        && !flight.vacant(group)
        && (group + 1 >= groups || flight.vacant(group + 1))
    {
        flight.advance(pipe, regs, group);
    }
}

/// Each packet in flight passes a group, the first one first, and then the packet enters.
fn take<R: RegFile>(flight: &mut Flight, pipe: &Pipe, regs: &mut R, packet: &Packet)
    requires same { SameShape flight.old.before pipe.now }
    requires shaped { IsShaped pipe.now.geometry (R.dims regs.old) }
    ensures before { flight.new.before ≡ flight.old.before }
    ensures dims { R.dims regs.new ≡ R.dims regs.old }
{
    pass_group(flight, pipe, regs, 2);
    pass_group(flight, pipe, regs, 1);
    pass_group(flight, pipe, regs, 0);
    if pipe.shape().group_count() > 0 && flight.vacant(0) {
        flight.enter(packet);
    }
}

fn add(array: u32, addr: u32) -> Call {
    Call {
        array,
        addr,
        op: Op::CondAdd {
            p1: 1,
            p2: u32::MAX,
        },
    }
}

// a packet enters behind one that has passed the first group
#[test]
fn packets_stand_before_different_groups(rt: HostRuntime) -> Result<(), Fail> {
    let pipe = counting_pipe(rt.alloc())?;
    let mut file = file_for(rt.alloc(), &pipe)?;
    let mut flight = Flight::new(rt.alloc(), &pipe)?;
    take(&mut flight, &pipe, &mut file, &packet_from(1));
    take(&mut flight, &pipe, &mut file, &packet_from(2));
    take(&mut flight, &pipe, &mut file, &packet_from(1));
    flight.show(&pipe, &mut file);
    let calls = [
        add(0, 18),
        add(1, 19),
        add(0, 1),
        add(2, 11),
        add(1, 12),
        add(2, 3),
        add(0, 18),
        add(1, 19),
        add(2, 11),
    ];
    assert_eq!(rt; file.calls(), Some(calls.as_slice()));
    Ok(())
}

/// Takes the row out of an array, where one is there.
fn take_out(pipe: &mut Pipe, array: u32)
    ensures { SameShape pipe.old pipe.new }
{
    if array < pipe.shape().arrays() && pipe.table(array).has_base(0) {
        pipe.uninstall(array, 0);
    }
}

// the second row goes after the first packet: it meets the row all the same, and the second packet
// does not, whose own rules are kept when the third row goes
#[test]
fn old_packets_keep_their_rules(rt: HostRuntime) -> Result<(), Fail> {
    let mut pipe = counting_pipe(rt.alloc())?;
    let mut file = file_for(rt.alloc(), &pipe)?;
    let mut flight = Flight::new(rt.alloc(), &pipe)?;
    take(&mut flight, &pipe, &mut file, &packet_from(1));
    flight.commit(&pipe, &mut file);
    take_out(&mut pipe, 1);
    take(&mut flight, &pipe, &mut file, &packet_from(2));
    assert_eq!(rt; file.calls(), Some([add(0, 18)].as_slice()));
    flight.commit(&pipe, &mut file);
    let first = [add(0, 18), add(1, 19), add(2, 11)];
    assert_eq!(rt; file.calls(), Some(first.as_slice()));
    take_out(&mut pipe, 2);
    flight.show(&pipe, &mut file);
    let calls = [add(0, 18), add(1, 19), add(2, 11), add(0, 1), add(2, 3)];
    assert_eq!(rt; file.calls(), Some(calls.as_slice()));
    Ok(())
}
