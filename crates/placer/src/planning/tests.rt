//! Placements on small switches.
ghost use Rattle.std.specs.Prelude.{◌≡◌, ◌≤◌, ◌%◌, length};
ghost use Rattle.std.specs.List.{All};
ghost use Rattle.addr_translate.specs.Geometry.{IsGroup, array_count, equal_geometry};

use super::plan;
use crate::places::{Place, Placement, Refusal};
use crate::sizes::size_bits;
use addr_translate::{GroupShape, Region, Shape};
use group_keys::{GroupKeys, KeyUse};
use key_mask::{Mask, parse_key};
use match_table::{Code, Entry, First, Micro, Second, Table};
use partition_pool::Pool;
use pkt_headers::Attr;
use sketch_defs::{Kind, Name, Task};
use std::alloc::Global;
use std::slice;
use std::test::Fail;
use task_filters::Filter;

const SMALLEST: GroupShape = GroupShape {
    cmus: 1,
    units: 1,
    bits: 5,
};

const THREE_UNITS: GroupShape = GroupShape {
    cmus: 1,
    units: 3,
    bits: 10,
};

const MICRO: Micro = Micro {
    code: Code::CondAdd,
    first: First::Weight(Attr::Packets),
    second: Second::Top,
};

fn task_of(kind: Kind, rows: u32, filter: &[u8], size: u32) -> Result<Task, Fail> {
    let name = Name::parse(b"t").ok_or("a name")?;
    let key = parse_key(b"src_ip").ok().ok_or("a key")?;
    let filter = Filter::parse(filter).ok().ok_or("a filter")?;
    let task = Task::new(name, kind, rows, key, Attr::Packets, filter, size);
    Ok(task.ok().ok_or("a task")?)
}

// 8 registers for each of the filters, one behind the other
fn table_of(alloc: Global, filters: &[&[u8]]) -> Result<Table, Fail> {
    let mut table = Table::new(alloc, 32)?;
    let mut base = 0u32;
    for text in filters {
        let filter = Filter::parse(text).ok().ok_or("a filter")?;
        if base > 24 || !table.has_room() || !table.admits(&filter) || table.has_base(base) {
            return Err(Fail::new("no room for an entry"));
        }
        table.install(Entry {
            row: 0,
            filter,
            keys: KeyUse::Single { unit: 0 },
            region: Region { base, bits: 0 },
            micro: MICRO,
        });
        base += 8;
    }
    Ok(table)
}

// where the rows go on equal groups, none for a size that they may not have
fn planned(
    count: u32,
    group: GroupShape,
    tables: &[Table],
    units: &[GroupKeys],
    pools: &[Pool],
    task: &Task,
) -> Option<Result<Placement, Refusal>>
    requires some { 1 ≤ count }
    requires few { count ≤ 12 }
    requires group { IsGroup group }
    requires tables { length tables.now ≡ array_count (equal_geometry count group 5) }
    requires units { length units.now ≡ count }
    requires pools { length pools.now ≡ array_count (equal_geometry count group 5) }
    requires bits { All (λ pool. pool.bits ≡ group.bits) pools.now }
    requires split { All (λ pool. pool.split ≡ 5) pools.now }
{
    let shape = Shape::equal(count, group, 5);
    size_bits(shape, task.kind(), task.size())?;
    Some(plan(shape, tables, units, pools, task))
}

// why there is no place on one array of 32 registers
fn refusal_on(table: &Table, units: &GroupKeys, pool: &Pool, task: &Task) -> Option<Refusal>
    requires units { length units.now ≡ 1 }
    requires bits { pool.now.bits ≡ 5 }
    requires split { pool.now.split ≡ 5 }
{
    let tables = slice::from_ref(table);
    let units = slice::from_ref(units);
    let pools = slice::from_ref(pool);
    planned(1, SMALLEST, tables, units, pools, task)?.err()
}

// the same while 8 registers are taken from each of these on
#[tactic(auto, using(partition_pool::proofs::Restores::without_put))]
fn beside(
    pool: &mut Pool,
    bases: &[u32],
    table: &Table,
    units: &GroupKeys,
    task: &Task,
) -> Option<Refusal>
    requires bases { All (λ base. base ≤ 24) bases.now }
    requires aligned { All (λ base. base % 8 ≡ 0) bases.now }
    requires units { length units.now ≡ 1 }
    requires bits { pool.old.bits ≡ 5 }
    requires split { pool.old.split ≡ 5 }
    ensures { pool.new ≡ pool.old }
{
    let [base, rest @ ..] = bases else {
        return refusal_on(table, units, pool, task);
    };
    let region = Region {
        base: *base,
        bits: 3,
    };
    if !pool.is_free(region) {
        return None;
    }
    let lease = pool.take_at(region);
    let refusal = beside(pool, rest, table, units, task);
    pool.give(lease);
    refusal
}

#[test]
fn packets_of_another_task(rt: HostRuntime) -> Result<(), Fail> {
    let table = table_of(rt.alloc(), &[b"all"])?;
    let units = GroupKeys::new(1);
    let task = task_of(Kind::Cms, 1, b"proto:6", 1)?;
    let pool = Pool::new(rt.alloc(), 0, 5, 5)?;
    let refusal = refusal_on(&table, &units, &pool, &task);
    pool.close();
    assert_eq!(rt; refusal, Some(Refusal::NoUnit { need: 1, have: 0 }));
    Ok(())
}

// tasks of 8 registers each at 0, 8 and 16: 8 registers are free for other packets, and no 16
#[test]
fn no_partition_of_the_size(rt: HostRuntime) -> Result<(), Fail> {
    let table = table_of(rt.alloc(), &[b"proto:1", b"proto:6", b"proto:17"])?;
    let units = GroupKeys::new(1);
    let larger = task_of(Kind::Cms, 1, b"proto:2", 16)?;
    let equal = task_of(Kind::Cms, 1, b"proto:2", 8)?;
    let taken = task_of(Kind::Cms, 1, b"proto:6", 8)?;
    let mut pool = Pool::new(rt.alloc(), 0, 5, 5)?;
    let three = beside(&mut pool, &[0, 8, 16], &table, &units, &larger);
    let two = beside(&mut pool, &[0, 16], &table, &units, &larger);
    let room = beside(&mut pool, &[0, 8, 16], &table, &units, &equal);
    let closed = beside(&mut pool, &[0, 8, 16], &table, &units, &taken);
    pool.close();
    assert_eq!(rt; three, Some(Refusal::NoPartition { need: 1, have: 0 }));
    assert_eq!(rt; two, Some(Refusal::NoPartition { need: 1, have: 0 }));
    assert_eq!(rt; room, None);
    assert_eq!(rt; closed, Some(Refusal::NoUnit { need: 1, have: 0 }));
    Ok(())
}

type Outcome = Option<Result<Placement, Refusal>>;

// on three groups of one array of 1,024 registers
fn planned_on_three(
    alloc: Global,
    tables: &[Table; 3],
    units: &[GroupKeys; 3],
    task: &Task,
) -> Result<Outcome, Fail> {
    let one = Pool::new(alloc, 0, 10, 5)?;
    let Ok(two) = Pool::new(alloc, 1, 10, 5) else {
        one.close();
        return Err(Fail::new("memory"));
    };
    let Ok(three) = Pool::new(alloc, 2, 10, 5) else {
        one.close();
        two.close();
        return Err(Fail::new("memory"));
    };
    let pools = [one, two, three];
    let outcome = planned(3, THREE_UNITS, tables, units, &pools, task);
    let [one, two, three] = pools;
    one.close();
    two.close();
    three.close();
    Ok(outcome)
}

#[test]
fn rows_over_three_groups(rt: HostRuntime) -> Result<(), Fail> {
    let one = Table::new(rt.alloc(), 32)?;
    let two = Table::new(rt.alloc(), 32)?;
    let three = table_of(rt.alloc(), &[b"proto:1"])?;
    let tables = [one, two, three];
    let units = [GroupKeys::new(3); 3];
    let rows = [
        (
            Kind::SumaxSum,
            4,
            32,
            Some(Refusal::NoUnit { need: 4, have: 3 }),
        ),
        (Kind::Cms, 3, 1024, None),
    ];
    for (kind, count, size, refusal) in rows {
        let task = task_of(kind, count, b"proto:6", size)?;
        let outcome = planned_on_three(rt.alloc(), &tables, &units, &task)?.ok_or("a size")?;
        assert_eq!(rt; outcome.err(), refusal);
    }
    let task = task_of(Kind::SumaxSum, 2, b"all", 32)?;
    let outcome = planned_on_three(rt.alloc(), &tables, &units, &task)?.ok_or("a size")?;
    let placement = outcome.ok().ok_or("two places")?;
    let keys = KeyUse::Single { unit: 0 };
    let region = Region { base: 0, bits: 5 };
    let first = Place {
        array: 0,
        keys,
        region,
    };
    let second = Place {
        array: 1,
        keys,
        region,
    };
    assert_eq!(rt; placement.places(), [first, second].as_slice());
    Ok(())
}
