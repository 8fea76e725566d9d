//! The entry of a row of each kind.
ghost use Rattle.std.specs.Prelude.{◌≡◌, IfSome};

use super::{lower, start_value};
use addr_translate::Region;
use group_keys::KeyUse;
use key_mask::parse_key;
use match_table::{Code, Entry, First, Micro, Second};
use pkt_headers::Attr;
use sketch_defs::{Kind, Name, Task};
use std::test::Fail;
use task_filters::Filter;

const REGION: Region = Region { base: 64, bits: 5 };

const KEYS: KeyUse = KeyUse::Pair { one: 0, two: 2 };

// a kind and an attribute, what the row does, and what it starts at
const ROWS: [(Kind, Attr, Code, First, u32); 8] = [
    (
        Kind::Cms,
        Attr::Bytes,
        Code::CondAdd,
        First::Weight(Attr::Bytes),
        0,
    ),
    (
        Kind::SumaxSum,
        Attr::Ttl,
        Code::CondAdd,
        First::Weight(Attr::Ttl),
        0,
    ),
    (
        Kind::SumaxMax,
        Attr::Packets,
        Code::Max,
        First::Weight(Attr::Packets),
        0,
    ),
    (Kind::Bloom, Attr::Flow, Code::Or, First::Bit, 0),
    (
        Kind::Mrac,
        Attr::Packets,
        Code::CondAdd,
        First::Weight(Attr::Packets),
        0,
    ),
    (Kind::Hll, Attr::Flow, Code::Max, First::Rho, 0),
    (
        Kind::FlagOr,
        Attr::Flags,
        Code::Or,
        First::Weight(Attr::Flags),
        0,
    ),
    (
        Kind::FlagAnd,
        Attr::Flags,
        Code::And,
        First::Weight(Attr::Flags),
        0xffff_ffff,
    ),
];

fn task_of(kind: Kind, rows: u32, attr: Attr) -> Option<Task>
    ensures { IfSome result (λ task. task.rows ≡ rows) }
{
    let name = Name::parse(b"t")?;
    let key = parse_key(b"src_ip").ok()?;
    let filter = Filter::parse(b"proto:6").ok()?;
    Task::new(name, kind, rows, key, attr, filter, 32).ok()
}

#[test]
fn first_row_of_each_kind(rt: HostRuntime) -> Result<(), Fail> {
    for (kind, attr, code, first, start) in ROWS {
        let task = task_of(kind, 1, attr).ok_or("a task")?;
        let micro = Micro {
            code,
            first,
            second: Second::Top,
        };
        let wanted = Entry {
            row: 0,
            filter: *task.filter(),
            keys: KEYS,
            region: REGION,
            micro,
        };
        assert_eq!(rt; lower(&task, 0, KEYS, REGION, None), wanted);
        assert_eq!(rt; start_value(kind), start);
    }
    Ok(())
}

#[test]
fn second_row_of_sumax_sum(rt: HostRuntime) -> Result<(), Fail> {
    let task = task_of(Kind::SumaxSum, 2, Attr::Packets).ok_or("a task")?;
    let entry = lower(&task, 1, KEYS, REGION, Some(4));
    assert_eq!(rt; entry.micro.second, Second::Carry { array: 4 });
    assert_eq!(rt; entry.row, 1);
    Ok(())
}
