//! The entries of a task's rows, and what their registers start at.
ghost use Rattle.std.specs.Prelude.{◌≡◌, ◌<◌, ◌↔◌, None};
ghost use Rattle.sketch_defs.specs.declared.kinds.Kind.TheVariants.{SumaxSum};
ghost use Rattle.sketch_lower.specs.Lowering.{unbound, micro_of, second_after, entry_of};
ghost use Rattle.sketch_lower.specs.Operations.{start_of};

use addr_translate::Region;
use group_keys::KeyUse;
use match_table::{Code, Entry, First, Micro, Second};
use pkt_headers::Attr;
use sketch_defs::{Kind, Task};

/// The entry of row `row` of the task, which stands in the region and has its key from the units
/// `keys`. `before` is the array of the row before, which only SuMax-Sum asks for.
pub fn lower(task: &Task, row: u32, keys: KeyUse, region: Region, before: Option<u32>) -> Entry
    requires row { row < task.now.rows }
    requires before { task.now.kind ≡ SumaxSum → (before ≡ None) ↔ (row ≡ 0) }
    ensures { result ≡ entry_of task.now row keys region before }
{
    Entry {
        row,
        filter: *task.filter(),
        keys,
        region,
        micro: micro(task.kind(), task.attr(), before),
    }
}

/// What each register of a row holds before any packet.
pub fn start_value(kind: Kind) -> u32
    ensures { result ≡ start_of kind }
{
    match kind {
        Kind::FlagAnd => u32::MAX,
        _ => 0,
    }
}

/// The operation of the rows of this kind.
fn micro(kind: Kind, attr: Attr, before: Option<u32>) -> Micro
    ensures { result ≡ micro_of kind attr before }
{
    let weight = First::Weight(attr);
    match kind {
        Kind::Cms => up_to_top(Code::CondAdd, weight),
        Kind::SumaxSum => Micro {
            code: Code::CondAdd,
            first: weight,
            second: second(before),
        },
        Kind::SumaxMax => up_to_top(Code::Max, weight),
        Kind::Bloom => up_to_top(Code::Or, First::Bit),
        Kind::Mrac => up_to_top(Code::CondAdd, weight),
        Kind::Hll => up_to_top(Code::Max, First::Rho),
        Kind::FlagOr => up_to_top(Code::Or, weight),
        Kind::FlagAnd => up_to_top(Code::And, weight),
    }
}

/// The operation with no bound from another row.
fn up_to_top(code: Code, first: First) -> Micro
    ensures { result ≡ unbound code first }
{
    Micro {
        code,
        first,
        second: Second::Top,
    }
}

/// The carry of the row before, where there is one.
fn second(before: Option<u32>) -> Second
    ensures { result ≡ second_after before }
{
    match before {
        Some(array) => Second::Carry { array },
        None => Second::Top,
    }
}

#[cfg(test)]
mod tests;
