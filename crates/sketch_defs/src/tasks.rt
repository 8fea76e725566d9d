//! Tasks, each with what its kind allows.
ghost use Rattle.std.specs.Prelude.{◌≡◌, ◌≢◌, ◌≤◌, IsTrue, MatchResult, Some, None};
ghost use Rattle.key_mask.specs.Masks.{no_lengths};
ghost use Rattle.sketch_defs.specs.Tasks.{Sketch, first_fault, allows_rows, allows};

use crate::kinds::Kind;
use crate::names::Name;
use key_mask::Mask;
use pkt_headers::Attr;
use std::marker::Model;
use task_filters::Filter;

/// Why there is no such task.
#[derive(Clone, Copy, Debug, PartialEq, Eq)]
pub enum TaskFault {
    /// The kind does not have so many rows.
    Rows,
    /// The key has no field.
    EmptyKey,
    /// The kind does not have the attribute.
    Attr,
}

/// A task: a sketch of this kind with `rows` rows of `size` cells, of the packets that the filter
/// matches, each counted under its `key` with the weight of its `attr`.
#[derive(Clone, Copy, Debug, PartialEq, Eq)]
pub struct Task {
    name: Name,
    kind: Kind,
    rows: u32,
    key: Mask,
    attr: Attr,
    filter: Filter,
    size: u32,
}

impl Model for Task {
    ghost use Rattle.std.specs.Prelude.{◌≡◌, None};
    ghost use Rattle.sketch_defs.specs.Tasks.{Sketch, first_fault};

    ghost Value = { Sketch };

    ghost view = { λ t. record { name = t.name; kind = t.kind; rows = t.rows; key = t.key; attr = t.attr; filter = t.filter; size = t.size } };

    ghost invariant = { λ t. first_fault (record { name = t.name; kind = t.kind; rows = t.rows; key = t.key; attr = t.attr; filter = t.filter; size = t.size }) ≡ None };

    ghost inverse = { λ s. record { name = s.name; kind = s.kind; rows = s.rows; key = s.key; attr = s.attr; filter = s.filter; size = s.size } };
}

impl Task {
    /// The task of these parts. Its size may be any number: how many cells a switch has for a row
    /// is the switch's to say.
    pub fn new(
        name: Name,
        kind: Kind,
        rows: u32,
        key: Mask,
        attr: Attr,
        filter: Filter,
        size: u32,
    ) -> Result<Task, TaskFault>
        ensures { let asked : Sketch = record { name = name; kind = kind; rows = rows; key = key; attr = attr; filter = filter; size = size } in
            MatchResult result (λ task. (task ≡ asked) × (first_fault asked ≡ None)) (λ fault. first_fault asked ≡ Some fault) }
    {
        if !kind.allows_rows(rows) {
            return Err(TaskFault::Rows);
        }
        if key.is_empty() {
            return Err(TaskFault::EmptyKey);
        }
        if !kind.allows(attr) {
            return Err(TaskFault::Attr);
        }
        Ok(Task {
            name,
            kind,
            rows,
            key,
            attr,
            filter,
            size,
        })
    }

    pub fn name(&self) -> &Name
        ensures { result.now ≡ self.now.name }
    {
        &self.name
    }

    pub fn kind(&self) -> Kind
        ensures { result ≡ self.now.kind }
    {
        self.kind
    }

    /// 1 to 4, as the kind allows.
    #[tactic(auto, using(crate::proofs::TaskLemmas::some_rows, crate::proofs::TaskLemmas::few_rows, crate::proofs::TaskLemmas::rows_allowed))]
    pub fn rows(&self) -> u32
        ensures value { result ≡ self.now.rows }
        ensures some { 1 ≤ result }
        ensures few { result ≤ 4 }
        ensures allowed { IsTrue (allows_rows self.now.kind result) }
    {
        self.rows
    }

    pub fn key(&self) -> &Mask
        ensures value { result.now ≡ self.now.key }
        ensures stands { result.now ≢ no_lengths }
    {
        &self.key
    }

    /// One that the kind allows.
    #[tactic(auto, using(crate::proofs::TaskLemmas::attr_allowed))]
    pub fn attr(&self) -> Attr
        ensures value { result ≡ self.now.attr }
        ensures allowed { IsTrue (allows self.now.kind result) }
    {
        self.attr
    }

    pub fn filter(&self) -> &Filter
        ensures { result.now ≡ self.now.filter }
    {
        &self.filter
    }

    pub fn size(&self) -> u32
        ensures { result ≡ self.now.size }
    {
        self.size
    }
}

#[cfg(test)]
mod tests {
    use super::{Task, TaskFault};
    use crate::kinds::Kind;
    use crate::names::Name;
    use key_mask::{Mask, parse_key};
    use pkt_headers::Attr;
    use std::test::Fail;
    use task_filters::Filter;

    #[test]
    fn tasks_keep_their_parts(rt: HostRuntime) -> Result<(), Fail> {
        let name = Name::parse(b"hot").ok_or("a name")?;
        let key = parse_key(b"src_ip").ok().ok_or("a key")?;
        let filter = Filter::parse(b"proto:6").ok().ok_or("a filter")?;
        let task = Task::new(name, Kind::Cms, 3, key, Attr::Bytes, filter, 32);
        let task = task.ok().ok_or("a task")?;
        assert_eq!(rt; task.name().bytes(), b"hot".as_slice());
        assert_eq!(rt; task.kind(), Kind::Cms);
        assert_eq!(rt; task.rows(), 3);
        assert_eq!(rt; *task.key(), key);
        assert_eq!(rt; task.attr(), Attr::Bytes);
        assert_eq!(rt; *task.filter(), filter);
        assert_eq!(rt; task.size(), 32);
        Ok(())
    }

    #[test]
    fn kinds_have_limits(rt: HostRuntime) -> Result<(), Fail> {
        let rows = [
            (Kind::Cms, 4, Attr::Ttl, None),
            (Kind::Cms, 5, Attr::Packets, Some(TaskFault::Rows)),
            (Kind::SumaxSum, 0, Attr::Packets, Some(TaskFault::Rows)),
            (Kind::SumaxMax, 1, Attr::Flags, Some(TaskFault::Attr)),
            (Kind::Bloom, 2, Attr::Flow, None),
            (Kind::Mrac, 2, Attr::Flow, Some(TaskFault::Rows)),
            (Kind::Hll, 1, Attr::Packets, Some(TaskFault::Attr)),
            (Kind::FlagOr, 4, Attr::Flags, None),
            (Kind::FlagAnd, 1, Attr::Flow, Some(TaskFault::Attr)),
        ];
        let name = Name::parse(b"t").ok_or("a name")?;
        let key = parse_key(b"src_ip").ok().ok_or("a key")?;
        let filter = Filter::parse(b"all").ok().ok_or("a filter")?;
        for (kind, count, attr, fault) in rows {
            let task = Task::new(name, kind, count, key, attr, filter, 32);
            assert_eq!(rt; task.err(), fault);
        }
        // the key is judged before the attribute
        let no_key = Mask::empty();
        let task = Task::new(name, Kind::Cms, 1, no_key, Attr::Flow, filter, 32);
        assert_eq!(rt; task.err(), Some(TaskFault::EmptyKey));
        Ok(())
    }
}
