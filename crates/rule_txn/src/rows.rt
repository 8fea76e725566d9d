//! Live tasks, with the leases that their rows hold.
ghost use Rattle.std.specs.Prelude.{◌≡◌, ◌≢◌, ◌≤◌, ◌<◌, [], IfSome, Some, None, length, option_map, map, position, is_some, insert, vec_len, vec_capacity, slice_index_or};
ghost use Rattle.addr_translate.specs.Blocks.{Block};
ghost use Rattle.key_mask.specs.Masks.{no_lengths};
ghost use Rattle.sketch_defs.specs.Tasks.{Sketch, first_fault};
ghost use Rattle.switch_model.specs.Changes.{is_called};
ghost use Rattle.switch_model.specs.Records.{Row, Outline};
ghost use Rattle.rule_txn.specs.State.{there, Lent};
ghost use Rattle.rule_txn.specs.Rows.{keys_in, masks_in, leased_row, leased_rows, IsServed, AreServed, moved_to, moved_all, CanMove, CanMoveAll, MovesTo, thawed, lives, frozens, live_lease, frozen_lease, frozen_in, turn_after, row_array};

use addr_translate::Region;
use group_keys::KeyUse;
use key_mask::Mask;
use partition_pool::{Frozen, Lease, Live, freeze};
use sketch_defs::{Name, Task};
use std::marker::Model;
use std::mem;

/// The units that give a row its key, each with its mask.
#[derive(Clone, Copy, Debug, PartialEq, Eq)]
pub enum Served {
    Single {
        unit: u32,
        mask: Mask,
    },
    Pair {
        one: u32,
        one_mask: Mask,
        two: u32,
        two_mask: Mask,
    },
}

impl Served {
    pub(crate) fn keys(self) -> KeyUse
        ensures { result ≡ keys_in self }
    {
        match self {
            Served::Single { unit, mask: _ } => KeyUse::Single { unit },
            Served::Pair {
                one,
                one_mask: _,
                two,
                two_mask: _,
            } => KeyUse::Pair { one, two },
        }
    }
}

/// A row with what it holds of its array. It can be neither copied nor dropped.
pub struct Leased {
    live: Lease<Live>,
    frozen: Option<Lease<Frozen>>,
    served: Served,
}

impl Model for Leased {
    ghost use Rattle.std.specs.Prelude.{◌≡◌, IfSome};
    ghost use Rattle.switch_model.specs.Records.{Row};
    ghost use Rattle.rule_txn.specs.State.{Lent};
    ghost use Rattle.rule_txn.specs.Rows.{keys_in, masks_in, region_held};

    ghost Value = { Row };

    ghost view = { λ r. record {
      array = r.live.pool;
      region = r.live.region;
      keys = keys_in r.served;
      masks = masks_in r.served;
      frozen = region_held r.frozen;
    } };

    ghost invariant = { λ r. IfSome r.frozen (λ (lease : Lent). lease.pool ≡ r.live.pool) };
}

impl Leased {
    fn new(live: Lease<Live>, served: Served) -> Leased
        ensures { Some result ≡ leased_row (Some served) (Some live) }
    {
        Leased {
            live,
            frozen: None,
            served,
        }
    }

    pub(crate) fn array(&self) -> u32
        ensures { result ≡ self.now.array }
    {
        self.live.pool()
    }

    pub(crate) fn region(&self) -> Region
        ensures { result ≡ self.now.region }
    {
        self.live.region()
    }

    pub(crate) fn keys(&self) -> KeyUse
        ensures { result ≡ self.now.keys }
    {
        self.served.keys()
    }

    pub(crate) fn frozen_region(&self) -> Option<Region>
        ensures { result ≡ self.now.frozen }
    {
        match &self.frozen {
            Some(lease) => Some(lease.region()),
            None => None,
        }
    }

    /// The row on another lease, with its own one frozen.
    fn moved(self, lease: Lease<Live>) -> Leased
        requires { MovesTo self lease }
        ensures { Some result ≡ moved_to (Some self) (Some lease) }
    {
        let Leased {
            live,
            frozen,
            served,
        } = self;
        match frozen {
            None => {}
            Some(_) => unreachable!(),
        }
        Leased {
            live: lease,
            frozen: Some(freeze(live)),
            served,
        }
    }

    fn apart(self) -> (Lease<Live>, Option<Lease<Frozen>>)
        ensures live { Some result.0 ≡ live_lease (Some self) }
        ensures frozen { result.1 ≡ frozen_lease (Some self) }
    {
        let Leased {
            live,
            frozen,
            served: _,
        } = self;
        (live, frozen)
    }

    fn thawed(self) -> (Leased, Option<Lease<Frozen>>)
        ensures row { result.0 ≡ record self { frozen = None } }
        ensures frozen { result.1 ≡ frozen_lease (Some self) }
    {
        let Leased {
            live,
            frozen,
            served,
        } = self;
        let row = Leased {
            live,
            frozen: None,
            served,
        };
        (row, frozen)
    }
}

/// A live task: with its size, that of its frozen rows, and its rows.
pub struct Kept {
    task: Task,
    frozen: Option<u32>,
    rows: [Option<Leased>; 4],
}

impl Model for Kept {
    ghost use Rattle.switch_model.specs.Records.{Outline};
    ghost use Rattle.rule_txn.specs.State.{there};

    ghost Value = { Outline };

    ghost view = { λ k. record { task = k.task; frozen = k.frozen; rows = there k.rows } };
}

impl Kept {
    pub(crate) fn new(task: Task, frozen: Option<u32>, rows: [Option<Leased>; 4]) -> Kept
        ensures { result ≡ record { task = task; frozen = frozen; rows = there rows } }
    {
        Kept { task, frozen, rows }
    }

    pub(crate) fn task(&self) -> &Task
        ensures { result.now ≡ self.now.task }
    {
        &self.task
    }

    pub(crate) fn is_called(&self, name: &Name) -> bool
        ensures { result ≡ is_called name.now self.now }
    {
        self.task.name().bytes() == name.bytes()
    }

    /// The size of its frozen rows, if it has them.
    pub(crate) fn frozen(&self) -> Option<u32>
        ensures { result ≡ self.now.frozen }
    {
        self.frozen
    }

    /// Its rows; a place may be empty.
    pub(crate) fn rows(&self) -> &[Option<Leased>; 4]
        ensures { there result.now ≡ self.now.rows }
    {
        &self.rows
    }

    pub(crate) fn apart(self) -> (Task, Option<u32>, [Option<Leased>; 4])
        ensures task { result.0 ≡ self.task }
        ensures frozen { result.1 ≡ self.frozen }
        ensures rows { there result.2 ≡ self.rows }
    {
        let Kept { task, frozen, rows } = self;
        (task, frozen, rows)
    }
}

/// Which row of its task a row is, and the array of the row before it.
#[derive(Clone, Copy, Debug, PartialEq, Eq)]
pub struct Turn {
    pub row: u32,
    pub before: Option<u32>,
}

pub(crate) fn place_of(records: &[Kept], name: &Name) -> Option<usize>
    ensures least { result ≡ position (is_called name.now) records.now }
    ensures exists { IfSome result (λ place. place < length records.now) }
{
    records.iter().position(|kept| kept.is_called(name))
}

/// The task with another size, which is one that there may be.
pub(crate) fn with_size(task: &Task, size: u32) -> Task
    ensures size { result ≡ record task.now { size = size } }
    ensures allowed { first_fault result ≡ None }
{
    let parts = Task::new(
        *task.name(),
        task.kind(),
        task.rows(),
        *task.key(),
        task.attr(),
        *task.filter(),
        size,
    );
    match parts {
        Ok(task) => task,
        Err(_) => unreachable!(),
    }
}

/// A copy of the task, which is one that there may be.
pub(crate) fn copy_of(task: &Task) -> Task
    ensures same { result ≡ task.now }
    ensures allowed { first_fault result ≡ None }
{
    with_size(task, task.size())
}

/// Puts a record back to its place.
pub(crate) fn put_at(records: &mut Vec<Kept>, at: usize, kept: Kept)
    requires exists { at ≤ vec_len records.old }
    requires room { vec_len records.old < vec_capacity records.old }
    ensures items { records.new.items ≡ insert records.old.items at kept }
    ensures capacity { vec_capacity records.new ≡ vec_capacity records.old }
{
    match records.insert(at, kept) {
        Ok(()) => {}
        Err(_) => unreachable!(),
    }
}

/// The array of a row.
pub(crate) fn array_in(row: &Option<Leased>) -> Option<u32>
    ensures { result ≡ row_array row.now }
{
    match row {
        Some(row) => Some(row.array()),
        None => None,
    }
}

/// The arrays of rows, at the rows' places.
pub(crate) fn arrays_in(rows: &[Option<Leased>; 4]) -> [Option<u32>; 4]
    ensures { result ≡ map row_array rows.now }
{
    [
        array_in(&rows[0]),
        array_in(&rows[1]),
        array_in(&rows[2]),
        array_in(&rows[3]),
    ]
}

fn lease_row(served: Option<Served>, lease: Option<Lease<Live>>) -> Option<Leased>
    requires { IsServed served lease }
    ensures { result ≡ leased_row served lease }
{
    let Some(lease) = lease else {
        return None;
    };
    let Some(served) = served else {
        unreachable!();
    };
    Some(Leased::new(lease, served))
}

/// Rows on these leases, each with its units.
pub(crate) fn lease_rows(
    served: [Option<Served>; 4],
    leases: [Option<Lease<Live>>; 4],
) -> [Option<Leased>; 4]
    requires { AreServed served 0 leases }
    ensures { result ≡ leased_rows served 0 leases }
{
    let [one, two, three, four] = leases;
    let one = lease_row(served[0], one);
    let two = lease_row(served[1], two);
    let three = lease_row(served[2], three);
    let four = lease_row(served[3], four);
    [one, two, three, four]
}

fn move_row(row: Option<Leased>, lease: Option<Lease<Live>>) -> Option<Leased>
    requires { CanMove row lease }
    ensures { result ≡ moved_to row lease }
{
    let Some(lease) = lease else {
        return row;
    };
    let Some(row) = row else {
        unreachable!();
    };
    Some(row.moved(lease))
}

/// The rows on new leases, with their own ones frozen.
pub(crate) fn move_rows(
    rows: [Option<Leased>; 4],
    leases: [Option<Lease<Live>>; 4],
) -> [Option<Leased>; 4]
    requires { CanMoveAll rows leases }
    ensures { result ≡ moved_all rows leases }
{
    let [row_one, row_two, row_three, row_four] = rows;
    let [one, two, three, four] = leases;
    let one = move_row(row_one, one);
    let two = move_row(row_two, two);
    let three = move_row(row_three, three);
    let four = move_row(row_four, four);
    [one, two, three, four]
}

fn thaw_row(row: Option<Leased>) -> (Option<Leased>, Option<Lease<Frozen>>)
    ensures row { result.0 ≡ option_map (λ (r : Row). record r { frozen = None }) row }
    ensures frozen { result.1 ≡ frozen_lease row }
{
    match row {
        Some(row) => {
            let (row, frozen) = row.thawed();
            (Some(row), frozen)
        }
        None => (None, None),
    }
}

/// The rows with nothing frozen, and their frozen leases.
pub(crate) fn thaw_rows(
    rows: [Option<Leased>; 4],
) -> ([Option<Leased>; 4], [Option<Lease<Frozen>>; 4])
    ensures rows { result.0 ≡ thawed rows }
    ensures frozen { result.1 ≡ frozens rows }
{
    let [one, two, three, four] = rows;
    let (one, one_frozen) = thaw_row(one);
    let (two, two_frozen) = thaw_row(two);
    let (three, three_frozen) = thaw_row(three);
    let (four, four_frozen) = thaw_row(four);
    (
        [one, two, three, four],
        [one_frozen, two_frozen, three_frozen, four_frozen],
    )
}

fn part_row(row: Option<Leased>) -> (Option<Lease<Live>>, Option<Lease<Frozen>>)
    ensures live { result.0 ≡ live_lease row }
    ensures frozen { result.1 ≡ frozen_lease row }
{
    match row {
        Some(row) => {
            let (live, frozen) = row.apart();
            (Some(live), frozen)
        }
        None => (None, None),
    }
}

/// The live leases of rows, and their frozen ones.
pub(crate) fn part_rows(
    rows: [Option<Leased>; 4],
) -> ([Option<Lease<Live>>; 4], [Option<Lease<Frozen>>; 4])
    ensures live { result.0 ≡ lives rows }
    ensures frozen { result.1 ≡ frozens rows }
{
    let [one, two, three, four] = rows;
    let (one, one_frozen) = part_row(one);
    let (two, two_frozen) = part_row(two);
    let (three, three_frozen) = part_row(three);
    let (four, four_frozen) = part_row(four);
    (
        [one, two, three, four],
        [one_frozen, two_frozen, three_frozen, four_frozen],
    )
}
