//! The pools and the rules, and what a change does to them.
ghost use Rattle.std.specs.Prelude.{◌≡◌, ◌≢◌, ◌<◌, ◌≤◌, [], length, map, Some, None, IfOk, IfSome, IsSome, MatchResult, OnErr};
ghost use Rattle.outside.specs.Faults.{HasCause};
ghost use Rattle.outside.specs.Told.{Told, Stays};
ghost use Rattle.std.specs.List.{All, AllPairs};
ghost use Rattle.partition_pool.specs.Pools.{PoolState};
ghost use Rattle.rule_txn.specs.Rows.{fresh_leases, taken, CanTake, leased_rows, AreServed, moved_all, CanMoveAll, lives, frozens, given, CanGive, with_uses, less_uses, CanServeAll, CanFreeAll, first_turn, with_rows, less_rows, CanSettleAll, CanLeaveAll};
ghost use Rattle.rule_txn.specs.Stages.{ArePools, IsPlace, ArePlaces, found_in, rules_in, served_on, arrays_there};
ghost use Rattle.placer.specs.Sights.{bits_for};
ghost use Rattle.placer.specs.Placement.{placed, sight_in, first_full};
ghost use Rattle.rule_txn.specs.Switch.{first_state};
ghost use Rattle.rule_txn.specs.Fills.{Fills, AreInFile};

mod leases;
mod rules;

use crate::fills::fill_all;
use crate::making::{close_pools, free_pools};
use crate::rows::{Leased, Served, lease_rows, move_rows, part_rows};
use crate::seats::{arrays_there, places_in, served_by};
use addr_translate::Shape;
use hash_units::HashKey;
use partition_pool::{Frozen, Lease, Live, Pool};
use pipe_core::Pipe;
use placer::{NoRoom, Place, Refusal, plan, plan_resize};
use reg_file::{DeviceFault, RegFile};
use sketch_defs::Task;
use std::alloc::{AllocError, Global};
use std::marker::Model;

/// The pools of all arrays, by number, and the pipe.
pub(crate) struct Stage {
    pools: Vec<Pool>,
    pipe: Pipe,
}

impl Model for Stage {
    ghost use Rattle.rule_txn.specs.State.{State};

    ghost Value = { State };

    ghost view = { λ s. record {
      geometry = s.pipe.geometry;
      hash_key = s.pipe.hash_key;
      pools = s.pools.items;
      tables = s.pipe.tables;
      groups = s.pipe.groups;
    } };
}

impl Stage {
    /// Pools with nothing taken, and a pipe with no entries.
    pub(crate) fn new(alloc: Global, shape: Shape, key: HashKey) -> Result<Stage, AllocError>
        ensures { IfOk result (λ stage. stage ≡ first_state shape key) }
    {
        let pipe = Pipe::new(alloc, shape, key)?;
        let pools = free_pools(alloc, &shape)?;
        Ok(Stage { pools, pipe })
    }

    pub(crate) fn pipe(&self) -> &Pipe
        ensures { result.now ≡ rules_in self.now }
    {
        &self.pipe
    }

    pub(crate) fn pools(&self) -> &[Pool]
        ensures { result.now ≡ self.now.pools }
    {
        &self.pools
    }

    /// Where the rows of a new task go, the first row's place first.
    pub(crate) fn plan(&self, task: &Task) -> Result<[Option<Place>; 4], Refusal>
        requires pools { ArePools self.now.geometry self.now.pools }
        requires size { IsSome (bits_for self.now.geometry task.now.kind task.now.size) }
        ensures { IfSome (bits_for self.now.geometry task.now.kind task.now.size)
            (λ bits. found_in result ≡ placed self.now.geometry
            (sight_in self.now.tables self.now.groups self.now.pools) task.now bits) }
    {
        let pipe = &self.pipe;
        match plan(
            *pipe.shape(),
            pipe.tables(),
            pipe.groups(),
            &self.pools,
            task,
        ) {
            Ok(found) => Ok(places_in(&found)),
            Err(refusal) => Err(refusal),
        }
    }

    fn served_at(&self, task: &Task, place: &Option<Place>) -> Option<Served>
        requires { IfSome place.now (IsPlace self.now.geometry self.now.groups) }
        ensures { result ≡ served_on self.now.geometry self.now.groups task.now.key place.now }
    {
        match place {
            None => None,
            Some(place) => {
                let group = self.pipe.shape().group_of(place.array);
                let units = self.pipe.units(group);
                Some(served_by(units, task.key(), place.keys))
            }
        }
    }

    /// The units of planned rows, each with its mask.
    pub(crate) fn served_all(&self, task: &Task, places: &[Option<Place>; 4]) -> [Option<Served>; 4]
        requires { ArePlaces self.now.geometry self.now.groups places.now }
        ensures { result ≡ map (served_on self.now.geometry self.now.groups task.now.key) places.now }
    {
        [
            self.served_at(task, &places[0]),
            self.served_at(task, &places[1]),
            self.served_at(task, &places[2]),
            self.served_at(task, &places[3]),
        ]
    }

    /// Whether the array of each row has a free partition of `2^bits` registers, or else the first
    /// row whose array has none.
    pub(crate) fn room_for(&self, rows: &[Option<Leased>; 4], bits: u32) -> Result<(), NoRoom>
        requires exist { All (λ array. array < length self.now.pools) (arrays_there rows.now) }
        requires differ { AllPairs (λ one two. one ≢ two) (arrays_there rows.now) }
        requires size { bits ≤ 20 }
        ensures { MatchResult result (λ _. first_full self.now.pools bits (arrays_there rows.now) ≡ None)
            (λ refusal. first_full self.now.pools bits (arrays_there rows.now) ≡ Some refusal.row) }
    {
        let arrays = arrays_there(rows);
        plan_resize(&self.pools, arrays.as_slice(), bits)
    }

    /// Takes a partition of `2^bits` registers of each array and fills it, or leaves all as it was.
    pub(crate) fn fresh<R: RegFile>(
        &mut self,
        regs: &mut R,
        arrays: [Option<u32>; 4],
        bits: u32,
        value: u32,
    ) -> Result<[Option<Lease<Live>>; 4], DeviceFault>
        requires can { CanTake bits self.old.pools arrays }
        requires file { AreInFile (R.dims regs.old) (fresh_leases bits self.old.pools arrays) }
        ensures leases { IfOk result (λ leases. leases ≡ fresh_leases bits self.old.pools arrays) }
        ensures state { IfOk result (λ leases. self.new ≡ record self.old {
          pools = taken leases self.old.pools;
        }) }
        ensures refused { OnErr result (self.new ≡ self.old) }
        ensures cause { HasCause (R.faults regs.old) (R.faults regs.new) result }
        ensures dims { R.dims regs.new ≡ R.dims regs.old }
        ensures contents { Told (Fills (fresh_leases bits self.old.pools arrays) value result)
            (R.contents regs.old) (R.contents regs.new) }
        ensures calls { Stays (R.calls regs.old) (R.calls regs.new) }
    {
        let leases = self.take_all(arrays, bits);
        match fill_all(regs, &leases, value) {
            Ok(()) => Ok(leases),
            Err(fault) => {
                self.give_back(leases);
                Err(fault)
            }
        }
    }

    /// Sets rows on their leases, each with its units: one use more on the units, and their entries
    /// installed.
    pub(crate) fn settle_all(
        &mut self,
        task: &Task,
        served: [Option<Served>; 4],
        leases: [Option<Lease<Live>>; 4],
    ) -> [Option<Leased>; 4]
        requires served { AreServed served 0 leases }
        requires units { CanServeAll self.old.geometry task.now.key self.old.groups
            (leased_rows served 0 leases) }
        requires entries { CanSettleAll self.old.geometry task.now first_turn self.old.tables
            (leased_rows served 0 leases) }
        ensures rows { result ≡ leased_rows served 0 leases }
        ensures state { self.new ≡ record self.old {
          tables = with_rows task.now first_turn self.old.tables result;
          groups = with_uses self.old.geometry task.now.key self.old.groups result;
        } }
    {
        let rows = lease_rows(served, leases);
        self.serve_all(task, &rows);
        self.install_all(task, &rows);
        rows
    }

    /// Moves rows to new leases of their arrays, and freezes their own ones. Their units stay.
    pub(crate) fn move_all(
        &mut self,
        task: &Task,
        rows: [Option<Leased>; 4],
        leases: [Option<Lease<Live>>; 4],
    ) -> [Option<Leased>; 4]
        requires moves { CanMoveAll rows leases }
        requires leave { CanLeaveAll self.old.geometry self.old.tables rows }
        requires entries { CanSettleAll self.old.geometry task.now first_turn (less_rows self.old.tables rows)
            (moved_all rows leases) }
        ensures rows { result ≡ moved_all rows leases }
        ensures state { self.new ≡ record self.old {
          tables = with_rows task.now first_turn (less_rows self.old.tables rows) result;
        } }
    {
        self.uninstall_all(&rows);
        let rows = move_rows(rows, leases);
        self.install_all(task, &rows);
        rows
    }

    /// Takes rows away: their entries, their uses of units and their live leases. Answers their
    /// frozen ones.
    pub(crate) fn clear_all(&mut self, rows: [Option<Leased>; 4]) -> [Option<Lease<Frozen>>; 4]
        requires leave { CanLeaveAll self.old.geometry self.old.tables rows }
        requires units { CanFreeAll self.old.geometry self.old.groups rows }
        requires leases { CanGive self.old.pools (lives rows) }
        ensures frozen { result ≡ frozens rows }
        ensures state { self.new ≡ record self.old {
          pools = given (lives rows) self.old.pools;
          tables = less_rows self.old.tables rows;
          groups = less_uses self.old.geometry self.old.groups rows;
        } }
    {
        self.uninstall_all(&rows);
        self.free_all(&rows);
        let (live, frozen) = part_rows(rows);
        self.give_all(live);
        frozen
    }

    /// Ends pools of which nothing is taken.
    pub(crate) fn close(self)
        requires { All (λ (p : PoolState). p.taken ≡ []) self.pools }
    {
        let Stage { pools, pipe: _ } = self;
        close_pools(pools);
    }
}
