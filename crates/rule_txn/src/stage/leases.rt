//! Leases that the pools give, and take back.
ghost use Rattle.std.specs.Prelude.{◌≡◌, Some};
ghost use Rattle.rule_txn.specs.Rows.{next_lease, with_lease, less_lease, fresh_leases, taken, given, given_back, GivesAt, CanTake, IsLent, CanGive, CanGiveBack};
ghost use Rattle.rule_txn.specs.State.{Gives};

use super::Stage;
use partition_pool::{Frozen, Lease, Live};

impl Stage {
    fn take_one(&mut self, array: u32, bits: u32) -> Lease<Live>
        requires { Gives bits self.old.pools array }
        ensures lease { Some result ≡ next_lease bits self.old.pools (Some array) }
        ensures state { self.new ≡ record self.old { pools = with_lease self.old.pools (Some result) } }
    {
        match self.pools[array as usize].take(bits) {
            Some(lease) => lease,
            None => unreachable!(),
        }
    }

    fn take(&mut self, array: Option<u32>, bits: u32) -> Option<Lease<Live>>
        requires { GivesAt bits self.old.pools array }
        ensures lease { result ≡ next_lease bits self.old.pools array }
        ensures state { self.new ≡ record self.old { pools = with_lease self.old.pools result } }
    {
        match array {
            Some(array) => Some(self.take_one(array, bits)),
            None => None,
        }
    }

    pub(super) fn take_all(
        &mut self,
        arrays: [Option<u32>; 4],
        bits: u32,
    ) -> [Option<Lease<Live>>; 4]
        requires { CanTake bits self.old.pools arrays }
        ensures leases { result ≡ fresh_leases bits self.old.pools arrays }
        ensures state { self.new ≡ record self.old { pools = taken result self.old.pools } }
    {
        let [one, two, three, four] = arrays;
        let one = self.take(one, bits);
        let two = self.take(two, bits);
        let three = self.take(three, bits);
        let four = self.take(four, bits);
        [one, two, three, four]
    }

    fn give_one(&mut self, lease: Lease<Live>)
        requires { IsLent self.old.pools (Some lease) }
        ensures { self.new ≡ record self.old { pools = less_lease self.old.pools (Some lease) } }
    {
        let array = lease.pool() as usize;
        self.pools[array].give(lease);
    }

    fn give(&mut self, lease: Option<Lease<Live>>)
        requires { IsLent self.old.pools lease }
        ensures { self.new ≡ record self.old { pools = less_lease self.old.pools lease } }
    {
        if let Some(lease) = lease {
            self.give_one(lease);
        }
    }

    fn give_frozen_one(&mut self, lease: Lease<Frozen>)
        requires { IsLent self.old.pools (Some lease) }
        ensures { self.new ≡ record self.old { pools = less_lease self.old.pools (Some lease) } }
    {
        let array = lease.pool() as usize;
        self.pools[array].give_frozen(lease);
    }

    fn give_frozen(&mut self, lease: Option<Lease<Frozen>>)
        requires { IsLent self.old.pools lease }
        ensures { self.new ≡ record self.old { pools = less_lease self.old.pools lease } }
    {
        if let Some(lease) = lease {
            self.give_frozen_one(lease);
        }
    }

    /// Gives back leases that were just taken, the last first.
    pub(super) fn give_back(&mut self, leases: [Option<Lease<Live>>; 4])
        requires { CanGiveBack self.old.pools leases }
        ensures { self.new ≡ record self.old { pools = given_back leases self.old.pools } }
    {
        let [one, two, three, four] = leases;
        self.give(four);
        self.give(three);
        self.give(two);
        self.give(one);
    }

    /// Gives back leases of live rows.
    pub(super) fn give_all(&mut self, leases: [Option<Lease<Live>>; 4])
        requires { CanGive self.old.pools leases }
        ensures { self.new ≡ record self.old { pools = given leases self.old.pools } }
    {
        let [one, two, three, four] = leases;
        self.give(one);
        self.give(two);
        self.give(three);
        self.give(four);
    }

    /// Gives back leases of frozen rows.
    pub(crate) fn give_frozen_all(&mut self, leases: [Option<Lease<Frozen>>; 4])
        requires { CanGive self.old.pools leases }
        ensures { self.new ≡ record self.old { pools = given leases self.old.pools } }
    {
        let [one, two, three, four] = leases;
        self.give_frozen(one);
        self.give_frozen(two);
        self.give_frozen(three);
        self.give_frozen(four);
    }
}
