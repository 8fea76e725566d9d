//! A pool of 32 registers, whose smallest partition is one register.
ghost use Rattle.std.specs.Prelude.{◌≡◌, ◌≤◌, ◌+◌, ◌^◌};

use super::*;
use crate::freeze;
use std::test::Fail;

const EIGHT: Region = Region { base: 0, bits: 3 };

const THIRD_EIGHT: Region = Region { base: 16, bits: 3 };

const LOWER_HALF: Region = Region { base: 0, bits: 4 };

const UPPER_HALF: Region = Region { base: 16, bits: 4 };

// free registers, the largest free partition, places 0 to 2 of the tree, and where 8 and 16
// registers are found, 99 for nowhere
type Left = [u32; 7];

fn base_of(found: Option<Region>) -> u32 {
    found.map_or(99, |region| region.base)
}

fn left(pool: &Pool) -> Left
    requires bits { pool.now.bits ≡ 5 }
    requires split { pool.now.split ≡ 5 }
{
    let tree = pool.tree();
    [
        pool.free_count(),
        pool.largest(),
        u32::from(tree[0]),
        u32::from(tree[1]),
        u32::from(tree[2]),
        base_of(pool.find(3)),
        base_of(pool.find(4)),
    ]
}

#[tactic(auto, using(crate::proofs::Restores::without_put))]
fn left_beside(pool: &mut Pool, region: Region) -> Left
    requires bits { pool.old.bits ≡ 5 }
    requires split { pool.old.split ≡ 5 }
    requires inside { region.base + 2 ^ region.bits ≤ 32 }
    ensures { pool.new ≡ pool.old }
{
    if !pool.is_free(region) {
        return [99; 7];
    }
    let lease = pool.take_at(region);
    let found = left(pool);
    pool.give(lease);
    found
}

#[tactic(auto, using(crate::proofs::Restores::without_put))]
fn left_beside_both(pool: &mut Pool, one: Region, two: Region) -> Left
    requires bits { pool.old.bits ≡ 5 }
    requires split { pool.old.split ≡ 5 }
    requires one_inside { one.base + 2 ^ one.bits ≤ 32 }
    requires two_inside { two.base + 2 ^ two.bits ≤ 32 }
    ensures { pool.new ≡ pool.old }
{
    if !pool.is_free(one) {
        return [99; 7];
    }
    let lease = pool.take_at(one);
    let found = left_beside(pool, two);
    pool.give(lease);
    found
}

#[test]
fn what_taken_regions_leave(rt: HostRuntime) -> Result<(), Fail> {
    let mut pool = Pool::new(rt.alloc(), 0, 5, 5)?;
    let nothing = left(&pool);
    let half = left_beside(&mut pool, LOWER_HALF);
    let apart = left_beside_both(&mut pool, EIGHT, THIRD_EIGHT);
    let full = left_beside_both(&mut pool, LOWER_HALF, UPPER_HALF);
    let again = left(&pool);
    pool.close();
    assert_eq!(rt; nothing, [32, 32, 6, 5, 5, 0, 0]);
    assert_eq!(rt; half, [16, 16, 5, 0, 5, 16, 16]);
    assert_eq!(rt; apart, [16, 8, 4, 4, 4, 8, 99]);
    assert_eq!(rt; full, [0, 0, 0, 0, 0, 99, 99]);
    assert_eq!(rt; again, nothing);
    Ok(())
}

// both halves of array 3 are taken, and the first lease is frozen before it is given back
#[test]
fn leases_of_both_halves(rt: HostRuntime) -> Result<(), Fail> {
    let mut pool = Pool::new(rt.alloc(), 3, 5, 5)?;
    let Some(lower) = pool.take(4) else {
        pool.close();
        return Err(Fail::new("no lower half"));
    };
    let Some(upper) = pool.take(4) else {
        pool.give(lower);
        pool.close();
        return Err(Fail::new("no upper half"));
    };
    let held = (lower.pool(), lower.region(), upper.pool(), upper.region());
    let left = pool.find(0);
    pool.give(upper);
    let frozen = freeze(lower);
    let kept = (frozen.pool(), frozen.region());
    pool.give_frozen(frozen);
    let numbers = (pool.bits(), pool.split());
    pool.close();
    assert_eq!(rt; held, (3, LOWER_HALF, 3, UPPER_HALF));
    assert_eq!(rt; left, None);
    assert_eq!(rt; kept, (3, LOWER_HALF));
    assert_eq!(rt; numbers, (5, 5));
    Ok(())
}
