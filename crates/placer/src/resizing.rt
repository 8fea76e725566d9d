//! Whether rows can move to another size on the arrays on which they stand.
ghost use Rattle.std.specs.Prelude.{◌≡◌, ◌≢◌, ◌<◌, ◌≤◌, All, IfSome, MatchResult, None, Some, length};
ghost use Rattle.std.specs.List.{AllPairs};
ghost use Rattle.partition_pool.specs.Pools.{least_bits};
ghost use Rattle.placer.specs.Sights.{region_in};
ghost use Rattle.placer.specs.Placement.{first_full, is_full};

use crate::places::NoRoom;
use addr_translate::Region;
use partition_pool::Pool;

/// Whether each of the arrays has a free partition of `2^bits` registers, or else the first row
/// whose array has none. An array that has no partitions of this size has no free one.
pub fn plan_resize(pools: &[Pool], arrays: &[u32], bits: u32) -> Result<(), NoRoom>
    requires exist { All (λ array. array < length pools.now) arrays.now }
    requires differ { AllPairs (λ one two. one ≢ two) arrays.now }
    requires size { bits ≤ 20 }
    ensures { MatchResult result (λ _. first_full pools.now bits arrays.now ≡ None)
        (λ refusal. first_full pools.now bits arrays.now ≡ Some refusal.row) }
{
    match full_row(pools, arrays, bits) {
        Some(row) => Err(NoRoom { row: row as u32 }),
        None => Ok(()),
    }
}

/// The place of the first array that has no free partition of `2^bits` registers.
fn full_row(pools: &[Pool], arrays: &[u32], bits: u32) -> Option<usize>
    requires { All (λ array. array < length pools.now) arrays.now }
    ensures row { result ≡ first_full pools.now bits arrays.now }
    ensures exists { IfSome result (λ row. row < length arrays.now) }
{
    arrays.iter().position(|array| is_full(pools, *array, bits))
}

/// Whether the array has no free partition of `2^bits` registers.
fn is_full(pools: &[Pool], array: u32, bits: u32) -> bool
    requires { array < length pools.now }
    ensures { result ≡ is_full pools.now bits array }
{
    free_in(&pools[array as usize], bits).is_none()
}

/// The free partition of `2^bits` registers with the least base; none in a pool that has no
/// partitions of this size.
pub(crate) fn free_in(pool: &Pool, bits: u32) -> Option<Region>
    ensures { result ≡ region_in pool.now.bits (least_bits pool.now) pool.now.taken bits }
{
    let most = pool.bits();
    if most.saturating_sub(pool.split()) <= bits && bits <= most {
        pool.find(bits)
    } else {
        None
    }
}

#[cfg(test)]
mod tests {
    use super::plan_resize;
    use crate::places::NoRoom;
    use partition_pool::Pool;
    use std::test::Fail;

    // arrays of 64, 32 and 32 registers: the smallest partition of the first has 2
    #[test]
    fn least_row_without_room(rt: HostRuntime) -> Result<(), Fail> {
        let one = Pool::new(rt.alloc(), 0, 6, 5)?;
        let Ok(two) = Pool::new(rt.alloc(), 1, 5, 5) else {
            one.close();
            return Err(Fail::new("memory"));
        };
        let Ok(three) = Pool::new(rt.alloc(), 2, 5, 5) else {
            one.close();
            two.close();
            return Err(Fail::new("memory"));
        };
        let pools = [one, two, three];
        let found = [
            plan_resize(&pools, &[0, 1, 2], 5),
            plan_resize(&pools, &[0, 1, 2], 6),
            plan_resize(&pools, &[1, 2], 6),
            plan_resize(&pools, &[1, 2, 0], 0),
            plan_resize(&pools, &[0], 20),
        ];
        let [one, two, three] = pools;
        one.close();
        two.close();
        three.close();
        let told = [
            Ok(()),
            Err(NoRoom { row: 1 }),
            Err(NoRoom { row: 0 }),
            Err(NoRoom { row: 2 }),
            Err(NoRoom { row: 0 }),
        ];
        assert_eq!(rt; found, told);
        Ok(())
    }
}
