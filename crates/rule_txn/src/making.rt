//! The pools of all arrays, made and ended.
ghost use Rattle.std.specs.Prelude.{◌≡◌, ◌<◌, ◌≤◌, [], IfOk, length};
ghost use Rattle.std.specs.List.{All};
ghost use Rattle.addr_translate.specs.Geometry.{array_count};
ghost use Rattle.partition_pool.specs.Pools.{PoolState};
ghost use Rattle.rule_txn.specs.Switch.{pool_for, pools_for};

use addr_translate::Shape;
use partition_pool::Pool;
use std::alloc::{AllocError, Global};

/// The pools of a shape's arrays, by number, with nothing taken.
#[tactic(auto, unfolding(crate::specs::Switch::pools_for))]
pub(crate) fn free_pools(alloc: Global, shape: &Shape) -> Result<Vec<Pool>, AllocError>
    ensures { IfOk result (λ pools. pools.items ≡ pools_for shape.now []) }
{
    let mut pools = Vec::with_capacity(alloc, shape.arrays() as usize)?;
    'arrays: for array in 0..shape.arrays() {
        match free_pool(alloc, shape, array) {
            Ok(pool) => pools.push_reserved(pool),
            Err(fault) => {
                close_pools(pools);
                return Err(fault);
            }
        }
    }
    Ok(pools)
}

fn free_pool(alloc: Global, shape: &Shape, array: u32) -> Result<Pool, AllocError>
    requires { array < array_count shape.now }
    ensures { IfOk result (λ pool. pool ≡ pool_for shape.now [] array) }
{
    Pool::new(alloc, array, shape.bits_of(array), shape.split())
}

/// Ends pools of which nothing is taken.
pub(crate) fn close_pools(pools: Vec<Pool>)
    requires { All (λ (pool : PoolState). pool.taken ≡ []) pools.items }
{
    let mut pools = pools;
    'pools: while let Some(pool) = pools.pop() {
        pool.close();
    }
    pools.destroy_empty();
}
