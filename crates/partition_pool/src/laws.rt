//! Laws of the taken list. Each is the contract of an empty function.
ghost use Rattle.partition_pool.specs.Laws.{FindsUpToLargest, GiveRestores};

/// A free region that is taken and given back leaves the taken list as it was.
#[tactic(auto, using(crate::proofs::Restores::without_put))]
pub fn give_restores()
    ensures { GiveRestores }
{}

/// A partition of a size is found exactly where it is no larger than the largest free one.
#[tactic(auto, using(crate::proofs::Walk::finds_up_to))]
pub fn finds_up_to_largest()
    ensures { FindsUpToLargest }
{}
