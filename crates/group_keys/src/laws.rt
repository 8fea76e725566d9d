//! A law of the units of a group. It is the contract of an empty function.
ghost use Rattle.group_keys.specs.Laws.{FreeRestores};

/// What served a key, freed again, leaves the units of a group as they were.
#[tactic(auto, using(crate::proofs::LawLemmas::free_restores))]
pub fn free_restores()
    ensures { FreeRestores }
{}
