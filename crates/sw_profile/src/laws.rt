//! A law of profiles, the contract of an empty function.
ghost use Rattle.sw_profile.specs.Laws.{EqualGroupsStay};

/// A table of version 1 without a fault gives the profile that a table of version 2 gives which has
/// so many groups with the same numbers, `log_blocks` 5, and the same hash key or none.
#[tactic(auto, using(crate::proofs::LawLemmas::equal_groups_stay))]
pub fn equal_groups_stay()
    ensures { EqualGroupsStay }
{}
