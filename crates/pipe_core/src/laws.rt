//! The law of a packet's calls.
ghost use Rattle.pipe_core.specs.Groups.{CallsRise};

/// The calls of a packet rise in arrays: one on each at most.
#[tactic(auto, using(crate::proofs::CallsLemmas::calls_rise))]
pub fn calls_rise()
    ensures { CallsRise }
{}
