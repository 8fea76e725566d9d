//! What holds of every switch. Each is the contract of an empty function.
ghost use Rattle.switch_model.specs.Laws.{OneCallAnArray, Restores};
ghost use Rattle.rule_txn.specs.Changes.{add_cause, resize_cause, remove_cause, release_cause};
ghost use Rattle.rule_txn.specs.Laws.{ChangeStands};

/// A packet makes at most one operation on each array.
#[tactic(auto, using(switch_model::proofs::CallLemmas::one_call_an_array))]
pub fn one_call_an_array()
    ensures { OneCallAnArray }
{}

/// A task that is added and, after any packets, removed leaves the tasks and their places as they
/// were: and so what is taken, installed and in use. A refused change leaves tasks, places and
/// packets.
#[tactic(auto, using(switch_model::proofs::RestorationLemmas::restores))]
pub fn add_restored()
    ensures { Restores }
{}

/// A change, made or refused, leaves a switch that stands for the tasks after it.
pub fn change_stands()
    ensures add { ChangeStands add_cause }
    ensures resize { ChangeStands resize_cause }
    ensures remove { ChangeStands remove_cause }
    ensures release { ChangeStands release_cause }
{}
