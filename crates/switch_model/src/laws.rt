//! What holds of every switch. Each is the contract of an empty function.
ghost use Rattle.switch_model.specs.Laws.{StaysSound, OneCallAnArray, IsAlone, Restores, PacketKeepsLayout, ChangeKeepsLayout};

/// Packets and changes, accepted or refused, keep the tasks sound.
pub fn stays_sound()
    ensures { StaysSound }
{}

/// A packet makes at most one operation on each array.
#[tactic(auto, using(crate::proofs::CallLemmas::one_call_an_array))]
pub fn one_call_an_array()
    ensures { OneCallAnArray }
{}

/// What a task has counted is what it counts alone: whatever other tasks do, and wherever it
/// stands.
#[tactic(auto, using(crate::proofs::IsolationLemmas::is_alone))]
pub fn is_alone()
    ensures { IsAlone }
{}

/// An added task that is removed, after any packets, leaves the tasks and their places as they
/// were; and a refused change leaves tasks, places and packets.
#[tactic(auto, using(crate::proofs::RestorationLemmas::restores))]
pub fn restores()
    ensures { Restores }
{}

/// The operations of a packet leave in the registers of all live and frozen rows the cells of
/// their packets, for every kind.
#[tactic(auto, using(crate::proofs::CallLemmas::packet_keeps_layout))]
pub fn packet_keeps_layout()
    ensures { PacketKeepsLayout }
{}

/// So does a change that fills the regions that it takes with the start value, and no other
/// register.
pub fn change_keeps_layout()
    ensures { ChangeKeepsLayout }
{}
