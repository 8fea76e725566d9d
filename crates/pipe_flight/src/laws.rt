//! The laws of packets in flight, for every schedule.
ghost use Rattle.pkt_headers.specs.declared.packets.Packet.{Packet};
ghost use Rattle.pipe_flight.specs.Schedules.{KeepsSerialOrder};
ghost use Rattle.pipe_flight.specs.Traces.{KeepsGroupOrder, KeepsPacketCalls};
ghost use Rattle.pipe_flight.specs.Drains.{DrainsEntered, DrainsFilled};
ghost use Rattle.pipe_flight.specs.Pipes.{PipesAreRuns, PipesAreStaged, PipesAvoidUnnamed, PipesKeepGroupOrder};

/// On each array the calls come in the order of the serial run, and once nobody is in flight they
/// are those of the serial run, and so are the registers.
#[tactic(auto, using(crate::proofs::LawLemmas::serial_order))]
pub fn serial_order()
    ensures { KeepsSerialOrder Packet }
{}

/// The registers of a group are those of the serial run without the packets that have not passed
/// it.
#[tactic(auto, using(crate::proofs::LawLemmas::group_order))]
pub fn group_order()
    ensures { KeepsGroupOrder Packet }
{}

/// The calls of an advance are those of the packet in the serial run that are on the group's arrays.
#[tactic(auto, using(crate::proofs::LawLemmas::packet_calls))]
pub fn packet_calls()
    ensures { KeepsPacketCalls Packet }
{}

/// A packet that enters comes after all others.
#[tactic(auto, using(crate::proofs::LawLemmas::enter_drain))]
pub fn enter_drain()
    ensures { DrainsEntered Packet }
{}

/// A fill beside what the old rules use comes before or after the old packets alike.
#[tactic(auto, using(crate::proofs::LawLemmas::fill_drain))]
pub fn fill_drain()
    ensures { DrainsFilled Packet }
{}

/// The rules of a pipe make in a group calls on the group's arrays alone.
#[tactic(auto, using(crate::proofs::PipeLemmas::pipes_staged))]
pub fn calls_by_group()
    ensures { PipesAreStaged }
{}

/// The rules of a pipe make no call on a register that no entry names.
#[tactic(auto, using(crate::proofs::PipeLemmas::unnamed_avoided))]
pub fn calls_where_named()
    ensures { PipesAvoidUnnamed }
{}

/// A schedule over the rules of pipes of one shape, where no entry of the rules before a change
/// names a register that it fills, is one of which these laws speak.
pub fn pipe_runs()
    ensures { PipesAreRuns }
{}

/// In it the registers of a group are those of the serial run without the packets that have not
/// passed it.
#[tactic(auto, using(crate::proofs::PipeRunLemmas::pipe_group_order))]
pub fn pipe_group_order()
    ensures { PipesKeepGroupOrder }
{}
