//! The way of one packet to the end.
ghost use Rattle.std.specs.Prelude.{◌≡◌, ◌≤◌, ◌-◌};
ghost use Rattle.reg_file.specs.Calls.{MakesOver};
ghost use Rattle.pipe_core.specs.Rules.{IsShaped};
ghost use Rattle.pipe_core.specs.Flow.{flow, stages_in};
ghost use Rattle.pipe_flight.specs.States.{group_count};

use cmu_stage::Outs;
use pipe_core::Pipe;
use pkt_headers::Packet;
use reg_file::RegFile;

/// The packet passes from a group to the end, with its carries so far.
pub(crate) fn pass_from<R: RegFile>(
    rules: &Pipe,
    group: u32,
    packet: &Packet,
    outs: Outs,
    regs: &mut R,
)
    requires group { group ≤ group_count rules.now }
    requires shaped { IsShaped rules.now.geometry (R.dims regs.old) }
    ensures faults { R.faults regs.new ≡ R.faults regs.old }
    ensures dims { R.dims regs.new ≡ R.dims regs.old }
    ensures makes { MakesOver (λ contents. flow (stages_in rules.now) contents packet.now (group_count rules.now - group) group outs.carry)
        (R.contents regs.old) (R.contents regs.new) (R.calls regs.old) (R.calls regs.new) }
{
    let mut outs = outs;
    'groups: for at in group..rules.shape().group_count() {
        rules.group_step(at, packet, &mut outs, regs);
    }
}
