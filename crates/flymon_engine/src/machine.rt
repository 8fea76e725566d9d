//! What carries out packets, changes and questions on the registers.
ghost use Rattle.std.specs.Prelude.{◌≡◌, ℕ, ◌≤◌, [], List, IfOk, IfSome, IsErrOf, MatchResult};
ghost use Rattle.outside.specs.Faults.{Rose, HasCause};
ghost use Rattle.outside.specs.Told.{Told};
ghost use Rattle.reg_file.specs.Registers.{Dims, Contents};
ghost use Rattle.flymon_engine.specs.Boards.{Board, Rules, no_tasks};
ghost use Rattle.flymon_engine.specs.Moves.{dims_of, WasTold, Moves, Changes, Answers, NoCalls};

use crate::work::{Change, Request};
use fm_io::Sink;
use key_mask::Line;
use pkt_headers::Packet;
use reg_file::{DeviceFault, RegFile};
use std::alloc::Global;
use sw_profile::Profile;

/// Why an answer was cut off.
#[derive(Clone, Copy, Debug, PartialEq, Eq)]
pub(crate) enum AskFault {
    Device,
    Write,
}

/// Why a machine could not be started.
#[derive(Clone, Copy, Debug, PartialEq, Eq)]
pub(crate) enum StartFail {
    Memory,
    Device,
}

/// The tasks on a register file.
pub(crate) trait Machine {
    // What packets, changes and questions come to: the loop over commands opens none of it.
    ghost rules: { Rules };

    // The registers have the machine's shape.
    ghost fits: { Self → Dims → Type 0 };

    // The registers hold the cells of the board's tasks.
    ghost lays: { Board → Contents → Type 0 };

    // The machine stands for the board, and the registers are laid out for it.
    ghost stands: { Self → Board → Contents → Type 0 };

    /// Shapes the registers; there are no tasks.
    fn start<R: RegFile>(alloc: Global, profile: &Profile, regs: &mut R) -> Result<Self, StartFail>
        ensures fits { IfOk result (λ machine. fits machine (R.dims regs.new)) }
        ensures dims { IfOk result (λ machine. R.dims regs.new ≡ dims_of profile.now.shape) }
        ensures later { R.faults regs.old ≤ R.faults regs.new }
        ensures device { IsErrOf result StartFail.Device → Rose (R.faults regs.old) (R.faults regs.new) }
        ensures arrays { IsErrOf result StartFail.Device → (R.dims regs.new).arrays ≡ 0 }
        ensures cells { IfOk result (λ machine. IfSome (R.contents regs.new) (stands machine (no_tasks profile.now))) }
        ensures calls { MatchResult result
            (λ _. Told (λ _ now. now ≡ []) (R.calls regs.old) (R.calls regs.new))
            (λ _. NoCalls (R.calls regs.old) (R.calls regs.new)) };

    /// Carries out what is under way, and gives the machine up.
    fn finish<R: RegFile>(self, regs: &mut R)
        requires { fits self (R.dims regs.old) }
        ensures dims { R.dims regs.new ≡ R.dims regs.old }
        ensures faults { R.faults regs.new ≡ R.faults regs.old }
        ensures told { WasTold (R.contents regs.old) (R.contents regs.new) }
        ensures moves { (board : Board) → Told (λ old new. stands self board old
            → Moves lays (rules.finish board) (R.calls regs.old) (R.calls regs.new) new) (R.contents regs.old) (R.contents regs.new) };

    /// A packet passes.
    fn pass<R: RegFile>(&mut self, regs: &mut R, packet: &Packet)
        requires { fits self.old (R.dims regs.old) }
        ensures fits { fits self.new (R.dims regs.new) }
        ensures dims { R.dims regs.new ≡ R.dims regs.old }
        ensures faults { R.faults regs.new ≡ R.faults regs.old }
        ensures told { WasTold (R.contents regs.old) (R.contents regs.new) }
        ensures moves { (board : Board) → Told (λ old new. stands self.old board old
            → Moves (stands self.new) (rules.pass board packet.now) (R.calls regs.old) (R.calls regs.new) new) (R.contents regs.old) (R.contents regs.new) };

    /// Carries out a change, or refuses it, and answers the line that says so.
    fn change<R: RegFile>(&mut self, regs: &mut R, change: &Change) -> Result<Line, DeviceFault>
        requires { fits self.old (R.dims regs.old) }
        ensures fits { fits self.new (R.dims regs.new) }
        ensures dims { R.dims regs.new ≡ R.dims regs.old }
        ensures cause { HasCause (R.faults regs.old) (R.faults regs.new) result }
        ensures told { WasTold (R.contents regs.old) (R.contents regs.new) }
        ensures moves { (board : Board) → Told (λ old new. stands self.old board old
            → Changes rules (stands self.new) board change.now result (R.calls regs.old) (R.calls regs.new) new) (R.contents regs.old) (R.contents regs.new) };

    /// Sends the lines of an answer; or sends nothing, and answers the line of a refusal.
    fn ask<R: RegFile, O: Sink>(
        &mut self,
        regs: &mut R,
        request: &Request,
        out: &mut O,
    ) -> Result<Option<Line>, AskFault>
        requires { fits self.old (R.dims regs.old) }
        ensures fits { fits self.new (R.dims regs.new) }
        ensures dims { R.dims regs.new ≡ R.dims regs.old }
        ensures later { O.faults out.old ≤ O.faults out.new }
        ensures regs_later { R.faults regs.old ≤ R.faults regs.new }
        ensures device { IsErrOf result AskFault.Device → Rose (R.faults regs.old) (R.faults regs.new) }
        ensures write { IsErrOf result AskFault.Write → Rose (O.faults out.old) (O.faults out.new) }
        ensures told { WasTold (R.contents regs.old) (R.contents regs.new) }
        ensures moves { (board : Board) → Told (λ old new. stands self.old board old
            → Moves (stands self.new) (rules.ask board request.now) (R.calls regs.old) (R.calls regs.new) new) (R.contents regs.old) (R.contents regs.new) }
        ensures sent { (board : Board) → Told (λ old new. stands self.old board old
            → Answers request.now (rules.answer board request.now) result (O.sent out.old) (O.sent out.new)) (R.contents regs.old) (R.contents regs.new) };
}
