//! A switch with packets in flight as a machine: each packet passes one group, and then the next
//! enters, while tasks change.
ghost use Rattle.std.specs.Prelude.{◌≡◌, ◌≤◌};
ghost use Rattle.outside.specs.Told.{Told};
ghost use Rattle.reg_file.specs.Registers.{Dims, Contents};
ghost use Rattle.pipe_core.specs.Rules.{SameShape, IsShaped, IsPipe};
ghost use Rattle.pipe_flight.specs.Orders.{NobodyAt};
ghost use Rattle.pipe_flight.specs.States.{group_count, versions};
ghost use Rattle.rule_txn.specs.Switch.{SwitchState};
ghost use Rattle.flymon_engine.specs.Boards.{Board};
ghost use Rattle.flymon_engine.specs.Moves.{WasTold, Moves};
ghost use Rattle.flymon_engine.specs.Serial.{serial_lays};
ghost use Rattle.flymon_engine.specs.Flight.{advanced_below, flight_rules};
ghost use Rattle.flymon_engine.specs.Pipelined.{IsPipeOf, IsAirborne, FitsPipelined, StandsPipelined};

use crate::machine::{AskFault, Machine, StartFail};
use crate::serial::Serial;
use crate::work::{Change, Request};
use fm_io::Sink;
use key_mask::Line;
use pipe_core::Pipe;
use pipe_flight::Flight;
use pkt_headers::Packet;
use reg_file::{DeviceFault, RegFile};
use std::alloc::Global;
use sw_profile::Profile;

/// A switch, and the packets before its groups.
pub(crate) struct Pipelined {
    pub serial: Serial,
    pub flight: Flight,
}

impl Machine for Pipelined {
    ghost rules = { flight_rules };

    ghost fits = { FitsPipelined };

    ghost lays = { serial_lays };

    ghost stands = { StandsPipelined };

    fn start<R: RegFile>(
        alloc: Global,
        profile: &Profile,
        regs: &mut R,
    ) -> Result<Pipelined, StartFail> {
        let serial = Serial::start(alloc, profile, regs)?;
        match Flight::new(alloc, pipe_of(&serial)) {
            Ok(flight) => Ok(Pipelined { serial, flight }),
            Err(_) => {
                serial.close();
                Err(StartFail::Memory)
            }
        }
    }

    fn finish<R: RegFile>(self, regs: &mut R) {
        let Pipelined { serial, mut flight } = self;
        flight.show(pipe_of(&serial), regs);
        serial.close();
    }

    fn pass<R: RegFile>(&mut self, regs: &mut R, packet: &Packet) {
        advance_all(&mut self.flight, pipe_of(&self.serial), regs);
        self.flight.enter(packet);
    }

    fn change<R: RegFile>(&mut self, regs: &mut R, change: &Change) -> Result<Line, DeviceFault> {
        self.flight.commit(pipe_of(&self.serial), regs);
        self.serial.edit(regs, change)
    }

    fn ask<R: RegFile, O: Sink>(
        &mut self,
        regs: &mut R,
        request: &Request,
        out: &mut O,
    ) -> Result<Option<Line>, AskFault> {
        self.flight.show(pipe_of(&self.serial), regs);
        self.serial.answer(regs, request, out)
    }
}

/// The rules of the switch's tasks.
fn pipe_of(serial: &Serial) -> &Pipe
    ensures { IsPipeOf result.now serial.now.switch }
{
    serial.switch.pipe()
}

/// Each packet in flight passes one group, the one before the last group first: nobody is left
/// before the first.
fn advance_all<R: RegFile>(flight: &mut Flight, pipe: &Pipe, regs: &mut R)
    requires whole { IsPipe pipe.now }
    requires same { SameShape flight.old.before pipe.now }
    requires shaped { IsShaped pipe.now.geometry (R.dims regs.old) }
    ensures faults { R.faults regs.new ≡ R.faults regs.old }
    ensures dims { R.dims regs.new ≡ R.dims regs.old }
    ensures before { flight.new.before ≡ flight.old.before }
    ensures vacant { NobodyAt 0 flight.new.flight }
    ensures told { WasTold (R.contents regs.old) (R.contents regs.new) }
    ensures moves { (switch : SwitchState) (board : Board) → switch.geometry ≡ pipe.now.geometry → Told (λ old new.
        IsAirborne (versions pipe.now flight.old.before) switch flight.old.flight board old
        → Moves (IsAirborne (versions pipe.now flight.old.before) switch flight.new.flight)
        (advanced_below (group_count pipe.now) board) (R.calls regs.old) (R.calls regs.new) new) (R.contents regs.old) (R.contents regs.new) }
{
    'groups: for group in (0..pipe.shape().group_count()).rev() {
        if !flight.vacant(group) {
            flight.advance(pipe, regs, group);
        }
    }
}
