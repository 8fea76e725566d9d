//! A switch as a machine: each packet passes through all groups before the next.
ghost use Rattle.std.specs.Prelude.{◌≡◌, ◌≤◌, Ok, Err, Some, None, MatchResult, IsErrOf};
ghost use Rattle.std.specs.Option.{option_map};
ghost use Rattle.outside.specs.Faults.{Rose, HasCause};
ghost use Rattle.outside.specs.Told.{Told, Stays};
ghost use Rattle.reg_file.specs.Registers.{Dims, Contents};
ghost use Rattle.sketch_defs.specs.Tasks.{first_fault};
ghost use Rattle.rule_txn.specs.Changes.{add_cause, resize_cause, release_cause};
ghost use Rattle.flymon_engine.specs.Boards.{Board};
ghost use Rattle.switch_model.specs.Changes.{judged};
ghost use Rattle.rule_txn.specs.Fills.{Refills};
ghost use Rattle.flymon_engine.specs.ChangeLines.{change_of, refusal_of, Tells};
ghost use Rattle.flymon_engine.specs.Moves.{WasTold, Changes, Answers};
ghost use Rattle.flymon_engine.specs.Serial.{serial_rules, serial_lays, FitsSerial, IsSerial, EditsTo, StandsSerial};

use crate::change_lines::{Reason, line_denied, line_done};
use crate::machine::{AskFault, Machine, StartFail};
use crate::work::{Change, Request};
use fm_io::Sink;
use hash_units::HashKey;
use key_mask::Line;
use pkt_headers::Packet;
use readout::{ReadFault, Readout, Stop, refused_line};
use reg_file::{DeviceFault, RegFile};
use rule_txn::{AddFault, ReleaseFault, ResizeFault, Switch, Unknown};
use sketch_defs::Task;
use std::alloc::Global;
use sw_profile::Profile;

/// A switch, and what reads it out.
pub(crate) struct Serial {
    pub switch: Switch,
    pub reader: Readout,
    pub key: HashKey,
}

impl Machine for Serial {
    ghost rules = { serial_rules };

    ghost fits = { FitsSerial };

    ghost lays = { serial_lays };

    ghost stands = { StandsSerial };

    fn start<R: RegFile>(
        alloc: Global,
        profile: &Profile,
        regs: &mut R,
    ) -> Result<Serial, StartFail> {
        let Ok(reader) = Readout::new(alloc, profile.shape.greatest_bits()) else {
            return Err(StartFail::Memory);
        };
        match Switch::start(alloc, profile.shape, profile.key, regs) {
            Ok(switch) => {
                // For its clause on the limits.
                let _ = switch.shape();
                Ok(Serial {
                    switch,
                    reader,
                    key: profile.key,
                })
            }
            Err(rule_txn::StartFail::Memory) => Err(StartFail::Memory),
            Err(rule_txn::StartFail::Device) => Err(StartFail::Device),
        }
    }

    fn finish<R: RegFile>(self, regs: &mut R) {
        let _ = &regs;
        self.close();
    }

    fn pass<R: RegFile>(&mut self, regs: &mut R, packet: &Packet) {
        self.switch.packet(regs, packet);
    }

    fn change<R: RegFile>(&mut self, regs: &mut R, change: &Change) -> Result<Line, DeviceFault> {
        self.edit(regs, change)
    }

    fn ask<R: RegFile, O: Sink>(
        &mut self,
        regs: &mut R,
        request: &Request,
        out: &mut O,
    ) -> Result<Option<Line>, AskFault> {
        self.answer(regs, request, out)
    }
}

impl Serial {
    /// Gives the switch up.
    pub(crate) fn close(self) {
        let Serial {
            switch,
            reader: _,
            key: _,
        } = self;
        switch.close();
    }

    /// Carries out a change, or refuses it, and answers the line that says so.
    pub(crate) fn edit<R: RegFile>(
        &mut self,
        regs: &mut R,
        change: &Change,
    ) -> Result<Line, DeviceFault>
        requires { FitsSerial self.old (R.dims regs.old) }
        ensures fits { FitsSerial self.new (R.dims regs.new) }
        ensures dims { R.dims regs.new ≡ R.dims regs.old }
        ensures cause { HasCause (R.faults regs.old) (R.faults regs.new) result }
        ensures fills { Told (Refills (judged self.old.switch.geometry self.old.switch.outlines (change_of change.now)) result)
            (R.contents regs.old) (R.contents regs.new) }
        ensures edits { EditsTo self.old.switch self.new.switch change.now result (R.calls regs.old) (R.calls regs.new) }
    {
        // For its clause on the limits.
        let _ = self.switch.shape();
        match change {
            Change::Add(task) => {
                is_allowed(task);
                match self.switch.add(regs, task) {
                    Ok(()) => Ok(line_done(change)),
                    Err(fault) => denied(change, add_reason(fault)),
                }
            }
            Change::Resize { name, size } => match self.switch.resize(regs, name, *size) {
                Ok(()) => Ok(line_done(change)),
                Err(fault) => denied(change, resize_reason(fault)),
            },
            Change::Remove(name) => match self.switch.remove(name) {
                Ok(()) => Ok(line_done(change)),
                Err(Unknown) => Ok(line_denied(change, Reason::Unknown)),
            },
            Change::Release(name) => match self.switch.release(name) {
                Ok(()) => Ok(line_done(change)),
                Err(fault) => Ok(line_denied(change, release_reason(fault))),
            },
        }
    }

    /// Sends the lines of an answer; or sends nothing, and answers the line of a refusal.
    pub(crate) fn answer<R: RegFile, O: Sink>(
        &mut self,
        regs: &mut R,
        request: &Request,
        out: &mut O,
    ) -> Result<Option<Line>, AskFault>
        requires { FitsSerial self.old (R.dims regs.old) }
        ensures fits { FitsSerial self.new (R.dims regs.new) }
        ensures switch { self.new.switch ≡ self.old.switch }
        ensures dims { R.dims regs.new ≡ R.dims regs.old }
        ensures later { O.faults out.old ≤ O.faults out.new }
        ensures regs_later { R.faults regs.old ≤ R.faults regs.new }
        ensures device { IsErrOf result AskFault.Device → Rose (R.faults regs.old) (R.faults regs.new) }
        ensures write { IsErrOf result AskFault.Write → Rose (O.faults out.old) (O.faults out.new) }
        ensures contents { Stays (R.contents regs.old) (R.contents regs.new) }
        ensures calls { Stays (R.calls regs.old) (R.calls regs.new) }
        ensures sent { (board : Board) → Told (λ old new. IsSerial self.old.switch board old
            → Answers request.now (serial_rules.answer board request.now) result (O.sent out.old) (O.sent out.new)) (R.contents regs.old) (R.contents regs.new) }
    {
        // For its clauses on what the view is.
        let _ = self.switch.shape();
        match request {
            Request::Show => told(self.reader.show(&self.switch, out)),
            Request::Stat => told(self.reader.stat(&self.switch, out)),
            Request::Task { name, ask } => {
                match self
                    .reader
                    .read_out(&self.switch, regs, &self.key, name, ask, out)
                {
                    Ok(Ok(())) => Ok(None),
                    Ok(Err(refusal)) => Ok(Some(refused_line(ask, name, refusal))),
                    Err(Stop::Device) => Err(AskFault::Device),
                    Err(Stop::Write) => Err(AskFault::Write),
                }
            }
        }
    }
}

/// Lines for which no register is read: a write alone stops them.
fn told(sent: Result<(), ReadFault>) -> Result<Option<Line>, AskFault>
    ensures { MatchResult sent (λ _. result ≡ Ok None) (λ _. result ≡ Err AskFault.Write) }
{
    match sent {
        Ok(()) => Ok(None),
        Err(_) => Err(AskFault::Write),
    }
}

/// What each task has: it is one that there may be.
fn is_allowed(task: &Task)
    ensures { first_fault task.now ≡ None }
{
    let _ = task.kind();
    let _ = task.rows();
    let _ = task.key();
    let _ = task.attr();
}

/// The line of a change that was refused for this reason; where there is none, the device refused it.
fn denied(change: &Change, reason: Option<Reason>) -> Result<Line, DeviceFault>
    ensures { Tells (option_map refusal_of reason) change.now result }
{
    match reason {
        Some(reason) => Ok(line_denied(change, reason)),
        None => Err(DeviceFault),
    }
}

fn add_reason(fault: AddFault) -> Option<Reason>
    ensures { option_map refusal_of result ≡ add_cause fault }
{
    match fault {
        AddFault::Exists => Some(Reason::Exists),
        AddFault::BadMemory { size } => Some(Reason::BadMemory { size }),
        AddFault::NoUnit { need, have } => Some(Reason::NoUnit { need, have }),
        AddFault::NoPartition { need, have } => Some(Reason::NoPartition { need, have }),
        AddFault::Device => None,
    }
}

fn resize_reason(fault: ResizeFault) -> Option<Reason>
    ensures { option_map refusal_of result ≡ resize_cause fault }
{
    match fault {
        ResizeFault::Unknown => Some(Reason::Unknown),
        ResizeFault::FrozenHeld => Some(Reason::FrozenHeld),
        ResizeFault::BadMemory { size } => Some(Reason::BadMemory { size }),
        ResizeFault::NoRoom { row } => Some(Reason::NoRoom { row }),
        ResizeFault::Device => None,
    }
}

fn release_reason(fault: ReleaseFault) -> Reason
    ensures { option_map refusal_of (Some result) ≡ release_cause fault }
{
    match fault {
        ReleaseFault::Unknown => Reason::Unknown,
        ReleaseFault::NoFrozen => Reason::NoFrozen,
    }
}
