//! The commands, carried out in turn.
ghost use Rattle.std.specs.Prelude.{◌≡◌, ℕ, ◌≤◌, true, List, Option, IfOk, IfErr, OnOk, OnErr};
ghost use Rattle.outside.specs.Told.{Told, Grows};
ghost use Rattle.outside.specs.Sent.{CameInPart};
ghost use Rattle.fm_io.specs.Slots.{slot_at, OthersStay};
ghost use Rattle.fm_io.specs.Names.{DirectoryStays};
ghost use Rattle.capture_read.specs.Steps.{MovesOn};
ghost use Rattle.flymon_engine.specs.Arrivals.{Comes};
ghost use Rattle.flymon_engine.specs.Captures.{IsReady};
ghost use Rattle.flymon_engine.specs.Works.{work_of, works_of};
ghost use Rattle.flymon_engine.specs.Causes.{HasCause, halt_of};
ghost use Rattle.flymon_engine.specs.Runs.{Run};
ghost use Rattle.flymon_engine.specs.Moves.{WasTold};
ghost use Rattle.flymon_engine.specs.Worlds.{Before, WhereTold, Shows, IsAt, EndsAt, GoesOn, Goes, TakesBy};

use crate::captures::next_packet;
use crate::lines::{line_packets, send};
use crate::machine::{AskFault, Machine};
use crate::stop::Halt;
use crate::work::{Change, Request, Work, work_of};
use capture_read::{Capture, CaptureFault};
use fm_io::{Files, Sink};
use reg_file::{DeviceFault, RegFile};
use task_lang::Command;

/// All commands, one after another.
pub(crate) fn carry_all<F: Files, M: Machine, R: RegFile, O: Sink>(
    commands: &[Command],
    capture: &mut Capture,
    files: &mut F,
    machine: &mut M,
    regs: &mut R,
    out: &mut O,
) -> Result<(), Halt>
    requires attached { (slot_at (F.slots files.old) 2).attached ≡ true }
    requires ready { IsReady capture.old (slot_at (F.slots files.old) 2) }
    requires fits { M.fits machine.old (R.dims regs.old) }
    ensures attached { (slot_at (F.slots files.new) 2).attached ≡ true }
    ensures fits { M.fits machine.new (R.dims regs.new) }
    ensures dims { R.dims regs.new ≡ R.dims regs.old }
    ensures strays { F.strays files.new ≡ F.strays files.old }
    ensures directory { DirectoryStays (F.directory files.old) (F.directory files.new) }
    ensures others { OthersStay 2 (F.slots files.old) (F.slots files.new) }
    ensures later { F.faults files.old ≤ F.faults files.new }
    ensures regs_later { R.faults regs.old ≤ R.faults regs.new }
    ensures out_later { O.faults out.old ≤ O.faults out.new }
    ensures cause { IfErr result (HasCause (F.faults files.old) (F.faults files.new) (F.last files.new)
        (R.faults regs.old) (R.faults regs.new) (O.faults out.old) (O.faults out.new)) }
    ensures cursor { Told MovesOn (slot_at (F.slots files.old) 2).cursor (slot_at (F.slots files.new) 2).cursor }
    ensures cells { WasTold (R.contents regs.old) (R.contents regs.new) }
    ensures run { (before : Before) (start : Run)
        → WhereTold (slot_at (F.slots files.old) 2).cursor (R.contents regs.old)
        (λ t c. IsAt (M.stands machine.old) (Comes capture.old) before (R.calls regs.old) (O.sent out.old) t c start)
        → WhereTold (slot_at (F.slots files.new) 2).cursor (R.contents regs.new)
        (EndsAt M.rules (M.stands machine.new) before (R.calls regs.new) (O.sent out.new) result start (works_of commands.now)) }
{
    'commands: for command in commands {
        match carry_one(command, capture, files, machine, regs, out) {
            Ok(()) => {}
            Err(halt) => return Err(halt),
        }
    }
    Ok(())
}

/// One command.
fn carry_one<F: Files, M: Machine, R: RegFile, O: Sink>(
    command: &Command,
    capture: &mut Capture,
    files: &mut F,
    machine: &mut M,
    regs: &mut R,
    out: &mut O,
) -> Result<(), Halt>
    requires attached { (slot_at (F.slots files.old) 2).attached ≡ true }
    requires ready { IsReady capture.old (slot_at (F.slots files.old) 2) }
    requires fits { M.fits machine.old (R.dims regs.old) }
    ensures attached { (slot_at (F.slots files.new) 2).attached ≡ true }
    ensures ready { IfOk result (λ _. IsReady capture.new (slot_at (F.slots files.new) 2)) }
    ensures fits { M.fits machine.new (R.dims regs.new) }
    ensures dims { R.dims regs.new ≡ R.dims regs.old }
    ensures strays { F.strays files.new ≡ F.strays files.old }
    ensures directory { DirectoryStays (F.directory files.old) (F.directory files.new) }
    ensures others { OthersStay 2 (F.slots files.old) (F.slots files.new) }
    ensures later { F.faults files.old ≤ F.faults files.new }
    ensures regs_later { R.faults regs.old ≤ R.faults regs.new }
    ensures out_later { O.faults out.old ≤ O.faults out.new }
    ensures cause { IfErr result (HasCause (F.faults files.old) (F.faults files.new) (F.last files.new)
        (R.faults regs.old) (R.faults regs.new) (O.faults out.old) (O.faults out.new)) }
    ensures cursor { Told MovesOn (slot_at (F.slots files.old) 2).cursor (slot_at (F.slots files.new) 2).cursor }
    ensures cells { WasTold (R.contents regs.old) (R.contents regs.new) }
    ensures run { (before : Before) (run : Run)
        → WhereTold (slot_at (F.slots files.old) 2).cursor (R.contents regs.old)
        (λ t c. IsAt (M.stands machine.old) (Comes capture.old) before (R.calls regs.old) (O.sent out.old) t c run)
        → WhereTold (slot_at (F.slots files.new) 2).cursor (R.contents regs.new)
        (Goes M.rules (M.stands machine.new) (Comes capture.new) before (R.calls regs.new) (O.sent out.new) result run (work_of command.now)) }
{
    match work_of(command) {
        Work::Take(asked) => take(asked, capture, files, machine, regs, out),
        Work::Change(change) => change_tasks(&change, machine, regs, out),
        Work::Ask(request) => ask(&request, machine, regs, out),
    }
}

/// Takes packets, and says how many they were.
fn take<F: Files, M: Machine, R: RegFile, O: Sink>(
    asked: u32,
    capture: &mut Capture,
    files: &mut F,
    machine: &mut M,
    regs: &mut R,
    out: &mut O,
) -> Result<(), Halt>
    requires attached { (slot_at (F.slots files.old) 2).attached ≡ true }
    requires ready { IsReady capture.old (slot_at (F.slots files.old) 2) }
    requires fits { M.fits machine.old (R.dims regs.old) }
    ensures attached { (slot_at (F.slots files.new) 2).attached ≡ true }
    ensures ready { IfOk result (λ _. IsReady capture.new (slot_at (F.slots files.new) 2)) }
    ensures fits { M.fits machine.new (R.dims regs.new) }
    ensures dims { R.dims regs.new ≡ R.dims regs.old }
    ensures strays { F.strays files.new ≡ F.strays files.old }
    ensures directory { DirectoryStays (F.directory files.old) (F.directory files.new) }
    ensures others { OthersStay 2 (F.slots files.old) (F.slots files.new) }
    ensures later { F.faults files.old ≤ F.faults files.new }
    ensures regs_later { R.faults regs.old ≤ R.faults regs.new }
    ensures out_later { O.faults out.old ≤ O.faults out.new }
    ensures cause { IfErr result (HasCause (F.faults files.old) (F.faults files.new) (F.last files.new)
        (R.faults regs.old) (R.faults regs.new) (O.faults out.old) (O.faults out.new)) }
    ensures cursor { Told MovesOn (slot_at (F.slots files.old) 2).cursor (slot_at (F.slots files.new) 2).cursor }
    ensures cells { WasTold (R.contents regs.old) (R.contents regs.new) }
    ensures run { (before : Before) (run : Run)
        → WhereTold (slot_at (F.slots files.old) 2).cursor (R.contents regs.old)
        (λ t c. IsAt (M.stands machine.old) (Comes capture.old) before (R.calls regs.old) (O.sent out.old) t c run)
        → WhereTold (slot_at (F.slots files.new) 2).cursor (R.contents regs.new)
        (Goes M.rules (M.stands machine.new) (Comes capture.new) before (R.calls regs.new) (O.sent out.new) result run (Work.Take asked)) }
{
    match take_packets(asked, capture, files, machine, regs) {
        Ok(count) => send(out, &line_packets(count)),
        Err(halt) => Err(halt),
    }
}

/// Takes packets, at most so many, and answers how many they were.
fn take_packets<F: Files, M: Machine, R: RegFile>(
    asked: u32,
    capture: &mut Capture,
    files: &mut F,
    machine: &mut M,
    regs: &mut R,
) -> Result<u32, Halt>
    requires attached { (slot_at (F.slots files.old) 2).attached ≡ true }
    requires ready { IsReady capture.old (slot_at (F.slots files.old) 2) }
    requires fits { M.fits machine.old (R.dims regs.old) }
    ensures attached { (slot_at (F.slots files.new) 2).attached ≡ true }
    ensures ready { IfOk result (λ _. IsReady capture.new (slot_at (F.slots files.new) 2)) }
    ensures fits { M.fits machine.new (R.dims regs.new) }
    ensures dims { R.dims regs.new ≡ R.dims regs.old }
    ensures strays { F.strays files.new ≡ F.strays files.old }
    ensures directory { DirectoryStays (F.directory files.old) (F.directory files.new) }
    ensures others { OthersStay 2 (F.slots files.old) (F.slots files.new) }
    ensures later { F.faults files.old ≤ F.faults files.new }
    ensures faults { R.faults regs.new ≡ R.faults regs.old }
    ensures cause { IfErr result (HasCause (F.faults files.old) (F.faults files.new) (F.last files.new) 0 0 0 0) }
    ensures cursor { Told MovesOn (slot_at (F.slots files.old) 2).cursor (slot_at (F.slots files.new) 2).cursor }
    ensures cells { WasTold (R.contents regs.old) (R.contents regs.new) }
    ensures run { (before : Before) (sent : Option (List ℕ)) (run : Run)
        → WhereTold (slot_at (F.slots files.old) 2).cursor (R.contents regs.old)
        (λ t c. IsAt (M.stands machine.old) (Comes capture.old) before (R.calls regs.old) sent t c run)
        → WhereTold (slot_at (F.slots files.new) 2).cursor (R.contents regs.new)
        (TakesBy M.rules (M.stands machine.new) (Comes capture.new) before (R.calls regs.new) sent result run (Work.Take asked)) }
{
    'packets: for taken in 0..asked {
        match next_packet(capture, files) {
            Ok(Some(packet)) => machine.pass(regs, &packet),
            Ok(None) => return Ok(taken),
            Err(fault) => return Err(halt_of(fault)),
        }
    }
    Ok(asked)
}

/// A change, and the line of what it came to.
fn change_tasks<M: Machine, R: RegFile, O: Sink>(
    change: &Change,
    machine: &mut M,
    regs: &mut R,
    out: &mut O,
) -> Result<(), Halt>
    requires fits { M.fits machine.old (R.dims regs.old) }
    ensures fits { M.fits machine.new (R.dims regs.new) }
    ensures dims { R.dims regs.new ≡ R.dims regs.old }
    ensures regs_later { R.faults regs.old ≤ R.faults regs.new }
    ensures out_later { O.faults out.old ≤ O.faults out.new }
    ensures cause { IfErr result (HasCause 0 0 0 (R.faults regs.old) (R.faults regs.new) (O.faults out.old) (O.faults out.new)) }
    ensures cells { WasTold (R.contents regs.old) (R.contents regs.new) }
    ensures run { (before : Before) (run : Run) → Told (λ old new.
        Shows (M.stands machine.old) before (R.calls regs.old) (O.sent out.old) old run
        → (at : ℕ) → GoesOn M.rules (M.stands machine.new) before (R.calls regs.new) (O.sent out.new) result run (Work.Change change.now) at new) (R.contents regs.old) (R.contents regs.new) }
{
    match machine.change(regs, change) {
        Ok(line) => send(out, &line),
        Err(DeviceFault) => Err(Halt::Device),
    }
}

/// A read-out, or the line that says that it is refused.
fn ask<M: Machine, R: RegFile, O: Sink>(
    request: &Request,
    machine: &mut M,
    regs: &mut R,
    out: &mut O,
) -> Result<(), Halt>
    requires fits { M.fits machine.old (R.dims regs.old) }
    ensures fits { M.fits machine.new (R.dims regs.new) }
    ensures dims { R.dims regs.new ≡ R.dims regs.old }
    ensures regs_later { R.faults regs.old ≤ R.faults regs.new }
    ensures out_later { O.faults out.old ≤ O.faults out.new }
    ensures cause { IfErr result (HasCause 0 0 0 (R.faults regs.old) (R.faults regs.new) (O.faults out.old) (O.faults out.new)) }
    ensures cells { WasTold (R.contents regs.old) (R.contents regs.new) }
    ensures run { (before : Before) (run : Run) → Told (λ old new.
        Shows (M.stands machine.old) before (R.calls regs.old) (O.sent out.old) old run
        → (at : ℕ) → GoesOn M.rules (M.stands machine.new) before (R.calls regs.new) (O.sent out.new) result run (Work.Ask request.now) at new) (R.contents regs.old) (R.contents regs.new) }
{
    match machine.ask(regs, request, out) {
        Ok(None) => Ok(()),
        Ok(Some(line)) => send(out, &line),
        Err(AskFault::Device) => Err(Halt::Device),
        Err(AskFault::Write) => Err(Halt::Output),
    }
}

/// What a fault of the capture is to the run.
fn halt_of(fault: CaptureFault) -> Halt
    ensures { result ≡ halt_of fault }
{
    match fault {
        CaptureFault::Read => Halt::Input,
        _ => Halt::Damage(fault),
    }
}
