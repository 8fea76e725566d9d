//! The top call: all that the program does.
ghost use Rattle.std.specs.Prelude.{◌≡◌, ◌↔◌, ◌≤◌, ℕ, true, false, None};
ghost use Rattle.outside.specs.Faults.{Rose};
ghost use Rattle.outside.specs.Told.{Stays};
ghost use Rattle.fm_io.specs.Slots.{Slots, SlotStays};
ghost use Rattle.fm_io.specs.Names.{Directory, DirectoryStays};
ghost use Rattle.flymon_engine.specs.Words.{Wrong, Carry, Demo, form_of, texts_of};
ghost use Rattle.flymon_engine.specs.Moves.{NoCalls};
ghost use Rattle.flymon_engine.specs.Opening.{is_standard, StraysStay};
ghost use Rattle.flymon_engine.specs.Endings.{Promises, Ran, seen, seen_beside};
ghost use Rattle.flymon_engine.specs.Serial.{serial_rules, serial_lays};
ghost use Rattle.flymon_engine.specs.Ways.{rules_by};
ghost use Rattle.flymon_engine.specs.declared.words.Way.{Way};
ghost use Rattle.flymon_engine.specs.Clauses.{names_profile, HasBadProfile, HasBadScript, IsDamaged, GoesAll, FailsInPlace, HasShaped, FailsDevice, IsEarly, FailsByName, SendsItsMessage, LeavesFiles};

use crate::carry::carry_all;
use crate::machine::{Machine, StartFail};
use crate::opening::{Opened, open_files};
use crate::pipelined::Pipelined;
use crate::report::report;
use crate::serial::Serial;
use crate::status::Status;
use crate::stop::{Refusal, Stop, ending, status_of};
use crate::words::{Asked, Names, Way, asked_of};
use fm_io::{Files, Sink};
use gen_capture::GenFiles;
use gen_capture::laws::captures_are_whole;
use reg_file::RegFile;
use std::alloc::Global;

/// Carries out what the words of the command line ask for.
///
/// The words are those behind the program's own name. A failed write to `err` changes no status.
pub fn run<F: Files, R: RegFile, O: Sink, E: Sink>(
    alloc: Global,
    words: &[String],
    files: &mut F,
    regs: &mut R,
    out: &mut O,
    err: &mut E,
) -> Status
    ensures ran { Ran (rules_by (form_of (texts_of words.now))) serial_lays (form_of (texts_of words.now)) result
        (seen F.Files R.RegFile O.Sink files.old regs.old out.old)
        (seen F.Files R.RegFile O.Sink files.new regs.new out.new)
        (E.faults err.old) (E.faults err.new) (E.sent err.old) (E.sent err.new) }

    // what the words and texts determine
    ensures usage { (result ≡ Status.Usage) ↔ (form_of (texts_of words.now) ≡ Wrong) }
    ensures bad_profile { result ≡ Status.BadProfile → HasBadProfile (form_of (texts_of words.now)) (F.directory files.new) (F.slots files.new) }
    ensures bad_script { result ≡ Status.BadScript → HasBadScript (form_of (texts_of words.now)) (F.directory files.new) (F.slots files.new) }
    ensures bad_capture { result ≡ Status.BadCapture → IsDamaged (rules_by (form_of (texts_of words.now))) serial_lays (form_of (texts_of words.now))
        (seen F.Files R.RegFile O.Sink files.old regs.old out.old)
        (seen F.Files R.RegFile O.Sink files.new regs.new out.new) }
    ensures done { result ≡ Status.Done → GoesAll (rules_by (form_of (texts_of words.now))) serial_lays (form_of (texts_of words.now)) None
        (seen F.Files R.RegFile O.Sink files.old regs.old out.old)
        (seen F.Files R.RegFile O.Sink files.new regs.new out.new) }

    // each fault has its cause and its place
    ensures input { result ≡ Status.InputFault → Rose (F.faults files.old) (F.faults files.new)
        × FailsInPlace (form_of (texts_of words.now)) (F.directory files.new) (F.slots files.new) (F.last files.new) }
    ensures output { result ≡ Status.OutputFault → Rose (O.faults out.old) (O.faults out.new) × HasShaped (form_of (texts_of words.now))
        (seen F.Files R.RegFile O.Sink files.new regs.new out.new) }
    ensures device { result ≡ Status.DeviceFault → Rose (R.faults regs.old) (R.faults regs.new) × FailsDevice (form_of (texts_of words.now))
        (seen F.Files R.RegFile O.Sink files.new regs.new out.new) }
    ensures nothing { IsEarly result → Stays (O.sent out.old) (O.sent out.new) × NoCalls (R.calls regs.old) (R.calls regs.new) }

    // which files were attached
    ensures standard { names_profile (form_of (texts_of words.now)) ≡ false → SlotStays (F.slots files.old).profile (F.slots files.new).profile }
    ensures names { (result ≡ Status.InputFault → ⊥) → StraysStay (F.directory files.new) (F.strays files.old) (F.strays files.new) }
    ensures stray { result ≡ Status.InputFault → FailsByName (form_of (texts_of words.now)) (F.directory files.new) (F.last files.new) (F.strays files.old) (F.strays files.new) }
    ensures demo { LeavesFiles (form_of (texts_of words.now)) result
        (seen F.Files R.RegFile O.Sink files.old regs.old out.old)
        (seen F.Files R.RegFile O.Sink files.new regs.new out.new) }
    ensures message { SendsItsMessage result (E.faults err.old) (E.faults err.new) (E.sent err.old) (E.sent err.new) }
{
    let ended = execute(alloc, words, files, regs, out);
    report(ended, err);
    status_of(ended)
}

/// The words, and then what they ask for.
fn execute<F: Files, R: RegFile, O: Sink>(
    alloc: Global,
    words: &[String],
    files: &mut F,
    regs: &mut R,
    out: &mut O,
) -> Result<(), Stop>
    ensures promises { Promises (rules_by (form_of (texts_of words.now))) serial_lays (form_of (texts_of words.now)) result
        (seen F.Files R.RegFile O.Sink files.old regs.old out.old)
        (seen F.Files R.RegFile O.Sink files.new regs.new out.new) }
    ensures standard { names_profile (form_of (texts_of words.now)) ≡ false → SlotStays (F.slots files.old).profile (F.slots files.new).profile }
{
    match asked_of(words) {
        Some(Asked::Carry { way, names }) => match way {
            Way::Replay => carry_out::<F, Serial, R, O>(alloc, names, files, regs, out),
            Way::Flight => carry_out::<F, Pipelined, R, O>(alloc, names, files, regs, out),
        },
        Some(Asked::Demo { seed, count }) => demo(alloc, seed, count, regs, out),
        None => Err(Stop::Opening(Refusal::Usage)),
    }
}

/// A replay over generated files, under the standard profile. The promises hold whatever files were handed in.
fn demo<R: RegFile, O: Sink>(
    alloc: Global,
    seed: u64,
    count: u32,
    regs: &mut R,
    out: &mut O,
) -> Result<(), Stop>
    requires { count ≤ 1000000 }
    ensures promises { (files last strays : ℕ) (directory : Directory) (slots : Slots) →
        Promises serial_rules serial_lays (Demo seed count) result
        (seen_beside R.RegFile O.Sink files last strays directory slots regs.old out.old)
        (seen_beside R.RegFile O.Sink files last strays directory slots regs.new out.new) }
{
    let names = Names {
        profile: "-",
        script: "script",
        capture: "capture",
    };
    // A law, which runs nothing: the generated capture is whole.
    captures_are_whole();
    let mut files = GenFiles::new(seed, count);
    carry_out::<GenFiles, Serial, R, O>(alloc, names, &mut files, regs, out)
}

/// The opening, and then the commands.
fn carry_out<F: Files, M: Machine, R: RegFile, O: Sink>(
    alloc: Global,
    names: Names<'_>,
    files: &mut F,
    regs: &mut R,
    out: &mut O,
) -> Result<(), Stop>
    ensures promises { (way : Way) → Promises M.rules M.lays (Carry way names.entry.profile.now names.entry.script.now names.entry.capture.now) result
        (seen F.Files R.RegFile O.Sink files.old regs.old out.old)
        (seen F.Files R.RegFile O.Sink files.new regs.new out.new) }
    ensures standard { is_standard names.entry.profile.now ≡ true → SlotStays (F.slots files.old).profile (F.slots files.new).profile }
    ensures directory { DirectoryStays (F.directory files.old) (F.directory files.new) }
{
    let opened = match open_files(alloc, names, files) {
        Ok(opened) => opened,
        Err(refusal) => return Err(Stop::Opening(refusal)),
    };
    let Opened {
        profile,
        commands,
        mut capture,
    } = opened;
    let mut machine = match M::start(alloc, &profile, regs) {
        Ok(machine) => machine,
        Err(StartFail::Memory) => return Err(Stop::Opening(Refusal::Memory)),
        Err(StartFail::Device) => return Err(Stop::Opening(Refusal::Device)),
    };
    let carried = carry_all(&commands, &mut capture, files, &mut machine, regs, out);
    machine.finish(regs);
    ending(carried)
}
