//! The opening of a run: what the words name is attached, read and judged, in this order.
ghost use Rattle.std.specs.Prelude.{◌≡◌, ◌+◌, ◌<◌, ◌≤◌, true, take, IfOk, IfErr, IfSome, IsErrOf, MatchResult};
ghost use Rattle.outside.specs.Faults.{Rose};
ghost use Rattle.fm_io.specs.Slots.{slot_at, SlotStays, OthersStay};
ghost use Rattle.fm_io.specs.Names.{DirectoryStays};
ghost use Rattle.fm_io.specs.Loops.{last_read};
ghost use Rattle.flymon_engine.specs.Words.{form_of, texts_of};
ghost use Rattle.flymon_engine.specs.Captures.{IsReady, HasBegun};
ghost use Rattle.flymon_engine.specs.Opening.{is_standard, IsThere, Reads, GivesProfile, GivesCommands, HasHeader, Opens, HasProfile, IsValid, IsWithin, StopsFiles, HasInputCause, StraysStay, StraysBy, KeepsNames, refusal_of, header_refusal};

use crate::stop::{File, Refusal};
use crate::words::Names;
use capture_read::{BeginFail, Capture, CaptureFault};
use fm_io::{Failed, Files, ReadFail, read_whole};
use std::alloc::Global;
use sw_profile::{Profile, ProfileFail, default_profile, read_profile};
use task_lang::{Command, ParseFail, SCRIPT_LIMIT, parse_script};

/// The most bytes of a profile.
const PROFILE_LIMIT: usize = 65_536;

/// What a replay begins with.
#[derive(Drop)]
pub(crate) struct Opened {
    pub profile: Profile,
    pub commands: Vec<Command>,
    pub capture: Capture,
}

/// Reads and judges the three files, one after another.
pub(crate) fn open_files<F: Files>(
    alloc: Global,
    names: Names<'_>,
    files: &mut F,
) -> Result<Opened, Refusal>
    ensures later { F.faults files.old ≤ F.faults files.new }
    ensures directory { DirectoryStays (F.directory files.old) (F.directory files.new) }
    ensures cause { IfErr result (HasInputCause (F.faults files.old) (F.faults files.new) (F.last files.new)) }
    ensures standard { is_standard names.entry.profile.now ≡ true → SlotStays (F.slots files.old).profile (F.slots files.new).profile }
    ensures opens { IfOk result (λ opened. Opens names.entry.profile.now names.entry.script.now names.entry.capture.now
        (F.directory files.new) (F.slots files.new) opened.profile opened.commands.items) }
    ensures attached { IfOk result (λ _. (slot_at (F.slots files.new) 2).attached ≡ true) }
    ensures ready { IfOk result (λ opened. IsReady opened.capture (slot_at (F.slots files.new) 2)) }
    ensures begun { IfOk result (λ opened. IfSome (slot_at (F.slots files.new) 2).cursor (HasBegun opened.capture)) }
    ensures refused { IfErr result (StopsFiles names.entry.profile.now names.entry.script.now names.entry.capture.now
        (F.directory files.new) (F.slots files.new)) }
    ensures strays { MatchResult result
        (λ _. StraysStay (F.directory files.new) (F.strays files.old) (F.strays files.new))
        (KeepsNames names.entry.profile.now names.entry.script.now names.entry.capture.now
        (F.directory files.new) (F.strays files.old) (F.strays files.new)) }
{
    let profile = profile_of(alloc, names, files)?;
    let commands = commands_of(alloc, names, files)?;
    let capture = capture_of(alloc, names, files)?;
    Ok(Opened {
        profile,
        commands,
        capture,
    })
}

/// The profile that the words name.
fn profile_of<F: Files>(alloc: Global, names: Names<'_>, files: &mut F) -> Result<Profile, Refusal>
    ensures later { F.faults files.old ≤ F.faults files.new }
    ensures directory { DirectoryStays (F.directory files.old) (F.directory files.new) }
    ensures cause { IfErr result (HasInputCause (F.faults files.old) (F.faults files.new) (F.last files.new)) }
    ensures standard { is_standard names.entry.profile.now ≡ true → SlotStays (F.slots files.old).profile (F.slots files.new).profile }
    ensures gives { IfOk result (GivesProfile names.entry.profile.now (F.directory files.new) (F.slots files.new)) }
    ensures refused { IfErr result (StopsFiles names.entry.profile.now names.entry.script.now names.entry.capture.now
        (F.directory files.new) (F.slots files.new)) }
    ensures strays { MatchResult result
        (λ _. StraysStay (F.directory files.new) (F.strays files.old) (F.strays files.new))
        (KeepsNames names.entry.profile.now names.entry.script.now names.entry.capture.now
        (F.directory files.new) (F.strays files.old) (F.strays files.new)) }
{
    if names.profile == "-" {
        return Ok(default_profile());
    }
    match bytes_of(alloc, files, 0, names.profile, PROFILE_LIMIT) {
        Ok(text) => match read_profile(alloc, &text) {
            Ok(profile) => Ok(profile),
            Err(ProfileFail::Fault(fault)) => Err(Refusal::Profile(fault)),
            Err(ProfileFail::Memory) => Err(Refusal::Memory),
        },
        Err(fail) => Err(refusal_of(File::Profile, fail)),
    }
}

/// The commands of the script.
fn commands_of<F: Files>(
    alloc: Global,
    names: Names<'_>,
    files: &mut F,
) -> Result<Vec<Command>, Refusal>
    ensures later { F.faults files.old ≤ F.faults files.new }
    ensures cause { IfErr result (HasInputCause (F.faults files.old) (F.faults files.new) (F.last files.new)) }
    ensures directory { DirectoryStays (F.directory files.old) (F.directory files.new) }
    ensures others { OthersStay 1 (F.slots files.old) (F.slots files.new) }
    ensures gives { IfOk result (λ commands. GivesCommands names.entry.script.now (F.directory files.new) (F.slots files.new) commands.items) }
    ensures refused { HasProfile names.entry.profile.now (F.directory files.old) (F.slots files.old)
        → IfErr result (StopsFiles names.entry.profile.now names.entry.script.now names.entry.capture.now
        (F.directory files.new) (F.slots files.new)) }
    ensures strays { MatchResult result
        (λ _. StraysStay (F.directory files.new) (F.strays files.old) (F.strays files.new))
        (KeepsNames names.entry.profile.now names.entry.script.now names.entry.capture.now
        (F.directory files.new) (F.strays files.old) (F.strays files.new)) }
{
    match bytes_of(alloc, files, 1, names.script, SCRIPT_LIMIT) {
        Ok(text) => match parse_script(alloc, &text) {
            Ok(commands) => Ok(commands),
            Err(ParseFail::Fault(fault)) => Err(Refusal::Script(fault)),
            Err(ParseFail::Memory) => Err(Refusal::Memory),
        },
        Err(fail) => Err(refusal_of(File::Script, fail)),
    }
}

/// The capture, with its header read.
fn capture_of<F: Files>(alloc: Global, names: Names<'_>, files: &mut F) -> Result<Capture, Refusal>
    ensures later { F.faults files.old ≤ F.faults files.new }
    ensures cause { IfErr result (HasInputCause (F.faults files.old) (F.faults files.new) (F.last files.new)) }
    ensures directory { DirectoryStays (F.directory files.old) (F.directory files.new) }
    ensures others { OthersStay 2 (F.slots files.old) (F.slots files.new) }
    ensures header { IfOk result (λ _. HasHeader names.entry.capture.now (F.directory files.new) (F.slots files.new)) }
    ensures attached { IfOk result (λ _. (slot_at (F.slots files.new) 2).attached ≡ true) }
    ensures ready { IfOk result (λ capture. IsReady capture (slot_at (F.slots files.new) 2)) }
    ensures begun { IfOk result (λ capture. IfSome (slot_at (F.slots files.new) 2).cursor (HasBegun capture)) }
    ensures refused { IsValid names.entry.profile.now names.entry.script.now (F.directory files.old) (F.slots files.old)
        → IfErr result (StopsFiles names.entry.profile.now names.entry.script.now names.entry.capture.now
        (F.directory files.new) (F.slots files.new)) }
    ensures strays { MatchResult result
        (λ _. StraysStay (F.directory files.new) (F.strays files.old) (F.strays files.new))
        (KeepsNames names.entry.profile.now names.entry.script.now names.entry.capture.now
        (F.directory files.new) (F.strays files.old) (F.strays files.new)) }
{
    if let Err(Failed) = files.attach(2, names.capture) {
        return Err(Refusal::Input(File::Capture));
    }
    match Capture::begin(alloc, files) {
        Ok(capture) => Ok(capture),
        Err(BeginFail::Fault(fault)) => Err(header_refusal(fault)),
        Err(BeginFail::Memory) => Err(Refusal::Memory),
    }
}

/// The bytes of a file, attached to the slot: all of them, or one more than `limit`.
fn bytes_of<F: Files>(
    alloc: Global,
    files: &mut F,
    slot: usize,
    name: &str,
    limit: usize,
) -> Result<Vec<u8>, ReadFail>
    requires { slot < 3 }
    ensures later { F.faults files.old ≤ F.faults files.new }
    ensures failed { IsErrOf result ReadFail.Failed → Rose (F.faults files.old) (F.faults files.new) }
    ensures last { F.last files.new ≡ last_read slot (F.last files.old) result }
    ensures within { IsErrOf result ReadFail.Failed → IsWithin limit (slot_at (F.slots files.new) slot) }
    ensures directory { DirectoryStays (F.directory files.old) (F.directory files.new) }
    ensures others { OthersStay slot (F.slots files.old) (F.slots files.new) }
    ensures strays { StraysBy name.now (F.directory files.new) (F.strays files.old) (F.strays files.new) }
    ensures there { IsErrOf result ReadFail.Memory → IsThere name.now (F.directory files.new) }
    ensures text { IfOk result (λ v. Reads name.now (F.directory files.new) (slot_at (F.slots files.new) slot) (λ bytes. v.items ≡ take (limit + 1) bytes)) }
{
    if let Err(Failed) = files.attach(slot, name) {
        return Err(ReadFail::Failed);
    }
    read_whole(alloc, files, slot, limit)
}

/// What a file that could not be read is to the run.
fn refusal_of(file: File, fail: ReadFail) -> Refusal
    ensures { result ≡ refusal_of file fail }
{
    match fail {
        ReadFail::Failed => Refusal::Input(file),
        ReadFail::Memory => Refusal::Memory,
    }
}

/// What a fault of the capture's header is to the run.
fn header_refusal(fault: CaptureFault) -> Refusal
    ensures { result ≡ header_refusal fault }
{
    match fault {
        CaptureFault::Read => Refusal::Input(File::Capture),
        _ => Refusal::Header(fault),
    }
}
