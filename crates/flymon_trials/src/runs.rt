//! Runs of the program over objects in memory.
ghost use Rattle.std.specs.Prelude.{◌<◌};

use crate::captures::{Sent, capture_of_packets};
use flymon_engine::{Status, run};
use fm_io::{MemFile, MemFiles, MemSink};
use reg_file::{RamFile, RegFile};
use std::alloc::{AllocError, Global};
use std::fmt::Debug;
use std::test::Fail;

/// A script that counts packets by their source, and reads the counters whole and one of them alone.
pub const SCRIPT: &str =
    "add hot cms 1 key=src_ip attr=packets filter=all memory=32\nrun\nread hot\nquery hot src_ip:10.0.0.1\n";

/// Room for all that a run of these tests writes.
pub const ROOM: usize = 4096;

/// Small pieces, and room for all.
pub const LIMITS: Limits = Limits {
    piece: 7,
    room: ROOM,
    err_room: ROOM,
};

/// The ways of packets: one after another, and before several groups at once.
pub const WAYS: [&str; 2] = ["replay", "flight"];

/// The words of a run of the files that `session_files` makes, in each way.
pub const REPLAY: &str = "replay - S C";

pub const FLIGHT: &str = "flight - S C";

pub const WORDS: [&str; 2] = [REPLAY, FLIGHT];

/// The same with the profile that `profiled_files` adds.
pub const PROFILED: [&str; 2] = ["replay P S C", "flight P S C"];

/// At most `piece` bytes are read or written at once; `out` and `err` have room for so many.
#[derive(Clone, Copy)]
pub struct Limits {
    pub piece: usize,
    pub room: usize,
    pub err_room: usize,
    ghost moves: { 0 < piece },
}

/// How a run ended, and its sinks.
#[derive(Drop)]
pub struct Ending {
    pub status: Status,
    pub out: MemSink,
    pub err: MemSink,
}

/// The script under the name `S`, and the capture under the name `C`.
pub fn session_files(
    alloc: Global,
    script: &[u8],
    capture: Vec<u8>,
) -> Result<Vec<MemFile>, AllocError> {
    let script = Vec::from_slice(alloc, script)?;
    let mut files = Vec::new(alloc);
    files.push(MemFile {
        name: String::from_str(alloc, "S")?,
        bytes: script,
    })?;
    files.push(MemFile {
        name: String::from_str(alloc, "C")?,
        bytes: capture,
    })?;
    Ok(files)
}

/// The same, and the profile under the name `P`.
pub fn profiled_files(
    alloc: Global,
    profile: &str,
    script: &[u8],
    capture: Vec<u8>,
) -> Result<Vec<MemFile>, AllocError> {
    let mut files = session_files(alloc, script, capture)?;
    files.push(MemFile {
        name: String::from_str(alloc, "P")?,
        bytes: Vec::from_slice(alloc, profile.as_bytes())?,
    })?;
    Ok(files)
}

/// The words of a line.
fn words_of(alloc: Global, line: &str) -> Result<Vec<String>, AllocError> {
    let mut words = Vec::new(alloc);
    'words: for word in line.split_whitespace() {
        words.push(String::from_str(alloc, word)?)?;
    }
    Ok(words)
}

/// Runs the program on these words, files and registers.
pub fn run_over<R: RegFile>(
    alloc: Global,
    words: &str,
    files: Vec<MemFile>,
    regs: &mut R,
    limits: Limits,
) -> Result<Ending, AllocError> {
    run_failing(alloc, words, files, Vec::new(alloc), regs, limits)
}

/// The same, where the calls on the files that have these numbers fail.
pub fn run_failing<R: RegFile>(
    alloc: Global,
    words: &str,
    files: Vec<MemFile>,
    failing: Vec<u64>,
    regs: &mut R,
    limits: Limits,
) -> Result<Ending, AllocError> {
    let words = words_of(alloc, words)?;
    let mut files = MemFiles::new(files, limits.piece, failing);
    let mut out = MemSink::new(alloc, limits.room, limits.piece, Vec::new(alloc))?;
    let mut err = MemSink::new(alloc, limits.err_room, limits.piece, Vec::new(alloc))?;
    let status = run(alloc, &words, &mut files, regs, &mut out, &mut err);
    Ok(Ending { status, out, err })
}

/// Fails unless a run ended in this status and sent these bytes. The message names the case.
pub fn expect_ending(
    case: &impl Debug,
    ending: &Ending,
    status: Status,
    out: &[u8],
    err: &[u8],
) -> Result<(), Fail> {
    let (sent, told) = (ending.out.sent(), ending.err.sent());
    if ending.status == status && sent == out && told == err {
        return Ok(());
    }
    let (sent, told) = (text_of(sent), text_of(told));
    Err(Fail::new(format_args!(
        "at {case:?}: {:?}, sent {sent:?}, told {told:?}",
        ending.status
    )))
}

/// The text of what was sent, for a message.
fn text_of(bytes: &[u8]) -> &str {
    str::from_utf8(bytes).unwrap_or("no text")
}

/// A script, the packets of its capture, and what the run writes.
pub type Session = (&'static str, &'static [Sent], &'static str);

/// Fails unless the script is carried out to its end over this capture, and writes this, in each way.
pub fn expect_done_over(
    alloc: Global,
    script: &str,
    capture: &[u8],
    out: &str,
) -> Result<(), Fail> {
    'ways: for words in WORDS {
        let capture = Vec::from_slice(alloc, capture)?;
        let files = session_files(alloc, script.as_bytes(), capture)?;
        let ending = run_over(alloc, words, files, &mut RamFile::new(), LIMITS)?;
        let case = (words, script);
        expect_ending(&case, &ending, Status::Done, out.as_bytes(), b"")?;
    }
    Ok(())
}

/// Fails unless the script is carried out to its end over a capture of these packets, and writes this, in each way.
pub fn expect_done(alloc: Global, session: Session) -> Result<(), Fail> {
    let (script, packets, out) = session;
    let capture = capture_of_packets(alloc, packets)?;
    expect_done_over(alloc, script, &capture, out)
}

/// The same for the switch of a profile.
pub fn expect_done_on(alloc: Global, profile: &str, session: Session) -> Result<(), Fail> {
    let (script, packets, out) = session;
    'ways: for words in PROFILED {
        let capture = capture_of_packets(alloc, packets)?;
        let files = profiled_files(alloc, profile, script.as_bytes(), capture)?;
        let ending = run_over(alloc, words, files, &mut RamFile::new(), LIMITS)?;
        let case = (words, script);
        expect_ending(&case, &ending, Status::Done, out.as_bytes(), b"")?;
    }
    Ok(())
}
