//! The message of a run that stops.
ghost use Rattle.std.specs.Prelude.{◌≡◌, ◌≤◌, ◌++◌, length, codes, decimal};
ghost use Rattle.sw_profile.specs.Words.{fault_text};
ghost use Rattle.flymon_engine.specs.Messages.{message_of, refusal_words, halt_words, fault_words, script_words, line_words, item_words, file_words, SendsMessage};

use crate::stop::{File, Halt, Refusal, Stop};
use capture_read::CaptureFault;
use fm_io::{Sink, write_whole};
use itoa::Buffer;
use key_mask::{FieldFault, Line};
use sw_profile::ProfileFault;
use task_lang::{LineFault, ScriptFault};

/// Sends the one message of a run's end. A failed write changes nothing else.
pub(crate) fn report<E: Sink>(ended: Result<(), Stop>, err: &mut E)
    ensures { SendsMessage (message_of ended) (E.faults err.old) (E.faults err.new) (E.sent err.old) (E.sent err.new) }
{
    let _ = write_whole(err, message(ended).as_str().as_bytes());
}

fn message(ended: Result<(), Stop>) -> Line
    ensures { result.bytes ≡ message_of ended }
{
    match ended {
        Ok(()) => Line::new(),
        Err(Stop::Opening(refusal)) => refusal_line(refusal),
        Err(Stop::Carrying(halt)) => halt_line(halt),
    }
}

fn refusal_line(refusal: Refusal) -> Line
    ensures { result.bytes ≡ refusal_words refusal }
{
    let mut line = Line::new();
    match refusal {
        Refusal::Usage => line.push_str(
            "usage: flymon replay PROFILE SCRIPT CAPTURE | flymon demo SEED COUNT | flymon flight PROFILE SCRIPT CAPTURE\n",
        ),
        Refusal::Profile(fault) => {
            line.push_str("bad profile: ");
            push_profile(&mut line, fault);
        }
        Refusal::Script(fault) => {
            line.push_str("bad script line ");
            push_script(&mut line, fault);
        }
        Refusal::Header(fault) => {
            line.push_str("bad capture: ");
            push_fault(&mut line, fault);
        }
        Refusal::Input(file) => {
            line.push_str("input fault: ");
            line.push_str(file_words(file));
        }
        Refusal::Device => line.push_str("device fault\n"),
        Refusal::Memory => line.push_str("out of memory\n"),
    }
    line
}

fn halt_line(halt: Halt) -> Line
    ensures { result.bytes ≡ halt_words halt }
{
    let mut line = Line::new();
    match halt {
        Halt::Damage(fault) => {
            line.push_str("bad capture: ");
            push_fault(&mut line, fault);
        }
        Halt::Input => line.push_str("input fault: capture\n"),
        Halt::Device => line.push_str("device fault\n"),
        Halt::Output => line.push_str("output fault\n"),
    }
    line
}

/// What is wrong with a profile.
fn push_profile(line: &mut Line, fault: ProfileFault)
    requires { length line.old.bytes ≤ 20 }
    ensures { line.new.bytes ≡ line.old.bytes ++ (fault_text fault ++ codes "\n") }
{
    line.push_str(fault.words());
    if let Some(key) = fault.key() {
        line.push_str(key.name());
    }
    line.push_str("\n");
}

/// The number of a script's line, and what is wrong with it.
fn push_script(line: &mut Line, fault: ScriptFault)
    requires { length line.old.bytes ≤ 20 }
    ensures { line.new.bytes ≡ line.old.bytes ++ script_words fault }
{
    line.push_str(Buffer::new().format(fault.line));
    line.push_str(": ");
    push_line_fault(line, fault.kind);
}

fn push_line_fault(line: &mut Line, fault: LineFault)
    requires { length line.old.bytes ≤ 100 }
    ensures { line.new.bytes ≡ line.old.bytes ++ line_words fault }
{
    match fault {
        LineFault::TooLong => line.push_str("too long\n"),
        LineFault::Byte => line.push_str("byte\n"),
        LineFault::Command => line.push_str("command\n"),
        LineFault::Words => line.push_str("words\n"),
        LineFault::Name => line.push_str("name\n"),
        LineFault::Kind => line.push_str("kind\n"),
        LineFault::Rows => line.push_str("rows\n"),
        LineFault::Key(fault) => push_item(line, "key ", fault),
        LineFault::Attr => line.push_str("attr\n"),
        LineFault::Filter(fault) => push_item(line, "filter ", fault),
        LineFault::Size => line.push_str("size\n"),
        LineFault::Number => line.push_str("number\n"),
        LineFault::At(fault) => push_item(line, "at ", fault),
    }
}

/// What is wrong with an item of a key or a filter, and how many bytes stand before the item.
fn push_item(line: &mut Line, word: &str, fault: FieldFault)
    requires room { length line.old.bytes ≤ 100 }
    requires short { length word.now ≤ 10 }
    ensures { line.new.bytes ≡ line.old.bytes ++ item_words word.now fault }
{
    line.push_str(word);
    push_number(line, fault.kind.words(), fault.place as u64);
}

/// What is wrong with a capture. A failed read is never told here: it stops a run as an input fault.
fn push_fault(line: &mut Line, fault: CaptureFault)
    requires { length line.old.bytes ≤ 100 }
    ensures { line.new.bytes ≡ line.old.bytes ++ fault_words fault }
{
    match fault {
        CaptureFault::ShortHeader | CaptureFault::Read => line.push_str("short header\n"),
        CaptureFault::BadMagic => line.push_str("bad magic\n"),
        CaptureFault::BadLink { link } => push_number(line, "bad link ", link as u64),
        CaptureFault::ShortRecord { offset } => push_number(line, "short record at ", offset),
        CaptureFault::BigRecord { offset, len } => push_record(line, offset, len),
    }
}

/// A number behind its words, and the end of the line.
fn push_number(line: &mut Line, words: &str, number: u64)
    requires room { length line.old.bytes ≤ 150 }
    requires short { length words.now ≤ 20 }
    ensures { line.new.bytes ≡ line.old.bytes ++ (words.now ++ (decimal number ++ codes "\n")) }
{
    line.push_str(words);
    line.push_str(Buffer::new().format(number));
    line.push_str("\n");
}

fn push_record(line: &mut Line, offset: u64, len: u32)
    requires { length line.old.bytes ≤ 100 }
    ensures { line.new.bytes ≡ line.old.bytes ++ (codes "big record at " ++ (decimal offset ++ (codes " length " ++ (decimal len ++ codes "\n")))) }
{
    line.push_str("big record at ");
    line.push_str(Buffer::new().format(offset));
    push_number(line, " length ", len as u64);
}

fn file_words(file: File) -> &'static str
    ensures { result.now ≡ file_words file }
{
    match file {
        File::Profile => "profile\n",
        File::Script => "script\n",
        File::Capture => "capture\n",
    }
}
