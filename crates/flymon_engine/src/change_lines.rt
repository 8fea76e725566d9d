//! The lines of changes.
ghost use Rattle.std.specs.Prelude.{◌≡◌, ◌≤◌, ◌+◌, ◌++◌, length, decimal};
ghost use Rattle.flymon_engine.specs.ChangeLines.{name_of, done_word, change_word, need_words, done_line, denied_line, reason_words, refusal_of};

use crate::work::Change;
use itoa::Buffer;
use key_mask::Line;
use sketch_defs::Name;

/// Why a change is refused.
#[derive(Clone, Copy, Debug, PartialEq, Eq)]
pub(crate) enum Reason {
    Exists,
    BadMemory { size: u32 },
    NoUnit { need: u32, have: u32 },
    NoPartition { need: u32, have: u32 },
    Unknown,
    FrozenHeld,
    NoRoom { row: u32 },
    NoFrozen,
}

/// `added NAME` and the like.
pub(crate) fn line_done(change: &Change) -> Line
    ensures { result.bytes ≡ done_line change.now }
{
    let mut line = Line::new();
    line.push_str(done_word(change));
    line.push_str(name_of(change).as_str());
    line.push_str("\n");
    line
}

/// `refused WORD NAME REASON`.
pub(crate) fn line_denied(change: &Change, reason: Reason) -> Line
    ensures { result.bytes ≡ denied_line change.now (refusal_of reason) }
{
    let mut line = Line::new();
    line.push_str("refused ");
    line.push_str(change_word(change));
    line.push_str(name_of(change).as_str());
    line.push_str(" ");
    push_reason(&mut line, reason);
    line.push_str("\n");
    line
}

fn push_reason(line: &mut Line, reason: Reason)
    requires { length line.old.bytes ≤ 100 }
    ensures text { line.new.bytes ≡ line.old.bytes ++ reason_words (refusal_of reason) }
    ensures short { length line.new.bytes ≤ 200 }
{
    match reason {
        Reason::Exists => line.push_str("exists"),
        Reason::BadMemory { size } => push_number(line, "bad memory ", size),
        Reason::NoUnit { need, have } => {
            line.push_str("no unit");
            push_need(line, need, have);
        }
        Reason::NoPartition { need, have } => {
            line.push_str("no partition");
            push_need(line, need, have);
        }
        Reason::Unknown => line.push_str("unknown"),
        Reason::FrozenHeld => line.push_str("frozen held"),
        Reason::NoRoom { row } => push_number(line, "no room row ", row),
        Reason::NoFrozen => line.push_str("nothing frozen"),
    }
}

/// How many there have to be, and are.
fn push_need(line: &mut Line, need: u32, have: u32)
    requires { length line.old.bytes ≤ 112 }
    ensures text { line.new.bytes ≡ line.old.bytes ++ need_words need have }
    ensures short { length line.new.bytes ≤ length line.old.bytes + 40 }
{
    push_number(line, " need ", need);
    push_number(line, " have ", have);
}

/// A number behind its words.
fn push_number(line: &mut Line, words: &str, number: u32)
    requires room { length line.old.bytes ≤ 150 }
    requires short { length words.now ≤ 12 }
    ensures text { line.new.bytes ≡ line.old.bytes ++ (words.now ++ decimal number) }
    ensures short { length line.new.bytes ≤ length line.old.bytes + length words.now + 10 }
{
    line.push_str(words);
    line.push_str(Buffer::new().format(number));
}

fn name_of(change: &Change) -> &Name
    ensures { result.now ≡ name_of change.now }
{
    match change {
        Change::Add(task) => task.name(),
        Change::Resize { name, .. } => name,
        Change::Remove(name) | Change::Release(name) => name,
    }
}

fn done_word(change: &Change) -> &'static str
    ensures word { result.now ≡ done_word change.now }
    ensures short { length result.now ≤ 9 }
{
    match change {
        Change::Add(_) => "added ",
        Change::Resize { .. } => "resized ",
        Change::Remove(_) => "removed ",
        Change::Release(_) => "released ",
    }
}

fn change_word(change: &Change) -> &'static str
    ensures word { result.now ≡ change_word change.now }
    ensures short { length result.now ≤ 9 }
{
    match change {
        Change::Add(_) => "add ",
        Change::Resize { .. } => "resize ",
        Change::Remove(_) => "remove ",
        Change::Release(_) => "release ",
    }
}
