//! The command of a line.
ghost use Rattle.std.specs.Prelude.{◌≡◌, ◌≢◌, IsTrue};
ghost use Rattle.key_mask.specs.Masks.{no_lengths};
ghost use Rattle.sketch_defs.specs.Tasks.{allows, allows_rows};
ghost use Rattle.texts.specs.Words.{words};
ghost use Rattle.task_lang.specs.Reading.{ReadsName};
ghost use Rattle.task_lang.specs.Script.{add_in, resize_in, query_in, packets_in, alone_in, command_by, command_in};

use crate::commands::{Command, LineFault, Verb};
use crate::words::{after_label, attr_for, full_number_of, kind_of, rows_for, verb_of};
use key_mask::{Mask, parse_key};
use pkt_headers::Attr;
use sketch_defs::{Kind, Name, Task};
use task_filters::Filter;
use texts::{word_count, word_of};

/// The command of a line, or the first fault of its words.
#[tactic(auto, unfolding(crate::specs::Script::command_in))]
pub(crate) fn command_of(line: &[u8]) -> Result<Command, LineFault>
    ensures { result ≡ command_in (words line.now) }
{
    match verb_of(word_of(line, 0)) {
        Some(verb) => command_by(verb, line),
        None => Err(LineFault::Command),
    }
}

/// The command of a line that begins with this word.
fn command_by(verb: Verb, line: &[u8]) -> Result<Command, LineFault>
    ensures { result ≡ command_by verb (words line.now) }
{
    match verb {
        Verb::Add => add_of(line),
        Verb::Resize => resize_of(line),
        Verb::Remove => Ok(Command::Remove(name_behind(line)?)),
        Verb::Release => Ok(Command::Release(name_behind(line)?)),
        Verb::Packets => packets_of(line),
        Verb::Run => alone(line, Command::Run),
        Verb::Read => Ok(Command::Read(name_behind(line)?)),
        Verb::Frozen => Ok(Command::Frozen(name_behind(line)?)),
        Verb::Query => query_of(line),
        Verb::Dist => Ok(Command::Dist(name_behind(line)?)),
        Verb::Card => Ok(Command::Card(name_behind(line)?)),
        Verb::Show => alone(line, Command::Show),
        Verb::Stat => alone(line, Command::Stat),
    }
}

/// `add NAME KIND ROWS key=KEY attr=ATTR filter=FILTER memory=SIZE`
#[tactic(auto, unfolding(crate::specs::Script::add_in))]
fn add_of(line: &[u8]) -> Result<Command, LineFault>
    ensures { result ≡ add_in (words line.now) }
{
    if word_count(line) != 8 {
        return Err(LineFault::Words);
    }
    let key = after_label(b"key=", word_of(line, 4)).ok_or(LineFault::Words)?;
    let attr = after_label(b"attr=", word_of(line, 5)).ok_or(LineFault::Words)?;
    let filter = after_label(b"filter=", word_of(line, 6)).ok_or(LineFault::Words)?;
    let memory = after_label(b"memory=", word_of(line, 7)).ok_or(LineFault::Words)?;
    let name = Name::parse(word_of(line, 1)).ok_or(LineFault::Name)?;
    let kind = kind_of(word_of(line, 2)).ok_or(LineFault::Kind)?;
    let rows = rows_for(kind, word_of(line, 3)).ok_or(LineFault::Rows)?;
    let mask = parse_key(key).map_err(LineFault::Key)?;
    let weight = attr_for(kind, attr).ok_or(LineFault::Attr)?;
    let pattern = Filter::parse(filter).map_err(LineFault::Filter)?;
    let size = full_number_of(memory).ok_or(LineFault::Size)?;
    let task = task_of(name, kind, rows, mask, weight, pattern, size);
    Ok(Command::Add(task))
}

/// The task of parts that were judged.
fn task_of(
    name: Name,
    kind: Kind,
    rows: u32,
    key: Mask,
    attr: Attr,
    filter: Filter,
    size: u32,
) -> Task
    requires rows { IsTrue (allows_rows kind rows) }
    requires key { key ≢ no_lengths }
    requires attr { IsTrue (allows kind attr) }
    ensures { result ≡ (record { name = name; kind = kind; rows = rows; key = key; attr = attr; filter = filter; size = size }) }
{
    match Task::new(name, kind, rows, key, attr, filter, size) {
        Ok(task) => task,
        Err(_) => unreachable!(),
    }
}

/// `resize NAME memory=SIZE`
#[tactic(auto, unfolding(crate::specs::Script::resize_in))]
fn resize_of(line: &[u8]) -> Result<Command, LineFault>
    ensures { result ≡ resize_in (words line.now) }
{
    if word_count(line) != 3 {
        return Err(LineFault::Words);
    }
    let memory = after_label(b"memory=", word_of(line, 2)).ok_or(LineFault::Words)?;
    let name = Name::parse(word_of(line, 1)).ok_or(LineFault::Name)?;
    let size = full_number_of(memory).ok_or(LineFault::Size)?;
    Ok(Command::Resize { name, size })
}

/// `query NAME AT`
#[tactic(auto, unfolding(crate::specs::Script::query_in))]
fn query_of(line: &[u8]) -> Result<Command, LineFault>
    ensures { result ≡ query_in (words line.now) }
{
    if word_count(line) != 3 {
        return Err(LineFault::Words);
    }
    let name = Name::parse(word_of(line, 1)).ok_or(LineFault::Name)?;
    let at = Filter::parse(word_of(line, 2)).map_err(LineFault::At)?;
    Ok(Command::Query { name, at })
}

/// `packets NUMBER`
#[tactic(auto, unfolding(crate::specs::Script::packets_in))]
fn packets_of(line: &[u8]) -> Result<Command, LineFault>
    ensures { result ≡ packets_in (words line.now) }
{
    if word_count(line) != 2 {
        return Err(LineFault::Words);
    }
    let number = full_number_of(word_of(line, 1)).ok_or(LineFault::Number)?;
    Ok(Command::Packets(number))
}

/// The name, where nothing stands behind it.
#[tactic(auto, unfolding(crate::specs::Script::named_in))]
fn name_behind(line: &[u8]) -> Result<Name, LineFault>
    ensures { ReadsName result (words line.now) }
{
    if word_count(line) != 2 {
        return Err(LineFault::Words);
    }
    Name::parse(word_of(line, 1)).ok_or(LineFault::Name)
}

/// The command, where its word stands alone.
#[tactic(auto, unfolding(crate::specs::Script::alone_in))]
fn alone(line: &[u8], command: Command) -> Result<Command, LineFault>
    ensures { result ≡ alone_in command (words line.now) }
{
    if word_count(line) != 1 {
        return Err(LineFault::Words);
    }
    Ok(command)
}
