//! Scripts, line by line.
ghost use Rattle.std.specs.Prelude.{◌≡◌, ◌≤◌, length};
ghost use Rattle.std.specs.List.{list_all};
ghost use Rattle.std.specs.Str.Lines.{strip_carriage_return};
ghost use Rattle.texts.specs.Cuts.{parts};
ghost use Rattle.task_lang.specs.Reading.{GivesCommands, TakesLine, command_list};
ghost use Rattle.task_lang.specs.Script.{is_skipped, is_allowed, plain_line_in, line_in, script_from, script_in, script_limit};

use crate::commands::{Command, LineFault, ParseFail, ScriptFault};
use crate::reading::command_of;
use std::alloc::Global;
use texts::cut;

/// The most bytes of a script.
pub const SCRIPT_LIMIT: usize = 1_048_576;

/// The commands of a script: a command a line, with words between spaces and tabs; empty lines
/// and comments have none.
#[tactic(auto, using(std::proofs::lemmas::Bool::Decides::nat_tests), unfolding(crate::specs::Script::script_in))]
pub fn parse_script(alloc: Global, text: &[u8]) -> Result<Vec<Command>, ParseFail>
    ensures { GivesCommands (λ commands. commands.items) result (script_in text.now) }
{
    if text.len() > SCRIPT_LIMIT {
        return Err(ParseFail::Fault(ScriptFault {
            line: 0,
            kind: LineFault::TooLong,
        }));
    }
    lines_of(alloc, text)
}

/// The commands of a script that is not too long.
fn lines_of(alloc: Global, text: &[u8]) -> Result<Vec<Command>, ParseFail>
    requires { length text.now ≤ script_limit }
    ensures { GivesCommands (λ commands. commands.items) result (script_from 1 (parts 10 text.now)) }
{
    let mut commands = Vec::new(alloc);
    let mut number = 1;
    let mut left = Some(text);
    'lines: while let Some(text) = left {
        let (line, rest) = cut(text, b'\n');
        take_line(&mut commands, number, line)?;
        number += 1;
        left = rest;
    }
    Ok(commands)
}

/// Puts the command of a line, if it has one, behind those that were found before.
fn take_line(commands: &mut Vec<Command>, number: u32, line: &[u8]) -> Result<(), ParseFail>
    ensures { TakesLine result number (line_in line.now) commands.old.items commands.new.items }
{
    match plain_line_of(without_return(line)) {
        Ok(None) => Ok(()),
        Ok(Some(command)) => commands.push(command).map_err(|_| ParseFail::Memory),
        Err(kind) => Err(ParseFail::Fault(ScriptFault { line: number, kind })),
    }
}

/// The line with one CR at its end left out.
fn without_return(line: &[u8]) -> &[u8]
    ensures { result.now ≡ strip_carriage_return line.now }
{
    line.strip_suffix(b"\r").unwrap_or(line)
}

/// The command of a line with no line end, if it has one.
#[tactic(auto, unfolding(crate::specs::Script::plain_line_in))]
fn plain_line_of(line: &[u8]) -> Result<Option<Command>, LineFault>
    ensures { command_list result ≡ plain_line_in line.now }
{
    if is_skipped(line) {
        return Ok(None);
    }
    if !has_allowed_bytes(line) {
        return Err(LineFault::Byte);
    }
    Ok(Some(command_of(line)?))
}

/// Whether the line is empty or a comment.
fn is_skipped(line: &[u8]) -> bool
    ensures { result ≡ is_skipped line.now }
{
    'bytes: for byte in line {
        if *byte != b' ' && *byte != b'\t' {
            return *byte == b'#';
        }
    }
    true
}

fn has_allowed_bytes(line: &[u8]) -> bool
    ensures { result ≡ list_all is_allowed line.now }
{
    line.iter().all(|byte| is_allowed(*byte))
}

/// Whether the byte may stand in a command.
#[tactic(auto, using(std::proofs::lemmas::Bool::Decides::nat_tests))]
fn is_allowed(byte: u8) -> bool
    ensures { result ≡ is_allowed byte }
{
    matches!(byte, b'\t' | b' '..=b'~')
}
