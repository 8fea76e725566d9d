//! What a command asks for.
ghost use Rattle.std.specs.Prelude.{◌≡◌};
ghost use Rattle.flymon_engine.specs.Works.{work_of, about};

use readout::{Ask, Side};
use sketch_defs::{Name, Task};
use task_lang::Command;

/// A change of the tasks.
#[derive(Clone, Copy, Debug, PartialEq, Eq)]
pub(crate) enum Change {
    Add(Task),
    Resize { name: Name, size: u32 },
    Remove(Name),
    Release(Name),
}

/// A read-out of one task, of all tasks, or of what is in use.
#[derive(Clone, Copy, Debug, PartialEq, Eq)]
pub(crate) enum Request {
    Task { name: Name, ask: Ask },
    Show,
    Stat,
}

/// Packets, at most so many; a change; or an answer.
#[derive(Clone, Copy, Debug, PartialEq, Eq)]
pub(crate) enum Work {
    Take(u32),
    Change(Change),
    Ask(Request),
}

/// What the command asks for.
pub(crate) fn work_of(command: &Command) -> Work
    ensures { result ≡ work_of command.now }
{
    match *command {
        Command::Packets(count) => Work::Take(count),
        Command::Run => Work::Take(u32::MAX),
        Command::Add(task) => Work::Change(Change::Add(task)),
        Command::Resize { name, size } => Work::Change(Change::Resize { name, size }),
        Command::Remove(name) => Work::Change(Change::Remove(name)),
        Command::Release(name) => Work::Change(Change::Release(name)),
        Command::Read(name) => about(name, Ask::Cells(Side::Live)),
        Command::Frozen(name) => about(name, Ask::Cells(Side::Frozen)),
        Command::Query { name, at } => about(name, Ask::Query(at)),
        Command::Dist(name) => about(name, Ask::Dist),
        Command::Card(name) => about(name, Ask::Card),
        Command::Show => Work::Ask(Request::Show),
        Command::Stat => Work::Ask(Request::Stat),
    }
}

/// A read-out of one task.
fn about(name: Name, ask: Ask) -> Work
    ensures { result ≡ about name ask }
{
    Work::Ask(Request::Task { name, ask })
}
