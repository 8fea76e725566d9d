//! The commands of a script, and what may be wrong with a line.

use key_mask::FieldFault;
use sketch_defs::{Name, Task};
use task_filters::Filter;

/// A command.
#[derive(Clone, Copy, Debug, PartialEq, Eq)]
pub enum Command {
    /// Adds a task.
    Add(Task),
    /// Freezes the partitions of a task and gives it new ones of this many cells.
    Resize { name: Name, size: u32 },
    /// Removes a task.
    Remove(Name),
    /// Gives back the frozen partitions of a task.
    Release(Name),
    /// Takes so many packets from the capture, or those that are left.
    Packets(u32),
    /// Takes the packets that are left.
    Run,
    /// Reads the cells of a task.
    Read(Name),
    /// Reads the frozen cells of a task.
    Frozen(Name),
    /// Asks a task for the value of a key.
    Query { name: Name, at: Filter },
    /// Asks a task how many cells have each value.
    Dist(Name),
    /// Asks a task how many keys it saw.
    Card(Name),
    /// Shows the tasks and where they stand.
    Show,
    /// Shows what is in use.
    Stat,
}

/// What is wrong with a line; of several faults the first of these, and of the words at fault the
/// first in the line.
#[derive(Clone, Copy, Debug, PartialEq, Eq)]
pub enum LineFault {
    /// The script has more than [`crate::SCRIPT_LIMIT`] bytes.
    TooLong,
    /// A byte that may stand in comments alone.
    Byte,
    /// The first word is no command.
    Command,
    /// Too few or too many words, or a word without its label.
    Words,
    /// No name of a task.
    Name,
    /// No kind of sketch.
    Kind,
    /// No number of rows that the kind allows.
    Rows,
    /// No key.
    Key(FieldFault),
    /// No attribute that the kind allows.
    Attr,
    /// No filter.
    Filter(FieldFault),
    /// No size.
    Size,
    /// No number of packets.
    Number,
    /// No key value.
    At(FieldFault),
}

/// The first line at fault, counted from 1, and its fault; line 0 where the script is too long.
#[derive(Clone, Copy, Debug, PartialEq, Eq)]
pub struct ScriptFault {
    pub line: u32,
    pub kind: LineFault,
}

/// Why there are no commands.
#[derive(Clone, Copy, Debug, PartialEq, Eq)]
pub enum ParseFail {
    Fault(ScriptFault),
    Memory,
}

/// The first word of a command.
#[derive(Clone, Copy, Debug, PartialEq, Eq)]
pub(crate) enum Verb {
    Add,
    Resize,
    Remove,
    Release,
    Packets,
    Run,
    Read,
    Frozen,
    Query,
    Dist,
    Card,
    Show,
    Stat,
}
