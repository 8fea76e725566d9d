//! Why a read-out is refused, and what stops one that was begun.
ghost use Rattle.std.specs.Prelude.{◌≡◌, ◌≤◌, length};
ghost use Rattle.readout.specs.Answers.{reason_word, ask_word, refused_line};
ghost use Rattle.readout.specs.Lines.{side_word};
ghost use Rattle.readout.specs.Outcomes.{outcome_of_sent};

use crate::requests::Ask;
use crate::views::Side;
use fm_io::Failed;
use key_mask::Line;
use reg_file::DeviceFault;
use sketch_defs::Name;

/// Why there are no lines.
#[derive(Clone, Copy, Debug, PartialEq, Eq)]
pub enum Refusal {
    /// No live task has the name.
    Unknown,
    /// The task has no frozen partitions.
    NoFrozen,
    /// The kind of the task has no such answer.
    NoAnswer,
    /// The key value has not the fields of the task's key.
    BadKey,
}

/// Why not all lines were sent.
#[derive(Clone, Copy, Debug, PartialEq, Eq)]
pub enum Stop {
    /// The registers could not be read.
    Device,
    /// The lines could not be sent.
    Write,
}

impl From<DeviceFault> for Stop {
    ghost use Rattle.std.specs.Prelude.{◌≡◌};
    ghost use Rattle.readout.specs.declared.refusals.Stop.TheVariants.{Device};

    ghost from_gives = { λ _ stop. stop ≡ Device };

    fn from(_fault: DeviceFault) -> Stop {
        Stop::Device
    }
}

impl From<Failed> for Stop {
    ghost use Rattle.std.specs.Prelude.{◌≡◌};
    ghost use Rattle.readout.specs.declared.refusals.Stop.TheVariants.{Write};

    ghost from_gives = { λ _ stop. stop ≡ Write };

    fn from(_fault: Failed) -> Stop {
        Stop::Write
    }
}

/// The outcome of a read-out that is not refused.
pub(crate) fn outcome_of_sent(sent: Result<(), Stop>) -> Result<Result<(), Refusal>, Stop>
    ensures { result ≡ outcome_of_sent sent }
{
    match sent {
        Ok(()) => Ok(Ok(())),
        Err(stop) => Err(stop),
    }
}

/// The reason in the line of a refusal.
fn reason_word(refusal: Refusal) -> &'static str
    ensures word { result.now ≡ reason_word refusal }
    ensures short { length result.now ≤ 14 }
{
    match refusal {
        Refusal::Unknown => "unknown",
        Refusal::NoFrozen => "nothing frozen",
        Refusal::NoAnswer => "no answer",
        Refusal::BadKey => "bad key",
    }
}

/// The word of the partitions' read-out.
pub(crate) fn side_word(side: Side) -> &'static str
    ensures word { result.now ≡ side_word side }
    ensures short { length result.now ≤ 6 }
{
    match side {
        Side::Live => "read",
        Side::Frozen => "frozen",
    }
}

/// The word of what a task is asked for.
fn ask_word(ask: &Ask) -> &'static str
    ensures word { result.now ≡ ask_word ask.now }
    ensures short { length result.now ≤ 6 }
{
    match ask {
        Ask::Cells(side) => side_word(*side),
        Ask::Query(_) => "query",
        Ask::Dist => "dist",
        Ask::Card => "card",
    }
}

/// The line of a refusal: `refused`, the word of what the task was asked for, the name, and why.
#[tactic(auto, unfolding(crate::specs::Answers::refused_line))]
pub fn refused_line(ask: &Ask, name: &Name, refusal: Refusal) -> Line
    ensures { result.bytes ≡ refused_line ask.now name.now refusal }
{
    let mut line = Line::new();
    line.push_str("refused ");
    line.push_str(ask_word(ask));
    line.push_str(" ");
    line.push_str(name.as_str());
    line.push_str(" ");
    line.push_str(reason_word(refusal));
    line.push_str("\n");
    line
}
