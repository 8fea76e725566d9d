//! Why a read-out was not made.
ghost use Rattle.std.specs.Prelude.{◌≡◌};
ghost use Rattle.readout.specs.Outcomes.{outcome_of};

use crate::refusals::{Refusal, Stop};

/// Why there are no lines, or not all of them.
#[derive(Clone, Copy, Debug, PartialEq, Eq)]
pub enum ReadFault {
    /// No live task has the name.
    Unknown,
    /// The task has no frozen partitions.
    NoFrozen,
    /// The kind of the task has no such answer.
    NoAnswer,
    /// The key value has not the fields of the task's key.
    BadKey,
    /// The registers could not be read.
    Device,
    /// The lines could not be sent.
    Write,
}

/// The fault that tells the outcome of a read-out.
pub(crate) fn fault_of(outcome: Result<Result<(), Refusal>, Stop>) -> Result<(), ReadFault>
    ensures { outcome_of result ≡ outcome }
{
    match outcome {
        Ok(Ok(())) => Ok(()),
        Ok(Err(Refusal::Unknown)) => Err(ReadFault::Unknown),
        Ok(Err(Refusal::NoFrozen)) => Err(ReadFault::NoFrozen),
        Ok(Err(Refusal::NoAnswer)) => Err(ReadFault::NoAnswer),
        Ok(Err(Refusal::BadKey)) => Err(ReadFault::BadKey),
        Err(Stop::Device) => Err(ReadFault::Device),
        Err(Stop::Write) => Err(ReadFault::Write),
    }
}
