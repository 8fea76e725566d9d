//! Why a run stops before its script is done.
ghost use Rattle.std.specs.Prelude.{◌≡◌};
ghost use Rattle.flymon_engine.specs.Endings.{carried_as, status_of};

use crate::status::Status;
use capture_read::CaptureFault;
use sw_profile::ProfileFault;
use task_lang::ScriptFault;

/// The file of a slot.
#[derive(Clone, Copy, Debug, PartialEq, Eq)]
pub(crate) enum File {
    Profile,
    Script,
    Capture,
}

/// Why a run stops before its commands.
#[derive(Clone, Copy, Debug, PartialEq, Eq)]
pub(crate) enum Refusal {
    Usage,
    Profile(ProfileFault),
    Script(ScriptFault),
    Header(CaptureFault),
    Input(File),
    Device,
    Memory,
}

/// Why the carrying out of commands stops.
#[derive(Clone, Copy, Debug, PartialEq, Eq)]
pub(crate) enum Halt {
    /// The next packet that a command asks for is not a whole record.
    Damage(CaptureFault),
    /// A read of the capture failed.
    Input,
    Device,
    Output,
}

/// Why a run stops.
#[derive(Clone, Copy, Debug, PartialEq, Eq)]
pub(crate) enum Stop {
    Opening(Refusal),
    Carrying(Halt),
}

/// What a run comes to, by what the carrying out of its commands came to.
pub(crate) fn ending(carried: Result<(), Halt>) -> Result<(), Stop>
    ensures { result ≡ carried_as carried }
{
    match carried {
        Ok(()) => Ok(()),
        Err(halt) => Err(Stop::Carrying(halt)),
    }
}

/// The status of a run that ended so.
pub(crate) fn status_of(ended: Result<(), Stop>) -> Status
    ensures { result ≡ status_of ended }
{
    match ended {
        Ok(()) => Status::Done,
        Err(Stop::Opening(refusal)) => refusal.status(),
        Err(Stop::Carrying(halt)) => halt.status(),
    }
}

impl Refusal {
    ghost use Rattle.flymon_engine.specs.Endings.{status_of_refusal};

    fn status(self) -> Status
        ensures { result ≡ status_of_refusal self }
    {
        match self {
            Refusal::Usage => Status::Usage,
            Refusal::Profile(_) => Status::BadProfile,
            Refusal::Script(_) => Status::BadScript,
            Refusal::Header(_) => Status::BadCapture,
            Refusal::Input(_) => Status::InputFault,
            Refusal::Device => Status::DeviceFault,
            Refusal::Memory => Status::Memory,
        }
    }
}

impl Halt {
    ghost use Rattle.flymon_engine.specs.Endings.{status_of_halt};

    fn status(self) -> Status
        ensures { result ≡ status_of_halt self }
    {
        match self {
            Halt::Damage(_) => Status::BadCapture,
            Halt::Input => Status::InputFault,
            Halt::Device => Status::DeviceFault,
            Halt::Output => Status::OutputFault,
        }
    }
}
