//! How a run ended.
ghost use Rattle.std.specs.Prelude.{◌≡◌};
ghost use Rattle.flymon_engine.specs.Endings.{code_of};

/// How a run ended, and so the status that the program ends with.
#[derive(Clone, Copy, Debug, PartialEq, Eq)]
pub enum Status {
    /// Every command of the script was carried out.
    Done,
    /// The words are no form of the command line.
    Usage,
    /// The profile is at fault.
    BadProfile,
    /// A line of the script is at fault, or the script is too long.
    BadScript,
    /// The capture's header is bad, or the next packet that a command asks for is not a whole record.
    BadCapture,
    /// A call on a file failed.
    InputFault,
    /// A call on the output failed.
    OutputFault,
    /// A call on the registers failed.
    DeviceFault,
    /// There was no memory for the run.
    Memory,
}

impl Status {
    /// The exit status of the program.
    pub fn code(self) -> u8
        ensures { result ≡ code_of self }
    {
        match self {
            Status::Done => 0,
            Status::Usage => 2,
            Status::BadProfile => 3,
            Status::BadScript => 4,
            Status::BadCapture => 5,
            Status::InputFault => 6,
            Status::OutputFault => 7,
            Status::DeviceFault => 8,
            Status::Memory => 9,
        }
    }
}
