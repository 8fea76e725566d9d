//! Why a change is refused.

/// Why a switch did not start.
#[derive(Clone, Copy, Debug, PartialEq, Eq)]
pub enum StartFail {
    /// There is not enough memory.
    Memory,
    /// The register file got no shape.
    Device,
}

/// Why a task was not added.
#[derive(Clone, Copy, Debug, PartialEq, Eq)]
pub enum AddFault {
    /// A task of this name is live.
    Exists,
    /// No task of the kind may have this size.
    BadMemory { size: u32 },
    /// The task has `need` rows, and only `have` arrays are open to it.
    NoUnit { need: u32, have: u32 },
    /// The task has `need` rows, and only `have` arrays that are open to it have a free partition.
    NoPartition { need: u32, have: u32 },
    /// The register file refused to fill its partitions.
    Device,
}

/// Why a task was not resized.
#[derive(Clone, Copy, Debug, PartialEq, Eq)]
pub enum ResizeFault {
    /// No task of this name is live.
    Unknown,
    /// The task still has frozen partitions.
    FrozenHeld,
    /// No task of its kind may have this size.
    BadMemory { size: u32 },
    /// The array of this row, the first such, has no free partition of the size.
    NoRoom { row: u32 },
    /// The register file refused to fill its new partitions.
    Device,
}

/// Why frozen partitions were not released.
#[derive(Clone, Copy, Debug, PartialEq, Eq)]
pub enum ReleaseFault {
    /// No task of this name is live.
    Unknown,
    /// The task has no frozen partitions.
    NoFrozen,
}

/// No task of this name is live.
#[derive(Clone, Copy, Debug, PartialEq, Eq)]
pub struct Unknown;
