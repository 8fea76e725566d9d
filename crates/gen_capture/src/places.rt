//! Where the reading of a slot stands.
ghost use Rattle.std.specs.Prelude.{◌≤◌, ◌==◌, if◌then◌else◌};

/// A place in the capture.
#[derive(Clone, Copy)]
pub(crate) struct CapturePlace {
    // How many records were begun: the last of them is being read, or before the first one the header.
    pub begun: u32,
    // The generator's state of this record, or the seed.
    pub state: u64,
    // How many bytes of this record, or of the header, are still to come.
    pub left: usize,
    ghost within: { left ≤ (if begun == 0 then 24 else 70) },
}

/// A place in one of the two texts.
#[derive(Clone, Copy)]
pub(crate) enum Place {
    Script { at: usize },
    Capture(CapturePlace),
}
