//! What is true of files in memory, whatever they hold.
ghost use Rattle.fm_io.specs.Laws.{FilesTell};

/// Each slot with a file tells its bytes and position.
pub fn files_tell()
    ensures { FilesTell }
{}
