//! What is true of the generated captures.
ghost use Rattle.gen_capture.specs.Laws.{CapturesAreWhole, FramesAreRead, FilesTell};

use capture_read::laws::reads_back_what_is_written;

/// The records of a generated capture are the frames of the generator's packets, in turn, with both lengths.
pub fn captures_are_whole()
    ensures { CapturesAreWhole }
{
    reads_back_what_is_written();
}

/// What is read of a generated frame are the addresses, ports and length of its packet.
pub fn frames_are_read()
    ensures { FramesAreRead }
{}

/// Each slot with a text tells its bytes and position.
pub fn files_tell()
    ensures { FilesTell }
{}
