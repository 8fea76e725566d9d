//! The lines that the loop over commands sends.
ghost use Rattle.std.specs.Prelude.{◌≡◌, ◌≤◌, IfErr, OnOk, OnErr};
ghost use Rattle.outside.specs.Told.{Grows};
ghost use Rattle.outside.specs.Sent.{CameInPart};
ghost use Rattle.flymon_engine.specs.Causes.{HasCause};
ghost use Rattle.flymon_engine.specs.Runs.{packets_line};

use crate::stop::Halt;
use fm_io::{Failed, Sink, write_whole};
use itoa::Buffer;
use key_mask::Line;

/// How many packets were taken.
pub(crate) fn line_packets(count: u32) -> Line
    ensures { result.bytes ≡ packets_line count }
{
    let mut line = Line::new();
    line.push_str("packets ");
    line.push_str(Buffer::new().format(count));
    line.push_str("\n");
    line
}

/// Sends a line whole.
pub(crate) fn send<O: Sink>(out: &mut O, line: &Line) -> Result<(), Halt>
    ensures later { O.faults out.old ≤ O.faults out.new }
    ensures cause { IfErr result (HasCause 0 0 0 0 0 (O.faults out.old) (O.faults out.new)) }
    ensures output { OnErr result (result ≡ Err Halt.Output) }
    ensures sent { OnOk result (Grows (O.sent out.old) line.now.bytes (O.sent out.new)) }
    ensures part { OnErr result (CameInPart (O.sent out.old) line.now.bytes (O.sent out.new)) }
{
    match write_whole(out, line.as_str().as_bytes()) {
        Ok(()) => Ok(()),
        Err(Failed) => Err(Halt::Output),
    }
}
