//! The packets of a capture, one after another.
ghost use Rattle.std.specs.Prelude.{◌≡◌, ◌≤◌, ℕ, true, IfOk, IsErrOf};
ghost use Rattle.outside.specs.Faults.{Rose};
ghost use Rattle.outside.specs.Told.{Told};
ghost use Rattle.fm_io.specs.Slots.{slot_at, OthersStay};
ghost use Rattle.fm_io.specs.Names.{DirectoryStays};
ghost use Rattle.capture_read.specs.Steps.{MovesOn, last_read};
ghost use Rattle.flymon_engine.specs.Arrivals.{Left, Comes, Gives};
ghost use Rattle.flymon_engine.specs.Captures.{IsReady};

use capture_read::{Capture, CaptureFault};
use fm_io::Files;
use pkt_headers::{Packet, packet_of};

/// The packet of the next record.
pub(crate) fn next_packet<F: Files>(
    capture: &mut Capture,
    files: &mut F,
) -> Result<Option<Packet>, CaptureFault>
    requires attached { (slot_at (F.slots files.old) 2).attached ≡ true }
    requires ready { IsReady capture.old (slot_at (F.slots files.old) 2) }
    ensures ready { IfOk result (λ _. IsReady capture.new (slot_at (F.slots files.new) 2)) }
    ensures attached { (slot_at (F.slots files.new) 2).attached ≡ true }
    ensures later { F.faults files.old ≤ F.faults files.new }
    ensures read { IsErrOf result CaptureFault.Read → Rose (F.faults files.old) (F.faults files.new) }
    ensures last { F.last files.new ≡ last_read (F.last files.old) result }
    ensures strays { F.strays files.new ≡ F.strays files.old }
    ensures directory { DirectoryStays (F.directory files.old) (F.directory files.new) }
    ensures others { OthersStay 2 (F.slots files.old) (F.slots files.new) }
    ensures cursor { Told MovesOn (slot_at (F.slots files.old) 2).cursor (slot_at (F.slots files.new) 2).cursor }
    ensures next { (left : Left) → Told (λ old new. Comes capture.old left old → Gives (Comes capture.new) left result new)
        (slot_at (F.slots files.old) 2).cursor (slot_at (F.slots files.new) 2).cursor }
{
    match capture.next(files) {
        Ok(Some(frame)) => Ok(Some(packet_of(frame.bytes, frame.len))),
        Ok(None) => Ok(None),
        Err(fault) => Err(fault),
    }
}
