//! Lines gathered into pieces, so that a sink gets a call for many of them.
ghost use Rattle.std.specs.Prelude.{◌≡◌, ◌+◌, ◌≤◌, [], ◌++◌, codes, length, OnOk};
ghost use Rattle.outside.specs.Faults.{HasCause};
ghost use Rattle.outside.specs.Sent.{Sends};
ghost use Rattle.readout.specs.Outcomes.{Gathers};

use arrayvec::ArrayString;
use fm_io::{Failed, Sink, write_whole};

/// The most bytes of a piece.
pub(crate) const PIECE_BYTES: usize = 4096;

/// The most bytes of a line.
const LINE_BYTES: usize = 512;

/// Lines that were not sent yet.
pub(crate) type Piece = ArrayString<PIECE_BYTES>;

/// Makes room for one more line in the piece, which is sent first where it has none.
pub(crate) fn make_room<S: Sink>(sink: &mut S, piece: &mut Piece) -> Result<(), Failed>
    ensures cause { HasCause (S.faults sink.old) (S.faults sink.new) result }
    ensures sent { Gathers (S.sent sink.old) piece.old.bytes [] result piece.new.bytes (S.sent sink.new) }
    ensures room { OnOk result (length piece.new.bytes + 512 ≤ 4096) }
{
    if piece.remaining_capacity() < LINE_BYTES {
        send_piece(sink, piece)?;
        piece.clear();
    }
    Ok(())
}

/// Sends what the piece holds.
pub(crate) fn send_piece<S: Sink>(sink: &mut S, piece: &Piece) -> Result<(), Failed>
    ensures cause { HasCause (S.faults sink.old) (S.faults sink.new) result }
    ensures sent { Sends (S.sent sink.old) piece.now.bytes result (S.sent sink.new) }
{
    write_whole(sink, piece.as_str().as_bytes())
}

/// Ends the block: sends what the piece holds, and the line that ends it.
pub(crate) fn end_block<S: Sink>(sink: &mut S, piece: &mut Piece) -> Result<(), Failed>
    ensures cause { HasCause (S.faults sink.old) (S.faults sink.new) result }
    ensures sent { Sends (S.sent sink.old) (piece.old.bytes ++ codes "end\n") result (S.sent sink.new) }
{
    make_room(sink, piece)?;
    piece.push_str("end\n");
    send_piece(sink, piece)
}
