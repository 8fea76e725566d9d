//! The header and a record, read from slot 2.
ghost use Rattle.std.specs.Prelude.{◌≡◌, ◌≤◌, true, length, drop, IsErrOf, IfOk, IfSome};
ghost use Rattle.outside.specs.Faults.{Rose};
ghost use Rattle.fm_io.specs.Slots.{slot_at, SlotMoves, OthersStay};
ghost use Rattle.fm_io.specs.Names.{DirectoryStays};
ghost use Rattle.capture_read.specs.Steps.{last_read};
ghost use Rattle.capture_read.specs.Heads.{head_view, ReadsHeader, ReadsRecord};

use crate::records::{
    CaptureFault, HEADER_BYTES, MOST_CAPTURED, Order, RECORD_BYTES, number, order_in,
};
use fm_io::{Files, read_full};

/// What a record says before its frame: how many bytes were captured, and the packet's own length.
#[derive(Clone, Copy, Debug, PartialEq, Eq)]
pub(crate) struct Head {
    pub captured: u32,
    pub len: u32,
}

/// Reads the header.
pub(crate) fn read_header<F: Files>(files: &mut F) -> Result<Order, CaptureFault>
    requires attached { (slot_at (F.slots files.old) 2).attached ≡ true }
    requires start { IfSome (slot_at (F.slots files.old) 2).cursor (λ cursor. cursor.at ≡ 0) }
    ensures later { F.faults files.old ≤ F.faults files.new }
    ensures read { IsErrOf result CaptureFault.Read → Rose (F.faults files.old) (F.faults files.new) }
    ensures last { F.last files.new ≡ last_read (F.last files.old) result }
    ensures strays { F.strays files.new ≡ F.strays files.old }
    ensures directory { DirectoryStays (F.directory files.old) (F.directory files.new) }
    ensures slot { SlotMoves (ReadsHeader result) (slot_at (F.slots files.old) 2) (slot_at (F.slots files.new) 2) }
    ensures others { OthersStay 2 (F.slots files.old) (F.slots files.new) }
{
    let mut header = [0u8; HEADER_BYTES];
    let Ok(count) = read_full(files, 2, &mut header) else {
        return Err(CaptureFault::Read);
    };
    order_in(&header[..count])
}

/// Reads the record that begins here, at this offset: its head, and its frame to the front of `frame`.
pub(crate) fn read_record<F: Files>(
    order: Order,
    offset: u64,
    head: &mut [u8],
    frame: &mut [u8],
    files: &mut F,
) -> Result<Option<Head>, CaptureFault>
    requires attached { (slot_at (F.slots files.old) 2).attached ≡ true }
    requires place { IfSome (slot_at (F.slots files.old) 2).cursor (λ cursor. cursor.at ≡ offset) }
    requires head { length head.old ≡ 16 }
    requires frame { length frame.old ≡ 262144 }
    ensures later { F.faults files.old ≤ F.faults files.new }
    ensures read { IsErrOf result CaptureFault.Read → Rose (F.faults files.old) (F.faults files.new) }
    ensures last { F.last files.new ≡ last_read (F.last files.old) result }
    ensures strays { F.strays files.new ≡ F.strays files.old }
    ensures directory { DirectoryStays (F.directory files.old) (F.directory files.new) }
    ensures slot { SlotMoves (ReadsRecord order offset (head_view offset frame.new result))
        (slot_at (F.slots files.old) 2) (slot_at (F.slots files.new) 2) }
    ensures others { OthersStay 2 (F.slots files.old) (F.slots files.new) }
    ensures captured { IfOk result (λ found. IfSome found (λ head. head.captured ≤ 262144)) }
{
    let Ok(begun) = read_full(files, 2, head) else {
        return Err(CaptureFault::Read);
    };
    if begun == 0 {
        return Ok(None);
    }
    if begun < RECORD_BYTES {
        return Err(CaptureFault::ShortRecord { offset });
    }
    let captured = number(order, &head[8..]);
    if captured > MOST_CAPTURED {
        return Err(CaptureFault::BigRecord {
            offset,
            len: captured,
        });
    }
    let size = captured as usize;
    let Ok(count) = read_full(files, 2, &mut frame[..size]) else {
        return Err(CaptureFault::Read);
    };
    if count < size {
        return Err(CaptureFault::ShortRecord { offset });
    }
    let len = number(order, &head[12..]);
    Ok(Some(Head { captured, len }))
}

/// Reads the record that begins here, at this offset, into one buffer: its head, and its frame behind that.
pub(crate) fn read_into<F: Files>(
    order: Order,
    offset: u64,
    buf: &mut [u8],
    files: &mut F,
) -> Result<Option<Head>, CaptureFault>
    requires attached { (slot_at (F.slots files.old) 2).attached ≡ true }
    requires place { IfSome (slot_at (F.slots files.old) 2).cursor (λ cursor. cursor.at ≡ offset) }
    requires room { length buf.old ≡ 262160 }
    ensures later { F.faults files.old ≤ F.faults files.new }
    ensures read { IsErrOf result CaptureFault.Read → Rose (F.faults files.old) (F.faults files.new) }
    ensures last { F.last files.new ≡ last_read (F.last files.old) result }
    ensures strays { F.strays files.new ≡ F.strays files.old }
    ensures directory { DirectoryStays (F.directory files.old) (F.directory files.new) }
    ensures slot { SlotMoves (ReadsRecord order offset (head_view offset (drop 16 buf.new) result))
        (slot_at (F.slots files.old) 2) (slot_at (F.slots files.new) 2) }
    ensures others { OthersStay 2 (F.slots files.old) (F.slots files.new) }
    ensures captured { IfOk result (λ found. IfSome found (λ head. head.captured ≤ 262144)) }
{
    let (head, frame) = buf.split_at_mut(RECORD_BYTES);
    read_record(order, offset, head, frame, files)
}
