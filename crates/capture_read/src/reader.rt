//! The reader of captures: one buffer, into which record after record is read.
ghost use Rattle.std.specs.Prelude.{◌≡◌, ℕ, ◌+◌, ◌*◌, ◌≤◌, Bool, true, false, Ok, None, OnOk, OnSome, IsErrOf, IfOk, IfSome, ◌<◌};
ghost use Rattle.outside.specs.Faults.{Rose};
ghost use Rattle.fm_io.specs.Slots.{slot_at, SlotMoves, OthersStay};
ghost use Rattle.fm_io.specs.Names.{DirectoryStays};
ghost use Rattle.std.specs.Borrow.{sem};
ghost use Rattle.capture_read.specs.Records.{record_view};
ghost use Rattle.capture_read.specs.Reading.{first_reading, moved};
ghost use Rattle.capture_read.specs.Steps.{IsAt, last_read, last_begun, Begins, GoesOn};

use crate::reading::{read_header, read_into};
use crate::records::{CaptureFault, Frame, HEADER_BYTES, MOST_CAPTURED, Order, RECORD_BYTES};
use fm_io::Files;
use std::alloc::Global;
use std::marker::Model;

/// Why a capture could not be begun.
#[derive(Clone, Copy, Debug, PartialEq, Eq)]
pub enum BeginFail {
    Fault(CaptureFault),
    Memory,
}

/// A capture in slot 2 that is read record by record into one buffer.
#[derive(Debug, Drop)]
pub struct Capture {
    // The longest record.
    buf: Vec<u8>,
    order: Order,
    // The place up to which the capture was read.
    at: u64,
    // How many records were read.
    count: u32,
    // A fault was answered.
    faulty: bool,
}

impl Model for Capture {
    ghost use Rattle.std.specs.Prelude.{◌≡◌, ◌≤◌, ◌+◌, ◌*◌, vec_len};
    ghost use Rattle.capture_read.specs.Reading.{Reading};

    ghost Value = { Reading };

    ghost view = { λ c. record { order = c.order; at = c.at; count = c.count; faulty = c.faulty } };

    ghost invariant = { λ c. (vec_len c.buf ≡ 262160) × (c.at ≤ 24 + c.count * 262160) };
}

/// How many records a capture has at most.
const MOST_RECORDS: u32 = u32::MAX;

/// The bytes of the longest record.
const BUFFER_BYTES: usize = RECORD_BYTES + MOST_CAPTURED as usize;

impl Capture {
    ghost use Rattle.capture_read.specs.Lends.{EndsAs};

    /// Reads the header of slot 2, and takes the buffer for its records.
    pub fn begin<F: Files>(alloc: Global, files: &mut F) -> Result<Capture, BeginFail>
        requires attached { (slot_at (F.slots files.old) 2).attached ≡ true }
        requires start { IfSome (slot_at (F.slots files.old) 2).cursor (λ cursor. cursor.at ≡ 0) }
        ensures place { IfOk result (λ capture. IsAt capture (slot_at (F.slots files.new) 2)) }
        ensures first { IfOk result (λ capture. capture ≡ first_reading capture.order) }
        ensures later { F.faults files.old ≤ F.faults files.new }
        ensures read { IsErrOf result (BeginFail.Fault CaptureFault.Read) → Rose (F.faults files.old) (F.faults files.new) }
        ensures last { F.last files.new ≡ last_begun (F.last files.old) result }
        ensures strays { F.strays files.new ≡ F.strays files.old }
        ensures directory { DirectoryStays (F.directory files.old) (F.directory files.new) }
        ensures slot { SlotMoves (Begins result) (slot_at (F.slots files.old) 2) (slot_at (F.slots files.new) 2) }
        ensures others { OthersStay 2 (F.slots files.old) (F.slots files.new) }
    {
        let Ok(buf) = vec![in alloc; 0u8; BUFFER_BYTES] else {
            return Err(BeginFail::Memory);
        };
        match read_header(files) {
            Ok(order) => Ok(Capture {
                buf,
                order,
                at: HEADER_BYTES as u64,
                count: 0,
                faulty: false,
            }),
            Err(fault) => Err(BeginFail::Fault(fault)),
        }
    }

    /// Reads the next record. Its frame is lent until the capture is used again.
    pub fn next<F: Files>(&mut self, files: &mut F) -> Result<Option<Frame<'_>>, CaptureFault>
        requires attached { (slot_at (F.slots files.old) 2).attached ≡ true }
        requires place { IsAt self.old (slot_at (F.slots files.old) 2) }
        requires sound { self.old.faulty ≡ false }
        ensures* ends { sem 𝓛 (EndsAs self.entry (λ v. v ≡ moved self.old (record_view self.old.at result))) }
        ensures place { OnOk result (IsAt (moved self.old (record_view self.old.at result)) (slot_at (F.slots files.new) 2)) }
        ensures full { self.old.count ≡ 4294967295 → record_view self.old.at result ≡ Ok None }
        ensures counted { IfOk result (λ found. OnSome found (self.old.count < 4294967295)) }
        ensures later { F.faults files.old ≤ F.faults files.new }
        ensures read { IsErrOf result CaptureFault.Read → Rose (F.faults files.old) (F.faults files.new) }
        ensures last { F.last files.new ≡ last_read (F.last files.old) result }
        ensures strays { F.strays files.new ≡ F.strays files.old }
        ensures directory { DirectoryStays (F.directory files.old) (F.directory files.new) }
        ensures slot { SlotMoves (GoesOn self.old (record_view self.old.at result))
            (slot_at (F.slots files.old) 2) (slot_at (F.slots files.new) 2) }
        ensures others { OthersStay 2 (F.slots files.old) (F.slots files.new) }
    {
        if self.count == MOST_RECORDS {
            return Ok(None);
        }
        match read_into(self.order, self.at, &mut self.buf, files) {
            Ok(Some(head)) => {
                let size = RECORD_BYTES + head.captured as usize;
                self.at += size as u64;
                self.count += 1;
                let bytes = &self.buf[RECORD_BYTES..size];
                Ok(Some(Frame {
                    bytes,
                    len: head.len,
                }))
            }
            Ok(None) => Ok(None),
            Err(fault) => {
                self.faulty = true;
                Err(fault)
            }
        }
    }
}
