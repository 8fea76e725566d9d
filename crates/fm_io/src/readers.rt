//! Slots that are read through any buffered reader of std.
ghost use Rattle.std.specs.Prelude.{◌≡◌, ◌<◌, ◌≤◌, true, length, drop, is_some, is_ok, IfOk};
ghost use Rattle.fm_io.specs.Reads.{ReadsNext};
ghost use Rattle.outside.specs.Faults.{HasCause, faults_after};
ghost use Rattle.fm_io.specs.Slots.{slot_at, untold, OthersStay, last_failed};

use crate::traits::Failed;
use std::io;
use std::io::BufRead;

/// Three slots, each with a reader or none, and the calls on them that failed.
#[derive(Drop)]
pub(crate) struct Readers<B: BufRead + Drop> {
    slots: [Option<B>; 3],
    faults: u64,
    // The slot of the last call that failed.
    last: usize,
}

/// Reads the next bytes into the front of `buf`. The rest of `buf` stays, which `Read::read` leaves open.
fn read_next<B: BufRead>(reader: &mut B, buf: &mut [u8]) -> io::Result<usize>
    ensures bytes { ReadsNext (B.remaining reader.old) (B.remaining reader.new) result buf.new }
    ensures count { IfOk result (λ n. n ≤ length buf.old) }
    ensures rest { IfOk result (λ n. drop n buf.new ≡ drop n buf.old) }
{
    let next = reader.fill_buf()?;
    let count = next.len().min(buf.len());
    buf[..count].copy_from_slice(&next[..count]);
    reader.consume(count);
    Ok(count)
}

impl<B: BufRead + Drop> Readers<B> {
    ghost use Rattle.fm_io.specs.Readers.{faults_in, last_in, reader_at, remaining_at, slots_in, failed_in};

    pub(crate) fn new() -> Readers<B>
        ensures faults { faults_in result ≡ 0 }
        ensures last { last_in result ≡ 0 }
    {
        Readers {
            slots: [None, None, None],
            faults: 0,
            last: 0,
        }
    }

    /// Counts a failed call on this slot.
    fn fail(&mut self, slot: usize) -> Failed
        ensures { self.new ≡ failed_in self.old slot }
    {
        self.faults = self.faults.saturating_add(1);
        self.last = slot;
        Failed
    }

    /// Puts the reader of a file into the slot: none where the file could not be opened.
    pub(crate) fn put(&mut self, slot: usize, reader: Option<B>) -> Result<(), Failed>
        requires { slot < 3 }
        ensures opened { is_ok result ≡ is_some reader }
        ensures cause { HasCause (faults_in self.old) (faults_in self.new) result }
        ensures faults { faults_in self.new ≡ faults_after result (faults_in self.old) }
        ensures last { last_in self.new ≡ last_failed slot (last_in self.old) result }
        ensures here { reader_at self.new slot ≡ reader }
        ensures slot { slot_at (slots_in self.new) slot ≡ untold (is_some reader) }
        ensures others { OthersStay slot (slots_in self.old) (slots_in self.new) }
    {
        let opened = reader.is_some();
        self.slots[slot] = reader;
        if opened { Ok(()) } else { Err(self.fail(slot)) }
    }

    /// Reads the next bytes of the slot's reader into the front of `buf`.
    pub(crate) fn read(&mut self, slot: usize, buf: &mut [u8]) -> Result<usize, Failed>
        requires slot { slot < 3 }
        requires attached { (slot_at (slots_in self.old) slot).attached ≡ true }
        ensures bytes { ReadsNext (remaining_at B.remaining self.old slot) (remaining_at B.remaining self.new slot) result buf.new }
        ensures count { IfOk result (λ n. n ≤ length buf.old) }
        ensures rest { IfOk result (λ n. drop n buf.new ≡ drop n buf.old) }
        ensures cause { HasCause (faults_in self.old) (faults_in self.new) result }
        ensures faults { faults_in self.new ≡ faults_after result (faults_in self.old) }
        ensures last { last_in self.new ≡ last_failed slot (last_in self.old) result }
        ensures slot { slot_at (slots_in self.new) slot ≡ slot_at (slots_in self.old) slot }
        ensures others { OthersStay slot (slots_in self.old) (slots_in self.new) }
    {
        let Some(reader) = &mut self.slots[slot] else {
            unreachable!()
        };
        match read_next(reader, buf) {
            Ok(count) => Ok(count),
            Err(_) => Err(self.fail(slot)),
        }
    }
}
