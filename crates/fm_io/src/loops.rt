//! The loops over files and sinks that everybody needs.
ghost use Rattle.std.specs.Prelude.{◌≡◌, ℕ, ◌+◌, ◌-◌, ◌^◌, ◌<◌, ◌≤◌, true, [], length, take, drop, vec_len, IfOk, IfSome, OnOk, OnErr, IsErrOf, MatchResult};
ghost use Rattle.outside.specs.Faults.{Rose, HasCause};
ghost use Rattle.outside.specs.Told.{Grows};
ghost use Rattle.outside.specs.Sent.{CameInPart};
ghost use Rattle.fm_io.specs.Slots.{slot_at, SlotMoves, SlotStays, OthersStay, Yields, MovesUpTo, IsAtEnd, last_failed};
ghost use Rattle.fm_io.specs.Names.{DirectoryStays};
ghost use Rattle.fm_io.specs.Loops.{last_read};

use crate::traits::{Failed, Files, Sink};
use std::alloc::{AllocError, Global};

/// Why a slot could not be read whole.
#[derive(Clone, Copy, Debug, PartialEq, Eq)]
pub enum ReadFail {
    Memory,
    Failed,
}

/// Sends all of `piece`.
pub fn write_whole<S: Sink>(sink: &mut S, piece: &[u8]) -> Result<(), Failed>
    ensures cause { HasCause (S.faults sink.old) (S.faults sink.new) result }
    ensures sent { OnOk result (Grows (S.sent sink.old) piece.now (S.sent sink.new)) }
    ensures part { OnErr result (CameInPart (S.sent sink.old) piece.now (S.sent sink.new)) }
    ensures empty { piece.now ≡ [] → sink.new ≡ sink.old }
{
    let mut done = 0;
    'pieces: while done < piece.len() {
        done += sink.write(&piece[done..])?;
    }
    Ok(())
}

/// Fills `buf` with the next bytes of the slot, or comes to its end, and answers how many it read.
pub fn read_full<F: Files>(files: &mut F, slot: usize, buf: &mut [u8]) -> Result<usize, Failed>
    requires slot { slot < 3 }
    requires attached { (slot_at (F.slots files.old) slot).attached ≡ true }
    ensures cause { HasCause (F.faults files.old) (F.faults files.new) result }
    ensures last { F.last files.new ≡ last_failed slot (F.last files.old) result }
    ensures strays { F.strays files.new ≡ F.strays files.old }
    ensures directory { DirectoryStays (F.directory files.old) (F.directory files.new) }
    ensures slot { MatchResult result
        (λ n. SlotMoves (Yields (take n buf.new)) (slot_at (F.slots files.old) slot) (slot_at (F.slots files.new) slot))
        (λ _. SlotMoves (MovesUpTo (length buf.old - 1)) (slot_at (F.slots files.old) slot) (slot_at (F.slots files.new) slot)) }
    ensures others { OthersStay slot (F.slots files.old) (F.slots files.new) }
    ensures count { IfOk result (λ n. n ≤ length buf.old) }
    ensures end { IfOk result (λ n. n < length buf.old → IfSome (slot_at (F.slots files.new) slot).cursor IsAtEnd) }
    ensures some { OnErr result (0 < length buf.old) }
    ensures rest { IfOk result (λ n. drop n buf.new ≡ drop n buf.old) }
{
    let mut done = 0;
    'pieces: while done < buf.len() {
        let count = files.read(slot, &mut buf[done..])?;
        if count == 0 {
            return Ok(done);
        }
        done += count;
    }
    Ok(done)
}

/// How many bytes are asked for at once where a slot is read whole.
const CHUNK: usize = 4096;

/// One read more behind `bytes`, of at most one byte more than `limit` in all, and how many bytes it gave.
fn read_more<F: Files>(
    files: &mut F,
    slot: usize,
    bytes: &mut Vec<u8>,
    limit: usize,
) -> Result<usize, ReadFail>
    requires slot { slot < 3 }
    requires attached { (slot_at (F.slots files.old) slot).attached ≡ true }
    requires room { vec_len bytes.old ≤ limit }
    ensures later { F.faults files.old ≤ F.faults files.new }
    ensures failed { IsErrOf result ReadFail.Failed → Rose (F.faults files.old) (F.faults files.new) }
    ensures last { F.last files.new ≡ last_read slot (F.last files.old) result }
    ensures strays { F.strays files.new ≡ F.strays files.old }
    ensures directory { DirectoryStays (F.directory files.old) (F.directory files.new) }
    ensures slot { MatchResult result
        (λ _. SlotMoves (Yields (drop (vec_len bytes.old) bytes.new.items))
        (slot_at (F.slots files.old) slot) (slot_at (F.slots files.new) slot))
        (λ _. SlotMoves (MovesUpTo (limit + 1 - vec_len bytes.old))
        (slot_at (F.slots files.old) slot) (slot_at (F.slots files.new) slot)) }
    ensures stopped { IsErrOf result ReadFail.Failed →
        SlotStays (slot_at (F.slots files.old) slot) (slot_at (F.slots files.new) slot) }
    ensures others { OthersStay slot (F.slots files.old) (F.slots files.new) }
    ensures front { OnOk result (take (vec_len bytes.old) bytes.new.items ≡ bytes.old.items) }
    ensures count { IfOk result (λ n. vec_len bytes.new ≡ vec_len bytes.old + n) }
    ensures within { OnOk result (vec_len bytes.new ≤ limit + 1) }
    ensures end { IfOk result (λ n. n ≡ 0 → IfSome (slot_at (F.slots files.new) slot).cursor IsAtEnd) }
{
    let mut chunk = [0u8; CHUNK];
    let room = (limit - bytes.len()).saturating_add(1).min(CHUNK);
    let count = match files.read(slot, &mut chunk[..room]) {
        Ok(count) => count,
        Err(Failed) => return Err(ReadFail::Failed),
    };
    match bytes.extend_from_slice(&chunk[..count]) {
        Ok(()) => Ok(count),
        Err(AllocError) => Err(ReadFail::Memory),
    }
}

/// Reads the slot to its end, or until one byte more than `limit` was read.
pub fn read_whole<F: Files>(
    alloc: Global,
    files: &mut F,
    slot: usize,
    limit: usize,
) -> Result<Vec<u8>, ReadFail>
    requires slot { slot < 3 }
    requires attached { (slot_at (F.slots files.old) slot).attached ≡ true }
    ensures later { F.faults files.old ≤ F.faults files.new }
    ensures failed { IsErrOf result ReadFail.Failed → Rose (F.faults files.old) (F.faults files.new) }
    ensures last { F.last files.new ≡ last_read slot (F.last files.old) result }
    ensures strays { F.strays files.new ≡ F.strays files.old }
    ensures directory { DirectoryStays (F.directory files.old) (F.directory files.new) }
    ensures slot { MatchResult result
        (λ v. SlotMoves (Yields v.items) (slot_at (F.slots files.old) slot) (slot_at (F.slots files.new) slot))
        (λ _. SlotMoves (MovesUpTo (limit + 1)) (slot_at (F.slots files.old) slot) (slot_at (F.slots files.new) slot)) }
    ensures stopped { IsErrOf result ReadFail.Failed →
        SlotMoves (MovesUpTo limit) (slot_at (F.slots files.old) slot) (slot_at (F.slots files.new) slot) }
    ensures others { OthersStay slot (F.slots files.old) (F.slots files.new) }
    ensures count { IfOk result (λ v. vec_len v ≤ limit + 1) }
    ensures end { IfOk result (λ v. vec_len v ≤ limit → IfSome (slot_at (F.slots files.new) slot).cursor IsAtEnd) }
{
    let mut bytes = Vec::new(alloc);
    'pieces: while bytes.len() <= limit {
        if read_more(files, slot, &mut bytes, limit)? == 0 {
            return Ok(bytes);
        }
    }
    Ok(bytes)
}
