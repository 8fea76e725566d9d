//! Files of the file system: the trusted edge, which tells no bytes.
ghost use Rattle.std.specs.Prelude.{◌≡◌, ◌<◌, ◌≤◌, true, length, take, drop, IfSome, IfOk, MatchResult};
ghost use Rattle.outside.specs.Faults.{HasCause, faults_after};
ghost use Rattle.fm_io.specs.Names.{DirectoryStays, CountsStray};
ghost use Rattle.fm_io.specs.Slots.{slot_at, SlotMoves, SlotStays, OthersStay, Attaches, Yields, IsAtEnd, last_failed};

use crate::readers::Readers;
use crate::traits::{Failed, Files};
use std::alloc::Global;
use std::io::BufReader;
use std::{fs, rt};

/// How many bytes of a file are read ahead.
const READ_AHEAD: usize = 65_536;

/// Files of the file system, each slot read through a buffer of its own.
///
/// Each error of a call of std counts as a fault, whatever its cause.
#[derive(Drop)]
pub struct RealFiles<R: rt::Files + Drop> {
    runtime: R,
    alloc: Global,
    readers: Readers<BufReader<R::File>>,
}

impl<R: rt::Files + Drop> RealFiles<R> {
    pub fn new(alloc: Global, runtime: R) -> RealFiles<R> {
        RealFiles {
            runtime,
            alloc,
            readers: Readers::new(),
        }
    }
}

fn open<R: rt::Files>(runtime: &R, alloc: Global, name: &str) -> Option<BufReader<R::File>> {
    let file = fs::open(runtime, name).ok()?;
    BufReader::with_capacity(alloc, READ_AHEAD, file).ok()
}

impl<R: rt::Files + Drop> Files for RealFiles<R> {
    ghost use Rattle.fm_io.specs.RealFiles.{faults_of, last_of, strays_of, directory_of, slots_of};

    ghost faults = { faults_of };

    ghost last = { last_of };

    ghost strays = { strays_of };

    ghost directory = { directory_of };

    ghost slots = { slots_of };

    fn attach(&mut self, slot: usize, name: &str) -> Result<(), Failed>
        requires { slot < 3 }
        ensures cause { HasCause (faults_of self.old) (faults_of self.new) result }
        ensures last { last_of self.new ≡ last_failed slot (last_of self.old) result }
        ensures strays { CountsStray (directory_of self.new).names name.now result (strays_of self.old) (strays_of self.new) }
        ensures directory { DirectoryStays (directory_of self.old) (directory_of self.new) }
        ensures slot { Attaches ((directory_of self.new).text name.now) result (slot_at (slots_of self.new) slot) }
        ensures others { OthersStay slot (slots_of self.old) (slots_of self.new) }

        // The count of faults rises in no other call.
        ensures exact { faults_of self.new ≡ faults_after result (faults_of self.old) }
    {
        self.readers
            .put(slot, open(&self.runtime, self.alloc, name))
    }

    fn read(&mut self, slot: usize, buf: &mut [u8]) -> Result<usize, Failed>
        requires slot { slot < 3 }
        requires attached { (slot_at (slots_of self.old) slot).attached ≡ true }
        requires room { 0 < length buf.old }
        ensures cause { HasCause (faults_of self.old) (faults_of self.new) result }
        ensures last { last_of self.new ≡ last_failed slot (last_of self.old) result }
        ensures strays { strays_of self.new ≡ strays_of self.old }
        ensures directory { DirectoryStays (directory_of self.old) (directory_of self.new) }
        ensures slot { MatchResult result
            (λ n. SlotMoves (Yields (take n buf.new)) (slot_at (slots_of self.old) slot) (slot_at (slots_of self.new) slot))
            (λ _. SlotStays (slot_at (slots_of self.old) slot) (slot_at (slots_of self.new) slot)) }
        ensures others { OthersStay slot (slots_of self.old) (slots_of self.new) }
        ensures count { IfOk result (λ n. n ≤ length buf.old) }
        ensures end { IfOk result (λ n. n ≡ 0 → IfSome (slot_at (slots_of self.new) slot).cursor IsAtEnd) }
        ensures rest { IfOk result (λ n. drop n buf.new ≡ drop n buf.old) }

        // The count of faults rises in no other call.
        ensures exact { faults_of self.new ≡ faults_after result (faults_of self.old) }
    {
        self.readers.read(slot, buf)
    }
}
