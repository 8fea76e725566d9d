//! The two texts in slots.
ghost use Rattle.std.specs.Prelude.{◌≡◌, ◌<◌, ◌≤◌, ℕ, true, length, take, drop, is_none, IsSome, IfSome, is_err, IfOk, IsOk, OnOk, MatchResult};
ghost use Rattle.outside.specs.Faults.{HasCause, faults_after};
ghost use Rattle.fm_io.specs.Names.{DirectoryStays, CountsStray};
ghost use Rattle.fm_io.specs.Slots.{slot_at, no_files, SlotMoves, SlotStays, OthersStay, Attaches, Yields, IsAtEnd, last_failed};
ghost use Rattle.gen_capture.specs.Places.{ArePlaced, directory_in};

use crate::places::Place;
use crate::reading::{put_place, read_on, start_of};
use fm_io::{Failed, Files};

/// A script and a capture of generated packets, which are made as they are read.
///
/// A read gives at most what is left of one record, or of the script.
#[derive(Drop)]
pub struct GenFiles {
    seed: u64,
    // How many packets the capture has.
    count: u32,
    // The slot of the last call that failed.
    last: usize,
    // How many names were attached that are not there, as far as the number goes.
    misses: u64,
    places: [Option<Place>; 3],
    ghost placed: { ArePlaced seed count places },
}

impl GenFiles {
    /// The script, and the capture of so many packets behind this seed.
    pub fn new(seed: u64, count: u32) -> GenFiles
        requires { count ≤ 1000000 }
        ensures faults { ⟦<GenFiles as Files>⟧.faults result ≡ 0 }
        ensures last { ⟦<GenFiles as Files>⟧.last result ≡ 0 }
        ensures strays { ⟦<GenFiles as Files>⟧.strays result ≡ 0 }
        ensures directory { ⟦<GenFiles as Files>⟧.directory result ≡ directory_in seed count }
        ensures slots { ⟦<GenFiles as Files>⟧.slots result ≡ no_files }
    {
        GenFiles {
            seed,
            count,
            last: 0,
            misses: 0,
            places: [None; 3],
        }
    }
}

impl Files for GenFiles {
    ghost use Rattle.gen_capture.specs.GenFiles.{faults_of, last_of, strays_of, directory_of, slots_of};

    ghost faults = { faults_of };

    ghost last = { last_of };

    ghost strays = { strays_of };

    ghost directory = { directory_of };

    ghost slots = { slots_of };

    fn attach(&mut self, slot: usize, name: &str) -> Result<(), Failed>
        requires { slot < 3 }
        ensures cause { HasCause (faults_of self.old) (faults_of self.new) result }
        ensures last { last_of self.new ≡ last_failed slot (last_of self.old) result }
        ensures strays { CountsStray (directory_of self.new).names name.now result
            (strays_of self.old) (strays_of self.new) }
        ensures directory { DirectoryStays (directory_of self.old) (directory_of self.new) }
        ensures slot { Attaches ((directory_of self.new).text name.now) result
            (slot_at (slots_of self.new) slot) }
        ensures others { OthersStay slot (slots_of self.old) (slots_of self.new) }

        // A name that is not there fails, and nothing else. A failure counts once, as a fault and as a stray.
        ensures fails { is_err result ≡ is_none ((directory_of self.old).text name.now) }
        ensures fault { faults_of self.new ≡ faults_after result (faults_of self.old) }
        ensures stray { strays_of self.new ≡ faults_after result (strays_of self.old) }
        ensures texts { directory_of self.new ≡ directory_of self.old }
        ensures told { OnOk result (IsSome (slot_at (slots_of self.new) slot).cursor) }
    {
        let start = start_of(self.seed, name);
        put_place(&mut self.places, slot, start);
        if start.is_none() {
            self.last = slot;
            self.misses = self.misses.saturating_add(1);
            return Err(Failed);
        }
        Ok(())
    }

    fn read(&mut self, slot: usize, buf: &mut [u8]) -> Result<usize, Failed>
        requires slot { slot < 3 }
        requires attached { (slot_at (slots_of self.old) slot).attached ≡ true }
        requires room { 0 < length buf.old }
        ensures cause { HasCause (faults_of self.old) (faults_of self.new) result }
        ensures last { last_of self.new ≡ last_failed slot (last_of self.old) result }
        ensures strays { strays_of self.new ≡ strays_of self.old }
        ensures directory { DirectoryStays (directory_of self.old) (directory_of self.new) }
        ensures slot { MatchResult result
            (λ n. SlotMoves (Yields (take n buf.new))
            (slot_at (slots_of self.old) slot) (slot_at (slots_of self.new) slot))
            (λ _. SlotStays (slot_at (slots_of self.old) slot) (slot_at (slots_of self.new) slot)) }
        ensures others { OthersStay slot (slots_of self.old) (slots_of self.new) }
        ensures count { IfOk result (λ n. n ≤ length buf.old) }
        ensures end { IfOk result (λ n. n ≡ 0 → IfSome (slot_at (slots_of self.new) slot).cursor IsAtEnd) }
        ensures rest { IfOk result (λ n. drop n buf.new ≡ drop n buf.old) }

        // No read fails, and none counts.
        ensures succeeds { IsOk result }
        ensures fault { faults_of self.new ≡ faults_of self.old }
        ensures texts { directory_of self.new ≡ directory_of self.old }
        ensures told { IsSome (slot_at (slots_of self.new) slot).cursor }
    {
        let Some(mut place) = self.places[slot] else {
            unreachable!()
        };
        let read = read_on(&mut place, self.count, buf);
        put_place(&mut self.places, slot, Some(place));
        Ok(read)
    }
}
