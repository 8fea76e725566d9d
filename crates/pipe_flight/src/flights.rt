//! Packets that stand before different groups of a pipe, while its rules change.
ghost use Rattle.std.specs.Prelude.{◌≡◌, ◌<◌, ◌+◌, ◌∷◌, ◌++◌, ◌↔◌, [], length, take, drop, map, filter, false, IfOk, IsTrue, if◌then◌else◌};
ghost use Rattle.std.specs.List.{list_any};
ghost use Rattle.outside.specs.Told.{Told, Stays};
ghost use Rattle.reg_file.specs.Calls.{MakesOver};
ghost use Rattle.pipe_core.specs.Rules.{SameShape, IsShaped};
ghost use Rattle.pipe_core.specs.Groups.{no_carries};
ghost use Rattle.pipe_flight.specs.Flights.{entering, drained, kept_now};
ghost use Rattle.pipe_flight.specs.Orders.{NobodyAt, IsFlight, is_old, is_present};
ghost use Rattle.pipe_flight.specs.States.{group_count, versions, drain_of, MovesOn, IsAdvance, NoOld};

use crate::passing::pass_from;
use crate::waiting::{Waiting, any_at, first_old, keep_all, place_of};
use cmu_stage::Outs;
use pipe_core::Pipe;
use pkt_headers::Packet;
use reg_file::RegFile;
use std::alloc::{AllocError, Global};
use std::marker::Model;

/// The packets that stand before the groups of a pipe, in order of entry, and the rules before the
/// last commit. The rules of now are lent to each call.
#[derive(Drop)]
pub struct Flight {
    waiting: Vec<Waiting>,
    before: Pipe,
}

impl Model for Flight {
    ghost use Rattle.std.specs.Prelude.{vec_capacity};
    ghost use Rattle.pipe_flight.specs.States.{FlightState, state_of, IsKept};

    ghost Value = { FlightState };

    ghost view = { λ f. state_of f.waiting.items f.before };

    ghost invariant = { λ f. IsKept (state_of f.waiting.items f.before) (vec_capacity f.waiting) };
}

impl Flight {
    /// No packets. The memory for the old rules and for a packet before each group is taken here,
    /// and none later.
    pub fn new(alloc: Global, now: &Pipe) -> Result<Flight, AllocError>
        ensures flight { IfOk result (λ flight. flight.flight ≡ []) }
        ensures before { IfOk result (λ flight. flight.before ≡ now.now) }
    {
        let before = now.twin(alloc)?;
        let waiting = Vec::with_capacity(alloc, now.shape().group_count() as usize)?;
        Ok(Flight { waiting, before })
    }

    /// Whether no packet stands before the group. In order of entry the groups of packets fall, and
    /// old packets come before present ones.
    pub fn vacant(&self, group: u32) -> bool
        requires { group < group_count self.now.before }
        ensures vacant { IsTrue result ↔ NobodyAt group self.now.flight }
        ensures order { IsFlight (group_count self.now.before) self.now.flight }
    {
        !any_at(&self.waiting, group)
    }

    /// The packet stands before the first group, under the rules of now and with all carries 0.
    pub fn enter(&mut self, packet: &Packet)
        requires { NobodyAt 0 self.old.flight }
        ensures before { self.new.before ≡ self.old.before }
        ensures flight { self.new.flight ≡ self.old.flight ++ entering no_carries packet.now ∷ [] }
    {
        let one = Waiting {
            packet: *packet,
            group: 0,
            kept: false,
            outs: Outs { carry: [0; 48] },
        };
        if self.waiting.push(one).is_err() {
            unreachable!()
        }
    }

    /// The packet before the group passes it, under the rules that it keeps: it stands before the
    /// next group, or has left.
    pub fn advance<R: RegFile>(&mut self, now: &Pipe, regs: &mut R, group: u32)
        requires same { SameShape self.old.before now.now }
        requires shaped { IsShaped now.now.geometry (R.dims regs.old) }
        requires there { NobodyAt group self.old.flight → ⊥ }
        requires vacant { group + 1 < group_count now.now → NobodyAt (group + 1) self.old.flight }
        ensures faults { R.faults regs.new ≡ R.faults regs.old }
        ensures dims { R.dims regs.new ≡ R.dims regs.old }
        ensures before { self.new.before ≡ self.old.before }
        ensures drain { Told (λ contents now_contents. drain_of self.new now.now now_contents ≡ drain_of self.old now.now contents)
            (R.contents regs.old) (R.contents regs.new) }
        ensures moves { MovesOn (versions now.now self.old.before) group self.old.flight self.new.flight
            (R.contents regs.old) (R.contents regs.new) (R.calls regs.old) (R.calls regs.new) }
        ensures step { Told (λ contents now_contents.
            IsAdvance (versions now.now self.old.before) group self.old.flight self.new.flight contents now_contents)
            (R.contents regs.old) (R.contents regs.new) }
    {
        let Some(place) = place_of(&self.waiting, group) else {
            unreachable!()
        };
        let groups = now.shape().group_count();
        let mut one = self.waiting[place];
        let rules = rules_of(&self.before, now, one.kept);
        rules.group_step(one.group, &one.packet, &mut one.outs, regs);
        one.group += 1;
        if one.group == groups {
            self.waiting.remove(place);
        } else {
            self.waiting[place] = one;
        }
    }

    /// To be called before the rules of now change. The old packets pass to the end, in order of
    /// entry; then the rules of now are the old ones, and all packets left are old.
    pub fn commit<R: RegFile>(&mut self, now: &Pipe, regs: &mut R)
        requires same { SameShape self.old.before now.now }
        requires shaped { IsShaped now.now.geometry (R.dims regs.old) }
        ensures faults { R.faults regs.new ≡ R.faults regs.old }
        ensures dims { R.dims regs.new ≡ R.dims regs.old }
        ensures before { self.new.before ≡ now.now }
        ensures flight { self.new.flight ≡ map kept_now (filter is_present self.old.flight) }
        ensures order { IsFlight (group_count self.old.before) self.old.flight }
        ensures idle { filter is_old self.old.flight ≡ [] → Stays (R.calls regs.old) (R.calls regs.new) }
        ensures drain { Told (λ contents now_contents. drain_of self.new now.now now_contents ≡ drain_of self.old now.now contents)
            (R.contents regs.old) (R.contents regs.new) }
        ensures makes { MakesOver (λ contents. drained (versions now.now self.old.before) contents (filter is_old self.old.flight))
            (R.contents regs.old) (R.contents regs.new) (R.calls regs.old) (R.calls regs.new) }
    {
        // Read for what holds of them at all times.
        let _ = &self.waiting;
        self.pass_olds(now, regs);
        self.keep(now);
    }

    /// All packets pass to the end, in order of entry.
    pub fn show<R: RegFile>(&mut self, now: &Pipe, regs: &mut R)
        requires same { SameShape self.old.before now.now }
        requires shaped { IsShaped now.now.geometry (R.dims regs.old) }
        ensures faults { R.faults regs.new ≡ R.faults regs.old }
        ensures dims { R.dims regs.new ≡ R.dims regs.old }
        ensures before { self.new.before ≡ self.old.before }
        ensures flight { self.new.flight ≡ [] }
        ensures idle { self.old.flight ≡ [] → Stays (R.calls regs.old) (R.calls regs.new) }
        ensures drain { Told (λ contents now_contents. now_contents ≡ drain_of self.old now.now contents)
            (R.contents regs.old) (R.contents regs.new) }
        ensures makes { MakesOver (λ contents. drained (versions now.now self.old.before) contents self.old.flight)
            (R.contents regs.old) (R.contents regs.new) (R.calls regs.old) (R.calls regs.new) }
    {
        'all: while !self.waiting.is_empty() {
            self.pass_first(now, regs);
        }
    }

    /// The old packets pass to the end, in order of entry.
    fn pass_olds<R: RegFile>(&mut self, now: &Pipe, regs: &mut R)
        requires same { SameShape self.old.before now.now }
        requires shaped { IsShaped now.now.geometry (R.dims regs.old) }
        ensures faults { R.faults regs.new ≡ R.faults regs.old }
        ensures dims { R.dims regs.new ≡ R.dims regs.old }
        ensures before { self.new.before ≡ self.old.before }
        ensures flight { self.new.flight ≡ filter is_present self.old.flight }
        ensures idle { filter is_old self.old.flight ≡ [] → Stays (R.calls regs.old) (R.calls regs.new) }
        ensures makes { MakesOver (λ contents. drained (versions now.now self.old.before) contents (filter is_old self.old.flight))
            (R.contents regs.old) (R.contents regs.new) (R.calls regs.old) (R.calls regs.new) }
    {
        'olds: while self.has_old() {
            self.pass_first(now, regs);
        }
    }

    /// The packet that entered first passes to the end.
    fn pass_first<R: RegFile>(&mut self, now: &Pipe, regs: &mut R)
        requires some { 0 < length self.old.flight }
        requires same { SameShape self.old.before now.now }
        requires shaped { IsShaped now.now.geometry (R.dims regs.old) }
        ensures faults { R.faults regs.new ≡ R.faults regs.old }
        ensures dims { R.dims regs.new ≡ R.dims regs.old }
        ensures before { self.new.before ≡ self.old.before }
        ensures flight { self.new.flight ≡ drop 1 self.old.flight }
        ensures makes { MakesOver (λ contents. drained (versions now.now self.old.before) contents (take 1 self.old.flight))
            (R.contents regs.old) (R.contents regs.new) (R.calls regs.old) (R.calls regs.new) }
    {
        let one = self.waiting.remove(0);
        let rules = rules_of(&self.before, now, one.kept);
        pass_from(rules, one.group, &one.packet, one.outs, regs);
    }

    /// Whether an old packet is in flight: old ones come first.
    fn has_old(&self) -> bool
        ensures first { result ≡ list_any is_old (take 1 self.now.flight) }
        ensures none { result ≡ false → NoOld self.now.flight }
    {
        first_old(&self.waiting)
    }

    /// These are the old rules, and all packets are old.
    fn keep(&mut self, rules: &Pipe)
        requires { SameShape self.old.before rules.now }
        ensures before { self.new.before ≡ rules.now }
        ensures flight { self.new.flight ≡ map kept_now self.old.flight }
    {
        keep_all(&mut self.waiting);
        self.before.copy_from(rules);
    }
}

/// The old rules for an old packet, else those of now.
fn rules_of<'x>(before: &'x Pipe, now: &'x Pipe, kept: bool) -> &'x Pipe
    ensures { result.now ≡ (if kept then before.now else now.now) }
{
    if kept { before } else { now }
}
