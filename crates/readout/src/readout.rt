//! The read-outs of a switch.
ghost use Rattle.std.specs.Prelude.{◌≡◌, ◌≤◌, Ok, IfOk, IfErr, IfSome};
ghost use Rattle.outside.specs.Sent.{Sends};
ghost use Rattle.outside.specs.Faults.{HasCause};
ghost use Rattle.reg_file.specs.Registers.{Contents};
ghost use Rattle.reg_file.specs.Reads.{OnlyReads};
ghost use Rattle.readout.specs.PlacedTasks.{PlacedTask, task_named, live_bits, parts_in, IsFit, IsShaped, AreWithin};
ghost use Rattle.readout.specs.Lines.{show_lines, stat_lines};
ghost use Rattle.readout.specs.Answers.{answer_by, task_answer, lines_of_cells, line_of_query, lines_of_dist, line_of_card};
ghost use Rattle.readout.specs.Outcomes.{Replies, IsStopOf, outcome_of};

use crate::OutOfMemory;
use crate::card::tell_card;
use crate::cells::tell_cells;
use crate::dist::tell_dist;
use crate::faults::{ReadFault, fault_of};
use crate::query::tell_query;
use crate::refusals::{Refusal, Stop};
use crate::requests::Ask;
use crate::show::send_show;
use crate::stat::send_stat;
use crate::views::{Side, TaskView};
use fm_io::Sink;
use hash_units::HashKey;
use reg_file::RegFile;
use sketch_defs::Name;
use std::alloc::Global;
use std::marker::Model;
use task_filters::Filter;

/// Reads tasks of up to `2^bits` cells a row, and takes no memory once it was made.
#[derive(Debug, Drop)]
pub struct Readout {
    cells: Vec<u32>,
    bits: u32,
}

impl Model for Readout {
    ghost use Rattle.std.specs.Prelude.{◌^◌, ◌≤◌, ℕ, vec_capacity};

    ghost Value = { ℕ };

    ghost view = { λ r. r.bits };

    ghost invariant = { λ r. (r.bits ≤ 20) × (2 ^ r.bits ≤ vec_capacity r.cells) };
}

impl Readout {
    /// Takes room for the cells of a row.
    pub fn new(alloc: Global, bits: u32) -> Result<Readout, OutOfMemory>
        requires { bits ≤ 20 }
        ensures { IfOk result (λ r. r ≡ bits) }
    {
        Ok(Readout {
            cells: Vec::with_capacity(alloc, 1 << bits)?,
            bits,
        })
    }

    /// Tells the cells of a task, in its live partitions or in those that a resize froze. Each is
    /// read once, by row and index; one that is as it started has no line.
    pub fn cells<V: TaskView, R: RegFile, S: Sink>(
        &self,
        view: &V,
        regs: &mut R,
        name: &Name,
        side: Side,
        sink: &mut S,
    ) -> Result<(), ReadFault>
        requires fit { IsFit (V.seen view.now) }
        requires shaped { IsShaped (V.seen view.now).geometry (R.dims regs.old) }
        ensures replies { Replies (λ told. answer_by name.now (lines_of_cells side) (parts_in told (V.seen view.now)))
            (R.contents regs.new) (S.sent sink.old) (outcome_of result) (S.sent sink.new) }
        ensures cause { IfErr (outcome_of result) (IsStopOf R.RegFile S.Sink regs.old regs.new sink.old sink.new) }
        ensures later { S.faults sink.old ≤ S.faults sink.new }
        ensures reads { OnlyReads R.RegFile regs.old regs.new }
    {
        fault_of(tell_cells(view, regs, name, side, sink))
    }

    /// Tells what a task answers for a key value, which has the fields of the task's key. One cell
    /// of each row is read.
    pub fn query<V: TaskView, R: RegFile, S: Sink>(
        &self,
        view: &V,
        regs: &mut R,
        hash_key: &HashKey,
        name: &Name,
        at: &Filter,
        sink: &mut S,
    ) -> Result<(), ReadFault>
        requires fit { IsFit (V.seen view.now) }
        requires shaped { IsShaped (V.seen view.now).geometry (R.dims regs.old) }
        ensures replies { Replies (λ told. answer_by name.now (line_of_query hash_key.now at.now) (parts_in told (V.seen view.now)))
            (R.contents regs.new) (S.sent sink.old) (outcome_of result) (S.sent sink.new) }
        ensures cause { IfErr (outcome_of result) (IsStopOf R.RegFile S.Sink regs.old regs.new sink.old sink.new) }
        ensures later { S.faults sink.old ≤ S.faults sink.new }
        ensures reads { OnlyReads R.RegFile regs.old regs.new }
    {
        fault_of(tell_query(view, regs, hash_key, name, at, sink))
    }

    /// Tells the estimate of a task that counts distinct keys, with what it rests on.
    pub fn card<V: TaskView, R: RegFile, S: Sink>(
        &self,
        view: &V,
        regs: &mut R,
        name: &Name,
        sink: &mut S,
    ) -> Result<(), ReadFault>
        requires fit { IsFit (V.seen view.now) }
        requires shaped { IsShaped (V.seen view.now).geometry (R.dims regs.old) }
        ensures replies { Replies (λ told. answer_by name.now line_of_card (parts_in told (V.seen view.now)))
            (R.contents regs.new) (S.sent sink.old) (outcome_of result) (S.sent sink.new) }
        ensures cause { IfErr (outcome_of result) (IsStopOf R.RegFile S.Sink regs.old regs.new sink.old sink.new) }
        ensures later { S.faults sink.old ≤ S.faults sink.new }
        ensures reads { OnlyReads R.RegFile regs.old regs.new }
    {
        fault_of(tell_card(view, regs, name, sink))
    }

    /// Tells each value among the cells of a task of one row, with the number of cells that hold
    /// it.
    pub fn dist<V: TaskView, R: RegFile, S: Sink>(
        &mut self,
        view: &V,
        regs: &mut R,
        name: &Name,
        sink: &mut S,
    ) -> Result<(), ReadFault>
        requires fit { IsFit (V.seen view.now) }
        requires shaped { IsShaped (V.seen view.now).geometry (R.dims regs.old) }
        requires room { IfSome (task_named name.now (V.seen view.now)) (λ placed. live_bits placed ≤ self.old) }
        ensures replies { Replies (λ told. answer_by name.now lines_of_dist (parts_in told (V.seen view.now)))
            (R.contents regs.new) (S.sent sink.old) (outcome_of result) (S.sent sink.new) }
        ensures cause { IfErr (outcome_of result) (IsStopOf R.RegFile S.Sink regs.old regs.new sink.old sink.new) }
        ensures later { S.faults sink.old ≤ S.faults sink.new }
        ensures reads { OnlyReads R.RegFile regs.old regs.new }
        ensures room { self.new ≡ self.old }
    {
        fault_of(tell_dist(view, regs, name, &mut self.cells, sink))
    }

    /// Tells each task in order of its addition, with its present size, and where its rows stand.
    pub fn show<V: TaskView, S: Sink>(&self, view: &V, sink: &mut S) -> Result<(), ReadFault>
        requires { IsFit (V.seen view.now) }
        ensures write { IfErr result (λ fault. fault ≡ ReadFault.Write) }
        ensures cause { HasCause (S.faults sink.old) (S.faults sink.new) result }
        ensures sent { Sends (S.sent sink.old) (show_lines (V.seen view.now)) result (S.sent sink.new) }
    {
        send_show(view, sink).map_err(|_| ReadFault::Write)
    }

    /// Tells the units of each group, and of each array how many registers are free, how many the
    /// largest free partition has, and how many live rows stand on it.
    pub fn stat<V: TaskView, S: Sink>(&self, view: &V, sink: &mut S) -> Result<(), ReadFault>
        ensures write { IfErr result (λ fault. fault ≡ ReadFault.Write) }
        ensures cause { HasCause (S.faults sink.old) (S.faults sink.new) result }
        ensures sent { Sends (S.sent sink.old) (stat_lines (V.seen view.now)) result (S.sent sink.new) }
    {
        send_stat(view, sink).map_err(|_| ReadFault::Write)
    }

    /// Tells what the live task of the name is asked for: the lines are sent, or it is refused, or a
    /// fault stopped it.
    pub fn read_out<V: TaskView, R: RegFile, S: Sink>(
        &mut self,
        view: &V,
        regs: &mut R,
        hash_key: &HashKey,
        name: &Name,
        ask: &Ask,
        sink: &mut S,
    ) -> Result<Result<(), Refusal>, Stop>
        requires fit { IsFit (V.seen view.now) }
        requires shaped { IsShaped (V.seen view.now).geometry (R.dims regs.old) }
        requires room { AreWithin self.old (V.seen view.now) }
        ensures replies { Replies (λ told. answer_by name.now (task_answer hash_key.now ask.now) (parts_in told (V.seen view.now)))
            (R.contents regs.new) (S.sent sink.old) result (S.sent sink.new) }
        ensures cause { IfErr result (IsStopOf R.RegFile S.Sink regs.old regs.new sink.old sink.new) }
        ensures later { S.faults sink.old ≤ S.faults sink.new }
        ensures reads { OnlyReads R.RegFile regs.old regs.new }
        ensures room { self.new ≡ self.old }
    {
        match ask {
            Ask::Cells(side) => tell_cells(view, regs, name, *side, sink),
            Ask::Query(at) => tell_query(view, regs, hash_key, name, at, sink),
            Ask::Dist => tell_dist(view, regs, name, &mut self.cells, sink),
            Ask::Card => tell_card(view, regs, name, sink),
        }
    }
}
