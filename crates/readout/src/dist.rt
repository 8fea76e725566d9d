//! The sizes that the cells of a task tell.
ghost use Rattle.std.specs.Prelude.{◌≡◌, ◌+◌, ◌∷◌, ◌^◌, ◌<◌, ◌≤◌, length, drop, slice_index, vec_capacity, IfSome, IfOk, IfErr, OnOk};
ghost use Rattle.std.specs.List.{flat_map};
ghost use Rattle.std.specs.List.Sorted.{IsSorted};
ghost use Rattle.std.specs.Ordering.{nat_cmp};
ghost use Rattle.outside.specs.Faults.{HasCause};
ghost use Rattle.outside.specs.Sent.{Sends};
ghost use Rattle.reg_file.specs.Reads.{OnlyReads};
ghost use Rattle.sketch_defs.specs.Answers.{Size, sizes_of};
ghost use Rattle.readout.specs.declared.views.Side.TheVariants.{Live};
ghost use Rattle.readout.specs.PlacedTasks.{CanRead, IsFit, IsShaped, task_in, task_named, place_in, part_in, parts_in, live_bits, row_contents};
ghost use Rattle.readout.specs.Lines.{size_line, dist_lines};
ghost use Rattle.readout.specs.Answers.{answer_by, lines_of_dist};
ghost use Rattle.readout.specs.Outcomes.{Gathers, IsStopOf, Replies};

use crate::judging::judge;
use crate::lines::{put_dist, put_size};
use crate::pieces::{Piece, end_block, make_room};
use crate::places::{cell_count, first_place};
use crate::refusals::{Refusal, Stop, outcome_of_sent};
use crate::requests::Ask;
use crate::views::{Side, TaskView};
use fm_io::{Failed, Sink};
use reg_file::{DeviceFault, RegFile};
use sketch_defs::{Name, histogram};

/// Reads the cells of the task's first row into `cells`, which has room for them.
fn read_row<V: TaskView, R: RegFile>(
    view: &V,
    regs: &mut R,
    at: usize,
    size: u32,
    cells: &mut Vec<u32>,
) -> Result<(), DeviceFault>
    requires readable { CanRead (V.seen view.now) (R.dims regs.old) at Live }
    requires row { 0 < length (task_in (V.seen view.now) at).places }
    requires size { size ≡ 2 ^ live_bits (task_in (V.seen view.now) at) }
    requires room { size ≤ vec_capacity cells.old }
    ensures reads { OnlyReads R.RegFile regs.old regs.new }
    ensures cause { HasCause (R.faults regs.old) (R.faults regs.new) result }
    ensures capacity { vec_capacity cells.old ≤ vec_capacity cells.new }
    ensures told { OnOk result (IfSome (R.contents regs.new) (λ told.
        cells.new.items ≡ row_contents told Live (place_in (V.seen view.now) at 0))) }
{
    cells.clear();
    'cells: for index in 0..size {
        let cell = view.cell(regs, at, Side::Live, 0, index)?;
        let Ok(()) = cells.push(cell) else {
            unreachable!()
        };
    }
    Ok(())
}

/// How many cells from `at` on hold the same value.
fn run_length(cells: &[u32], at: usize) -> usize
    requires inside { at < length cells.now }
    requires rising { IsSorted nat_cmp cells.now }
    ensures some { 1 ≤ result }
    ensures within { at + result ≤ length cells.now }
    ensures sizes { let size : Size = record { value = slice_index cells.now at; cells = result } in
        sizes_of (drop at cells.now) ≡ size ∷ sizes_of (drop (at + result) cells.now) }
{
    let mut end = at + 1;
    'run: while end < cells.len() {
        if cells[end] != cells[at] {
            return end - at;
        }
        end += 1;
    }
    end - at
}

/// Gathers a line for each value among the cells, which rise.
fn gather_sizes<S: Sink>(cells: &[u32], sink: &mut S, piece: &mut Piece) -> Result<(), Failed>
    requires { IsSorted nat_cmp cells.now }
    ensures cause { HasCause (S.faults sink.old) (S.faults sink.new) result }
    ensures sent { Gathers (S.sent sink.old) piece.old.bytes (flat_map size_line (sizes_of cells.now)) result piece.new.bytes (S.sent sink.new) }
{
    let mut at = 0;
    'runs: while at < cells.len() {
        let count = run_length(cells, at);
        make_room(sink, piece)?;
        put_size(piece, cells[at], count);
        at += count;
    }
    Ok(())
}

/// Sends the sizes of the cells, which rise.
fn send_sizes<S: Sink>(name: &Name, cells: &[u32], sink: &mut S) -> Result<(), Failed>
    requires { IsSorted nat_cmp cells.now }
    ensures cause { HasCause (S.faults sink.old) (S.faults sink.new) result }
    ensures sent { Sends (S.sent sink.old) (dist_lines name.now (sizes_of cells.now)) result (S.sent sink.new) }
{
    let mut piece = Piece::new();
    put_dist(&mut piece, name);
    gather_sizes(cells, sink, &mut piece)?;
    end_block(sink, &mut piece)
}

/// Puts the cells into rising order.
fn sort_cells(cells: &mut Vec<u32>)
    ensures rising { IsSorted nat_cmp cells.new.items }
    ensures sizes { sizes_of cells.new.items ≡ sizes_of cells.old.items }
    ensures capacity { vec_capacity cells.new ≡ vec_capacity cells.old }
{
    histogram(cells.as_mut_slice());
}

/// Sends the sizes of a task, whose cells are read once.
fn send_dist<V: TaskView, R: RegFile, S: Sink>(
    view: &V,
    regs: &mut R,
    at: usize,
    cells: &mut Vec<u32>,
    sink: &mut S,
) -> Result<(), Stop>
    requires readable { CanRead (V.seen view.now) (R.dims regs.old) at Live }
    requires room { 2 ^ live_bits (task_in (V.seen view.now) at) ≤ vec_capacity cells.old }
    ensures reads { OnlyReads R.RegFile regs.old regs.new }
    ensures later { S.faults sink.old ≤ S.faults sink.new }
    ensures cause { IfErr result (IsStopOf R.RegFile S.Sink regs.old regs.new sink.old sink.new) }
    ensures capacity { vec_capacity cells.old ≤ vec_capacity cells.new }
    ensures sent { IfSome (R.contents regs.new) (λ told. IfOk (lines_of_dist (part_in told (task_in (V.seen view.now) at)))
        (λ lines. Sends (S.sent sink.old) lines result (S.sent sink.new))) }
{
    let size = cell_count(first_place(view, at).region);
    read_row(view, regs, at, size, cells)?;
    sort_cells(cells);
    send_sizes(view.task(at).name(), cells.as_slice(), sink)?;
    Ok(())
}

/// Tells the sizes of the live task of the name, or why there are none.
pub(crate) fn tell_dist<V: TaskView, R: RegFile, S: Sink>(
    view: &V,
    regs: &mut R,
    name: &Name,
    cells: &mut Vec<u32>,
    sink: &mut S,
) -> Result<Result<(), Refusal>, Stop>
    requires fit { IsFit (V.seen view.now) }
    requires shaped { IsShaped (V.seen view.now).geometry (R.dims regs.old) }
    requires room { IfSome (task_named name.now (V.seen view.now)) (λ placed. 2 ^ live_bits placed ≤ vec_capacity cells.old) }
    ensures replies { Replies (λ told. answer_by name.now lines_of_dist (parts_in told (V.seen view.now)))
        (R.contents regs.new) (S.sent sink.old) result (S.sent sink.new) }
    ensures cause { IfErr result (IsStopOf R.RegFile S.Sink regs.old regs.new sink.old sink.new) }
    ensures later { S.faults sink.old ≤ S.faults sink.new }
    ensures reads { OnlyReads R.RegFile regs.old regs.new }
    ensures capacity { vec_capacity cells.old ≤ vec_capacity cells.new }
{
    match judge(view, name, &Ask::Dist) {
        Ok(at) => outcome_of_sent(send_dist(view, regs, at, cells, sink)),
        Err(refusal) => Ok(Err(refusal)),
    }
}
