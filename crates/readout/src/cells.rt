//! The cells of a task, as lines.
ghost use Rattle.std.specs.Prelude.{◌≡◌, ◌^◌, ◌<◌, ◌≤◌, ◌++◌, length, [], IfSome, IfOk, IfErr};
ghost use Rattle.std.specs.List.{flat_map, enumerate_from};
ghost use Rattle.outside.specs.Sent.{Sends};
ghost use Rattle.reg_file.specs.Reads.{OnlyReads};
ghost use Rattle.sketch_lower.specs.Operations.{start_of};
ghost use Rattle.readout.specs.PlacedTasks.{CanRead, IsFit, IsShaped, task_in, place_in, part_in, parts_in, block_of, register_at, row_contents, rows_contents};
ghost use Rattle.readout.specs.Lines.{cell_line, row_lines, head_line};
ghost use Rattle.readout.specs.Answers.{answer_by, lines_of_cells};
ghost use Rattle.readout.specs.Outcomes.{Gathers, IsStopOf, Replies};

use crate::judging::judge;
use crate::lines::{put_cell, put_head};
use crate::pieces::{Piece, end_block, make_room};
use crate::places::{cell_count, first_place, part_of};
use crate::refusals::{Refusal, Stop, outcome_of_sent};
use crate::requests::Ask;
use crate::views::{Side, TaskView};
use fm_io::Sink;
use reg_file::RegFile;
use sketch_defs::Name;
use sketch_lower::start_value;

/// The partitions of a task, which started at `start`.
#[derive(Clone, Copy)]
struct Source {
    task: usize,
    side: Side,
    start: u32,
}

/// Gathers the line of one cell, which has none where it is as it started.
fn gather_cell<V: TaskView, R: RegFile, S: Sink>(
    view: &V,
    regs: &mut R,
    source: Source,
    row: u32,
    index: u32,
    sink: &mut S,
    piece: &mut Piece,
) -> Result<(), Stop>
    requires readable { CanRead (V.seen view.now) (R.dims regs.old) source.task source.side }
    requires row { row < length (task_in (V.seen view.now) source.task).places }
    requires index { index < 2 ^ (block_of source.side (place_in (V.seen view.now) source.task row)).bits }
    ensures reads { OnlyReads R.RegFile regs.old regs.new }
    ensures later { S.faults sink.old ≤ S.faults sink.new }
    ensures cause { IfErr result (IsStopOf R.RegFile S.Sink regs.old regs.new sink.old sink.new) }
    ensures sent { IfSome (R.contents regs.new) (λ told. Gathers (S.sent sink.old) piece.old.bytes
        (cell_line source.start row index (register_at told source.side (place_in (V.seen view.now) source.task row) index))
        result piece.new.bytes (S.sent sink.new)) }
{
    let value = view.cell(regs, source.task, source.side, row, index)?;
    if value == source.start {
        return Ok(());
    }
    make_room(sink, piece)?;
    put_cell(piece, row, index, value);
    Ok(())
}

/// Gathers the lines of a row, each cell of which is read once.
fn gather_row<V: TaskView, R: RegFile, S: Sink>(
    view: &V,
    regs: &mut R,
    source: Source,
    row: u32,
    sink: &mut S,
    piece: &mut Piece,
) -> Result<(), Stop>
    requires readable { CanRead (V.seen view.now) (R.dims regs.old) source.task source.side }
    requires row { row < length (task_in (V.seen view.now) source.task).places }
    ensures reads { OnlyReads R.RegFile regs.old regs.new }
    ensures later { S.faults sink.old ≤ S.faults sink.new }
    ensures cause { IfErr result (IsStopOf R.RegFile S.Sink regs.old regs.new sink.old sink.new) }
    ensures sent { IfSome (R.contents regs.new) (λ told. Gathers (S.sent sink.old) piece.old.bytes
        (row_lines source.start row (row_contents told source.side (place_in (V.seen view.now) source.task row)))
        result piece.new.bytes (S.sent sink.new)) }
{
    let size = cell_count(part_of(view.placed(source.task, row), source.side));
    'cells: for index in 0..size {
        gather_cell(view, regs, source, row, index, sink, piece)?;
    }
    Ok(())
}

/// Gathers the lines of all rows.
fn gather_rows<V: TaskView, R: RegFile, S: Sink>(
    view: &V,
    regs: &mut R,
    source: Source,
    rows: u32,
    sink: &mut S,
    piece: &mut Piece,
) -> Result<(), Stop>
    requires readable { CanRead (V.seen view.now) (R.dims regs.old) source.task source.side }
    requires rows { rows ≡ length (task_in (V.seen view.now) source.task).places }
    ensures reads { OnlyReads R.RegFile regs.old regs.new }
    ensures later { S.faults sink.old ≤ S.faults sink.new }
    ensures cause { IfErr result (IsStopOf R.RegFile S.Sink regs.old regs.new sink.old sink.new) }
    ensures sent { IfSome (R.contents regs.new) (λ told. Gathers (S.sent sink.old) piece.old.bytes
        (flat_map (λ at. row_lines source.start at.0 at.1) (enumerate_from 0 (rows_contents told source.side (task_in (V.seen view.now) source.task))))
        result piece.new.bytes (S.sent sink.new)) }
{
    'rows: for row in 0..rows {
        gather_row(view, regs, source, row, sink, piece)?;
    }
    Ok(())
}

/// The piece that begins with the first line of the block of the task.
fn begin_cells<V: TaskView>(view: &V, source: Source) -> Piece
    requires fit { IsFit (V.seen view.now) }
    requires task { source.task < length (V.seen view.now).tasks }
    ensures { let placed = task_in (V.seen view.now) source.task in result.bytes ≡
        head_line source.side placed.task.name (length placed.places) (2 ^ (block_of source.side (place_in (V.seen view.now) source.task 0)).bits) source.start }
{
    let task = view.task(source.task);
    let size = cell_count(part_of(first_place(view, source.task), source.side));
    let mut piece = Piece::new();
    put_head(
        &mut piece,
        source.side,
        task.name(),
        task.rows(),
        size,
        source.start,
    );
    piece
}

/// What the cells of the task started at.
fn start_of<V: TaskView>(view: &V, at: usize) -> u32
    requires { at < length (V.seen view.now).tasks }
    ensures { result ≡ start_of (task_in (V.seen view.now) at).task.kind }
{
    start_value(view.task(at).kind())
}

/// Sends the cells of a task, row by row.
#[tactic(auto, using(crate::proofs::PlacedTaskLemmas::rows_placed))]
fn send_cells<V: TaskView, R: RegFile, S: Sink>(
    view: &V,
    regs: &mut R,
    at: usize,
    side: Side,
    sink: &mut S,
) -> Result<(), Stop>
    requires { CanRead (V.seen view.now) (R.dims regs.old) at side }
    ensures reads { OnlyReads R.RegFile regs.old regs.new }
    ensures later { S.faults sink.old ≤ S.faults sink.new }
    ensures cause { IfErr result (IsStopOf R.RegFile S.Sink regs.old regs.new sink.old sink.new) }
    ensures sent { IfSome (R.contents regs.new) (λ told. IfOk (lines_of_cells side (part_in told (task_in (V.seen view.now) at)))
        (λ lines. Sends (S.sent sink.old) lines result (S.sent sink.new))) }
{
    let source = Source {
        task: at,
        side,
        start: start_of(view, at),
    };
    let rows = view.task(at).rows();
    let mut piece = begin_cells(view, source);
    gather_rows(view, regs, source, rows, sink, &mut piece)?;
    end_block(sink, &mut piece)?;
    Ok(())
}

/// Tells the cells of the live task of the name, or why there are none.
pub(crate) fn tell_cells<V: TaskView, R: RegFile, S: Sink>(
    view: &V,
    regs: &mut R,
    name: &Name,
    side: Side,
    sink: &mut S,
) -> Result<Result<(), Refusal>, Stop>
    requires fit { IsFit (V.seen view.now) }
    requires shaped { IsShaped (V.seen view.now).geometry (R.dims regs.old) }
    ensures replies { Replies (λ told. answer_by name.now (lines_of_cells side) (parts_in told (V.seen view.now)))
        (R.contents regs.new) (S.sent sink.old) result (S.sent sink.new) }
    ensures cause { IfErr result (IsStopOf R.RegFile S.Sink regs.old regs.new sink.old sink.new) }
    ensures later { S.faults sink.old ≤ S.faults sink.new }
    ensures reads { OnlyReads R.RegFile regs.old regs.new }
{
    match judge(view, name, &Ask::Cells(side)) {
        Ok(at) => outcome_of_sent(send_cells(view, regs, at, side, sink)),
        Err(refusal) => Ok(Err(refusal)),
    }
}
