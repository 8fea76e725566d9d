//! The tasks of a switch, as lines.
ghost use Rattle.std.specs.Prelude.{◌≡◌, ◌+◌, ◌<◌, ◌≤◌, ◌++◌, codes, length};
ghost use Rattle.std.specs.Fmt.{decimal};
ghost use Rattle.std.specs.List.{flat_map, enumerate_from};
ghost use Rattle.outside.specs.Faults.{HasCause};
ghost use Rattle.outside.specs.Sent.{Sends};
ghost use Rattle.task_lang.specs.Printing.{task_text};
ghost use Rattle.readout.specs.PlacedTasks.{IsFit, task_in};
ghost use Rattle.readout.specs.Lines.{place_line, task_lines, show_lines};
ghost use Rattle.readout.specs.Outcomes.{Gathers};

use crate::lines::{put_number, put_place};
use crate::pieces::{Piece, end_block, make_room};
use crate::views::TaskView;
use addr_translate::Shape;
use fm_io::{Failed, Sink};
use sketch_defs::Task;
use task_lang::put_task;

/// The line of a task.
fn put_task_line(piece: &mut Piece, task: &Task)
    requires { length piece.old.bytes + 512 ≤ 4096 }
    ensures { piece.new.bytes ≡ piece.old.bytes ++ (codes "task " ++ (task_text task.now ++ codes "\n")) }
{
    piece.push_str("task ");
    piece.push_str(put_task(task).as_str());
    piece.push_str("\n");
}

/// Gathers the lines of a task's rows.
fn gather_places<V: TaskView, S: Sink>(
    view: &V,
    shape: &Shape,
    at: usize,
    sink: &mut S,
    piece: &mut Piece,
) -> Result<(), Failed>
    requires fit { IsFit (V.seen view.now) }
    requires shape { shape.now ≡ (V.seen view.now).geometry }
    requires task { at < length (V.seen view.now).tasks }
    ensures cause { HasCause (S.faults sink.old) (S.faults sink.new) result }
    ensures sent { Gathers (S.sent sink.old) piece.old.bytes
        (flat_map (λ row. place_line (V.seen view.now).geometry row.0 row.1) (enumerate_from 0 (task_in (V.seen view.now) at).places))
        result piece.new.bytes (S.sent sink.new) }
{
    let count = view.task(at).rows();
    'rows: for row in 0..count {
        make_room(sink, piece)?;
        put_place(piece, shape, row, &view.placed(at, row));
    }
    Ok(())
}

/// Gathers the line of a task, and those of its rows.
fn gather_task<V: TaskView, S: Sink>(
    view: &V,
    shape: &Shape,
    at: usize,
    sink: &mut S,
    piece: &mut Piece,
) -> Result<(), Failed>
    requires fit { IsFit (V.seen view.now) }
    requires shape { shape.now ≡ (V.seen view.now).geometry }
    requires task { at < length (V.seen view.now).tasks }
    ensures cause { HasCause (S.faults sink.old) (S.faults sink.new) result }
    ensures sent { Gathers (S.sent sink.old) piece.old.bytes (task_lines (V.seen view.now).geometry (task_in (V.seen view.now) at))
        result piece.new.bytes (S.sent sink.new) }
{
    make_room(sink, piece)?;
    put_task_line(piece, view.task(at));
    gather_places(view, shape, at, sink, piece)
}

/// Gathers the lines of all tasks.
fn gather_tasks<V: TaskView, S: Sink>(
    view: &V,
    sink: &mut S,
    piece: &mut Piece,
) -> Result<(), Failed>
    requires { IsFit (V.seen view.now) }
    ensures cause { HasCause (S.faults sink.old) (S.faults sink.new) result }
    ensures sent { Gathers (S.sent sink.old) piece.old.bytes (flat_map (task_lines (V.seen view.now).geometry) (V.seen view.now).tasks)
        result piece.new.bytes (S.sent sink.new) }
{
    let shape = view.shape();
    'tasks: for at in 0..view.count() {
        gather_task(view, &shape, at, sink, piece)?;
    }
    Ok(())
}

/// The piece that begins with the number of the tasks.
fn begin_show(count: usize) -> Piece
    ensures { result.bytes ≡ codes "tasks " ++ (decimal count ++ codes "\n") }
{
    let mut piece = Piece::new();
    put_number(&mut piece, "tasks ", count);
    piece.push_str("\n");
    piece
}

/// Sends each task, and where its rows stand.
pub(crate) fn send_show<V: TaskView, S: Sink>(view: &V, sink: &mut S) -> Result<(), Failed>
    requires { IsFit (V.seen view.now) }
    ensures cause { HasCause (S.faults sink.old) (S.faults sink.new) result }
    ensures sent { Sends (S.sent sink.old) (show_lines (V.seen view.now)) result (S.sent sink.new) }
{
    let mut piece = begin_show(view.count());
    gather_tasks(view, sink, &mut piece)?;
    end_block(sink, &mut piece)
}
