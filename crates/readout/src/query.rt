//! What a task answers for a key value.
ghost use Rattle.std.specs.Prelude.{◌≡◌, ◌<◌, ◌≤◌, length, slice_index, true, IfSome, IfErr, IfOk};
ghost use Rattle.std.specs.Str.{bytes_eq};
ghost use Rattle.outside.specs.Faults.{HasCause};
ghost use Rattle.outside.specs.Sent.{Sends};
ghost use Rattle.addr_translate.specs.Blocks.{index_of};
ghost use Rattle.hash_units.specs.Toeplitz.{row_hash_of};
ghost use Rattle.reg_file.specs.Reads.{OnlyReads};
ghost use Rattle.sketch_defs.specs.Answers.{cells_found};
ghost use Rattle.readout.specs.declared.views.Side.TheVariants.{Live};
ghost use Rattle.readout.specs.PlacedTasks.{CanRead, task_in, place_in, live_bits, row_contents, rows_contents, part_in, parts_in, IsFit, IsShaped};
ghost use Rattle.readout.specs.Answers.{answer_by, answers_keys, line_of_query};
ghost use Rattle.readout.specs.Outcomes.{IsStopOf, Replies};

use crate::judging::judge;
use crate::lines::put_query;
use crate::pieces::{Piece, send_piece};
use crate::places::bits_of;
use crate::refusals::{Refusal, Stop, outcome_of_sent};
use crate::requests::Ask;
use crate::views::{Side, TaskView};
use addr_translate::index;
use arrayvec::ArrayVec;
use fm_io::Sink;
use hash_units::{HashKey, hash, row_hash};
use reg_file::{DeviceFault, RegFile};
use sketch_defs::{Name, answer};
use task_filters::Filter;

/// The most rows of a task.
const MOST_ROWS: usize = 4;

/// The cells of a key, one a row.
type Found = ArrayVec<u32, MOST_ROWS>;

/// Reads the cell of a row at a hash.
fn found_cell<V: TaskView, R: RegFile>(
    view: &V,
    regs: &mut R,
    task: usize,
    row: u32,
    h: u32,
) -> Result<u32, DeviceFault>
    requires readable { CanRead (V.seen view.now) (R.dims regs.old) task Live }
    requires row { row < length (task_in (V.seen view.now) task).places }
    requires few { row < 4 }
    ensures reads { OnlyReads R.RegFile regs.old regs.new }
    ensures cause { HasCause (R.faults regs.old) (R.faults regs.new) result }
    ensures value { IfOk result (λ value. IfSome (R.contents regs.new) (λ told.
        value ≡ slice_index (row_contents told Live (place_in (V.seen view.now) task row)) (index_of (row_hash_of h row) (live_bits (task_in (V.seen view.now) task))))) }
{
    let bits = bits_of(view.placed(task, row).region);
    view.cell(regs, task, Side::Live, row, index(row_hash(h, row), bits))
}

/// Reads the cell of each row at a key's hash.
fn found_cells<V: TaskView, R: RegFile>(
    view: &V,
    regs: &mut R,
    task: usize,
    rows: u32,
    h: u32,
) -> Result<Found, DeviceFault>
    requires readable { CanRead (V.seen view.now) (R.dims regs.old) task Live }
    requires rows { rows ≡ length (task_in (V.seen view.now) task).places }
    requires few { rows ≤ 4 }
    ensures reads { OnlyReads R.RegFile regs.old regs.new }
    ensures cause { HasCause (R.faults regs.old) (R.faults regs.new) result }
    ensures count { IfOk result (λ found. length found.items ≡ rows) }
    ensures found { IfOk result (λ found. IfSome (R.contents regs.new) (λ told.
        found.items ≡ cells_found h (live_bits (task_in (V.seen view.now) task)) (rows_contents told Live (task_in (V.seen view.now) task)))) }
{
    let mut found = Found::new();
    'rows: for row in 0..rows {
        found.push(found_cell(view, regs, task, row, h)?);
    }
    Ok(found)
}

/// Sends what the task answers for the key value.
#[tactic(auto, using(crate::proofs::PlacedTaskLemmas::rows_placed))]
fn send_query<V: TaskView, R: RegFile, S: Sink>(
    view: &V,
    regs: &mut R,
    hash_key: &HashKey,
    at: usize,
    filter: &Filter,
    sink: &mut S,
) -> Result<(), Stop>
    requires readable { CanRead (V.seen view.now) (R.dims regs.old) at Live }
    requires answers { answers_keys (task_in (V.seen view.now) at).task.kind ≡ true }
    requires keyed { bytes_eq filter.now.mask (task_in (V.seen view.now) at).task.key ≡ true }
    ensures reads { OnlyReads R.RegFile regs.old regs.new }
    ensures later { S.faults sink.old ≤ S.faults sink.new }
    ensures cause { IfErr result (IsStopOf R.RegFile S.Sink regs.old regs.new sink.old sink.new) }
    ensures sent { IfSome (R.contents regs.new) (λ told. IfOk (line_of_query hash_key.now filter.now (part_in told (task_in (V.seen view.now) at)))
        (λ line. Sends (S.sent sink.old) line result (S.sent sink.new))) }
{
    let task = view.task(at);
    let h = hash(hash_key, filter.value(), task.key());
    let found = found_cells(view, regs, at, task.rows(), h)?;
    let reply = answer(task.kind(), found.as_slice(), h);
    let mut piece = Piece::new();
    put_query(&mut piece, task.name(), reply);
    send_piece(sink, &piece)?;
    Ok(())
}

/// Tells what the live task of the name answers for the key value, or why it does not.
pub(crate) fn tell_query<V: TaskView, R: RegFile, S: Sink>(
    view: &V,
    regs: &mut R,
    hash_key: &HashKey,
    name: &Name,
    filter: &Filter,
    sink: &mut S,
) -> Result<Result<(), Refusal>, Stop>
    requires fit { IsFit (V.seen view.now) }
    requires shaped { IsShaped (V.seen view.now).geometry (R.dims regs.old) }
    ensures replies { Replies (λ told. answer_by name.now (line_of_query hash_key.now filter.now) (parts_in told (V.seen view.now)))
        (R.contents regs.new) (S.sent sink.old) result (S.sent sink.new) }
    ensures cause { IfErr result (IsStopOf R.RegFile S.Sink regs.old regs.new sink.old sink.new) }
    ensures later { S.faults sink.old ≤ S.faults sink.new }
    ensures reads { OnlyReads R.RegFile regs.old regs.new }
{
    match judge(view, name, &Ask::Query(*filter)) {
        Ok(at) => outcome_of_sent(send_query(view, regs, hash_key, at, filter, sink)),
        Err(refusal) => Ok(Err(refusal)),
    }
}
