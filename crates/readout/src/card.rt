//! The estimate of HyperLogLog.
ghost use Rattle.std.specs.Prelude.{◌≡◌, ◌*◌, ◌^◌, ◌<◌, ◌≤◌, length, IfSome, IfErr, IfOk};
ghost use Rattle.outside.specs.Faults.{HasCause};
ghost use Rattle.outside.specs.Sent.{Sends};
ghost use Rattle.reg_file.specs.Reads.{OnlyReads};
ghost use Rattle.sketch_defs.specs.declared.kinds.Kind.TheVariants.{Hll};
ghost use Rattle.sketch_defs.specs.Answers.{zeros_of, z_of};
ghost use Rattle.readout.specs.declared.views.Side.TheVariants.{Live};
ghost use Rattle.readout.specs.PlacedTasks.{CanRead, IsFit, IsShaped, task_in, place_in, part_in, parts_in, live_bits, row_contents};
ghost use Rattle.readout.specs.Answers.{answer_by, line_of_card};
ghost use Rattle.readout.specs.Outcomes.{IsStopOf, Replies};

use crate::judging::judge;
use crate::lines::put_card;
use crate::pieces::{Piece, send_piece};
use crate::places::{bits_of, cell_count, first_place};
use crate::refusals::{Refusal, Stop, outcome_of_sent};
use crate::requests::Ask;
use crate::views::{Side, TaskView};
use fm_io::Sink;
use reg_file::{DeviceFault, RegFile};
use sketch_defs::{Name, Tally, raw_estimate, tally_add};

/// Reads the cells of the task's first row, and answers their tally.
fn tally_of<V: TaskView, R: RegFile>(
    view: &V,
    regs: &mut R,
    at: usize,
    size: u32,
) -> Result<Tally, DeviceFault>
    requires readable { CanRead (V.seen view.now) (R.dims regs.old) at Live }
    requires row { 0 < length (task_in (V.seen view.now) at).places }
    requires size { size ≡ 2 ^ live_bits (task_in (V.seen view.now) at) }
    ensures reads { OnlyReads R.RegFile regs.old regs.new }
    ensures cause { HasCause (R.faults regs.old) (R.faults regs.new) result }
    ensures low { IfOk result (λ tally. size ≤ tally.z) }
    ensures high { IfOk result (λ tally. tally.z ≤ size * 2 ^ 33) }
    ensures zeros { IfOk result (λ tally. IfSome (R.contents regs.new) (λ told.
        tally.zeros ≡ zeros_of (row_contents told Live (place_in (V.seen view.now) at 0)))) }
    ensures z { IfOk result (λ tally. IfSome (R.contents regs.new) (λ told.
        tally.z ≡ z_of (row_contents told Live (place_in (V.seen view.now) at 0)))) }
{
    let mut tally = Tally { zeros: 0, z: 0 };
    'cells: for index in 0..size {
        let cell = view.cell(regs, at, Side::Live, 0, index)?;
        tally = tally_add(tally, cell);
    }
    Ok(tally)
}

/// Sends the estimate of a task, with what it rests on.
#[tactic(auto, using(crate::proofs::PlacedTaskLemmas::ranks_bits))]
fn send_card<V: TaskView, R: RegFile, S: Sink>(
    view: &V,
    regs: &mut R,
    at: usize,
    sink: &mut S,
) -> Result<(), Stop>
    requires readable { CanRead (V.seen view.now) (R.dims regs.old) at Live }
    requires kind { (task_in (V.seen view.now) at).task.kind ≡ Hll }
    ensures reads { OnlyReads R.RegFile regs.old regs.new }
    ensures later { S.faults sink.old ≤ S.faults sink.new }
    ensures cause { IfErr result (IsStopOf R.RegFile S.Sink regs.old regs.new sink.old sink.new) }
    ensures sent { IfSome (R.contents regs.new) (λ told. IfOk (line_of_card (part_in told (task_in (V.seen view.now) at)))
        (λ line. Sends (S.sent sink.old) line result (S.sent sink.new))) }
{
    let part = first_place(view, at).region;
    let tally = tally_of(view, regs, at, cell_count(part))?;
    let raw = raw_estimate(bits_of(part), tally.z);
    let mut piece = Piece::new();
    put_card(&mut piece, view.task(at).name(), tally.zeros, tally.z, raw);
    send_piece(sink, &piece)?;
    Ok(())
}

/// Tells the estimate of the live task of the name, or why there is none.
pub(crate) fn tell_card<V: TaskView, R: RegFile, S: Sink>(
    view: &V,
    regs: &mut R,
    name: &Name,
    sink: &mut S,
) -> Result<Result<(), Refusal>, Stop>
    requires fit { IsFit (V.seen view.now) }
    requires shaped { IsShaped (V.seen view.now).geometry (R.dims regs.old) }
    ensures replies { Replies (λ told. answer_by name.now line_of_card (parts_in told (V.seen view.now)))
        (R.contents regs.new) (S.sent sink.old) result (S.sent sink.new) }
    ensures cause { IfErr result (IsStopOf R.RegFile S.Sink regs.old regs.new sink.old sink.new) }
    ensures later { S.faults sink.old ≤ S.faults sink.new }
    ensures reads { OnlyReads R.RegFile regs.old regs.new }
{
    match judge(view, name, &Ask::Card) {
        Ok(at) => outcome_of_sent(send_card(view, regs, at, sink)),
        Err(refusal) => Ok(Err(refusal)),
    }
}
