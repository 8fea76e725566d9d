//! Which task is read, or why none.
ghost use Rattle.std.specs.Prelude.{◌≡◌, ◌<◌, ℕ, List, length, Err, option_map, IfSome, IfOk, IfErr, is_some};
ghost use Rattle.reg_file.specs.Registers.{Contents};
ghost use Rattle.readout.specs.PlacedTasks.{task_in, task_named, place_in, part_in, parts_in, IsFit};
ghost use Rattle.readout.specs.Answers.{part_named, answer_by, task_answer, refusal_by, Serves, is_mrac, is_hll, answers_keys};

use crate::places::first_place;
use crate::refusals::Refusal;
use crate::requests::Ask;
use crate::views::{Side, TaskView};
use sketch_defs::{Kind, Name};

/// The place of the live task of this name.
#[tactic(auto, using(crate::proofs::PlacedTaskLemmas::part_at, crate::proofs::PlacedTaskLemmas::found_at, crate::proofs::PlacedTaskLemmas::found_below))]
fn find_task<V: TaskView>(view: &V, name: &Name) -> Option<usize>
    ensures found { (told : Contents) → part_named name.now (parts_in told (V.seen view.now))
        ≡ option_map (λ at. part_in told (task_in (V.seen view.now) at)) result }
    ensures named { task_named name.now (V.seen view.now) ≡ option_map (task_in (V.seen view.now)) result }
    ensures below { IfSome result (λ at. at < length (V.seen view.now).tasks) }
{
    view.find(name)
}

/// Whether the task has frozen partitions.
fn is_frozen<V: TaskView>(view: &V, at: usize) -> bool
    requires fit { IsFit (V.seen view.now) }
    requires task { at < length (V.seen view.now).tasks }
    ensures { result ≡ is_some (place_in (V.seen view.now) at 0).frozen }
{
    first_place(view, at).frozen.is_some()
}

/// Whether the cells of the kind reply to a key value.
fn answers_keys(kind: Kind) -> bool
    ensures { result ≡ answers_keys kind }
{
    !matches!(kind, Kind::Mrac | Kind::Hll)
}

fn is_mrac(kind: Kind) -> bool
    ensures { result ≡ is_mrac kind }
{
    matches!(kind, Kind::Mrac)
}

fn is_hll(kind: Kind) -> bool
    ensures { result ≡ is_hll kind }
{
    matches!(kind, Kind::Hll)
}

/// Why the task does not answer what it is asked; none where it answers.
fn refusal_by<V: TaskView>(view: &V, at: usize, ask: &Ask) -> Option<Refusal>
    requires fit { IsFit (V.seen view.now) }
    requires task { at < length (V.seen view.now).tasks }
    ensures { result ≡ refusal_by ask.now (task_in (V.seen view.now) at) }
{
    let task = view.task(at);
    match ask {
        Ask::Cells(Side::Live) => None,
        Ask::Cells(Side::Frozen) if is_frozen(view, at) => None,
        Ask::Cells(Side::Frozen) => Some(Refusal::NoFrozen),
        Ask::Query(_) if !answers_keys(task.kind()) => Some(Refusal::NoAnswer),
        Ask::Query(filter) if filter.mask() != task.key() => Some(Refusal::BadKey),
        Ask::Query(_) => None,
        Ask::Dist if is_mrac(task.kind()) => None,
        Ask::Card if is_hll(task.kind()) => None,
        Ask::Dist | Ask::Card => Some(Refusal::NoAnswer),
    }
}

/// The place of the live task of the name, which answers what it is asked; or the first cause why
/// there is no answer.
pub(crate) fn judge<V: TaskView>(view: &V, name: &Name, ask: &Ask) -> Result<usize, Refusal>
    requires { IsFit (V.seen view.now) }
    ensures serves { IfOk result (Serves name.now ask.now (V.seen view.now)) }
    ensures refused { IfErr result (λ refusal. (hash_key : List ℕ) (told : Contents) →
        answer_by name.now (task_answer hash_key ask.now) (parts_in told (V.seen view.now)) ≡ Err refusal) }
{
    let Some(at) = find_task(view, name) else {
        return Err(Refusal::Unknown);
    };
    match refusal_by(view, at, ask) {
        None => Ok(at),
        Some(refusal) => Err(refusal),
    }
}
