//! The entries of a table in order of mask and value.
ghost use Rattle.std.specs.Prelude.{◌≡◌, ◌≤◌, ◌<◌, ◌+◌, ◌++◌, ◌∷◌, [], IsTrue, Some, length, drop, slice_index_or, vec_len, vec_capacity};
ghost use Rattle.std.specs.List.{find, list_any, position, position_or_len};
ghost use Rattle.lists.specs.Sorting.{put_by, cut_by};
ghost use Rattle.match_table.specs.Runs.{goes_on, ends_from};
ghost use Rattle.match_table.specs.Tables.{has_base, comes_first, same_mask};

use crate::entries::Entry;
use key_mask::mask_bytes;
use std::cmp::Ordering;

/// Whether the entry has the lesser mask, or the same mask and the lesser value.
#[tactic(auto, unfolding(crate::specs::Tables::comes_first))]
fn comes_first(one: &Entry, two: &Entry) -> bool
    ensures { result ≡ comes_first one.now two.now }
{
    let one_value = one.filter.value();
    let two_value = two.filter.value();
    match mask_bytes(one.filter.mask()).cmp(&mask_bytes(two.filter.mask())) {
        Ordering::Less => true,
        Ordering::Equal => one_value.0.cmp(&two_value.0).is_lt(),
        Ordering::Greater => false,
    }
}

/// Appends an item, for which there is room.
pub(crate) fn put_last<T: Drop>(items: &mut Vec<T>, item: T)
    requires { vec_len items.old < vec_capacity items.old }
    ensures items { items.new.items ≡ items.old.items ++ item ∷ [] }
    ensures len { vec_len items.new ≡ vec_len items.old + 1 }
    ensures capacity { vec_capacity items.old ≤ vec_capacity items.new }
{
    if items.push(item).is_err() {
        unreachable!()
    }
}

/// Inserts an entry, for which there is room, in order of mask and value.
#[tactic(auto, using(lists::proofs::PlaceLemmas::put_at, lists::proofs::PlaceLemmas::position_within))]
pub(crate) fn put_in_rank(ranked: &mut Vec<Entry>, entry: &Entry)
    requires { vec_len ranked.old < vec_capacity ranked.old }
    ensures items { ranked.new.items ≡ put_by comes_first entry.now ranked.old.items }
    ensures len { vec_len ranked.new ≡ vec_len ranked.old + 1 }
    ensures capacity { vec_capacity ranked.old ≤ vec_capacity ranked.new }
{
    let at = place_in(ranked, entry);
    if ranked.insert(at, *entry).is_err() {
        unreachable!()
    }
}

/// The place of the first entry that stands behind this one.
#[tactic(auto, using(lists::proofs::PlaceLemmas::position_none, lists::proofs::PlaceLemmas::position_some))]
fn place_in(ranked: &[Entry], entry: &Entry) -> usize
    ensures { result ≡ position_or_len (comes_first entry.now) ranked.now }
{
    match first_behind(ranked, entry) {
        Some(at) => at,
        None => ranked.len(),
    }
}

fn first_behind(ranked: &[Entry], entry: &Entry) -> Option<usize>
    ensures { result ≡ position (comes_first entry.now) ranked.now }
{
    ranked.iter().position(|other| comes_first(entry, other))
}

/// Takes out the entry with this base.
#[tactic(auto, using(lists::proofs::PlaceLemmas::cut_at, lists::proofs::PlaceLemmas::found_at))]
pub(crate) fn take_out(entries: &mut Vec<Entry>, base: u32) -> Entry
    requires { IsTrue (list_any (has_base base) entries.old.items) }
    ensures found { find (has_base base) entries.old.items ≡ Some result }
    ensures items { entries.new.items ≡ cut_by (has_base base) entries.old.items }
    ensures len { vec_len entries.new + 1 ≡ vec_len entries.old }
    ensures capacity { vec_capacity entries.new ≡ vec_capacity entries.old }
{
    let at = place_of(entries, base);
    entries.remove(at)
}

/// The place of the entry with this base.
#[tactic(auto, using(lists::proofs::PlaceLemmas::position_none, lists::proofs::PlaceLemmas::position_some, lists::proofs::PlaceLemmas::any_within))]
fn place_of(entries: &[Entry], base: u32) -> usize
    requires { IsTrue (list_any (has_base base) entries.now) }
    ensures place { result ≡ position_or_len (has_base base) entries.now }
    ensures within { result < length entries.now }
{
    match first_with(entries, base) {
        Some(at) => at,
        None => unreachable!(),
    }
}

fn first_with(entries: &[Entry], base: u32) -> Option<usize>
    ensures { result ≡ position (has_base base) entries.now }
{
    entries.iter().position(|entry| entry.region.base == base)
}

/// Writes down where the entries of each mask end.
pub(crate) fn mark_ends(ranked: &[Entry], ends: &mut Vec<usize>)
    requires { length ranked.now ≤ vec_capacity ends.old }
    ensures items { ends.new.items ≡ ends_from same_mask 0 ranked.now }
    ensures capacity { vec_capacity ends.old ≤ vec_capacity ends.new }
{
    ends.clear();
    'entries: for at in 0..ranked.len() {
        if goes_on(ranked, at) {
            continue;
        }
        put_last(ends, at + 1);
    }
}

/// Whether the next entry has the same mask.
fn goes_on(ranked: &[Entry], at: usize) -> bool
    requires { at < length ranked.now }
    ensures { (d : Entry) → result ≡ goes_on same_mask (slice_index_or ranked.now at d) (drop (at + 1) ranked.now) }
{
    at + 1 < ranked.len()
        && mask_bytes(ranked[at].filter.mask()) == mask_bytes(ranked[at + 1].filter.mask())
}

/// The entries in place of those that stand there, for which there is room.
pub(crate) fn copy_over(entries: &mut Vec<Entry>, others: &[Entry])
    requires { length others.now ≤ vec_capacity entries.old }
    ensures items { entries.new.items ≡ others.now }
    ensures capacity { vec_capacity entries.old ≤ vec_capacity entries.new }
{
    entries.clear();
    if entries.extend_from_slice(others).is_err() {
        unreachable!()
    }
}
