//! The search for the entry that a vector matches.
ghost use Rattle.std.specs.Prelude.{◌≡◌, ◌≤◌, ◌<◌, ◌-◌, [], length, take, drop, map, slice_index_or};
ghost use Rattle.std.specs.List.{filter, find};
ghost use Rattle.std.specs.Option.{option_copied};
ghost use Rattle.lists.specs.Sorting.{Rising};
ghost use Rattle.match_table.specs.Runs.{ends_from, lasts, start_of};
ghost use Rattle.match_table.specs.Tables.{takes, has_mask, has_value, value_order, mask_of, comes_first, same_mask, IsGroup};

use crate::entries::Entry;
use key_mask::KeyVec;
use std::cmp::Ordering;

/// From this many entries on the entries of a mask are looked through by halving: comparing values
/// whole costs several times what the test of one filter does.
const HALVED_FROM: usize = 64;

/// The entries of the mask at this place.
pub(crate) fn group_in<'a>(ranked: &'a [Entry], ends: &[usize], at: usize) -> &'a [Entry]
    requires rising { Rising comes_first ranked.now }
    requires ends { ends.now ≡ ends_from same_mask 0 ranked.now }
    requires within { at < length ends.now }
    ensures { result.now ≡ filter (has_mask (slice_index_or (map mask_of (lasts same_mask ranked.now)) at [])) ranked.now }
{
    part_of(ranked, start_in(ends, at), ends[at])
}

/// Where the entries of the mask at this place start.
fn start_in(ends: &[usize], at: usize) -> usize
    requires { at < length ends.now }
    ensures { result ≡ start_of 0 ends.now at }
{
    if at == 0 { 0 } else { ends[at - 1] }
}

/// The entries from one place to another.
fn part_of(entries: &[Entry], from: usize, to: usize) -> &[Entry]
    requires order { from ≤ to }
    requires within { to ≤ length entries.now }
    ensures { result.now ≡ take (to - from) (drop from entries.now) }
{
    &entries[from..to]
}

/// The first entry that matches.
pub(crate) fn scan<'a>(entries: &'a [Entry], vec: &KeyVec) -> Option<&'a Entry>
    ensures { option_copied result ≡ find (takes vec.now) entries.now }
{
    entries.iter().find(|entry| entry.filter.matches(vec))
}

/// The first entry in order of mask and value that matches.
pub(crate) fn find_in<'a>(ranked: &'a [Entry], ends: &[usize], vec: &KeyVec) -> Option<&'a Entry>
    requires rising { Rising comes_first ranked.now }
    requires ends { ends.now ≡ ends_from same_mask 0 ranked.now }
    ensures { option_copied result ≡ find (takes vec.now) ranked.now }
{
    let mut from = 0;
    'groups: for end in ends {
        let found = find_in_group(part_of(ranked, from, *end), vec);
        if found.is_some() {
            return found;
        }
        from = *end;
    }
    None
}

/// The entry of one mask that matches.
fn find_in_group<'a>(group: &'a [Entry], vec: &KeyVec) -> Option<&'a Entry>
    requires some { 0 < length group.now }
    requires group { IsGroup group.now }
    ensures { option_copied result ≡ find (takes vec.now) group.now }
{
    if group.len() < HALVED_FROM {
        return scan(group, vec);
    }
    let value = vec.masked(group[0].filter.mask());
    find_value(group, &value)
}

/// The entry of one mask that has this value.
fn find_value<'a>(group: &'a [Entry], value: &KeyVec) -> Option<&'a Entry>
    requires { IsGroup group.now }
    ensures { option_copied result ≡ find (has_value value.now) group.now }
{
    match group.binary_search_by(|entry| value_order(entry, value)) {
        Ok(at) => Some(&group[at]),
        Err(_) => None,
    }
}

/// How the entry's value stands to this one.
fn value_order(entry: &Entry, value: &KeyVec) -> Ordering
    ensures { result ≡ value_order value.now entry.now }
{
    let own = entry.filter.value();
    own.0.cmp(&value.0)
}
