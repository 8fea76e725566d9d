//! Which units of a group give the key of a mask.
ghost use Rattle.std.specs.Prelude.{◌≡◌, ◌+◌, ◌-◌, ◌<◌, ◌≤◌, IfSome, length, position};
ghost use Rattle.std.specs.List.{find, range_with_len};
ghost use Rattle.group_keys.specs.declared.uses.KeyUse.TheVariants.{Single};
ghost use Rattle.group_keys.specs.Units.{unit_at, has_mask, is_free, xor_to, pair_for, keys_for};

use crate::units::{Unit, is_pair_for, is_unused, is_with};
use crate::uses::KeyUse;
use key_mask::Mask;

/// The units among these that give the key of this mask.
#[tactic(auto, unfolding(crate::specs::Units::keys_for))]
pub(crate) fn keys_among(units: &[Option<Unit>], mask: &Mask) -> Option<KeyUse>
    requires { length units.now ≤ 4 }
    ensures { result ≡ keys_for units.now mask.now }
{
    if let Some(unit) = unit_with(units, mask) {
        return Some(single(unit));
    }
    if let Some(pair) = first_pair(units, mask) {
        return Some(pair);
    }
    if let Some(unit) = first_free(units) {
        return Some(single(unit));
    }
    None
}

/// The unit of this number, alone.
fn single(unit: usize) -> KeyUse
    requires { unit < 4 }
    ensures { result ≡ Single unit }
{
    KeyUse::Single { unit: unit as u32 }
}

/// The number of the unit in use with this mask.
fn unit_with(units: &[Option<Unit>], mask: &Mask) -> Option<usize>
    ensures least { result ≡ position (has_mask mask.now) units.now }
    ensures exists { IfSome result (λ unit. unit < length units.now) }
{
    units.iter().position(|unit| is_with(unit, mask))
}

/// The number of the least free unit.
fn first_free(units: &[Option<Unit>]) -> Option<usize>
    ensures least { result ≡ position is_free units.now }
    ensures exists { IfSome result (λ unit. unit < length units.now) }
{
    units.iter().position(|unit| is_unused(unit))
}

/// The least pair of units in use whose masks XOR to this one.
fn first_pair(units: &[Option<Unit>], mask: &Mask) -> Option<KeyUse>
    requires { length units.now ≤ 4 }
    ensures { result ≡ pair_for units.now mask.now }
{
    'firsts: for one in 0..units.len() {
        if let Some(two) = partner_of(units, one, mask) {
            return Some(KeyUse::Pair {
                one: one as u32,
                two: two as u32,
            });
        }
    }
    None
}

/// The number of the least unit behind this one whose mask and its XOR to this mask.
fn partner_of(units: &[Option<Unit>], one: usize, mask: &Mask) -> Option<usize>
    requires { one < length units.now }
    ensures least { result ≡ find (λ two. xor_to mask.now (unit_at units.now one) (unit_at units.now two))
        (range_with_len (one + 1) (length units.now - (one + 1))) }
    ensures exists { IfSome result (λ two. two < length units.now) }
{
    'seconds: for two in one + 1..units.len() {
        if is_pair_for(&units[one], &units[two], mask) {
            return Some(two);
        }
    }
    None
}
