//! One hash unit: free, or in use with a mask.
ghost use Rattle.std.specs.Prelude.{◌≡◌, ◌↔◌, ◌+◌, ◌<◌, IsTrue, Some};
ghost use Rattle.group_keys.specs.Units.{has_mask, is_free, HasRoom, masks_xor_to, xor_to, served, freed};

use key_mask::{Mask, xors_to};
use std::marker::Model;

/// The most uses of a unit.
pub const MOST_USES: u32 = 10_000;

/// A unit in use.
#[derive(Clone, Copy, Debug, PartialEq, Eq)]
pub(crate) struct Unit {
    mask: Mask,
    uses: u32,
}

impl Model for Unit {
    ghost use Rattle.group_keys.specs.Units.{UsedUnit};

    ghost Value = { UsedUnit };

    ghost view = { λ u. record { mask = u.mask; uses = u.uses } };

    ghost inverse = { λ used. record { mask = used.mask; uses = used.uses } };
}

impl Unit {
    /// The mask of the unit.
    pub(crate) fn mask(&self) -> Mask
        ensures { result ≡ self.now.mask }
    {
        self.mask
    }

    /// The mask of the unit, lent.
    pub(crate) fn lent_mask(&self) -> &Mask
        ensures { result.now ≡ self.now.mask }
    {
        &self.mask
    }
}

/// Whether the unit is in use with this mask.
pub(crate) fn is_with(unit: &Option<Unit>, mask: &Mask) -> bool
    ensures { result ≡ has_mask mask.now unit.now }
{
    match unit {
        Some(unit) => unit.mask() == *mask,
        None => false,
    }
}

/// Whether the unit is free.
pub(crate) fn is_unused(unit: &Option<Unit>) -> bool
    ensures { result ≡ is_free unit.now }
{
    unit.is_none()
}

/// Whether the two units are in use with masks that XOR to this one.
pub(crate) fn is_pair_for(one: &Option<Unit>, two: &Option<Unit>, mask: &Mask) -> bool
    ensures { result ≡ xor_to mask.now one.now two.now }
{
    match one {
        Some(one) => match two {
            Some(two) => masks_xor_to(one, two, mask),
            None => false,
        },
        None => false,
    }
}

/// Whether the masks of the two units XOR to this one.
#[tactic(auto, using(crate::proofs::PairLemmas::tested))]
fn masks_xor_to(one: &Unit, two: &Unit, mask: &Mask) -> bool
    ensures { result ≡ masks_xor_to mask.now one.now.mask two.now.mask }
{
    xors_to(&one.mask(), &two.mask(), mask)
}

/// Whether the unit can have one use more.
pub(crate) fn has_room(unit: &Option<Unit>) -> bool
    ensures { IsTrue result ↔ HasRoom unit.now }
{
    match unit {
        Some(unit) => unit.uses < MOST_USES,
        None => true,
    }
}

/// The unit with one use more: a free one takes the mask.
pub(crate) fn with_use(unit: Option<Unit>, mask: &Mask) -> Option<Unit>
    requires { HasRoom unit }
    ensures { result ≡ served mask.now unit }
{
    match unit {
        Some(unit) => Some(one_more(unit)),
        None => Some(Unit {
            mask: *mask,
            uses: 1,
        }),
    }
}

/// The unit with one use less: without uses it is free.
pub(crate) fn without_use(unit: Option<Unit>) -> Option<Unit>
    ensures { result ≡ freed unit }
{
    match unit {
        Some(unit) => one_less(unit),
        None => None,
    }
}

/// The unit in use with one use more.
fn one_more(unit: Unit) -> Unit
    requires { unit.uses < 10000 }
    ensures mask { result.mask ≡ unit.mask }
    ensures uses { result.uses ≡ unit.uses + 1 }
{
    Unit {
        mask: unit.mask,
        uses: unit.uses + 1,
    }
}

/// The unit in use with one use less.
fn one_less(unit: Unit) -> Option<Unit>
    ensures { result ≡ freed (Some unit) }
{
    if unit.uses <= 1 {
        return None;
    }
    Some(Unit {
        mask: unit.mask,
        uses: unit.uses - 1,
    })
}
