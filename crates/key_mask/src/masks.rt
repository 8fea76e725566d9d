//! Masks: for each field a prefix of its bits, or nothing of it.
ghost use Rattle.std.specs.Prelude.{◌≡◌, ◌≢◌, ◌↔◌, ◌≤◌, ◌-◌, ◌/◌, ◌^◌, IsTrue, IsSome, IfSome, length, slice_index, slice_set};
ghost use Rattle.key_mask.specs.Bytes.{xor_bytes};
ghost use Rattle.key_mask.specs.Fields.{field_number, is_length};
ghost use Rattle.key_mask.specs.Masks.{mask_bytes_of, prefix_bytes, no_lengths, AreLengths, AreParts, lengths_of};

use crate::fields::{FIELD_COUNT, FIELDS, Field, KEY_BYTES};
use crate::vectors::xor_of;
use std::marker::Model;

/// How many of the first bits of each field are looked at: none, or a prefix of an address, or the
/// whole of another field.
#[derive(Clone, Copy, Debug, PartialEq, Eq)]
pub struct Mask {
    lengths: [u8; FIELD_COUNT],
    bytes: [u8; KEY_BYTES],
}

impl Model for Mask {
    ghost use Rattle.std.specs.Prelude.{◌≡◌, ℕ, List};
    ghost use Rattle.key_mask.specs.Masks.{AreLengths, mask_bytes_of};

    ghost Value = { List ℕ };

    ghost view = { λ m. m.lengths };

    ghost invariant = { λ m. (m.bytes ≡ mask_bytes_of m.lengths) × AreLengths m.lengths };

    ghost inverse = { λ lengths. record { lengths = lengths; bytes = mask_bytes_of lengths } };

    ghost use Rattle.std.proofs.Common.{sym, ap};

    ghost inverse_ok = { λ a h. ap (λ bytes. record { lengths = a.lengths; bytes = bytes }) (sym h.0) };
}

impl Mask {
    /// The mask in which no field stands.
    #[tactic(auto, using(crate::proofs::MaskLemmas::none_allowed))]
    pub fn empty() -> Mask
        ensures { result ≡ no_lengths }
    {
        mask_with([0; FIELD_COUNT])
    }

    /// Whether no field stands in it.
    pub fn is_empty(&self) -> bool
        ensures exact { IsTrue result ↔ (self.now ≡ no_lengths) }
        ensures known { AreLengths self.now }
    {
        self.lengths == [0; FIELD_COUNT]
    }

    /// The prefix lengths of the fields, by their numbers: 0 where a field does not stand in it.
    pub(crate) fn lengths(&self) -> &[u8; FIELD_COUNT]
        ensures same { result.now ≡ self.now }
        ensures known { AreLengths self.now }
    {
        &self.lengths
    }

    /// The prefix length of the field, 0 where it does not stand in the mask.
    pub fn length(&self, field: Field) -> u8
        ensures value { result ≡ slice_index self.now (field_number field) }
        ensures allowed { result ≢ 0 → IsTrue (is_length field result) }
    {
        self.lengths[field.number()]
    }

    /// The mask with this prefix length for the field, and all else as it is.
    #[tactic(auto, using(crate::proofs::MaskLemmas::set_allowed))]
    pub fn with(&self, field: Field, length: u8) -> Mask
        requires { IsTrue (is_length field length) }
        ensures { result ≡ slice_set self.now (field_number field) length }
    {
        let mut lengths = self.lengths;
        lengths[field.number()] = length;
        mask_with(lengths)
    }

    /// The bytes of the vector that the mask leaves, each bit 1.
    pub fn bytes(&self) -> &[u8; KEY_BYTES]
        ensures value { result.now ≡ mask_bytes_of self.now }
        ensures known { AreLengths self.now }
    {
        &self.bytes
    }
}

/// The mask in which these fields stand with these prefix lengths, and no other field.
#[tactic(auto, using(crate::proofs::PartLemmas::repeated, crate::proofs::PartLemmas::disallowed))]
pub fn mask_of(parts: &[(Field, u32)]) -> Option<Mask>
    ensures accepted { IsSome result ↔ AreParts parts.now }
    ensures value { IfSome result (λ mask. mask ≡ lengths_of parts.now) }
{
    let mut mask = Mask::empty();
    'parts: for &(field, length) in parts {
        if mask.length(field) != 0 || !field.allows(length) {
            return None;
        }
        mask = mask.with(field, length as u8);
    }
    Some(mask)
}

/// The bytes of the vector that the mask leaves, each bit 1.
pub fn mask_bytes(mask: &Mask) -> [u8; KEY_BYTES]
    ensures { result ≡ mask_bytes_of mask.now }
{
    mask.bytes
}

/// Whether the bits that are 1 in one of the two masks alone are those of the third.
pub fn xors_to(one: &Mask, two: &Mask, mask: &Mask) -> bool
    ensures { let both = xor_bytes (mask_bytes_of one.now) (mask_bytes_of two.now) in
        IsTrue result ↔ (both ≡ mask_bytes_of mask.now) }
{
    xor_of(one.bytes(), two.bytes()) == *mask.bytes()
}

/// The mask of these prefix lengths of the fields, by their numbers.
fn mask_with(lengths: [u8; FIELD_COUNT]) -> Mask
    requires { AreLengths lengths }
    ensures { result ≡ lengths }
{
    Mask {
        lengths,
        bytes: bytes_from(&lengths),
    }
}

/// The bytes of the fields, one after another.
fn bytes_from(lengths: &[u8; FIELD_COUNT]) -> [u8; KEY_BYTES]
    ensures { result ≡ mask_bytes_of lengths.now }
{
    let mut bytes = [0; KEY_BYTES];
    let mut start = 0;
    'fields: for field in FIELDS {
        let end = start + field.size();
        fill_prefix(&mut bytes[start..end], lengths[field.number()]);
        start = end;
    }
    bytes
}

/// Writes a prefix of this many ones.
fn fill_prefix(bytes: &mut [u8], ones: u8)
    ensures { bytes.new ≡ prefix_bytes ones (length bytes.old) }
{
    let mut left = ones;
    'bytes: for byte in bytes.iter_mut() {
        let here = left.min(8);
        *byte = top_ones(here);
        left -= here;
    }
}

/// A byte with this many ones at its top.
fn top_ones(ones: u8) -> u8
    requires { ones ≤ 8 }
    ensures { result ≡ 256 - 256 / 2 ^ ones }
{
    (256 - (256u16 >> ones)) as u8
}
