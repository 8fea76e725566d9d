//! Key vectors, and lists of bytes taken bit by bit.
ghost use Rattle.std.specs.Prelude.{◌≡◌, ◌<◌, ◌≤◌, ◌^◌, length};
ghost use Rattle.key_mask.specs.Bytes.{and_bytes, xor_bytes};
ghost use Rattle.key_mask.specs.Fields.{width_of};
ghost use Rattle.key_mask.specs.Masks.{AreLengths, mask_bytes_of};
ghost use Rattle.key_mask.specs.Vectors.{big_endian, value_at, with_value};

use crate::fields::{Field, KEY_BYTES};
use crate::masks::Mask;
use std::marker::Model;

/// The header fields of a packet, or of a key value, in the order of [`crate::Field`]'s
/// variants, each most significant byte first.
#[derive(Clone, Copy, Debug, PartialEq, Eq)]
pub struct KeyVec(pub [u8; KEY_BYTES]);

impl Model for KeyVec {
    ghost use Rattle.std.specs.Prelude.{ℕ, List};

    ghost Value = { List ℕ };

    ghost view = { λ v. v.0 };

    ghost inverse = { λ bytes. record { 0 = bytes } };
}

impl KeyVec {
    /// What the mask leaves of it.
    pub fn masked(&self, mask: &Mask) -> KeyVec
        ensures value { result ≡ and_bytes self.now (mask_bytes_of mask.now) }
        ensures long { length result ≡ KEY_BYTES }
        ensures known { AreLengths mask.now }
    {
        KeyVec(and_of(&self.0, mask.bytes()))
    }

    /// The value that the field has in it.
    pub fn value(&self, field: Field) -> u128
        ensures value { result ≡ value_at self.now field }
        ensures small { result < 2 ^ width_of field }
    {
        let start = field.start();
        number_in(&self.0[start..start + field.size()])
    }

    /// The vector with this value of the field, and all else as it is.
    pub fn with_value(&self, field: Field, value: u128) -> KeyVec
        ensures { result ≡ with_value self.now field value }
    {
        let start = field.start();
        let size = field.size();
        let mut bytes = self.0;
        bytes[start..start + size].copy_from_slice(&value.to_be_bytes()[16 - size..]);
        KeyVec(bytes)
    }
}

/// The bytes as one number, the first the most significant.
fn number_in(bytes: &[u8]) -> u128
    requires { length bytes.now ≤ 16 }
    ensures value { result ≡ big_endian bytes.now }
    ensures small { result < 256 ^ length bytes.now }
{
    let mut number = 0;
    'bytes: for byte in bytes {
        number = number * 256 + u128::from(*byte);
    }
    number
}

/// The bits that are 1 in both.
#[tactic(auto, using(crate::proofs::BytesLemmas::bytewise_all))]
fn and_of(one: &[u8; KEY_BYTES], two: &[u8; KEY_BYTES]) -> [u8; KEY_BYTES]
    ensures { result ≡ and_bytes one.now two.now }
{
    let mut bytes = [0; KEY_BYTES];
    'bytes: for at in 0..KEY_BYTES {
        bytes[at] = one[at] & two[at];
    }
    bytes
}

/// The bits that are 1 in one of them alone.
#[tactic(auto, using(crate::proofs::BytesLemmas::bytewise_all))]
pub fn xor_of(one: &[u8; KEY_BYTES], two: &[u8; KEY_BYTES]) -> [u8; KEY_BYTES]
    ensures { result ≡ xor_bytes one.now two.now }
{
    let mut bytes = [0; KEY_BYTES];
    'bytes: for at in 0..KEY_BYTES {
        bytes[at] = one[at] ^ two[at];
    }
    bytes
}

#[cfg(test)]
mod tests {
    use super::KeyVec;
    use crate::fields::{Field, KEY_BYTES};
    use crate::masks::{mask_of, xors_to};
    use std::test::Fail;

    #[test]
    fn masks_leave_prefixes(rt: HostRuntime) -> Result<(), Fail> {
        let net = mask_of(&[(Field::SrcIp, 9)]).ok_or("a prefix of a source")?;
        let kind = mask_of(&[(Field::Proto, 8)]).ok_or("a protocol")?;
        let both = mask_of(&[(Field::Proto, 8), (Field::SrcIp, 9)]).ok_or("both")?;
        let all = KeyVec([255; KEY_BYTES]);
        let mut left = [0; KEY_BYTES];
        left[0] = 255;
        left[1] = 128;
        left[12] = 255;
        assert_eq!(rt; all.masked(&both), KeyVec(left));
        assert!(rt; xors_to(&net, &kind, &both));
        assert!(rt; mask_of(&[(Field::SrcIp, 9), (Field::SrcIp, 8)]).is_none());
        Ok(())
    }
}
