//! Bytes of key vectors, eight at a time.
ghost use Rattle.std.specs.Prelude.{◌≡◌, ℕ, ◌+◌, ◌<◌, ◌≤◌, slice_index};
ghost use Rattle.std.specs.Int.{byte_at};
ghost use Rattle.key_mask.specs.Bytes.{and_bytes};

use crate::fields::KEY_BYTES;

/// Eight bytes from `at` on as one number, the first the lowest.
pub fn eight_at(bytes: &[u8; KEY_BYTES], at: usize) -> u64
    requires { at + 8 ≤ KEY_BYTES }
    ensures { (k : ℕ) → k < 8 → byte_at k result ≡ slice_index bytes.now (at + k) }
{
    u64::from_le_bytes([
        bytes[at],
        bytes[at + 1],
        bytes[at + 2],
        bytes[at + 3],
        bytes[at + 4],
        bytes[at + 5],
        bytes[at + 6],
        bytes[at + 7],
    ])
}

/// What the mask leaves of eight bytes.
pub fn eight_left(bytes: &[u8; KEY_BYTES], mask: &[u8; KEY_BYTES], at: usize) -> [u8; 8]
    requires { at + 8 ≤ KEY_BYTES }
    ensures { (k : ℕ) → k < 8 → slice_index result k ≡ slice_index (and_bytes bytes.now mask.now) (at + k) }
{
    (eight_at(bytes, at) & eight_at(mask, at)).to_le_bytes()
}
