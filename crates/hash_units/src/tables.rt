//! The hash by tables: each byte of a vector is looked up.
ghost use Rattle.std.specs.Prelude.{◌≡◌, ◌+◌, ◌<◌, ◌≤◌, length, IfOk};
ghost use Rattle.key_mask.specs.Bytes.{and_bytes};
ghost use Rattle.key_mask.specs.Masks.{mask_bytes_of};
ghost use Rattle.hash_units.specs.Toeplitz.{hash_of, hash_of_first};
ghost use Rattle.hash_units.specs.Tables.{AreTables, byte_table, with_words};

use crate::OutOfMemory;
use crate::keys::{HASH_KEY_BYTES, HashKey};
use crate::toeplitz::word;
use key_mask::{KEY_BYTES, KeyVec, Mask, eight_at, eight_left};
use std::alloc::Global;
use std::marker::Model;

/// How many values a byte may have.
const VALUES: usize = 256;

/// For each of N bytes a table: what the byte adds to the hash under a key, by its value.
#[derive(Drop)]
pub struct ByteTables<const N: usize> {
    hash_key: HashKey,
    words: Vec<u32>,
}

impl<const N: usize> Model for ByteTables<N> {
    ghost use Rattle.std.specs.Prelude.{ℕ, List};
    ghost use Rattle.hash_units.specs.Tables.{AreTables};

    ghost Value = { List ℕ };

    ghost view = { λ t. t.hash_key };

    ghost invariant = { λ t. AreTables N t.hash_key t.words.items };
}

impl<const N: usize> ByteTables<N> {
    /// The tables of a key.
    pub fn new(alloc: Global, hash_key: &HashKey) -> Result<ByteTables<N>, OutOfMemory>
        requires some { 1 ≤ N }
        requires few { N ≤ 48 }
        ensures { IfOk result (λ tables. tables ≡ hash_key.now) }
    {
        Ok(ByteTables {
            hash_key: *hash_key,
            words: words_of(alloc, &hash_key.0, N)?,
        })
    }

    /// The Toeplitz hash of the bytes.
    pub fn hash_bytes(&self, bytes: &[u8; N]) -> u32
        ensures { result ≡ hash_of self.now bytes.now }
    {
        self.with_bytes(0, 0, bytes)
    }

    /// The 256 words of one byte.
    pub fn words(&self, table: usize) -> &[u32]
        requires { table < N }
        ensures { result.now ≡ byte_table self.now table }
    {
        &self.words[VALUES * table..VALUES * table + VALUES]
    }

    /// A hash, and the words of more bytes, the first of which is byte `at`.
    fn with_bytes(&self, start: u32, at: usize, bytes: &[u8]) -> u32
        requires { at + length bytes.now ≤ N }
        ensures { result ≡ with_words self.now start at bytes.now }
    {
        let words = &self.words;
        let mut h = start;
        macro_rules! look_up {
            ($place:expr, $byte:expr) => {
                h ^= words[VALUES * $place + usize::from($byte)];
            };
        }
        'bytes: for (k, byte) in bytes.iter().enumerate() {
            look_up!(at + k, *byte);
        }
        h
    }
}

impl ByteTables<KEY_BYTES> {
    /// The Toeplitz hash of what the mask leaves of the vector.
    pub fn hash(&self, vec: &KeyVec, mask: &Mask) -> u32
        ensures { result ≡ hash_of self.now (and_bytes vec.now (mask_bytes_of mask.now)) }
    {
        self.hash_left(&vec.0, mask.bytes())
    }

    fn hash_left(&self, bytes: &[u8; KEY_BYTES], mask: &[u8; KEY_BYTES]) -> u32
        ensures { result ≡ hash_of self.now (and_bytes bytes.now mask.now) }
    {
        let mut h = 0;
        'eights: for eight in 0..KEY_BYTES / 8 {
            h = self.with_eight(h, 8 * eight, bytes, mask);
        }
        h
    }

    /// The hash of the bytes before `at`, with eight bytes more.
    fn with_eight(
        &self,
        start: u32,
        at: usize,
        bytes: &[u8; KEY_BYTES],
        mask: &[u8; KEY_BYTES],
    ) -> u32
        requires room { at + 8 ≤ KEY_BYTES }
        requires start { start ≡ hash_of_first self.now (and_bytes bytes.now mask.now) at }
        ensures { result ≡ hash_of_first self.now (and_bytes bytes.now mask.now) (at + 8) }
    {
        let part = eight_at(mask, at);
        // a mask leaves many bytes 0
        if part == 0 {
            return start;
        }
        self.with_bytes(start, at, &eight_left(bytes, mask, at))
    }
}

/// The words of the first `count` bytes.
fn words_of(
    alloc: Global,
    hash_key: &[u8; HASH_KEY_BYTES],
    count: usize,
) -> Result<Vec<u32>, OutOfMemory>
    requires some { 1 ≤ count }
    requires few { count ≤ 48 }
    ensures { IfOk result (λ words. AreTables count hash_key.now words.items) }
{
    let mut words = vec![in alloc; 0; VALUES * count]?;
    'places: for place in 0..VALUES * count {
        words[place] = word(hash_key, place / VALUES, (place % VALUES) as u8);
    }
    Ok(words)
}
