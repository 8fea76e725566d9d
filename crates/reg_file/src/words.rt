//! Registers as words of one slice, one array after the other.
ghost use Rattle.std.specs.Prelude.{◌≡◌, ◌≢◌, ℕ, ◌+◌, ◌*◌, ◌^◌, ◌<◌, ◌≤◌, length};
ghost use Rattle.reg_file.specs.Registers.{MakesCall};
ghost use Rattle.reg_file.specs.Words.{flat};

use stateful_ops::{Op, apply};

/// Where the word of a register stands.
pub(crate) fn place_of(bits: u32, array: u32, addr: u32) -> usize
    requires bits { bits < 64 }
    requires fits { array * 2 ^ bits + addr < 2 ^ 64 }
    ensures { result ≡ array * 2 ^ bits + addr }
{
    ((array as usize) << bits) + addr as usize
}

pub(crate) fn word_at(words: &[u32], bits: u32, array: u32, addr: u32) -> u32
    requires bits { bits < 64 }
    requires addr { addr < 2 ^ bits }
    requires place { array * 2 ^ bits + addr < length words.now }
    ensures { result ≡ flat bits words.now array addr }
{
    words[place_of(bits, array, addr)]
}

/// Makes the operation on the register, and answers its carry.
pub(crate) fn change_word(words: &mut [u32], bits: u32, array: u32, addr: u32, op: Op) -> u32
    requires bits { bits < 64 }
    requires addr { addr < 2 ^ bits }
    requires place { array * 2 ^ bits + addr < length words.old }
    ensures { MakesCall array addr op result (flat bits words.old) (flat bits words.new) }
{
    let place = place_of(bits, array, addr);
    let done = apply(op, words[place]);
    words[place] = done.reg;
    done.carry
}

/// Puts `value` into the `len` registers from `base`.
pub(crate) fn fill_words(words: &mut [u32], bits: u32, array: u32, base: u32, len: u32, value: u32)
    requires bits { bits < 64 }
    requires range { base + len ≤ 2 ^ bits }
    requires place { array * 2 ^ bits + base + len ≤ length words.old }
    ensures here { (i : ℕ) → base ≤ i → i < base + len → flat bits words.new array i ≡ value }
    ensures arrays { (a i : ℕ) → a ≢ array → flat bits words.new a i ≡ flat bits words.old a i }
    ensures below { (i : ℕ) → i < base → flat bits words.new array i ≡ flat bits words.old array i }
    ensures above { (i : ℕ) → base + len ≤ i
        → flat bits words.new array i ≡ flat bits words.old array i }
{
    let start = place_of(bits, array, base);
    words[start..start + len as usize].fill(value);
}
