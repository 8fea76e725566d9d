//! Registers in memory.
ghost use Rattle.std.specs.Prelude.{◌≡◌, ◌*◌, ◌^◌, ◌<◌, ◌≤◌, Some, None, length, IsOk, IsSomeAnd, IsOkUnless};
ghost use Rattle.reg_file.specs.Words.{words_in};

use crate::traits::{DeviceFault, RegFile, ShapeFail};
use crate::words::{change_word, fill_words, place_of, word_at};
use stateful_ops::Op;
use std::alloc::Global;

/// Registers in memory. No call fails but `shape`, for want of memory.
#[derive(Debug, Drop)]
pub struct RamFile {
    words: Option<Vec<u32>>,
    arrays: u32,
    bits: u32,
    ghost shift: { bits < 64 },
    ghost whole: { length (words_in words) ≡ arrays * 2 ^ bits },
}

impl RamFile {
    ghost use Rattle.reg_file.specs.Registers.{AreZero};
    ghost use Rattle.reg_file.specs.RamFile.{ram_dims, ram_contents};

    /// A file with no arrays, which holds no memory.
    pub fn new() -> RamFile
        ensures faults { ⟦<RamFile as RegFile>⟧.faults result ≡ 0 }
        ensures arrays { (⟦<RamFile as RegFile>⟧.dims result).arrays ≡ 0 }
        ensures contents { IsSomeAnd (⟦<RamFile as RegFile>⟧.contents result) AreZero }
        ensures calls { ⟦<RamFile as RegFile>⟧.calls result ≡ None }
    {
        RamFile::without_arrays(0)
    }

    /// A file with no arrays, for addresses of `bits` bits.
    pub(crate) fn without_arrays(bits: u32) -> RamFile
        requires { bits < 64 }
        ensures dims { ram_dims result ≡ record { arrays = 0; bits = bits } }
        ensures contents { AreZero (ram_contents result) }
    {
        RamFile {
            words: None,
            arrays: 0,
            bits,
        }
    }
}

impl RegFile for RamFile {
    ghost use Rattle.reg_file.specs.Registers.{IsShape, shaped_dims, InFile, InRange, AreZero, MakesCall, MakesFill};
    ghost use Rattle.reg_file.specs.RamFile.{ram_dims, ram_contents};

    ghost faults = { λ _. 0 };

    ghost dims = { ram_dims };

    ghost contents = { λ file. Some (ram_contents file) };

    ghost calls = { λ _. None };

    fn shape(&mut self, alloc: Global, arrays: u32, bits: u32) -> Result<(), ShapeFail>
        requires { IsShape arrays bits }
        ensures dims { ram_dims self.new ≡ shaped_dims arrays bits result }
        ensures contents { AreZero (ram_contents self.new) }
        ensures memory { IsOkUnless result ShapeFail.Memory }
    {
        *self = RamFile::without_arrays(bits);
        // The place past the last array.
        let count = place_of(bits, arrays, 0);
        let words = vec![in alloc; 0; count].map_err(|_| ShapeFail::Memory)?;
        *self = RamFile {
            words: Some(words),
            arrays,
            bits,
        };
        Ok(())
    }

    fn rmw(&mut self, array: u32, addr: u32, op: Op) -> u32
        requires { InFile (ram_dims self.old) array addr }
        ensures dims { ram_dims self.new ≡ ram_dims self.old }
        ensures contents { MakesCall array addr op result (ram_contents self.old) (ram_contents self.new) }
    {
        let Some(words) = &mut self.words else {
            unreachable!()
        };
        change_word(words, self.bits, array, addr, op)
    }

    fn read(&mut self, array: u32, addr: u32) -> Result<u32, DeviceFault>
        requires { InFile (ram_dims self.old) array addr }
        ensures dims { ram_dims self.new ≡ ram_dims self.old }
        ensures contents { ram_contents self.new ≡ ram_contents self.old }
        ensures value { result ≡ Ok (ram_contents self.new array addr) }
    {
        let Some(words) = &self.words else {
            unreachable!()
        };
        Ok(word_at(words, self.bits, array, addr))
    }

    fn fill(&mut self, array: u32, base: u32, len: u32, value: u32) -> Result<(), DeviceFault>
        requires { InRange (ram_dims self.old) array base len }
        ensures ok { IsOk result }
        ensures dims { ram_dims self.new ≡ ram_dims self.old }
        ensures contents { MakesFill array base len value result
            (ram_contents self.old) (ram_contents self.new) }
    {
        let Some(words) = &mut self.words else {
            unreachable!()
        };
        fill_words(words, self.bits, array, base, len, value);
        Ok(())
    }
}
