//! The trait, whose clauses are all that a run knows of registers.
ghost use Rattle.std.specs.Prelude.{◌≡◌, ℕ, ◌≤◌, [], ◌∷◌, List, Option, IsTrue, ◌↔◌, IfSome, IfOk, OnOk, OnErr, IsErrOf};
ghost use Rattle.outside.specs.Faults.{Rose, HasCause};
ghost use Rattle.outside.specs.Told.{Told, Stays, Grows};
ghost use Rattle.reg_file.specs.declared.traits.Call.{Call};
ghost use Rattle.reg_file.specs.Registers.{Contents, Dims, IsShape, shaped_dims, InFile, InRange, AreZero, MakesCall, MakesFill};

use stateful_ops::Op;
use std::alloc::Global;

/// The most arrays that a file may be given.
pub const MOST_ARRAYS: u32 = 48;

/// The least bits of an address.
pub const LEAST_BITS: u32 = 5;

/// The most bits of an address.
pub const MOST_BITS: u32 = 20;

/// Whether a file may be given this shape.
pub fn is_shape(arrays: u32, bits: u32) -> bool
    ensures { IsTrue result ↔ IsShape arrays bits }
{
    (1..=MOST_ARRAYS).contains(&arrays) && (LEAST_BITS..=MOST_BITS).contains(&bits)
}

/// Why a file got no shape.
#[derive(Clone, Copy, Debug, PartialEq, Eq)]
pub enum ShapeFail {
    Memory,
    Device,
}

/// A read or a fill did not do its work.
#[derive(Clone, Copy, Debug, PartialEq, Eq)]
pub struct DeviceFault;

/// One operation on one register.
#[derive(Clone, Copy, Debug, PartialEq, Eq)]
pub struct Call {
    pub array: u32,
    pub addr: u32,
    pub op: Op,
}

/// Arrays of registers of 32 bits, all of one length, a power of two.
pub trait RegFile {
    ghost faults: { Self → ℕ };

    ghost dims: { Self → Dims };

    ghost contents: { Self → Option Contents };

    ghost calls: { Self → Option (List Call) };

    /// Makes `arrays` arrays of `2^bits` registers, all 0, and forgets all that was there.
    fn shape(&mut self, alloc: Global, arrays: u32, bits: u32) -> Result<(), ShapeFail>
        requires { IsShape arrays bits }
        ensures later { faults self.old ≤ faults self.new }
        ensures device { IsErrOf result ShapeFail.Device → Rose (faults self.old) (faults self.new) }
        ensures dims { dims self.new ≡ shaped_dims arrays bits result }
        ensures contents { OnOk result (IfSome (contents self.new) AreZero) }
        ensures calls { Told (λ _ now. now ≡ []) (calls self.old) (calls self.new) };

    /// Makes the operation on the register, and answers its carry.
    fn rmw(&mut self, array: u32, addr: u32, op: Op) -> u32
        requires { InFile (dims self.old) array addr }
        ensures faults { faults self.new ≡ faults self.old }
        ensures dims { dims self.new ≡ dims self.old }
        ensures contents { Told (MakesCall array addr op result) (contents self.old) (contents self.new) }
        ensures calls { let call : Call = record { array = array; addr = addr; op = op } in
            Grows (calls self.old) (call ∷ []) (calls self.new) };

    fn read(&mut self, array: u32, addr: u32) -> Result<u32, DeviceFault>
        requires { InFile (dims self.old) array addr }
        ensures cause { HasCause (faults self.old) (faults self.new) result }
        ensures dims { dims self.new ≡ dims self.old }
        ensures contents { Stays (contents self.old) (contents self.new) }
        ensures value { IfOk result (λ value. IfSome (contents self.new) (λ regs. value ≡ regs array addr)) }
        ensures calls { Stays (calls self.old) (calls self.new) };

    /// Puts `value` into the `len` registers from `base`. Refused, they may hold anything.
    fn fill(&mut self, array: u32, base: u32, len: u32, value: u32) -> Result<(), DeviceFault>
        requires { InRange (dims self.old) array base len }
        ensures cause { HasCause (faults self.old) (faults self.new) result }
        ensures dims { dims self.new ≡ dims self.old }
        ensures contents { Told (MakesFill array base len value result) (contents self.old) (contents self.new) }
        ensures calls { Stays (calls self.old) (calls self.new) };
}
