//! Which operation an entry makes, and where its two numbers come from.

use pkt_headers::Attr;

/// The operation.
#[derive(Clone, Copy, Debug, PartialEq, Eq)]
pub enum Code {
    CondAdd,
    Max,
    And,
    Or,
}

/// Where its first number comes from.
#[derive(Clone, Copy, Debug, PartialEq, Eq)]
pub enum First {
    /// What the packet weighs by the attribute.
    Weight(Attr),
    /// The one bit of a register that the row's hash chooses.
    Bit,
    /// The rank of the row's hash below the bits that choose the register.
    Rho,
}

/// Where its second number comes from, which only a conditional add has: the bound.
#[derive(Clone, Copy, Debug, PartialEq, Eq)]
pub enum Second {
    /// 2^32-1.
    Top,
    /// What the operation on the other array handed on for the same packet.
    Carry { array: u32 },
}

/// The operation of an entry, for each packet that it takes.
#[derive(Clone, Copy, Debug, PartialEq, Eq)]
pub struct Micro {
    pub code: Code,
    pub first: First,
    pub second: Second,
}
