//! The four operations and what each leaves.
ghost use Rattle.std.specs.Prelude.{◌≡◌};
ghost use Rattle.stateful_ops.specs.Ops.{new_register, carry_of};

/// An operation on one register of 32 bits.
#[derive(Clone, Copy, Debug, PartialEq, Eq)]
pub enum Op {
    /// Adds `p1` where the register is below `p2`, and stops at 2^32-1.
    CondAdd { p1: u32, p2: u32 },
    Max { p1: u32 },
    And { p1: u32 },
    Or { p1: u32 },
}

/// What an operation leaves in the register, and what it hands on to the next row.
#[derive(Clone, Copy, Debug, PartialEq, Eq)]
pub struct Done {
    pub reg: u32,
    pub carry: u32,
}

/// The operation on a register that holds `reg`.
pub fn apply(op: Op, reg: u32) -> Done
    ensures register { result.reg ≡ new_register op reg }
    ensures carry { result.carry ≡ carry_of op reg }
{
    match op {
        Op::CondAdd { p1, p2 } if reg < p2 => {
            let reg = reg.saturating_add(p1);
            Done { reg, carry: reg }
        }
        Op::CondAdd { p2, .. } => Done { reg, carry: p2 },
        Op::Max { p1 } => kept(reg.max(p1)),
        Op::And { p1 } => kept(reg & p1),
        Op::Or { p1 } => kept(reg | p1),
    }
}

/// The register becomes this value and hands it on.
fn kept(value: u32) -> Done
    ensures register { result.reg ≡ value }
    ensures carry { result.carry ≡ value }
{
    Done {
        reg: value,
        carry: value,
    }
}
