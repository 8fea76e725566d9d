//! Operations on registers, as tests expect them.
use reg_file::Call;
use stateful_ops::Op;
use std::alloc::{AllocError, Global};

/// The addition of a packet to any register.
pub const ADD_ONE: Op = Op::CondAdd {
    p1: 1,
    p2: 4_294_967_295,
};

/// Additions of a packet at these arrays and addresses.
pub fn additions(alloc: Global, places: &[(u32, u32)]) -> Result<Vec<Call>, AllocError> {
    let mut calls = Vec::new(alloc);
    'calls: for place in places {
        let (array, addr) = *place;
        let op = ADD_ONE;
        calls.push(Call { array, addr, op })?;
    }
    Ok(calls)
}
