//! The same calls on both files, the list of calls, and the calls that fail.
use super::*;
use stateful_ops::Op;
use std::alloc::Global;
use std::test::Fail;

/// What a file of two arrays of 32 registers answers.
fn answers<R: RegFile>(alloc: Global, file: &mut R) -> Result<[u32; 9], Fail> {
    file.shape(alloc, 2, 5)?;
    let counts = [
        file.rmw(1, 0, Op::CondAdd { p1: 7, p2: 50 }),
        file.rmw(1, 0, Op::CondAdd { p1: 7, p2: 50 }),
        file.rmw(1, 0, Op::CondAdd { p1: 7, p2: 5 }),
    ];
    let other = file.rmw(0, 31, Op::Or { p1: 6 });
    file.fill(1, 30, 2, 9)?;
    Ok([
        counts[0],
        counts[1],
        counts[2],
        other,
        file.read(1, 0)?,
        file.read(1, 29)?,
        file.read(1, 30)?,
        file.read(1, 31)?,
        file.read(0, 31)?,
    ])
}

/// Two adds of 7, an add refused at its bound 5, an or with 6, and then the registers.
const ANSWERS: [u32; 9] = [7, 14, 5, 6, 14, 0, 9, 9, 6];

#[test]
fn ram_file_keeps_its_registers(rt: HostRuntime) -> Result<(), Fail> {
    let mut file = RamFile::new();
    for _ in 0..2 {
        assert_eq!(rt; answers(rt.alloc(), &mut file)?, ANSWERS);
    }
    Ok(())
}

#[test]
fn trace_file_tells_its_calls(rt: HostRuntime) -> Result<(), Fail> {
    let mut file = TraceFile::new(rt.alloc(), 5, Vec::new(rt.alloc()))?;
    assert_eq!(rt; answers(rt.alloc(), &mut file)?, ANSWERS);
    assert_eq!(rt; file.calls().map(|calls| calls.len()), Some(4));
    file.shape(rt.alloc(), 1, 5)?;
    file.rmw(0, 3, Op::Max { p1: 4 });
    let last = Call {
        array: 0,
        addr: 3,
        op: Op::Max { p1: 4 },
    };
    assert_eq!(rt; file.calls(), Some([last].as_slice()));
    file.rmw(0, 3, Op::Max { p1: 4 });
    assert_eq!(rt; file.calls(), None);
    Ok(())
}

#[test]
fn trace_file_fails_by_number(rt: HostRuntime) -> Result<(), Fail> {
    let failing = vec![in rt.alloc(); 2, 4]?;
    let mut file = TraceFile::new(rt.alloc(), 1, failing)?;
    file.shape(rt.alloc(), 1, 5)?;
    assert_eq!(rt; file.read(0, 0), Err(DeviceFault));
    assert_eq!(rt; file.rmw(0, 0, Op::Max { p1: 4 }), 4);
    assert_eq!(rt; file.read(0, 0), Ok(4));
    assert_eq!(rt; file.shape(rt.alloc(), 1, 5), Err(ShapeFail::Device));
    Ok(())
}
