//! The operations that a run makes on the registers, where both ways have the same order.
use flymon_engine::Status;
use flymon_trials::{
    ADD_ONE, FIRST, LIMITS, SECOND, Sent, WORDS, capture_of_packets, run_over, session_files,
};
use reg_file::{Call, TraceFile};
use stateful_ops::Op;
use std::alloc::{AllocError, Global};
use std::process::Abort;
use std::test::Fail;

/// A packet of no byte on the wire.
const EMPTY: Sent = Sent {
    source: 1,
    flags: 2,
    length: 0,
};

/// The addition of the length of a packet, and of nothing.
const ADD_LENGTH: Op = Op::CondAdd {
    p1: 54,
    p2: 4_294_967_295,
};

const ADD_NOTHING: Op = Op::CondAdd {
    p1: 0,
    p2: 4_294_967_295,
};

/// A task, the packets that pass, and their operations, each after its array and its address.
type Passage = (&'static str, &'static [Sent], &'static [(u32, u32, Op)]);

const PASSAGES: [Passage; 9] = [
    (
        "cms 1 key=src_ip attr=packets filter=all memory=32",
        &[FIRST, FIRST, SECOND, FIRST],
        &[
            (0, 18, ADD_ONE),
            (0, 18, ADD_ONE),
            (0, 1, ADD_ONE),
            (0, 18, ADD_ONE),
        ],
    ),
    (
        "cms 4 key=src_ip attr=packets filter=src_ip:10.0.0.1 memory=32",
        &[SECOND, FIRST, SECOND],
        &[
            (0, 18, ADD_ONE),
            (1, 19, ADD_ONE),
            (2, 11, ADD_ONE),
            (3, 9, ADD_ONE),
        ],
    ),
    (
        "bloom 4 key=src_ip attr=flow filter=src_ip:10.0.0.1 memory=32",
        &[FIRST, SECOND],
        &[
            (0, 18, Op::Or { p1: 1024 }),
            (1, 19, Op::Or { p1: 131_072 }),
            (2, 11, Op::Or { p1: 536_870_912 }),
            (3, 9, Op::Or { p1: 268_435_456 }),
        ],
    ),
    (
        "sumax_max 2 key=src_ip attr=ttl filter=all memory=32",
        &[FIRST],
        &[(0, 18, Op::Max { p1: 64 }), (1, 19, Op::Max { p1: 64 })],
    ),
    (
        "mrac 1 key=src_ip attr=bytes filter=all memory=32",
        &[FIRST, EMPTY],
        &[(0, 18, ADD_LENGTH), (0, 18, ADD_NOTHING)],
    ),
    (
        "hll 1 key=dst_ip attr=flow filter=all memory=64",
        &[FIRST],
        &[(0, 42, Op::Max { p1: 2 })],
    ),
    (
        "flag_or 1 key=src_ip attr=flags filter=all memory=32",
        &[FIRST],
        &[(0, 18, Op::Or { p1: 2 })],
    ),
    (
        "flag_and 1 key=src_ip attr=flags filter=all memory=32",
        &[FIRST],
        &[(0, 18, Op::And { p1: 2 })],
    ),
    (
        "flag_and 4 key=src_ip attr=flags filter=proto:17 memory=32",
        &[FIRST, SECOND],
        &[],
    ),
];

fn calls_of(alloc: Global, places: &[(u32, u32, Op)]) -> Result<Vec<Call>, AllocError> {
    let mut calls = Vec::new(alloc);
    'calls: for place in places {
        let (array, addr, op) = *place;
        calls.push(Call { array, addr, op })?;
    }
    Ok(calls)
}

/// Aborts unless the packets make these operations.
fn expect_passage(
    rt: &impl Abort,
    alloc: Global,
    words: &str,
    passage: Passage,
) -> Result<(), AllocError> {
    let (task, packets, wanted) = passage;
    let mut script = String::from_str(alloc, "add t ")?;
    script.push_str(task)?;
    script.push_str("\nrun\nread t\n")?;
    let capture = capture_of_packets(alloc, packets)?;
    let files = session_files(alloc, script.as_bytes(), capture)?;
    let mut regs = TraceFile::new(alloc, 4, Vec::new(alloc))?;
    let ending = run_over(alloc, words, files, &mut regs, LIMITS)?;
    assert_eq!(rt; ending.status, Status::Done, "at {words}, {task:?}");
    let calls = calls_of(alloc, wanted)?;
    assert_eq!(rt;
        regs.calls(),
        Some(calls.as_slice()),
        "at {words}, {task:?}"
    );
    Ok(())
}

#[test]
fn makes_one_operation_a_row(rt: HostRuntime) -> Result<(), Fail> {
    for words in WORDS {
        for passage in PASSAGES {
            expect_passage(&rt, rt.alloc(), words, passage)?;
        }
    }
    Ok(())
}
