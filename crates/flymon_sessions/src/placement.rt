//! Where the rows of tasks stand.
use flymon_engine::Status;
use flymon_trials::{
    FIRST, LIMITS, ONE_ARRAY, Sent, Session, THIRD, THREE_GROUPS, WORDS, capture_of_packets,
    expect_done, expect_done_on, run_over, session_files,
};
use reg_file::{Call, TraceFile};
use stateful_ops::Op;
use std::test::Fail;

/// One group of two arrays of 32 registers, with one hash unit.
const TWO_ARRAYS: &str = "version = 1\ngroups = 1\ncmus = 2\nunits = 1\nlog_registers = 5\n";

/// One group of three arrays of 32 registers, with two hash units.
const THREE_ARRAYS: &str = "version = 1\ngroups = 1\ncmus = 3\nunits = 2\nlog_registers = 5\n";

/// Two groups of one array and one hash unit each, with arrays of 32 and 64 registers.
const TWO_SHAPES: &str = "version = 2\nlog_blocks = 5\n\
[[group]]\ncmus = 1\nunits = 1\nlog_registers = 5\n\
[[group]]\ncmus = 1\nunits = 1\nlog_registers = 6\n";

/// One array of 2^20 registers, in up to 1,024 partitions.
const GREAT_ARRAY: &str =
    "version = 2\nlog_blocks = 10\n[[group]]\ncmus = 1\nunits = 1\nlog_registers = 20\n";

/// A SYN of 60 bytes from 10.0.0.1 and one of 100 from 10.128.0.1.
const LOW_AND_HIGH: [Sent; 2] = [
    Sent {
        source: 1,
        flags: 2,
        length: 60,
    },
    Sent {
        source: 0x80_0001,
        flags: 2,
        length: 100,
    },
];

/// Profiles, and sessions on their switches.
const SESSIONS: [(&str, Session); 9] = [
    (
        ONE_ARRAY,
        (
            "add low cms 1 key=src_ip attr=packets filter=src_ip:10.0.0.0/9 memory=16\n\
add high cms 1 key=src_ip attr=bytes filter=src_ip:10.128.0.0/9 memory=16\nrun\nread low\nread high\nshow\n",
            &LOW_AND_HIGH,
            "added low\nadded high\npackets 2\nread low rows 1 size 16 start 0\ncell 0 9 1\nend\n\
read high rows 1 size 16 start 0\ncell 0 12 100\nend\ntasks 2\n\
task low cms 1 key=src_ip attr=packets filter=src_ip:10.0.0.0/9 memory=16\n\
row 0 group 0 cmu 0 base 0 size 16 keys 0\n\
task high cms 1 key=src_ip attr=bytes filter=src_ip:10.128.0.0/9 memory=16\n\
row 0 group 0 cmu 0 base 16 size 16 keys 0\nend\n",
        ),
    ),
    (
        ONE_ARRAY,
        (
            "add a cms 1 key=src_ip attr=packets filter=all memory=1\n\
add b cms 1 key=src_ip attr=packets filter=proto:6 memory=1\n\
add a cms 1 key=src_ip attr=packets filter=all memory=3\nadd c cms 1 key=src_ip attr=packets filter=all memory=3\n",
            &[],
            "added a\nrefused add b no unit need 1 have 0\nrefused add a exists\nrefused add c bad memory 3\n",
        ),
    ),
    (
        ONE_ARRAY,
        (
            "add x cms 1 key=src_ip attr=packets filter=proto:1 memory=8\n\
add y cms 1 key=src_ip attr=packets filter=proto:6 memory=8\n\
add z cms 1 key=src_ip attr=packets filter=proto:17 memory=8\nremove y\n\
add w cms 1 key=src_ip attr=packets filter=proto:2 memory=16\nstat\n",
            &[],
            "added x\nadded y\nadded z\nremoved y\nrefused add w no partition need 1 have 0\n\
stat groups 1 arrays 1\ngroup 0 units ffffffff000000000000000000000000\n\
array 0 free 16 largest 8 live 2\nend\n",
        ),
    ),
    (
        THREE_GROUPS,
        (
            "add s sumax_sum 3 key=src_ip attr=packets filter=all memory=2\nrun\nread s\n\
query s src_ip:10.0.0.1\nquery s src_ip:10.0.0.3\n",
            &[THIRD, THIRD, FIRST],
            "added s\npackets 3\nread s rows 3 size 2 start 0\n\
cell 0 0 2\ncell 0 1 1\ncell 1 1 2\ncell 2 0 1\ncell 2 1 2\nend\nquery s 1\nquery s 2\n",
        ),
    ),
    (
        THREE_ARRAYS,
        (
            "add a cms 1 key=src_ip,dst_ip attr=packets filter=all memory=32\n\
add b cms 1 key=dst_ip attr=packets filter=all memory=32\n\
add c cms 1 key=src_ip attr=packets filter=all memory=32\n\
remove a\nrun\nread c\nshow\nadd d cms 1 key=proto attr=packets filter=all memory=32\n",
            &[FIRST],
            "added a\nadded b\nadded c\nremoved a\npackets 1\n\
read c rows 1 size 32 start 0\ncell 0 18 1\nend\ntasks 2\n\
task b cms 1 key=dst_ip attr=packets filter=all memory=32\n\
row 0 group 0 cmu 1 base 0 size 32 keys 1\n\
task c cms 1 key=src_ip attr=packets filter=all memory=32\n\
row 0 group 0 cmu 2 base 0 size 32 keys 0+1\nend\nrefused add d no unit need 1 have 0\n",
        ),
    ),
    (
        TWO_ARRAYS,
        (
            "add w cms 1 key=src_ip attr=packets filter=proto:1 memory=32\n\
add x cms 1 key=src_ip attr=packets filter=proto:2 memory=16\nremove w\n\
add t cms 2 key=src_ip attr=packets filter=proto:6 memory=16\nstat\nresize t memory=16\nstat\n",
            &[],
            "added w\nadded x\nremoved w\nadded t\n\
stat groups 1 arrays 2\ngroup 0 units ffffffff000000000000000000000000\n\
array 0 free 16 largest 16 live 1\narray 1 free 0 largest 0 live 2\nend\n\
refused resize t no room row 1\n\
stat groups 1 arrays 2\ngroup 0 units ffffffff000000000000000000000000\n\
array 0 free 16 largest 16 live 1\narray 1 free 0 largest 0 live 2\nend\n",
        ),
    ),
    (
        TWO_SHAPES,
        (
            "add t cms 1 key=src_ip attr=packets filter=all memory=64\nrun\nread t\n\
add u cms 1 key=src_ip attr=packets filter=all memory=1\n\
add v cms 1 key=src_ip attr=packets filter=all memory=1\nresize t memory=1\nresize t memory=128\n",
            &[FIRST],
            "added t\npackets 1\nread t rows 1 size 64 start 0\ncell 0 36 1\nend\n\
added u\nrefused add v no unit need 1 have 0\nrefused resize t no room row 0\nrefused resize t bad memory 128\n",
        ),
    ),
    (
        GREAT_ARRAY,
        (
            "add hot cms 1 key=src_ip attr=packets filter=all memory=1048576\nrun\nread hot\n",
            &[FIRST],
            "added hot\npackets 1\nread hot rows 1 size 1048576 start 0\ncell 0 596437 1\nend\n",
        ),
    ),
    (
        GREAT_ARRAY,
        (
            "add hot cms 1 key=src_ip attr=packets filter=all memory=512\n",
            &[],
            "refused add hot bad memory 512\n",
        ),
    ),
];

#[test]
fn places_tasks_by_the_profile(rt: HostRuntime) -> Result<(), Fail> {
    let alloc = rt.alloc();
    for (profile, session) in SESSIONS {
        expect_done_on(alloc, profile, session)?;
    }
    Ok(())
}

/// Sessions on the switch of the default profile.
const DEFAULT_SESSIONS: [Session; 3] = [
    (
        "add s sumax_sum 4 key=src_ip attr=packets filter=all memory=32\n",
        &[],
        "refused add s no unit need 4 have 3\n",
    ),
    (
        "add a cms 4 key=src_ip attr=packets filter=all memory=32\n\
add b cms 4 key=src_ip attr=packets filter=all memory=32\n\
add c cms 4 key=src_ip attr=packets filter=all memory=32\n",
        &[],
        "added a\nadded b\nrefused add c no unit need 4 have 1\n",
    ),
    (
        "add a cms 1 key=src_ip,dst_ip attr=packets filter=all memory=32\n\
add b cms 1 key=dst_ip attr=packets filter=all memory=32\n\
add c cms 1 key=src_ip attr=packets filter=all memory=32\nrun\nread c\nstat\n",
        &[FIRST],
        "added a\nadded b\nadded c\npackets 1\nread c rows 1 size 32 start 0\ncell 0 18 1\nend\n\
stat groups 3 arrays 9\n\
group 0 units ffffffffffffffff0000000000000000 00000000ffffffff0000000000000000 -\n\
group 1 units - - -\ngroup 2 units - - -\n\
array 0 free 992 largest 512 live 1\narray 1 free 992 largest 512 live 1\n\
array 2 free 992 largest 512 live 1\narray 3 free 1024 largest 1024 live 0\n\
array 4 free 1024 largest 1024 live 0\narray 5 free 1024 largest 1024 live 0\n\
array 6 free 1024 largest 1024 live 0\narray 7 free 1024 largest 1024 live 0\n\
array 8 free 1024 largest 1024 live 0\nend\n",
    ),
];

#[test]
fn places_tasks_on_nine_arrays(rt: HostRuntime) -> Result<(), Fail> {
    for session in DEFAULT_SESSIONS {
        expect_done(rt.alloc(), session)?;
    }
    Ok(())
}

/// Two tasks that share an array, and one that finds it closed.
const SHARED: &str = "add low cms 1 key=src_ip attr=packets filter=src_ip:10.0.0.0/9 memory=32\n\
add high cms 1 key=src_ip attr=bytes filter=src_ip:10.128.0.0/9 memory=32\n\
add third cms 1 key=src_ip attr=packets filter=all memory=32\nrun\n";

#[test]
fn makes_one_operation_an_array(rt: HostRuntime) -> Result<(), Fail> {
    let alloc = rt.alloc();
    let calls = [(0, 18, 1), (1, 18, 1), (0, 57, 100), (1, 25, 1)].map(|(array, addr, p1)| Call {
        array,
        addr,
        op: Op::CondAdd {
            p1,
            p2: 4_294_967_295,
        },
    });
    for words in WORDS {
        let capture = capture_of_packets(alloc, &LOW_AND_HIGH)?;
        let files = session_files(alloc, SHARED.as_bytes(), capture)?;
        let mut regs = TraceFile::new(alloc, 8, Vec::new(alloc))?;
        let ending = run_over(alloc, words, files, &mut regs, LIMITS)?;
        assert_eq!(rt; ending.status, Status::Done, "at {words}");
        assert_eq!(rt; regs.calls(), Some(calls.as_slice()), "at {words}");
    }
    Ok(())
}
