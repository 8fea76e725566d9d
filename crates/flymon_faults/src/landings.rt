//! Runs in flight that stop before their script is done: the packets in flight make their operations all the same.
use crate::flights::Places;
use flymon_engine::Status;
use flymon_trials::{
    Ending, FIRST, LIMITS, Limits, PROFILED, ROOM, SECOND, THREE_GROUPS, additions,
    capture_of_packets, expect_ending, profiled_files, run_failing,
};
use fm_io::MemFile;
use reg_file::TraceFile;
use std::alloc::{AllocError, Global};
use std::process::Abort;
use std::test::Fail;

/// The operations of so many packets of a capture that entered one after another, and then passed to the end.
const NONE: Places = &[];

const ONE: Places = &[(0, 18), (1, 19), (2, 11)];

const TWO: Places = &[(0, 18), (1, 19), (2, 11), (0, 1), (1, 12), (2, 3)];

const THREE: Places = &[
    (0, 18),
    (1, 19),
    (0, 1),
    (2, 11),
    (1, 12),
    (2, 3),
    (0, 18),
    (1, 19),
    (2, 11),
];

const FOUR: Places = &[
    (0, 18),
    (1, 19),
    (0, 1),
    (2, 11),
    (1, 12),
    (0, 18),
    (2, 3),
    (1, 19),
    (2, 11),
    (0, 1),
    (1, 12),
    (2, 3),
];

/// The same of three packets where the task has 16 cells a row.
const THREE_SMALL: Places = &[
    (0, 9),
    (1, 9),
    (0, 0),
    (2, 5),
    (1, 6),
    (2, 1),
    (0, 9),
    (1, 9),
    (2, 5),
];

/// A task of a row in each of three groups, and four packets.
const SCRIPT: &str = "add a cms 3 key=src_ip attr=packets filter=all memory=32\npackets 3\nrun\n";

const OUT: &str = "added a\npackets 3\npackets 1\n";

/// A script, a switch of three groups, and a capture of which so many bytes are kept.
fn files_of(alloc: Global, script: &str, kept: usize) -> Result<Vec<MemFile>, AllocError> {
    let mut capture = capture_of_packets(alloc, &[FIRST, SECOND, FIRST, SECOND])?;
    capture.truncate(kept);
    profiled_files(alloc, THREE_GROUPS, script.as_bytes(), capture)
}

/// A flight where the calls on the files with these numbers fail.
fn fly(
    alloc: Global,
    files: Vec<MemFile>,
    failing: Vec<u64>,
    regs: &mut TraceFile,
    limits: Limits,
) -> Result<Ending, AllocError> {
    run_failing(alloc, PROFILED[1], files, failing, regs, limits)
}

/// Aborts unless these are the operations.
fn expect_calls(
    rt: &impl Abort,
    alloc: Global,
    case: u64,
    regs: &TraceFile,
    places: Places,
) -> Result<(), AllocError> {
    let calls = additions(alloc, places)?;
    assert_eq!(rt; regs.calls(), Some(calls.as_slice()), "at {case}");
    Ok(())
}

#[test]
fn lands_where_the_output_is_full(rt: HostRuntime) -> Result<(), Fail> {
    let alloc = rt.alloc();
    for room in 0..OUT.len() {
        let mut regs = TraceFile::new(alloc, 16, Vec::new(alloc))?;
        let limits = Limits {
            piece: 7,
            room,
            err_room: ROOM,
        };
        let files = files_of(alloc, SCRIPT, ROOM)?;
        let ending = fly(alloc, files, Vec::new(alloc), &mut regs, limits)?;
        let sent = &OUT.as_bytes()[..room];
        let status = Status::OutputFault;
        expect_ending(&room, &ending, status, sent, b"output fault\n")?;
        // A command is carried out before its line is sent; the lines have 8, 10 and 10 bytes.
        let places = match room {
            0..8 => NONE,
            8..18 => THREE,
            _ => FOUR,
        };
        expect_calls(&rt, alloc, room as u64, &regs, places)?;
    }
    Ok(())
}

#[test]
fn lands_where_a_file_fails(rt: HostRuntime) -> Result<(), Fail> {
    let alloc = rt.alloc();
    let limits = Limits {
        piece: ROOM,
        room: ROOM,
        err_room: ROOM,
    };
    let mut before = 0usize;
    for failing in 1..40u64 {
        let mut regs = TraceFile::new(alloc, 16, Vec::new(alloc))?;
        let files = files_of(alloc, SCRIPT, ROOM)?;
        let ending = fly(alloc, files, vec![in alloc; failing]?, &mut regs, limits)?;
        // The call comes behind so many packets, of three operations each, and the next one behind as many or one more.
        let entered = (regs.calls().map_or(0, |calls| calls.len()) / 3).min(4);
        let next = before <= entered && entered <= before.saturating_add(1);
        assert!(rt; next, "at {failing}");
        before = entered;
        let places = [NONE, ONE, TWO, THREE, FOUR][entered];
        expect_calls(&rt, alloc, failing, &regs, places)?;
        if ending.status == Status::Done {
            assert_eq!(rt; entered, 4);
            return Ok(());
        }
        assert_eq!(rt; ending.status, Status::InputFault, "at {failing}");
    }
    Err("a run that is done")?
}

/// Scripts, the call on the registers that fails, and the operations. Call 1 shapes the registers, each of three rows
/// is filled by a call, and a query reads a cell of each row.
const DEVICE: [(&str, u64, Places); 6] = [
    (
        "add a cms 3 key=src_ip attr=packets filter=all memory=32\nrun\n",
        2,
        NONE,
    ),
    (
        "add a cms 3 key=src_ip attr=packets filter=all memory=32\nrun\n",
        4,
        NONE,
    ),
    (
        "add a cms 3 key=src_ip attr=packets filter=all memory=32\npackets 3\nquery a src_ip:10.0.0.1\nrun\n",
        5,
        THREE,
    ),
    (
        "add a cms 3 key=src_ip attr=packets filter=all memory=32\npackets 3\nquery a src_ip:10.0.0.1\nrun\n",
        7,
        THREE,
    ),
    (
        "add a cms 3 key=src_ip attr=packets filter=all memory=16\npackets 3\nresize a memory=16\nrun\n",
        5,
        THREE_SMALL,
    ),
    (
        "add a cms 3 key=src_ip attr=packets filter=all memory=16\npackets 2\nrelease a\npackets 1\nresize a memory=16\nrun\n",
        7,
        THREE_SMALL,
    ),
];

#[test]
fn lands_where_the_device_fails(rt: HostRuntime) -> Result<(), Fail> {
    let alloc = rt.alloc();
    for (script, failing, places) in DEVICE {
        let mut regs = TraceFile::new(alloc, 16, vec![in alloc; failing]?)?;
        let files = files_of(alloc, script, ROOM)?;
        let ending = fly(alloc, files, Vec::new(alloc), &mut regs, LIMITS)?;
        assert_eq!(rt; ending.status, Status::DeviceFault, "at {script:?}");
        expect_calls(&rt, alloc, failing, &regs, places)?;
    }
    Ok(())
}

#[test]
fn lands_at_the_damage(rt: HostRuntime) -> Result<(), Fail> {
    let alloc = rt.alloc();
    // The records begin at 24, 94, 164 and 234.
    for (kept, out, message, places) in [
        (24usize, "added a\npackets 0\npackets 0\n", "", NONE),
        (164, "added a\npackets 2\npackets 0\n", "", TWO),
        (200, "added a\n", "bad capture: short record at 164\n", TWO),
        (
            303,
            "added a\npackets 3\n",
            "bad capture: short record at 234\n",
            THREE,
        ),
    ] {
        let mut regs = TraceFile::new(alloc, 16, Vec::new(alloc))?;
        let files = files_of(alloc, SCRIPT, kept)?;
        let ending = fly(alloc, files, Vec::new(alloc), &mut regs, LIMITS)?;
        let status = if message.is_empty() {
            Status::Done
        } else {
            Status::BadCapture
        };
        let message = message.as_bytes();
        expect_ending(&kept, &ending, status, out.as_bytes(), message)?;
        expect_calls(&rt, alloc, kept as u64, &regs, places)?;
    }
    Ok(())
}
