//! Runs that stop before their script is done.
use flymon_engine::Status;
use flymon_trials::{
    Ending, FLIGHT, LIMITS, Limits, REPLAY, ROOM, SCRIPT, THREE_TASKS, THREE_TASKS_OUT, WORDS,
    capture_of, expect_ending, run_failing, run_over, session_files,
};
use reg_file::{RamFile, TraceFile};
use std::alloc::{AllocError, Global};
use std::process::Abort;
use std::test::Fail;

#[test]
fn stops_where_the_output_is_full(rt: HostRuntime) -> Result<(), Fail> {
    let alloc = rt.alloc();
    let limits = Limits {
        piece: 7,
        room: 6,
        err_room: ROOM,
    };
    for words in WORDS {
        let files = session_files(alloc, SCRIPT.as_bytes(), capture_of(alloc, &[1, 1, 2, 1])?)?;
        let ending = run_over(alloc, words, files, &mut RamFile::new(), limits)?;
        expect_ending(
            &words,
            &ending,
            Status::OutputFault,
            b"added ",
            b"output fault\n",
        )?;
    }
    Ok(())
}

/// What the run of `SCRIPT` writes before its last line.
const BEFORE_QUERY: &str =
    "added hot\npackets 4\nread hot rows 1 size 32 start 0\ncell 0 1 1\ncell 0 18 3\nend\n";

const THREE_ROWS: &str = "add t cms 3 key=src_ip attr=packets filter=all memory=32\nrun\n";

const FOUR_ROWS: &str = "add t cms 4 key=src_ip attr=packets filter=all memory=32\nrun\n\
query t src_ip:10.0.0.1\nquery t src_ip:10.0.0.1\n";

const DIST: &str = "add m mrac 1 key=src_ip attr=packets filter=all memory=32\ndist m\ndist m\n";

const CARD: &str = "add h hll 1 key=src_ip attr=flow filter=all memory=32\ncard h\ncard h\n";

/// Scripts, the call that fails, and what was written before it. Call 1 shapes the registers, `add` fills each row by
/// one call, `read`, `dist` and `card` read each cell by one call, and `query` one cell of each row.
const DEVICE: [(&str, u64, &str); 7] = [
    (SCRIPT, 1, ""),
    (SCRIPT, 2, ""),
    (SCRIPT, 35, BEFORE_QUERY),
    (THREE_ROWS, 4, ""),
    (FOUR_ROWS, 10, "added t\npackets 4\nquery t 3\n"),
    (DIST, 35, "added m\ndist m\nsize 0 cells 32\nend\n"),
    (CARD, 35, "added h\ncard h zeros 32 z 274877906944 raw 22\n"),
];

#[test]
fn stops_where_the_device_fails(rt: HostRuntime) -> Result<(), Fail> {
    let alloc = rt.alloc();
    for (script, failing, out) in DEVICE {
        for words in WORDS {
            let capture = capture_of(alloc, &[1, 1, 2, 1])?;
            let files = session_files(alloc, script.as_bytes(), capture)?;
            let mut regs = TraceFile::new(alloc, 16, vec![in alloc; failing]?)?;
            let ending = run_over(alloc, words, files, &mut regs, LIMITS)?;
            expect_ending(
                &(words, failing),
                &ending,
                Status::DeviceFault,
                out.as_bytes(),
                b"device fault\n",
            )?;
        }
    }
    assert_eq!(rt; Status::DeviceFault.code(), 8);
    Ok(())
}

#[test]
fn makes_no_further_call(rt: HostRuntime) -> Result<(), Fail> {
    let alloc = rt.alloc();
    // The call after the last one of the run would fail.
    for (script, failing) in [
        (SCRIPT, 36u64),
        (THREE_ROWS, 5),
        (FOUR_ROWS, 14),
        (DIST, 67),
        (CARD, 67),
    ] {
        for words in WORDS {
            let capture = capture_of(alloc, &[1, 1, 2, 1])?;
            let files = session_files(alloc, script.as_bytes(), capture)?;
            let mut regs = TraceFile::new(alloc, 16, vec![in alloc; failing]?)?;
            let ending = run_over(alloc, words, files, &mut regs, LIMITS)?;
            assert_eq!(rt; ending.status, Status::Done, "at {words}, {script:?}");
        }
    }
    Ok(())
}

/// Pieces that are larger than all files and lines, and room for all.
const WHOLE: Limits = Limits {
    piece: ROOM,
    room: ROOM,
    err_room: ROOM,
};

/// The session of three tasks, where the call on the files that has this number fails.
fn run_with_failing_file(
    alloc: Global,
    words: &str,
    failing: u64,
    limits: Limits,
) -> Result<Ending, AllocError> {
    let capture = capture_of(alloc, &[1, 1, 1])?;
    let files = session_files(alloc, THREE_TASKS.as_bytes(), capture)?;
    let failing = vec![in alloc; failing]?;
    run_failing(alloc, words, files, failing, &mut RamFile::new(), limits)
}

/// The same, where the call on the registers that has this number fails.
fn run_with_failing_device(
    alloc: Global,
    words: &str,
    failing: u64,
    limits: Limits,
) -> Result<Ending, AllocError> {
    let capture = capture_of(alloc, &[1, 1, 1])?;
    let files = session_files(alloc, THREE_TASKS.as_bytes(), capture)?;
    let mut regs = TraceFile::new(alloc, 32, vec![in alloc; failing]?)?;
    run_over(alloc, words, files, &mut regs, limits)
}

/// The same, where the output has room for `room` bytes.
fn run_with_room(
    alloc: Global,
    words: &str,
    room: usize,
    err_room: usize,
) -> Result<Ending, AllocError> {
    let capture = capture_of(alloc, &[1, 1, 1])?;
    let files = session_files(alloc, THREE_TASKS.as_bytes(), capture)?;
    let limits = Limits {
        piece: 7,
        room,
        err_room,
    };
    run_over(alloc, words, files, &mut RamFile::new(), limits)
}

/// Aborts unless a run that met a fault ended in this status, and sent a part of what the session writes.
fn expect_cut(rt: &impl Abort, case: u64, ending: &Ending, status: Status) {
    assert_eq!(rt; ending.status, status, "at {case}");
    let sent = ending.out.sent();
    assert!(rt; THREE_TASKS_OUT.as_bytes().starts_with(sent), "at {case}");
}

/// Fails each call on the files in turn.
fn fail_files(rt: &impl Abort, alloc: Global, words: &str) -> Result<(), Fail> {
    // By pieces of 64 bytes the script and the capture take few calls.
    let limits = Limits {
        piece: 64,
        room: ROOM,
        err_room: ROOM,
    };
    'calls: for failing in 1..100u64 {
        let ending = run_with_failing_file(alloc, words, failing, limits)?;
        if ending.status == Status::Done {
            // The script has over 384 bytes and the capture 234, and each is attached.
            assert!(rt; failing > 12, "{failing}");
            return Ok(());
        }
        expect_cut(rt, failing, &ending, Status::InputFault);
        let message = ending.err.sent();
        let told = message == b"input fault: script\n".as_slice()
            || message == b"input fault: capture\n".as_slice();
        assert!(rt; told, "at {failing}");
    }
    Err("a run that is done")?
}

#[test]
fn stops_at_each_call_on_the_files(rt: HostRuntime) -> Result<(), Fail> {
    for words in WORDS {
        fail_files(&rt, rt.alloc(), words)?;
    }
    Ok(())
}

/// Fails at each byte of the output in turn.
fn fail_output(rt: &impl Abort, alloc: Global, words: &str) -> Result<(), AllocError> {
    'rooms: for room in 0..THREE_TASKS_OUT.len() {
        let ending = run_with_room(alloc, words, room, ROOM)?;
        expect_cut(rt, room as u64, &ending, Status::OutputFault);
        assert_eq!(rt; ending.out.sent().len(), room);
        assert_eq!(rt; ending.err.sent(), b"output fault\n".as_slice());
    }
    let ending = run_with_room(alloc, words, THREE_TASKS_OUT.len(), ROOM)?;
    assert_eq!(rt; ending.status, Status::Done);
    assert_eq!(rt; ending.out.sent(), THREE_TASKS_OUT.as_bytes());
    Ok(())
}

#[test]
fn stops_at_each_byte_of_the_output(rt: HostRuntime) -> Result<(), Fail> {
    for words in WORDS {
        fail_output(&rt, rt.alloc(), words)?;
    }
    Ok(())
}

/// The calls that the session makes on the registers: they are shaped, six rows and three new ones are filled, three
/// rows of 512 cells and three of 256 are read, two cells are read for each of two answers, and 64 cells.
const DEVICE_CALLS: u64 = 1 + 6 + 3 + 3 * 512 + 3 * 256 + 2 * 2 + 64;

/// Fails each call on the registers in turn.
fn fail_device(rt: &impl Abort, alloc: Global, words: &str) -> Result<(), AllocError> {
    'calls: for failing in 1..=DEVICE_CALLS {
        let ending = run_with_failing_device(alloc, words, failing, WHOLE)?;
        expect_cut(rt, failing, &ending, Status::DeviceFault);
        assert_eq!(rt; ending.err.sent(), b"device fault\n".as_slice());
    }
    let ending = run_with_failing_device(alloc, words, DEVICE_CALLS + 1, WHOLE)?;
    assert_eq!(rt; ending.status, Status::Done);
    assert_eq!(rt; ending.out.sent(), THREE_TASKS_OUT.as_bytes());
    Ok(())
}

#[test]
fn stops_at_each_call_on_the_device(rt: HostRuntime) -> Result<(), Fail> {
    fail_device(&rt, rt.alloc(), REPLAY)?;
    Ok(())
}

#[test]
fn stops_at_each_call_on_the_device_in_flight(rt: HostRuntime) -> Result<(), Fail> {
    fail_device(&rt, rt.alloc(), FLIGHT)?;
    Ok(())
}

/// Leaves no room for the whole message of a fault.
fn fail_mute(rt: &impl Abort, alloc: Global, words: &str) -> Result<(), AllocError> {
    let mute = Limits {
        piece: 7,
        room: ROOM,
        err_room: 3,
    };
    'files: for failing in [1u64, 20, 70, 90] {
        let ending = run_with_failing_file(alloc, words, failing, mute)?;
        expect_cut(rt, failing, &ending, Status::InputFault);
        assert_eq!(rt; ending.err.sent(), b"inp".as_slice(), "at {failing}");
    }
    'device: for failing in [1u64, 2, 9, 11, DEVICE_CALLS] {
        let ending = run_with_failing_device(alloc, words, failing, mute)?;
        expect_cut(rt, failing, &ending, Status::DeviceFault);
        assert_eq!(rt; ending.err.sent(), b"dev".as_slice(), "at {failing}");
    }
    'rooms: for room in [0usize, 100] {
        let ending = run_with_room(alloc, words, room, 0)?;
        expect_cut(rt, room as u64, &ending, Status::OutputFault);
        assert_eq!(rt; ending.err.sent(), b"".as_slice());
    }
    Ok(())
}

#[test]
fn keeps_its_status_where_no_message_can_be_written(rt: HostRuntime) -> Result<(), Fail> {
    for words in WORDS {
        fail_mute(&rt, rt.alloc(), words)?;
    }
    Ok(())
}
