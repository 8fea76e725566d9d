//! Runs over damaged captures.
use flymon_engine::Status;
use flymon_trials::{LIMITS, WORDS, capture_of, expect_ending, run_over, session_files};
use reg_file::{Call, RamFile, TraceFile};
use stateful_ops::Op;
use std::test::Fail;

const ADD_AND_RUN: &[u8; 63] = b"add hot cms 1 key=src_ip attr=packets filter=all memory=32\nrun\n";

/// Of a capture of three packets, whose records begin at 24, 94 and 164: how many bytes are kept, a place and the
/// byte that is put there, then the output and the message.
const DAMAGES: [(usize, usize, u8, &str, &str); 6] = [
    (200, 0, 0xd4, "added hot\n", "short record at 164"),
    (179, 0, 0xd4, "added hot\n", "short record at 164"),
    (234, 104, 4, "added hot\n", "big record at 94 length 262198"),
    (23, 0, 0xd4, "", "short header"),
    (234, 0, 0xd5, "", "bad magic"),
    (234, 20, 105, "", "bad link 105"),
];

#[test]
fn stops_at_the_damage(rt: HostRuntime) -> Result<(), Fail> {
    let alloc = rt.alloc();
    for (kept, at, byte, out, message) in DAMAGES {
        let mut line = String::from_str(alloc, "bad capture: ")?;
        line.push_str(message)?;
        line.push_str("\n")?;
        for words in WORDS {
            let mut capture = capture_of(alloc, &[1, 1, 1])?;
            if let Some(place) = capture.get_mut(at) {
                *place = byte;
            }
            capture.truncate(kept);
            let files = session_files(alloc, ADD_AND_RUN, capture)?;
            let ending = run_over(alloc, words, files, &mut RamFile::new(), LIMITS)?;
            expect_ending(
                &(words, message),
                &ending,
                Status::BadCapture,
                out.as_bytes(),
                line.as_bytes(),
            )?;
        }
    }
    assert_eq!(rt; Status::BadCapture.code(), 5);
    Ok(())
}

/// Scripts, how many bytes are kept of a capture of three packets, and how the run ends.
const ENDINGS: [(&str, usize, Status, &str, &str); 7] = [
    (
        "add hot cms 1 key=src_ip attr=packets filter=all memory=32\npackets 2\nrun\n",
        200,
        Status::BadCapture,
        "added hot\npackets 2\n",
        "bad capture: short record at 164\n",
    ),
    (
        "add hot cms 1 key=src_ip attr=packets filter=all memory=32\npackets 2\n",
        200,
        Status::Done,
        "added hot\npackets 2\n",
        "",
    ),
    (
        "add hot cms 1 key=src_ip attr=packets filter=all memory=32\npackets 2\nrun\n",
        23,
        Status::BadCapture,
        "",
        "bad capture: short header\n",
    ),
    (
        "add hot cms 1 key=src_ip attr=packets filter=all memory=32\npackets 3\nread hot\n",
        200,
        Status::BadCapture,
        "added hot\n",
        "bad capture: short record at 164\n",
    ),
    (
        "add hot cms 1 key=src_ip attr=packets filter=all memory=32\npackets 2\npackets 0\nquery hot src_ip:10.0.0.1\n",
        200,
        Status::Done,
        "added hot\npackets 2\npackets 0\nquery hot 2\n",
        "",
    ),
    (
        "add hot cms 1 key=src_ip attr=packets filter=all memory=32\n",
        200,
        Status::Done,
        "added hot\n",
        "",
    ),
    (
        "add hot cms 1 key=src_ip attr=packets filter=all memory=32\nread hot\nrun\n",
        200,
        Status::BadCapture,
        "added hot\nread hot rows 1 size 32 start 0\nend\n",
        "bad capture: short record at 164\n",
    ),
];

#[test]
fn writes_up_to_the_damage(rt: HostRuntime) -> Result<(), Fail> {
    let alloc = rt.alloc();
    for (script, kept, status, out, message) in ENDINGS {
        for words in WORDS {
            let mut capture = capture_of(alloc, &[1, 1, 1])?;
            capture.truncate(kept);
            let files = session_files(alloc, script.as_bytes(), capture)?;
            let ending = run_over(alloc, words, files, &mut RamFile::new(), LIMITS)?;
            expect_ending(
                &(words, script),
                &ending,
                status,
                out.as_bytes(),
                message.as_bytes(),
            )?;
        }
    }
    Ok(())
}

#[test]
fn counts_up_to_the_damage(rt: HostRuntime) -> Result<(), Fail> {
    let alloc = rt.alloc();
    let op = Op::CondAdd {
        p1: 1,
        p2: 4_294_967_295,
    };
    let calls = [18, 1].map(|addr| Call { array: 0, addr, op });
    for words in WORDS {
        let mut capture = capture_of(alloc, &[1, 2, 1])?;
        capture.truncate(200);
        let files = session_files(alloc, ADD_AND_RUN, capture)?;
        let mut regs = TraceFile::new(alloc, 4, Vec::new(alloc))?;
        let ending = run_over(alloc, words, files, &mut regs, LIMITS)?;
        assert_eq!(rt; ending.status, Status::BadCapture, "at {words}");
        assert_eq!(rt; regs.calls(), Some(calls.as_slice()), "at {words}");
    }
    Ok(())
}

/// How a run over a capture of one packet ends where only so many of its 94 bytes are kept.
fn cut_to(kept: usize) -> (Status, &'static str, &'static str) {
    match kept {
        0..24 => (Status::BadCapture, "", "bad capture: short header\n"),
        24 => (Status::Done, "added hot\npackets 0\n", ""),
        25..94 => (
            Status::BadCapture,
            "added hot\n",
            "bad capture: short record at 24\n",
        ),
        _ => (Status::Done, "added hot\npackets 1\n", ""),
    }
}

#[test]
fn tells_each_cut(rt: HostRuntime) -> Result<(), Fail> {
    let alloc = rt.alloc();
    for kept in 0..95usize {
        let (status, out, message) = cut_to(kept);
        for words in WORDS {
            let mut capture = capture_of(alloc, &[1])?;
            capture.truncate(kept);
            let files = session_files(alloc, ADD_AND_RUN, capture)?;
            let ending = run_over(alloc, words, files, &mut RamFile::new(), LIMITS)?;
            expect_ending(
                &(words, kept),
                &ending,
                status,
                out.as_bytes(),
                message.as_bytes(),
            )?;
        }
    }
    Ok(())
}

/// Captured lengths that a record of 54 bytes at 24 may claim, and what the message says of them.
const LENGTHS: [(u32, &str); 3] = [
    (55, "bad capture: short record at 24\n"),
    (262_145, "bad capture: big record at 24 length 262145\n"),
    (
        4_294_967_295,
        "bad capture: big record at 24 length 4294967295\n",
    ),
];

#[test]
fn believes_no_length(rt: HostRuntime) -> Result<(), Fail> {
    let alloc = rt.alloc();
    for (length, message) in LENGTHS {
        for words in WORDS {
            let whole = capture_of(alloc, &[1])?;
            let mut capture = Vec::from_slice(alloc, &whole[..whole.len().min(32)])?;
            capture.extend_from_slice(&length.to_le_bytes())?;
            capture.extend_from_slice(&whole[whole.len().min(36)..])?;
            let files = session_files(alloc, ADD_AND_RUN, capture)?;
            let ending = run_over(alloc, words, files, &mut RamFile::new(), LIMITS)?;
            expect_ending(
                &(words, length),
                &ending,
                Status::BadCapture,
                b"added hot\n",
                message.as_bytes(),
            )?;
        }
    }
    Ok(())
}
