//! Scripts at fault, and the order in which the opening looks at words, files and texts.
use flymon_engine::Status;
use flymon_trials::{
    Ending, LIMITS, Limits, ROOM, WAYS, WORDS, capture_of, expect_ending, profiled_files, run_over,
    session_files,
};
use reg_file::RamFile;
use std::alloc::{AllocError, Global};
use std::test::Fail;

/// Scripts, and what the message says of them.
const FAULTS: [(&str, &str); 25] = [
    (
        "add hot cms 1 key=src_ip attr=packets filter=all memory=32\nrun\nrum\n",
        "3: command",
    ),
    (
        "add hot cms 5 key=src_ip attr=packets filter=all memory=32\n",
        "1: rows",
    ),
    (
        "add  t cms 01 key=proto,src_ip/32 attr=ttl filter=ethertype:0X0800 memory=032\n",
        "1: filter bad value 0",
    ),
    (
        "add t cms 1 key=src_ip,src_ip attr=ttl filter=all memory=32\n",
        "1: key repeated field 7",
    ),
    (
        "add t cms 1 key=proto/8 attr=ttl filter=all memory=32\n",
        "1: key bad prefix 0",
    ),
    (
        "add t cms 1 key=source attr=ttl filter=all memory=32\n",
        "1: key unknown field 0",
    ),
    ("query t src_ip:10.0.0.1,tos\n", "1: at bad value 16"),
    ("query t src_ip6:1::2::3\n", "1: at bad value 0"),
    ("query t src_ip6:1::/129\n", "1: at bad prefix 0"),
    ("# hot\n\nrun\x01\n", "3: byte"),
    ("run all\n", "1: words"),
    ("read Hot\n", "1: name"),
    (
        "add t sumax 1 key=src_ip attr=ttl filter=all memory=32\n",
        "1: kind",
    ),
    (
        "add t bloom 1 key=src_ip attr=ttl filter=all memory=32\n",
        "1: attr",
    ),
    (
        "add t cms 1 key=src_ip attr=ttl filter=all memory=4294967296\n",
        "1: size",
    ),
    ("packets ten\n", "1: number"),
    ("run\nrum\n", "2: command"),
    (
        "add t sumax_sum 1 key=src_ip attr=ttl filter=all memory=16\nresize t memory=x",
        "2: size",
    ),
    ("packets 4294967296\n", "1: number"),
    ("packets 00000000001\n", "1: number"),
    ("show\nremove abcdefghijklmnopq\n", "2: name"),
    ("query t src_ip:10.0.0.0/33\n", "1: at bad prefix 0"),
    ("query t proto:6,src_ip:1.2.3/8\n", "1: at bad value 8"),
    ("query t proto:6,proto:x\n", "1: at repeated field 8"),
    (
        "add t mrac 2 key=src_ip attr=ttl filter=all memory=32\n",
        "1: rows",
    ),
];

#[test]
fn names_the_fault_of_a_script(rt: HostRuntime) -> Result<(), Fail> {
    let alloc = rt.alloc();
    for (script, fault) in FAULTS {
        let mut message = String::from_str(alloc, "bad script line ")?;
        message.push_str(fault)?;
        message.push_str("\n")?;
        for words in WORDS {
            let files = session_files(alloc, script.as_bytes(), capture_of(alloc, &[1])?)?;
            let ending = run_over(alloc, words, files, &mut RamFile::new(), LIMITS)?;
            expect_ending(
                &(words, script),
                &ending,
                Status::BadScript,
                b"",
                message.as_bytes(),
            )?;
        }
    }
    assert_eq!(rt; Status::BadScript.code(), 4);
    Ok(())
}

/// Words that ask for nothing, and a script under the name `S`.
const WRONG: [(&str, &str); 11] = [
    ("", BAD),
    ("replay a b", BAD),
    ("flight a b", BAD),
    ("flight", GOOD),
    ("replay - S C S", GOOD),
    ("flight - S C S", GOOD),
    ("flights - S C", GOOD),
    ("show - S C", GOOD),
    ("demo 0 1000001", GOOD),
    ("demo 18446744073709551616 1", GOOD),
    ("demo 0 x", GOOD),
];

/// The words behind the way, a script under the name `S`, and how the run ends over a profile `P` that is no TOML and a
/// capture `C` of 23 bytes.
const ORDERS: [(&str, &str, Status, &str); 10] = [
    (" x X X", GOOD, Status::InputFault, "input fault: profile\n"),
    (" x S C", BAD, Status::InputFault, "input fault: profile\n"),
    (
        " P X X",
        GOOD,
        Status::BadProfile,
        "bad profile: not toml\n",
    ),
    (" P S C", BAD, Status::BadProfile, "bad profile: not toml\n"),
    (" - X C", GOOD, Status::InputFault, "input fault: script\n"),
    (
        " - S X",
        BAD,
        Status::BadScript,
        "bad script line 1: command\n",
    ),
    (
        " - S C",
        BAD,
        Status::BadScript,
        "bad script line 1: command\n",
    ),
    (" - S X", "", Status::InputFault, "input fault: capture\n"),
    (" - S X", GOOD, Status::InputFault, "input fault: capture\n"),
    (
        " - S C",
        GOOD,
        Status::BadCapture,
        "bad capture: short header\n",
    ),
];

/// The message to words that ask for nothing.
pub(crate) const USAGE: &str =
    "usage: flymon replay PROFILE SCRIPT CAPTURE | flymon demo SEED COUNT | flymon flight PROFILE SCRIPT CAPTURE\n";

const GOOD: &str = "add t cms 1 key=src_ip attr=packets filter=all memory=32\n";

const BAD: &str = "rum\n";

/// Runs the program over this script, a profile that is no TOML and a capture of 23 bytes.
fn run_shut(alloc: Global, words: &str, script: &str) -> Result<Ending, AllocError> {
    let mut capture = capture_of(alloc, &[])?;
    capture.truncate(23);
    let files = profiled_files(alloc, "=", script.as_bytes(), capture)?;
    run_over(alloc, words, files, &mut RamFile::new(), LIMITS)
}

#[test]
fn opens_in_order(rt: HostRuntime) -> Result<(), Fail> {
    let alloc = rt.alloc();
    for (words, script) in WRONG {
        let ending = run_shut(alloc, words, script)?;
        expect_ending(&words, &ending, Status::Usage, b"", USAGE.as_bytes())?;
    }
    for way in WAYS {
        for (names, script, status, message) in ORDERS {
            let mut words = String::from_str(alloc, way)?;
            words.push_str(names)?;
            let ending = run_shut(alloc, &words, script)?;
            let case = (way, names);
            expect_ending(&case, &ending, status, b"", message.as_bytes())?;
        }
    }
    Ok(())
}

#[test]
fn judges_long_scripts(rt: HostRuntime) -> Result<(), Fail> {
    let alloc = rt.alloc();
    let limits = Limits {
        piece: 4096,
        room: ROOM,
        err_room: ROOM,
    };
    // One line of five bytes; each other line is empty.
    for (blank, status, out, message) in [
        (1_048_571usize, Status::Done, "tasks 0\nend\n", ""),
        (
            1_048_572,
            Status::BadScript,
            "",
            "bad script line 0: too long\n",
        ),
    ] {
        let mut script = Vec::from_slice(alloc, b"show\n")?;
        script.extend_from_slice(&vec![in alloc; b'\n'; blank]?)?;
        for words in WORDS {
            let files = session_files(alloc, &script, capture_of(alloc, &[])?)?;
            let ending = run_over(alloc, words, files, &mut RamFile::new(), limits)?;
            expect_ending(
                &(words, blank),
                &ending,
                status,
                out.as_bytes(),
                message.as_bytes(),
            )?;
        }
    }
    Ok(())
}
