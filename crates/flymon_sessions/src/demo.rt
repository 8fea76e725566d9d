//! Runs over generated files.
ghost use Rattle.std.specs.Prelude.{◌<◌};

use crate::scripts::USAGE;
use flymon_engine::Status;
use flymon_trials::{Ending, Limits, expect_ending, run_over};
use reg_file::RamFile;
use std::alloc::{AllocError, Global};
use std::test::Fail;

/// Room for all that a demo writes.
const DEMO_LIMITS: Limits = Limits {
    piece: 4096,
    room: 4096,
    err_room: 4096,
};

/// What a demo writes behind its read-outs.
const TAIL: &str = "resized sizes\nremoved flows\nstat groups 3 arrays 9\n\
group 0 units ffffffff000000000000000000000000 - -\n\
group 1 units ffffffff000000000000000000000000 - 00000000ffffffff0000000000000000\n\
group 2 units ffffffff000000000000000000000000 - -\n\
array 0 free 896 largest 512 live 1\n\
array 1 free 1024 largest 1024 live 0\n\
array 2 free 1024 largest 1024 live 0\n\
array 3 free 896 largest 512 live 1\n\
array 4 free 1024 largest 1024 live 0\n\
array 5 free 960 largest 512 live 1\n\
array 6 free 896 largest 512 live 1\n\
array 7 free 928 largest 512 live 1\n\
array 8 free 1024 largest 1024 live 0\n\
end\n";

/// A demo where no file was handed in.
fn demo_over(alloc: Global, words: &str) -> Result<Ending, AllocError> {
    run_over(
        alloc,
        words,
        Vec::new(alloc),
        &mut RamFile::new(),
        DEMO_LIMITS,
    )
}

#[test]
fn shows_what_it_does(rt: HostRuntime) -> Result<(), Fail> {
    let alloc = rt.alloc();
    let cases = [
        (
            "demo 0 1",
            "added load\nadded flows\nadded dests\nadded sizes\npackets 1\nquery load 954\n\
card dests zeros 63 z 543313362944 raw 45\ndist sizes\nsize 0 cells 31\nsize 1 cells 1\nend\n",
        ),
        (
            "demo 0 0",
            "added load\nadded flows\nadded dests\nadded sizes\npackets 0\nquery load 0\n\
card dests zeros 64 z 549755813888 raw 45\ndist sizes\nsize 0 cells 32\nend\n",
        ),
    ];
    for (words, head) in cases {
        let ending = demo_over(alloc, words)?;
        let mut out = String::from_str(alloc, head)?;
        out.push_str(TAIL)?;
        expect_ending(&words, &ending, Status::Done, out.as_bytes(), b"")?;
    }
    Ok(())
}

#[test]
fn wants_a_seed_and_a_count(rt: HostRuntime) -> Result<(), Fail> {
    let alloc = rt.alloc();
    for words in [
        "demo 0 1000001",
        "demo 18446744073709551616 1",
        "demo 0 x",
        "demo 0",
        "demo 0 1 1",
    ] {
        expect_ending(
            &words,
            &demo_over(alloc, words)?,
            Status::Usage,
            b"",
            USAGE.as_bytes(),
        )?;
    }
    Ok(())
}

/// The cells of all `size` lines.
fn cells_in(text: &str) -> u64 {
    let mut cells = 0u64;
    'lines: for line in text.lines() {
        if line.starts_with("size ") {
            let count = line
                .split_whitespace()
                .last()
                .and_then(|word| word.parse::<u64>().ok());
            cells = cells.saturating_add(count.unwrap_or(0));
        }
    }
    cells
}

#[test]
fn passes_a_million_packets(rt: HostRuntime) -> Result<(), Fail> {
    let alloc = rt.alloc();
    let ending = demo_over(alloc, "demo 7 1000000")?;
    assert_eq!(rt; ending.status, Status::Done);
    let text = String::from_utf8(Vec::from_slice(alloc, ending.out.sent())?)?;
    assert!(rt; text.lines().any(|line| line == "packets 1000000"));
    assert_eq!(rt; cells_in(&text), 32);
    let again = demo_over(alloc, "demo 7 1000000")?;
    assert_eq!(rt; again.out.sent(), ending.out.sent());
    Ok(())
}
