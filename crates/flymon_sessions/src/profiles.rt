//! Profiles at fault, and hash keys.
use flymon_engine::Status;
use flymon_trials::{
    LIMITS, Limits, PROFILED, ROOM, capture_of, expect_ending, profiled_files, run_over,
};
use reg_file::RamFile;
use std::test::Fail;

/// Profiles, and what the message says of them.
const FAULTS: [(&str, &str); 16] = [
    ("version = 1", "missing groups"),
    (
        "version = 1\ngroups = 13\ncmus = 1\nunits = 1\nlog_registers = 5\n",
        "out of range groups",
    ),
    ("=", "not toml"),
    ("", "missing version"),
    ("version = \"1\"\n", "wrong type version"),
    ("version = 3\n", "out of range version"),
    (
        "version = 1\ngroups = 0\ncmus = 1\nunits = 1\nlog_registers = 5\n",
        "out of range groups",
    ),
    (
        "version = 1\ngroups = \"3\"\ncmus = 1\nunits = 1\nlog_registers = 5\n",
        "wrong type groups",
    ),
    (
        "version = 1\ngroups = 1\ncmus = 5\nunits = 5\nlog_registers = 5\n",
        "out of range cmus",
    ),
    (
        "version = 1\ngroups = 1\ncmus = 1\nunits = 1\n",
        "missing log_registers",
    ),
    (
        "version = 1\ngroups = 1\ncmus = 1\nunits = 1\nlog_registers = 17\n",
        "out of range log_registers",
    ),
    (
        "version = 1\ngroups = 1\ncmus = 1\nunits = 1\nlog_registers = 5\nhash_key = 1\n",
        "wrong type hash_key",
    ),
    (
        "version = 1\ngroups = 1\ncmus = 1\nunits = 1\nlog_registers = 5\nhash_key = \"6d5a\"\n",
        "bad hash key",
    ),
    ("version = 2\n", "missing log_blocks"),
    (
        "version = 2\nlog_blocks = 11\ngroup = []\n",
        "out of range log_blocks",
    ),
    (
        "version = 2\nlog_blocks = 5\ngroup = 1\n",
        "wrong type group",
    ),
];

#[test]
fn names_the_fault_of_a_profile(rt: HostRuntime) -> Result<(), Fail> {
    let alloc = rt.alloc();
    for (profile, fault) in FAULTS {
        let mut message = String::from_str(alloc, "bad profile: ")?;
        message.push_str(fault)?;
        message.push_str("\n")?;
        for words in PROFILED {
            let files = profiled_files(alloc, profile, b"rum\n", capture_of(alloc, &[])?)?;
            let ending = run_over(alloc, words, files, &mut RamFile::new(), LIMITS)?;
            expect_ending(
                &(words, profile),
                &ending,
                Status::BadProfile,
                b"",
                message.as_bytes(),
            )?;
        }
    }
    assert_eq!(rt; Status::BadProfile.code(), 3);
    Ok(())
}

#[test]
fn judges_long_profiles(rt: HostRuntime) -> Result<(), Fail> {
    let alloc = rt.alloc();
    let limits = Limits {
        piece: 4096,
        room: ROOM,
        err_room: ROOM,
    };
    for (blank, message) in [
        (65_536usize, "bad profile: missing version\n"),
        (65_537, "bad profile: too long\n"),
    ] {
        let mut profile = String::new(alloc);
        'blanks: for _ in 0..blank {
            profile.push_str(" ")?;
        }
        for words in PROFILED {
            let files = profiled_files(alloc, &profile, b"run\n", capture_of(alloc, &[])?)?;
            let ending = run_over(alloc, words, files, &mut RamFile::new(), limits)?;
            expect_ending(
                &(words, blank),
                &ending,
                Status::BadProfile,
                b"",
                message.as_bytes(),
            )?;
        }
    }
    Ok(())
}
