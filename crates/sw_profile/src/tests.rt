//! Profiles of both versions, their faults as they are printed, and want of memory.
use crate::faults::ProfileFail;
use crate::profiles::{Profile, default_profile};
use crate::reading::read_profile;
use addr_translate::{GroupShape, Shape};
use hash_units::standard;
use std::alloc::Global;
use std::test::Fail;

/// The fault of a text, as it is printed.
fn fault_in(alloc: Global, text: &[u8]) -> Result<String, Fail> {
    match read_profile(alloc, text) {
        Err(ProfileFail::Fault(fault)) => Ok(format!(in alloc; "{fault}")?),
        _ => Err("no fault")?,
    }
}

fn profile_in(alloc: Global, text: &[u8]) -> Result<Profile, Fail> {
    match read_profile(alloc, text) {
        Ok(profile) => Ok(profile),
        Err(_) => Err("no profile")?,
    }
}

const FAULTS: [(&[u8], &str); 17] = [
    (b"version = 1", "missing groups"),
    (
        b"version = 1\ngroups = 13\ncmus = 1\nunits = 1\nlog_registers = 5\n",
        "out of range groups",
    ),
    (b"=", "not toml"),
    (b"version = 1\nversion = 1\n", "not toml"),
    (b"version = 1 # \xff", "not toml"),
    (b"", "missing version"),
    (b"version = 3", "out of range version"),
    (b"version = -1", "out of range version"),
    (b"version = 1.0", "wrong type version"),
    // the first key at fault is told, wherever it stands
    (
        b"cmus = 5\nversion = 1\ngroups = 0\nunits = 1\n",
        "out of range groups",
    ),
    (b"version = 1\ngroups = \"3\"\n", "wrong type groups"),
    (
        b"version = 1\ngroups = 1\ncmus = 1\nunits = 1\nhash_key = 1\n",
        "missing log_registers",
    ),
    (
        b"version = 1\ngroups = 1\ncmus = 1\nunits = 1\nlog_registers = 5\nhash_key = 1\n",
        "wrong type hash_key",
    ),
    (
        b"version = 2\nlog_blocks = 5\ngroup = 1\n",
        "wrong type group",
    ),
    (
        b"version = 2\nlog_blocks = 5\ngroup = []\n",
        "out of range group",
    ),
    (
        b"version = 2\nlog_blocks = 5\ngroup = [{}, 1]\n",
        "wrong type group",
    ),
    (
        b"version = 2\nlog_blocks = 10\n[[group]]\ncmus = 1\nunits = 4\nlog_registers = 20\n\
        [[group]]\ncmus = 1\nunits = 5\n",
        "out of range units",
    ),
];

#[test]
fn faults(rt: HostRuntime) -> Result<(), Fail> {
    for (text, want) in FAULTS {
        assert_eq!(rt; fault_in(rt.alloc(), text)?.as_str(), want);
    }
    Ok(())
}

/// The default key, with digits of both cases.
const KEYED: &[u8] = b"version = 1\ngroups = 1\ncmus = 4\nunits = 2\nlog_registers = 16\n\
    hash_key = \"6D5A56DA255B0EC24167253D43A38FB0D0CA2BCBAE7B30B477CB\
    2da38030f20c6a42b73bbeac01fa6d5a56da255b0ec24167253D\"\n";

/// One digit fewer.
const SHORT_KEY: &[u8] = b"version = 1\ngroups = 1\ncmus = 4\nunits = 2\nlog_registers = 16\n\
    hash_key = \"6D5A56DA255B0EC24167253D43A38FB0D0CA2BCBAE7B30B477CB\
    2da38030f20c6a42b73bbeac01fa6d5a56da255b0ec24167253\"\n";

/// A letter that is no digit.
const ODD_KEY: &[u8] = b"version = 1\ngroups = 1\ncmus = 4\nunits = 2\nlog_registers = 16\n\
    hash_key = \"6D5A56DA255B0EC24167253D43A38FB0D0CA2BCBAE7B30B477CB\
    2da38030f20c6a42b73bbeac01fa6d5a56da255b0ec24167253G\"\n";

/// Two groups that differ, and a key that is all zeros but for its first byte.
const GROUPED: &[u8] = b"version = 2\nlog_blocks = 10\nname = \"two groups\"\n\
    hash_key = \"8000000000000000000000000000000000000000000000000000\
    0000000000000000000000000000000000000000000000000000\"\n\n\
    [[group]]\ncmus = 1\nunits = 1\nlog_registers = 5\n\n\
    [[group]]\nlog_registers = 20\ncmus = 4\nunits = 2\n";

#[test]
fn hash_keys(rt: HostRuntime) -> Result<(), Fail> {
    let keyed = profile_in(rt.alloc(), KEYED)?;
    assert!(rt; keyed.key == standard());
    assert_eq!(rt; fault_in(rt.alloc(), SHORT_KEY)?.as_str(), "bad hash key");
    assert_eq!(rt; fault_in(rt.alloc(), ODD_KEY)?.as_str(), "bad hash key");
    Ok(())
}

#[test]
fn too_long(rt: HostRuntime) -> Result<(), Fail> {
    let mut text = vec![in rt.alloc(); b' '; 65_536]?;
    assert_eq!(rt; fault_in(rt.alloc(), &text)?.as_str(), "missing version");
    text.push(b' ')?;
    assert_eq!(rt; fault_in(rt.alloc(), &text)?.as_str(), "too long");
    Ok(())
}

#[test]
fn profiles_of_both_versions(rt: HostRuntime) -> Result<(), Fail> {
    let usual = b"version = 1\ngroups = 3\ncmus = 3\nunits = 3\nlog_registers = 10\n";
    assert!(rt; profile_in(rt.alloc(), usual)? == default_profile());
    assert_eq!(rt; default_profile().shape.arrays(), 9);

    let one = GroupShape {
        cmus: 1,
        units: 1,
        bits: 5,
    };
    let two = GroupShape {
        cmus: 4,
        units: 2,
        bits: 20,
    };
    let grouped = profile_in(rt.alloc(), GROUPED)?;
    assert!(rt; grouped.shape == Shape::of(&[one, two], 10));
    assert_eq!(rt; (grouped.key.0[0], grouped.key.0[51]), (128, 0));

    let equal = b"group = [{cmus = 1, units = 1, log_registers = 5}, \
        {log_registers = 5, units = 1, cmus = 1}]\nlog_blocks = 5\nversion = 2\n";
    let first = b"version = 1\ngroups = 2\ncmus = 1\nunits = 1\nlog_registers = 5\n";
    assert!(rt; profile_in(rt.alloc(), equal)? == profile_in(rt.alloc(), first)?);
    Ok(())
}

/// A text without a fault is not told to have one, also where memory runs out.
#[test]
fn memory_is_no_fault(rt: HostRuntime) {
    let text = b"version = 2\nlog_blocks = 5\n[[group]]\ncmus = 1\nunits = 1\nlog_registers = 5\n";
    let right = match read_profile(rt.alloc(), text) {
        Ok(profile) => profile.shape.arrays() == 1,
        Err(ProfileFail::Memory) => true,
        Err(ProfileFail::Fault(_)) => false,
    };
    assert!(rt; right);
}
