//! Sessions that are carried out to their end.
use flymon_engine::Status;
use flymon_trials::{
    Limits, ROOM, SCRIPT, WORDS, big_capture_of, capture_of, expect_done_over, expect_ending,
    run_over, session_files,
};
use reg_file::RamFile;
use std::test::Fail;

#[test]
fn counts_packets_by_source(rt: HostRuntime) -> Result<(), Fail> {
    let alloc = rt.alloc();
    for piece in [1usize, 7, 4096] {
        let limits = Limits {
            piece,
            room: ROOM,
            err_room: ROOM,
        };
        for words in WORDS {
            let files = session_files(alloc, SCRIPT.as_bytes(), capture_of(alloc, &[1, 1, 2, 1])?)?;
            let ending = run_over(alloc, words, files, &mut RamFile::new(), limits)?;
            expect_ending(
                &(words, piece),
                &ending,
                Status::Done,
                b"added hot\npackets 4\nread hot rows 1 size 32 start 0\ncell 0 1 1\ncell 0 18 3\nend\nquery hot 3\n",
                b"",
            )?;
        }
    }
    Ok(())
}

#[test]
fn counts_packets_of_a_big_endian_capture(rt: HostRuntime) -> Result<(), Fail> {
    let alloc = rt.alloc();
    let capture = big_capture_of(alloc, &[1, 1, 2, 1])?;
    expect_done_over(
        alloc,
        SCRIPT,
        &capture,
        "added hot\npackets 4\nread hot rows 1 size 32 start 0\ncell 0 1 1\ncell 0 18 3\nend\nquery hot 3\n",
    )?;
    Ok(())
}

/// The record of a packet from 10.0.0.1 behind a VLAN tag, and one of no byte, whose packet had 60.
const OTHER_RECORDS: &[u8; 70] = b"\x00\x00\x00\x00\x00\x00\x00\x00\x26\x00\x00\x00\x3a\x00\x00\x00\
\x02\x00\x00\x00\x00\x02\x02\x00\x00\x00\x00\x01\x81\x00\x00\x05\x08\x00\
\x45\x00\x00\x28\x00\x00\x00\x00\x40\x06\x00\x00\x0a\x00\x00\x01\xc0\xa8\x01\x01\
\x00\x00\x00\x00\x00\x00\x00\x00\x00\x00\x00\x00\x3c\x00\x00\x00";

#[test]
fn counts_any_frame(rt: HostRuntime) -> Result<(), Fail> {
    let alloc = rt.alloc();
    let mut capture = capture_of(alloc, &[])?;
    capture.extend_from_slice(OTHER_RECORDS)?;
    // The link type is Ethernet by its low 16 bits.
    if let Some(place) = capture.get_mut(22) {
        *place = 1;
    }
    // A frame without an IPv4 header has no source, and the hash of nothing is 0.
    expect_done_over(
        alloc,
        SCRIPT,
        &capture,
        "added hot\npackets 2\nread hot rows 1 size 32 start 0\ncell 0 0 1\ncell 0 18 1\nend\nquery hot 1\n",
    )?;
    Ok(())
}

/// The record of a TCP packet from 2001:db8::1 to 2001:db8::2, 74 bytes.
const IPV6_RECORD: &[u8; 90] = b"\x00\x00\x00\x00\x00\x00\x00\x00\x4a\x00\x00\x00\x4a\x00\x00\x00\
\x02\x00\x00\x00\x00\x02\x02\x00\x00\x00\x00\x01\x86\xdd\
\x60\x00\x00\x00\x00\x14\x06\x40\
\x20\x01\x0d\xb8\x00\x00\x00\x00\x00\x00\x00\x00\x00\x00\x00\x01\
\x20\x01\x0d\xb8\x00\x00\x00\x00\x00\x00\x00\x00\x00\x00\x00\x02\
\x04\x00\x00\x50\x00\x00\x00\x00\x00\x00\x00\x00\x50\x02\x00\x00\x00\x00\x00\x00";

/// A script that counts packets by their IPv6 source, behind a filter of a prefix.
const IPV6_SCRIPT: &str =
    "add six cms 1 key=src_ip6 attr=packets filter=src_ip6:2001:db8::/32 memory=32\nrun\nread six\nquery six src_ip6:2001:DB8::1\nshow\n";

#[test]
fn counts_packets_by_ipv6_source(rt: HostRuntime) -> Result<(), Fail> {
    let alloc = rt.alloc();
    let mut capture = capture_of(alloc, &[1])?;
    capture.extend_from_slice(IPV6_RECORD)?;
    expect_done_over(
        alloc,
        IPV6_SCRIPT,
        &capture,
        "added six\npackets 2\nread six rows 1 size 32 start 0\ncell 0 8 1\nend\nquery six 1\ntasks 1\n\
task six cms 1 key=src_ip6 attr=packets filter=src_ip6:2001:db8:0:0:0:0:0:0/32 memory=32\n\
row 0 group 0 cmu 0 base 0 size 32 keys 0\nend\n",
    )?;
    Ok(())
}

#[test]
fn counts_no_packet(rt: HostRuntime) -> Result<(), Fail> {
    let alloc = rt.alloc();
    let capture = capture_of(alloc, &[])?;
    expect_done_over(
        alloc,
        SCRIPT,
        &capture,
        "added hot\npackets 0\nread hot rows 1 size 32 start 0\nend\nquery hot 0\n",
    )?;
    Ok(())
}
