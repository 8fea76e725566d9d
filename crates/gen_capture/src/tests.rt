ghost use Rattle.std.specs.Prelude.{◌≡◌, ◌≤◌, true};
ghost use Rattle.fm_io.specs.Slots.{slot_at};
ghost use Rattle.gen_capture.specs.GenFiles.{slots_of};

use super::*;
use fm_io::{Failed, Files, read_whole};
use std::alloc::Global;
use std::test::Fail;

const HEADER: &[u8; 24] =
    b"\xd4\xc3\xb2\xa1\x02\x00\x04\x00\x00\x00\x00\x00\x00\x00\x00\x00\x00\x00\x04\x00\x01\x00\x00\x00";

/// The record of the first packet behind the seed 0: 954 bytes from 10.0.0.20:1147 to 192.168.1.5:80.
const RECORD: &[u8; 70] = b"\x00\x00\x00\x00\x00\x00\x00\x00\x36\x00\x00\x00\xba\x03\x00\x00\
\x02\x00\x00\x00\x00\x02\x02\x00\x00\x00\x00\x01\x08\x00\
\x45\x00\x00\x28\x00\x00\x00\x00\x40\x06\x00\x00\x0a\x00\x00\x14\xc0\xa8\x01\x05\
\x04\x7b\x00\x50\x00\x00\x00\x00\x00\x00\x00\x00\x50\x10\x00\x00\x00\x00\x00\x00";

#[test]
fn holds_the_first_packet(rt: HostRuntime) -> Result<(), Fail> {
    let alloc = rt.alloc();
    for count in 0..2u32 {
        let mut files = GenFiles::new(0, count);
        files.attach(2, "capture")?;
        let bytes = read_whole(alloc, &mut files, 2, 1000)?;
        let mut expected = Vec::from_slice(alloc, HEADER)?;
        if count == 1 {
            expected.extend_from_slice(RECORD)?;
        }
        assert_eq!(rt; bytes.as_slice(), expected.as_slice(), "{count} packets");
    }
    Ok(())
}

/// What is left of slot 2, read one byte at a time.
fn byte_by_byte(alloc: Global, files: &mut GenFiles) -> Result<Vec<u8>, Fail>
    requires { (slot_at (slots_of files.old) 2).attached ≡ true }
{
    let mut bytes = Vec::new(alloc);
    'bytes: for _ in 0..1000 {
        let mut buf = [0u8; 1];
        if files.read(2, &mut buf)? == 0 {
            return Ok(bytes);
        }
        bytes.push(buf[0])?;
    }
    Err("no end within 1000 bytes".into())
}

#[test]
fn reads_the_same_in_pieces(rt: HostRuntime) -> Result<(), Fail> {
    let alloc = rt.alloc();
    for (name, count, size) in [
        ("script", 3u32, 377usize),
        ("capture", 0, 24),
        ("capture", 3, 234),
    ] {
        let mut files = GenFiles::new(u64::MAX, count);
        files.attach(2, name)?;
        let pieces = byte_by_byte(alloc, &mut files)?;
        files.attach(2, name)?;
        let whole = read_whole(alloc, &mut files, 2, 1000)?;
        assert_eq!(rt; whole.len(), size, "{name} of {count} packets");
        assert_eq!(rt;
            pieces.as_slice(),
            whole.as_slice(),
            "{name} of {count} packets"
        );
    }
    Ok(())
}

#[test]
fn has_two_names(rt: HostRuntime) -> Result<(), Fail> {
    let alloc = rt.alloc();
    let mut files = GenFiles::new(7, 1);
    for name in ["", "profile", "Script", "captures"] {
        assert_eq!(rt; files.attach(1, name), Err(Failed), "`{name}`");
    }
    files.attach(1, "script")?;
    let script = read_whole(alloc, &mut files, 1, 64)?;
    assert_eq!(rt;
        script.as_slice(),
        b"add load sumax_sum 3 key=src_ip attr=bytes filter=all memory=128\n".as_slice()
    );
    Ok(())
}
