//! The file system, and a writer.
use fm_io::{Failed, Files, RealFiles, RealOut, read_whole, write_whole};
use std::fs;
use std::test::Fail;

#[test]
fn reads_a_file_back(rt: HostRuntime) -> Result<(), Fail> {
    let alloc = rt.alloc();
    let bytes = b"run\n\x00\xff\x80";
    fs::write(&rt, "flymon_device_script", bytes)?;
    let mut files = RealFiles::new(alloc, rt);
    assert_eq!(rt; files.attach(2, "flymon_device_no_such_file"), Err(Failed));
    files.attach(1, "flymon_device_script")?;
    assert_eq!(rt;
        read_whole(alloc, &mut files, 1, 100)?.as_slice(),
        bytes.as_slice()
    );
    fs::remove_file(&rt, "flymon_device_script")?;
    Ok(())
}

#[test]
fn writes_to_a_writer(rt: HostRuntime) -> Result<(), Fail> {
    let mut bytes = Vec::new(rt.alloc());
    write_whole(&mut RealOut::new(&mut bytes), b"packets 4\n")?;
    assert_eq!(rt; bytes.as_slice(), b"packets 4\n".as_slice());
    Ok(())
}
