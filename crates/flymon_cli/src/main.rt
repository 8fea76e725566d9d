//! The program `flymon`: `run` over the real files, registers and streams.
#![tactic(auto)]

use flymon_engine::run;
use fm_io::{RealFiles, RealOut};
use reg_file::RamFile;
use std::process::ExitCode;
use std::{env, io};

/// The words of the command line cannot be had, for want of memory or for another cause.
const NO_MEMORY: u8 = 9;

const NO_WORDS: u8 = 11;

fn main(rt: HostRuntime) -> ExitCode {
    match words(rt) {
        Ok(words) => {
            let mut files = RealFiles::new(rt.alloc(), rt);
            let mut regs = RamFile::new();
            let mut out = RealOut::new(rt.stdout());
            let mut err = RealOut::new(rt.stderr());
            let status = run(
                rt.alloc(),
                &words,
                &mut files,
                &mut regs,
                &mut out,
                &mut err,
            );
            ExitCode::from(status.code())
        }
        Err(error) if error.kind() == io::ErrorKind::OutOfMemory => ExitCode::from(NO_MEMORY),
        Err(_) => ExitCode::from(NO_WORDS),
    }
}

/// The words behind the program's own name.
fn words(rt: HostRuntime) -> io::Result<Vec<String>> {
    let mut words = Vec::new(rt.alloc());
    for word in env::args(&rt)?.skip(1) {
        words.push(word)?;
    }
    Ok(words)
}
