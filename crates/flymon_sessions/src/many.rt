//! As many tasks as there are partitions.
use flymon_engine::Status;
use flymon_trials::{
    Limits, PROFILED, WORDS, capture_of, expect_ending, profiled_files, run_over, session_files,
};
use itoa::Buffer;
use reg_file::RamFile;
use std::alloc::{AllocError, Global};
use std::test::Fail;

/// A script and what it writes.
#[derive(Drop)]
struct Lines {
    script: String,
    out: String,
}

impl Lines {
    /// Adds a task of one row whose filter is a source port, and has it answered so.
    fn add(&mut self, number: u32, size: &str, added: bool) -> Result<(), AllocError> {
        let mut buffer = Buffer::new();
        let digits = buffer.format(number);
        self.script.push_str("add t")?;
        self.script.push_str(digits)?;
        self.script
            .push_str(" cms 1 key=src_ip attr=packets filter=src_port:")?;
        self.script.push_str(digits)?;
        self.script.push_str(" memory=")?;
        self.script.push_str(size)?;
        self.script.push_str("\n")?;
        self.out
            .push_str(if added { "added t" } else { "refused add t" })?;
        self.out.push_str(digits)?;
        self.out.push_str(if added {
            "\n"
        } else {
            " no partition need 1 have 0\n"
        })
    }

    /// Removes the task of this number.
    fn remove(&mut self, number: u32) -> Result<(), AllocError> {
        let mut buffer = Buffer::new();
        let digits = buffer.format(number);
        self.script.push_str("remove t")?;
        self.script.push_str(digits)?;
        self.script.push_str("\n")?;
        self.out.push_str("removed t")?;
        self.out.push_str(digits)?;
        self.out.push_str("\n")
    }
}

/// Adds `count` tasks and one too many, and removes each, far from the one before.
fn all_tasks(alloc: Global, count: u32, size: &str) -> Result<Lines, AllocError> {
    let mut lines = Lines {
        script: String::new(alloc),
        out: String::new(alloc),
    };
    'added: for number in 0..count {
        lines.add(number, size, true)?;
    }
    lines.add(count, size, false)?;
    'removed: for step in 0..count {
        lines.remove((step as u64 * 5 % count.max(1) as u64) as u32)?;
    }
    Ok(lines)
}

const GREAT: Limits = Limits {
    piece: 65_536,
    room: 65_536,
    err_room: 100,
};

/// What the default switch tells of its use where no task is live.
const UNUSED: &str =
    "stat groups 3 arrays 9\ngroup 0 units - - -\ngroup 1 units - - -\ngroup 2 units - - -\n\
array 0 free 1024 largest 1024 live 0\narray 1 free 1024 largest 1024 live 0\n\
array 2 free 1024 largest 1024 live 0\narray 3 free 1024 largest 1024 live 0\n\
array 4 free 1024 largest 1024 live 0\narray 5 free 1024 largest 1024 live 0\n\
array 6 free 1024 largest 1024 live 0\narray 7 free 1024 largest 1024 live 0\n\
array 8 free 1024 largest 1024 live 0\nend\n";

/// One array of 1,024 registers in up to 1,024 partitions.
const FINE: &str =
    "version = 2\nlog_blocks = 10\n[[group]]\ncmus = 1\nunits = 1\nlog_registers = 10\n";

#[test]
fn serves_a_task_for_each_partition(rt: HostRuntime) -> Result<(), Fail> {
    let alloc = rt.alloc();
    let Lines {
        mut script,
        mut out,
    } = all_tasks(alloc, 288, "32")?;
    script.push_str("stat\nshow\n")?;
    out.push_str(UNUSED)?;
    out.push_str("tasks 0\nend\n")?;
    for words in WORDS {
        let files = session_files(alloc, script.as_bytes(), capture_of(alloc, &[])?)?;
        let ending = run_over(alloc, words, files, &mut RamFile::new(), GREAT)?;
        expect_ending(&words, &ending, Status::Done, out.as_bytes(), b"")?;
    }
    Ok(())
}

#[test]
fn serves_a_task_for_each_register(rt: HostRuntime) -> Result<(), Fail> {
    let alloc = rt.alloc();
    let Lines { script, out } = all_tasks(alloc, 1024, "1")?;
    for words in PROFILED {
        let files = profiled_files(alloc, FINE, script.as_bytes(), capture_of(alloc, &[])?)?;
        let ending = run_over(alloc, words, files, &mut RamFile::new(), GREAT)?;
        expect_ending(&words, &ending, Status::Done, out.as_bytes(), b"")?;
    }
    Ok(())
}
