//! Packets before different groups at once: in which order they make their operations, and what tasks count.
use flymon_engine::Status;
use flymon_trials::{
    Ending, FIRST, LIMITS, ONE_ARRAY, PROFILED, SECOND, Sent, THREE_GROUPS, additions,
    capture_of_packets, expect_ending, profiled_files, run_over,
};
use reg_file::TraceFile;
use std::alloc::{AllocError, Global};
use std::process::Abort;
use std::test::Fail;

/// Arrays and addresses of operations, each of which adds one packet.
pub(crate) type Places = &'static [(u32, u32)];

/// A session on the switch of a profile: what it writes, and its operations where packets pass one after another and
/// where they are in flight.
#[derive(Clone, Copy)]
struct Schedule {
    profile: &'static str,
    script: &'static str,
    packets: &'static [Sent],
    out: &'static str,
    replayed: Places,
    flown: Places,
}

/// All packets pass at the end.
const AT_THE_END: Schedule = Schedule {
    profile: THREE_GROUPS,
    script: "add a cms 3 key=src_ip attr=packets filter=all memory=32\nrun\n",
    packets: &[FIRST, SECOND, FIRST],
    out: "added a\npackets 3\n",
    replayed: &[
        (0, 18),
        (1, 19),
        (2, 11),
        (0, 1),
        (1, 12),
        (2, 3),
        (0, 18),
        (1, 19),
        (2, 11),
    ],
    flown: &[
        (0, 18),
        (1, 19),
        (0, 1),
        (2, 11),
        (1, 12),
        (2, 3),
        (0, 18),
        (1, 19),
        (2, 11),
    ],
};

/// Commands that take no packet move none.
const NONE_TAKEN: Schedule = Schedule {
    script: "add a cms 3 key=src_ip attr=packets filter=all memory=32\npackets 1\npackets 0\npackets 2\nrun\n",
    out: "added a\npackets 1\npackets 0\npackets 2\npackets 0\n",
    ..AT_THE_END
};

/// A packet that has not passed group 0 at the resize counts in the old cells.
const RESIZED: Schedule = Schedule {
    profile: THREE_GROUPS,
    script: "add a cms 1 key=src_ip attr=packets filter=all memory=16\npackets 1\n\
resize a memory=16\nrun\nread a\nfrozen a\n",
    packets: &[FIRST, FIRST, SECOND],
    out: "added a\npackets 1\nresized a\npackets 2\nread a rows 1 size 16 start 0\ncell 0 0 1\ncell 0 9 1\nend\n\
frozen a rows 1 size 16 start 0\ncell 0 9 1\nend\n",
    replayed: &[(0, 9), (0, 25), (0, 16)],
    flown: &[(0, 9), (0, 25), (0, 16)],
};

/// Two packets that stand before groups 1 and 0 at the resize count in the old cells of all rows.
const RESIZED_ROWS: Schedule = Schedule {
    profile: THREE_GROUPS,
    script: "add a cms 3 key=src_ip attr=packets filter=all memory=16\npackets 2\n\
resize a memory=16\npackets 1\nread a\nfrozen a\n",
    packets: &[FIRST, SECOND, FIRST],
    out: "added a\npackets 2\nresized a\npackets 1\n\
read a rows 3 size 16 start 0\ncell 0 9 1\ncell 1 9 1\ncell 2 5 1\nend\n\
frozen a rows 3 size 16 start 0\ncell 0 0 1\ncell 0 9 1\ncell 1 6 1\ncell 1 9 1\ncell 2 1 1\ncell 2 5 1\nend\n",
    replayed: &[
        (0, 9),
        (1, 9),
        (2, 5),
        (0, 0),
        (1, 6),
        (2, 1),
        (0, 25),
        (1, 25),
        (2, 21),
    ],
    flown: &[
        (0, 9),
        (1, 9),
        (0, 0),
        (2, 5),
        (1, 6),
        (2, 1),
        (0, 25),
        (1, 25),
        (2, 21),
    ],
};

/// A task takes the registers of one whose packet is still before group 0 when it is removed.
const REMOVED: Schedule = Schedule {
    profile: ONE_ARRAY,
    script: "add a cms 1 key=src_ip attr=packets filter=all memory=32\nrun\nremove a\n\
add b cms 1 key=src_ip attr=packets filter=all memory=32\nread b\n",
    packets: &[FIRST],
    out: "added a\npackets 1\nremoved a\nadded b\nread b rows 1 size 32 start 0\nend\n",
    replayed: &[(0, 18)],
    flown: &[(0, 18)],
};

/// Two packets stand before groups 1 and 0 at the remove, and move on with the third, which no task counts. They pass
/// to the end at the add, before its registers are filled: the new task counts the fourth packet alone.
const REMOVED_ROWS: Schedule = Schedule {
    profile: THREE_GROUPS,
    script: "add a cms 3 key=src_ip attr=packets filter=all memory=32\npackets 2\nremove a\npackets 1\n\
add b cms 3 key=src_ip attr=packets filter=all memory=32\nread b\nrun\nread b\n",
    packets: &[FIRST, SECOND, FIRST, SECOND],
    out: "added a\npackets 2\nremoved a\npackets 1\nadded b\nread b rows 3 size 32 start 0\nend\n\
packets 1\nread b rows 3 size 32 start 0\ncell 0 1 1\ncell 1 12 1\ncell 2 3 1\nend\n",
    replayed: &[
        (0, 18),
        (1, 19),
        (2, 11),
        (0, 1),
        (1, 12),
        (2, 3),
        (0, 1),
        (1, 12),
        (2, 3),
    ],
    flown: &[
        (0, 18),
        (1, 19),
        (0, 1),
        (2, 11),
        (1, 12),
        (2, 3),
        (0, 1),
        (1, 12),
        (2, 3),
    ],
};

/// Aborts unless the session writes and makes what it is to in each way.
fn expect_schedule(rt: &impl Abort, alloc: Global, schedule: &Schedule) -> Result<(), Fail> {
    'ways: for words in PROFILED {
        let capture = capture_of_packets(alloc, schedule.packets)?;
        let script = schedule.script.as_bytes();
        let files = profiled_files(alloc, schedule.profile, script, capture)?;
        let mut regs = TraceFile::new(alloc, 16, Vec::new(alloc))?;
        let ending = run_over(alloc, words, files, &mut regs, LIMITS)?;
        let case = (words, schedule.script);
        let out = schedule.out.as_bytes();
        expect_ending(&case, &ending, Status::Done, out, b"")?;
        let flown = words.starts_with("flight");
        let places = if flown {
            schedule.flown
        } else {
            schedule.replayed
        };
        let calls = additions(alloc, places)?;
        assert_eq!(rt; regs.calls(), Some(calls.as_slice()), "at {case:?}");
    }
    Ok(())
}

#[test]
fn passes_groups_in_turn(rt: HostRuntime) -> Result<(), Fail> {
    for schedule in [
        AT_THE_END,
        NONE_TAKEN,
        RESIZED,
        RESIZED_ROWS,
        REMOVED,
        REMOVED_ROWS,
    ] {
        expect_schedule(&rt, rt.alloc(), &schedule)?;
    }
    Ok(())
}

/// The operations of four packets where a read-out stands behind the second and behind the third: all have passed then.
const ASKED: Places = &[
    (0, 18),
    (1, 19),
    (2, 11),
    (0, 1),
    (1, 12),
    (2, 3),
    (0, 18),
    (1, 19),
    (2, 11),
    (0, 1),
    (1, 12),
    (2, 3),
];

/// The same where a change stands there: the second change has those pass that entered before the first.
const CHANGED: Places = &[
    (0, 18),
    (1, 19),
    (0, 1),
    (2, 11),
    (1, 12),
    (2, 3),
    (0, 18),
    (1, 19),
    (2, 11),
    (0, 1),
    (1, 12),
    (2, 3),
];

/// The same where nothing stands there.
const UNASKED: Places = &[
    (0, 18),
    (1, 19),
    (0, 1),
    (2, 11),
    (1, 12),
    (0, 18),
    (2, 3),
    (1, 19),
    (2, 11),
    (0, 1),
    (1, 12),
    (2, 3),
];

/// Commands that leave the task as it is, and the operations where they stand behind the second and the third packet.
const BETWEEN: [(&str, Places); 12] = [
    ("", UNASKED),
    ("packets 0\n", UNASKED),
    ("show\n", ASKED),
    ("stat\n", ASKED),
    ("read a\n", ASKED),
    ("query a src_ip:10.0.0.1\n", ASKED),
    ("frozen a\n", ASKED),
    ("card b\n", ASKED),
    (
        "add a cms 1 key=src_ip attr=packets filter=all memory=32\n",
        CHANGED,
    ),
    ("resize a memory=3\n", CHANGED),
    ("remove b\n", CHANGED),
    ("release a\n", CHANGED),
];

/// A session of four packets with this command behind the second and behind the third.
fn run_between(alloc: Global, command: &str, regs: &mut TraceFile) -> Result<Ending, AllocError> {
    let mut script = String::from_str(
        alloc,
        "add a cms 3 key=src_ip attr=packets filter=all memory=32\npackets 2\n",
    )?;
    script.push_str(command)?;
    script.push_str("packets 1\n")?;
    script.push_str(command)?;
    script.push_str("run\n")?;
    let capture = capture_of_packets(alloc, &[FIRST, SECOND, FIRST, SECOND])?;
    let files = profiled_files(alloc, THREE_GROUPS, script.as_bytes(), capture)?;
    run_over(alloc, PROFILED[1], files, regs, LIMITS)
}

#[test]
fn passes_at_commands(rt: HostRuntime) -> Result<(), Fail> {
    let alloc = rt.alloc();
    for (command, places) in BETWEEN {
        let mut regs = TraceFile::new(alloc, 16, Vec::new(alloc))?;
        let ending = run_between(alloc, command, &mut regs)?;
        assert_eq!(rt; ending.status, Status::Done, "at {command:?}");
        let calls = additions(alloc, places)?;
        assert_eq!(rt; regs.calls(), Some(calls.as_slice()), "at {command:?}");
    }
    Ok(())
}
