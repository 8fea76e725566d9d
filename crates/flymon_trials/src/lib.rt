//! What the tests across crates share: captures of small packets, and runs of the program over objects in memory.
//! Nothing here is claimed by a contract: the tests that use it say what they expect.
#![tactic(auto)]

mod calls;
mod captures;
mod runs;
mod switches;

pub use calls::{ADD_ONE, additions};
pub use captures::{FIRST, SECOND, Sent, THIRD, big_capture_of, capture_of, capture_of_packets};
pub use runs::{
    Ending, FLIGHT, LIMITS, Limits, PROFILED, REPLAY, ROOM, SCRIPT, Session, WAYS, WORDS,
    expect_done, expect_done_on, expect_done_over, expect_ending, profiled_files, run_failing,
    run_over, session_files,
};
pub use switches::{ONE_ARRAY, THREE_GROUPS, THREE_TASKS, THREE_TASKS_OUT};
