//! Tasks that are resized, removed and released while packets pass.
use flymon_trials::{
    FIRST, ONE_ARRAY, Session, THREE_TASKS, THREE_TASKS_OUT, expect_done, expect_done_on,
};
use std::test::Fail;

/// On one array: a task that is resized to its own size and released; one that is removed and added again; small tasks.
const CHANGES: [Session; 3] = [
    (
        "add t cms 1 key=src_ip attr=packets filter=all memory=16\npackets 1\n\
resize t memory=16\nread t\nfrozen t\nresize t memory=16\nrelease t\nresize t memory=16\nfrozen t\n\
release t\nrelease t\n",
        &[FIRST],
        "added t\npackets 1\nresized t\nread t rows 1 size 16 start 0\nend\n\
frozen t rows 1 size 16 start 0\ncell 0 9 1\nend\nrefused resize t frozen held\nreleased t\nresized t\n\
frozen t rows 1 size 16 start 0\nend\nreleased t\nrefused release t nothing frozen\n",
    ),
    (
        "stat\nadd t cms 1 key=src_ip attr=packets filter=all memory=32\nrun\nremove t\nstat\n\
add t cms 1 key=src_ip attr=packets filter=all memory=32\nread t\nremove u\nresize u memory=1\nrelease u\n",
        &[FIRST],
        "stat groups 1 arrays 1\ngroup 0 units -\narray 0 free 32 largest 32 live 0\nend\n\
added t\npackets 1\nremoved t\n\
stat groups 1 arrays 1\ngroup 0 units -\narray 0 free 32 largest 32 live 0\nend\n\
added t\nread t rows 1 size 32 start 0\nend\nrefused remove u unknown\nrefused resize u unknown\n\
refused release u unknown\n",
    ),
    (
        "add h hll 1 key=dst_ip attr=flow filter=all memory=8\n\
add h hll 1 key=dst_ip attr=flow filter=all memory=16\ncard h\nresize h memory=8\n",
        &[],
        "refused add h bad memory 8\nadded h\ncard h zeros 16 z 137438953472 raw 10\nrefused resize h bad memory 8\n",
    ),
];

#[test]
fn changes_tasks(rt: HostRuntime) -> Result<(), Fail> {
    let alloc = rt.alloc();
    expect_done(
        alloc,
        (THREE_TASKS, &[FIRST, FIRST, FIRST], THREE_TASKS_OUT),
    )?;
    for session in CHANGES {
        expect_done_on(alloc, ONE_ARRAY, session)?;
    }
    Ok(())
}
