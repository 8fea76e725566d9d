//! What tasks answer, and what they refuse.
use flymon_trials::{FIRST, SECOND, Sent, Session, expect_done};
use std::test::Fail;

/// Packets from 10.0.0.1 whose lengths come to more than 2^32-1.
const LONG: [Sent; 3] = [
    Sent {
        source: 1,
        flags: 2,
        length: 4_294_967_294,
    },
    Sent {
        source: 1,
        flags: 2,
        length: 5,
    },
    Sent {
        source: 1,
        flags: 2,
        length: 1,
    },
];

/// An acknowledged SYN from 10.0.0.1.
const ANSWERED: Sent = Sent {
    source: 1,
    flags: 0x12,
    length: 54,
};

/// A task of each kind that is built.
const KINDS: [Session; 16] = [
    (
        "add b cms 1 key=src_ip attr=bytes filter=all memory=32\n\
packets 1\nquery b src_ip:10.0.0.1\npackets 1\nquery b src_ip:10.0.0.1\npackets 1\nquery b src_ip:10.0.0.1\n",
        &LONG,
        "added b\npackets 1\nquery b 4294967294\npackets 1\nquery b 4294967295\npackets 1\nquery b 4294967295\n",
    ),
    (
        "add f flag_and 1 key=src_ip attr=flags filter=proto:6 memory=32\n\
query f src_ip:10.0.0.1\nrun\nquery f src_ip:10.0.0.1\nread f\n",
        &[FIRST, ANSWERED],
        "added f\nquery f 4294967295\npackets 2\nquery f 2\nread f rows 1 size 32 start 4294967295\ncell 0 18 2\nend\n",
    ),
    (
        "add f flag_or 2 key=src_ip attr=flags filter=all memory=32\nrun\nquery f src_ip:10.0.0.1\nread f\n",
        &[FIRST, ANSWERED],
        "added f\npackets 2\nquery f 18\nread f rows 2 size 32 start 0\ncell 0 18 18\ncell 1 19 18\nend\n",
    ),
    (
        "add b bloom 2 key=src_ip attr=flow filter=all memory=32\nrun\nread b\n",
        &[FIRST],
        "added b\npackets 1\nread b rows 2 size 32 start 0\ncell 0 18 1024\ncell 1 19 131072\nend\n",
    ),
    (
        "add m mrac 1 key=src_ip attr=packets filter=all memory=32\ndist m\nrun\ndist m\n",
        &[FIRST, FIRST, SECOND],
        "added m\ndist m\nsize 0 cells 32\nend\npackets 3\n\
dist m\nsize 0 cells 30\nsize 1 cells 1\nsize 2 cells 1\nend\n",
    ),
    (
        "add h hll 1 key=src_ip attr=flow filter=all memory=32\ncard h\n",
        &[],
        "added h\ncard h zeros 32 z 274877906944 raw 22\n",
    ),
    (
        "add x sumax_max 1 key=src_ip attr=bytes filter=all memory=32\nrun\nread x\n",
        &[FIRST],
        "added x\npackets 1\nread x rows 1 size 32 start 0\ncell 0 18 54\nend\n",
    ),
    (
        "add x sumax_max 2 key=src_ip attr=ttl filter=all memory=1024\nrun\nquery x src_ip:10.0.0.1\n",
        &[FIRST, FIRST],
        "added x\npackets 2\nquery x 64\n",
    ),
    (
        "add dests hll 1 key=dst_ip attr=flow filter=all memory=64\ncard dests\nrun\ncard dests\n",
        &[FIRST, FIRST, FIRST],
        "added dests\ncard dests zeros 64 z 549755813888 raw 45\npackets 3\n\
card dests zeros 63 z 543313362944 raw 45\n",
    ),
    (
        "add flows cms 3 key=src_ip,dst_ip,src_port,dst_port,proto attr=packets filter=proto:6 memory=256\n\
packets 2\nread flows\nrun\n",
        &[FIRST, FIRST, FIRST],
        "added flows\npackets 2\nread flows rows 3 size 256 start 0\ncell 0 24 2\ncell 1 214 2\ncell 2 103 2\nend\n\
packets 1\n",
    ),
    (
        "add flows cms 3 key=src_ip,dst_ip,src_port,dst_port,proto attr=packets filter=proto:6 memory=512\n\
run\nread flows\nquery flows proto:6,dst_port:80,src_port:1024,dst_ip:192.168.1.1,src_ip:10.0.0.1\n",
        &[FIRST],
        "added flows\npackets 1\nread flows rows 3 size 512 start 0\ncell 0 49 1\ncell 1 428 1\ncell 2 207 1\nend\n\
query flows 1\n",
    ),
    (
        "add s sumax_sum 3 key=src_ip attr=bytes filter=all memory=32\n\
packets 1\nquery s src_ip:10.0.0.1\npackets 1\nquery s src_ip:10.0.0.1\npackets 1\nquery s src_ip:10.0.0.1\n",
        &LONG,
        "added s\npackets 1\nquery s 4294967294\npackets 1\nquery s 4294967295\npackets 1\nquery s 4294967295\n",
    ),
    (
        "add h hll 1 key=dst_ip attr=flow filter=all memory=16\ncard h\n",
        &[],
        "refused add h bad memory 16\nrefused card h unknown\n",
    ),
    (
        "add h cms 1 key=dst_ip attr=packets filter=all memory=2048\nadd h cms 1 key=dst_ip attr=packets filter=all memory=0\n",
        &[],
        "refused add h bad memory 2048\nrefused add h bad memory 0\n",
    ),
    (
        "add h hll 1 key=src_ip attr=flow filter=all memory=128\ncard h\n",
        &[],
        "added h\ncard h zeros 128 z 1099511627776 raw 91\n",
    ),
    (
        "add h hll 1 key=src_ip attr=flow filter=all memory=1024\ncard h\n",
        &[],
        "added h\ncard h zeros 1024 z 8796093022208 raw 737\n",
    ),
];

#[test]
fn answers_by_the_kind(rt: HostRuntime) -> Result<(), Fail> {
    for session in KINDS {
        expect_done(rt.alloc(), session)?;
    }
    Ok(())
}

/// Packets that a filter matches, and packets that are taken and not counted.
const FILTERS: [Session; 6] = [
    (
        "add inner bloom 2 key=src_ip attr=flow filter=src_ip:10.0.0.0/8 memory=64\n\
packets 2\nrun\nquery inner src_ip:10.0.0.1\nquery inner src_ip:10.0.0.2\n",
        &[FIRST, FIRST, FIRST],
        "added inner\npackets 2\npackets 1\nquery inner yes\nquery inner no\n",
    ),
    (
        "add u cms 1 key=src_ip attr=packets filter=proto:17 memory=32\nrun\nread u\nquery u src_ip:10.0.0.1\n",
        &[FIRST, SECOND],
        "added u\npackets 2\nread u rows 1 size 32 start 0\nend\nquery u 0\n",
    ),
    (
        "add u flag_and 2 key=src_ip attr=flags filter=proto:17 memory=32\nrun\nread u\nquery u src_ip:10.0.0.1\n",
        &[FIRST],
        "added u\npackets 1\nread u rows 2 size 32 start 4294967295\nend\nquery u 4294967295\n",
    ),
    (
        "add u hll 1 key=dst_ip attr=flow filter=proto:17 memory=64\nrun\ncard u\n",
        &[FIRST],
        "added u\npackets 1\ncard u zeros 64 z 549755813888 raw 45\n",
    ),
    (
        "add u bloom 1 key=src_ip attr=flow filter=src_ip:11.0.0.0/8 memory=64\nrun\nquery u src_ip:10.0.0.1\n",
        &[FIRST],
        "added u\npackets 1\nquery u no\n",
    ),
    (
        "add w cms 1 key=src_ip attr=packets filter=src_ip:10.0.0.2,dst_port:80,ethertype:0x0800 memory=32\n\
run\nread w\n",
        &[FIRST, SECOND, FIRST],
        "added w\npackets 3\nread w rows 1 size 32 start 0\ncell 0 1 1\nend\n",
    ),
];

#[test]
fn counts_what_the_filter_matches(rt: HostRuntime) -> Result<(), Fail> {
    for session in FILTERS {
        expect_done(rt.alloc(), session)?;
    }
    Ok(())
}

/// Refused commands, commands in other layouts, and commands that ask for more packets than are left.
const OTHERS: [Session; 5] = [
    (
        "add hot cms 1 key=src_ip attr=packets filter=all memory=32\nrun\n\
query hot dst_ip:10.0.0.1\ncard hot\ndist cold\nfrozen hot\nresize hot memory=100\n",
        &[FIRST, FIRST, SECOND, FIRST],
        "added hot\npackets 4\nrefused query hot bad key\nrefused card hot no answer\n\
refused dist cold unknown\nrefused frozen hot nothing frozen\nrefused resize hot bad memory 100\n",
    ),
    (
        "add hot cms 1 key=src_ip attr=packets filter=all memory=32\n\
query hot src_ip:10.0.0.1/31\nquery hot all\nquery cold all\ndist hot\nread cold\nfrozen cold\ncard cold\nread hot\n",
        &[],
        "added hot\nrefused query hot bad key\nrefused query hot bad key\nrefused query cold unknown\n\
refused dist hot no answer\nrefused read cold unknown\nrefused frozen cold unknown\nrefused card cold unknown\n\
read hot rows 1 size 32 start 0\nend\n",
    ),
    (
        "# hot\r\n\tadd  hot cms 01 key=src_ip/32 attr=packets filter=all memory=032 \r\n\nrun\r\nquery hot\tsrc_ip:010.0.00.1",
        &[FIRST, SECOND, FIRST],
        "added hot\npackets 3\nquery hot 2\n",
    ),
    (
        "add m mrac 1 key=src_ip attr=packets filter=all memory=32\nquery m dst_ip:10.0.0.1\ncard m\n",
        &[],
        "added m\nrefused query m no answer\nrefused card m no answer\n",
    ),
    (
        "add hot cms 1 key=src_ip attr=packets filter=all memory=32\n\
packets 0\npackets 2\npackets 5\npackets 1\nrun\nquery hot src_ip:10.0.0.1\n",
        &[FIRST, FIRST, SECOND, FIRST],
        "added hot\npackets 0\npackets 2\npackets 2\npackets 0\npackets 0\nquery hot 3\n",
    ),
];

#[test]
fn carries_out_each_command(rt: HostRuntime) -> Result<(), Fail> {
    for session in OTHERS {
        expect_done(rt.alloc(), session)?;
    }
    Ok(())
}
