//! Scripts, with what the text of their format says of them.
use crate::commands::{Command, LineFault, ParseFail, ScriptFault};
use crate::printing::put_command;
use crate::script::{SCRIPT_LIMIT, parse_script};
use key_mask::{Field, mask_of};
use pkt_headers::Attr;
use sketch_defs::{Kind, Name, Task};
use std::alloc::Global;
use std::test::Fail;
use task_filters::Filter;

pub(crate) fn fail_of(alloc: Global, text: &[u8]) -> Option<ParseFail> {
    match parse_script(alloc, text) {
        Ok(_) => None,
        Err(fail) => Some(fail),
    }
}

pub(crate) fn fault(line: u32, kind: LineFault) -> Option<ParseFail> {
    Some(ParseFail::Fault(ScriptFault { line, kind }))
}

#[test]
fn long_scripts(rt: HostRuntime) -> Result<(), Fail> {
    // each line is empty, and the byte too many would be none of a command
    let mut text = vec![in rt.alloc(); b'\n'; SCRIPT_LIMIT]?;
    assert_eq!(rt; fail_of(rt.alloc(), &text), None);
    text.push(0)?;
    assert_eq!(rt; text.len(), 1_048_577);
    assert_eq!(rt; fail_of(rt.alloc(), &text), fault(0, LineFault::TooLong));
    Ok(())
}

#[test]
fn layouts_of_lines(rt: HostRuntime) {
    let rows: [(&[u8], &[Command]); 20] = [
        (b"", &[]),
        (b"\n", &[]),
        (b"\r", &[]),
        (b"\n \t \r\n\t\n\r\n", &[]),
        (b"#", &[]),
        (b"# \x00\x01\x7f\x80\xff\n", &[]),
        (b"\t #\xff", &[]),
        (b"run", &[Command::Run]),
        (b"run\n", &[Command::Run]),
        (b"run\r\n", &[Command::Run]),
        (b"run\r", &[Command::Run]),
        (b"\t show \t\n stat\t\r\n", &[Command::Show, Command::Stat]),
        (b"#run\nshow\n\n#\n", &[Command::Show]),
        (b"#\r\r\n\nrun\n#", &[Command::Run]),
        (
            b"run\nrun\nshow\nrun",
            &[Command::Run, Command::Run, Command::Show, Command::Run],
        ),
        (b"packets \t 12\n", &[Command::Packets(12)]),
        (b"packets\t0", &[Command::Packets(0)]),
        (b"packets 0000000012", &[Command::Packets(12)]),
        (b"packets 4294967295", &[Command::Packets(4_294_967_295)]),
        (
            b"packets 4294967294\r\n",
            &[Command::Packets(4_294_967_294)],
        ),
    ];
    for (text, want) in rows {
        match parse_script(rt.alloc(), text) {
            Ok(commands) => assert_eq!(rt; commands.as_slice(), want),
            Err(_) => assert!(rt; false),
        }
    }
}

#[test]
fn each_command(rt: HostRuntime) -> Result<(), Fail> {
    let name = Name::parse(b"abcdefghijklmn_0").ok_or("a name")?;
    let key = mask_of(&[(Field::Proto, 8), (Field::SrcIp, 24)]).ok_or("a key")?;
    let every = Filter::parse(b"all").ok().ok_or("a filter")?;
    let tcp = Filter::parse(b"proto:6").ok().ok_or("a filter")?;
    let task = Task::new(name, Kind::SumaxMax, 4, key, Attr::Ttl, tcp, u32::MAX);
    let task = task.ok().ok_or("a task")?;
    let rows: [(&[u8], Command); 14] = [
        (
            b"add\tabcdefghijklmn_0 sumax_max 04  key=proto,src_ip/24 attr=ttl filter=proto:006 memory=4294967295",
            Command::Add(task),
        ),
        (
            b"resize abcdefghijklmn_0 memory=0",
            Command::Resize { name, size: 0 },
        ),
        (b"remove abcdefghijklmn_0", Command::Remove(name)),
        (b"release abcdefghijklmn_0", Command::Release(name)),
        (b"packets 7", Command::Packets(7)),
        (b"run", Command::Run),
        (b"read abcdefghijklmn_0", Command::Read(name)),
        (b"frozen abcdefghijklmn_0", Command::Frozen(name)),
        (
            b"query abcdefghijklmn_0 all",
            Command::Query { name, at: every },
        ),
        (
            b"query abcdefghijklmn_0 proto:6",
            Command::Query { name, at: tcp },
        ),
        (b"dist abcdefghijklmn_0", Command::Dist(name)),
        (b"card abcdefghijklmn_0", Command::Card(name)),
        (b"show", Command::Show),
        (b"stat", Command::Stat),
    ];
    for (text, want) in rows {
        match parse_script(rt.alloc(), text) {
            Ok(commands) => assert_eq!(rt; commands.as_slice(), [want].as_slice()),
            Err(_) => assert!(rt; false),
        }
    }
    Ok(())
}

/// Each kind with the most rows that it allows, and an attribute that it allows.
const KINDS: [(&[u8], Kind, u32, Attr); 12] = [
    (b"cms 4 key=tos attr=packets", Kind::Cms, 4, Attr::Packets),
    (b"cms 1 key=tos attr=ttl", Kind::Cms, 1, Attr::Ttl),
    (
        b"sumax_sum 4 key=tos attr=bytes",
        Kind::SumaxSum,
        4,
        Attr::Bytes,
    ),
    (
        b"sumax_max 4 key=tos attr=ttl",
        Kind::SumaxMax,
        4,
        Attr::Ttl,
    ),
    (b"bloom 4 key=tos attr=flow", Kind::Bloom, 4, Attr::Flow),
    (b"mrac 1 key=tos attr=packets", Kind::Mrac, 1, Attr::Packets),
    (b"mrac 1 key=tos attr=bytes", Kind::Mrac, 1, Attr::Bytes),
    (b"mrac 1 key=tos attr=ttl", Kind::Mrac, 1, Attr::Ttl),
    (b"hll 1 key=tos attr=flow", Kind::Hll, 1, Attr::Flow),
    (
        b"flag_or 4 key=tos attr=flags",
        Kind::FlagOr,
        4,
        Attr::Flags,
    ),
    (
        b"flag_and 4 key=tos attr=flags",
        Kind::FlagAnd,
        4,
        Attr::Flags,
    ),
    (
        b"flag_and 0000000001 key=tos attr=flags",
        Kind::FlagAnd,
        1,
        Attr::Flags,
    ),
];

#[test]
fn each_kind(rt: HostRuntime) -> Result<(), Fail> {
    for (parts, kind, rows, attr) in KINDS {
        let mut text = Vec::new(rt.alloc());
        text.extend_from_slice(b"add t ")?;
        text.extend_from_slice(parts)?;
        text.extend_from_slice(b" filter=all memory=32")?;
        match parse_script(rt.alloc(), &text) {
            Ok(commands) => match commands.first() {
                Some(Command::Add(task)) => {
                    assert_eq!(rt; task.kind(), kind);
                    assert_eq!(rt; task.rows(), rows);
                    assert_eq!(rt; task.attr(), attr);
                    assert_eq!(rt; task.size(), 32);
                }
                _ => assert!(rt; false),
            },
            Err(_) => assert!(rt; false),
        }
    }
    Ok(())
}

#[test]
fn scripts_print_in_one_spelling(rt: HostRuntime) -> Result<(), Fail> {
    let rows: [(&[u8], &str); 2] = [
        (
            b"add t cms 01 key=dst_ip6/064,src_ip6/128 attr=ttl filter=src_ip6:2001:db8::/32 memory=032",
            "add t cms 1 key=src_ip6,dst_ip6/64 attr=ttl filter=src_ip6:2001:db8:0:0:0:0:0:0/32 memory=32",
        ),
        (
            b"query\tt  dst_ip6:FE80::1\r\n",
            "query t dst_ip6:fe80:0:0:0:0:0:0:1",
        ),
    ];
    for (text, canonical) in rows {
        match parse_script(rt.alloc(), text) {
            Ok(commands) => {
                assert_eq!(rt; commands.len(), 1);
                let command = commands.first().ok_or("a command")?;
                assert_eq!(rt; put_command(command).as_str(), canonical);
            }
            Err(_) => assert!(rt; false),
        }
    }
    Ok(())
}
