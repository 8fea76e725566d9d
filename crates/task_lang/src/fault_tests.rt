//! Scripts at fault, with what the text of their format says of them.
use crate::commands::LineFault;
use crate::tests::{fail_of, fault};
use key_mask::{FieldFault, FieldKind};

/// A script, its first line at fault, and the fault.
type Refused = (&'static [u8], u32, LineFault);

/// Bytes before commands, commands before words, words before names and all that follows.
const LINES: [Refused; 41] = [
    (b"rum \x01 t", 1, LineFault::Byte),
    (b"run\nrun\n\nrun \x7f", 4, LineFault::Byte),
    (b"# \x80\n \x80", 2, LineFault::Byte),
    (b"run # \xff", 1, LineFault::Byte),
    (b"run\r\r\nrum", 1, LineFault::Byte),
    (b"run\n\r\r\nrum", 2, LineFault::Byte),
    (b"run\rall\n", 1, LineFault::Byte),
    (b"\x0brun\n", 1, LineFault::Byte),
    (b"rum\nrun\x00", 1, LineFault::Command),
    (b"rum T", 1, LineFault::Command),
    (b"# a\n\n \t\r\n\t #\nRun all\n", 5, LineFault::Command),
    (b"run# all", 1, LineFault::Command),
    (b"runs", 1, LineFault::Command),
    (b"ad T", 1, LineFault::Command),
    (b"run all\nrum", 1, LineFault::Words),
    (b"show #", 1, LineFault::Words),
    (b"stat T\nrum", 1, LineFault::Words),
    (b"packets\nrum", 1, LineFault::Words),
    (b"packets ten 1", 1, LineFault::Words),
    (b"remove", 1, LineFault::Words),
    (b"release T t", 1, LineFault::Words),
    (b"read T t", 1, LineFault::Words),
    (b"frozen\n", 1, LineFault::Words),
    (b"dist T t", 1, LineFault::Words),
    (b"card T t", 1, LineFault::Words),
    (b"query T", 1, LineFault::Words),
    (b"query T ttl:1 all", 1, LineFault::Words),
    (b"resize T", 1, LineFault::Words),
    (b"resize T size=x", 1, LineFault::Words),
    (b"resize T memory", 1, LineFault::Words),
    (b"resize T Memory=x", 1, LineFault::Words),
    (b"resize T memory=x t", 1, LineFault::Words),
    (b"add", 1, LineFault::Words),
    (
        b"add T cms 1 key=tos attr=ttl filter=all",
        1,
        LineFault::Words,
    ),
    (
        b"add T cms 1 key=tos attr=ttl filter=all memory=32 t",
        1,
        LineFault::Words,
    ),
    (
        b"add T x 9 tos attr=ttl filter=all memory=32",
        1,
        LineFault::Words,
    ),
    (
        b"add T x 9 key=tos ttl filter=all memory=32",
        1,
        LineFault::Words,
    ),
    (
        b"add T x 9 key=tos attr=ttl all memory=32",
        1,
        LineFault::Words,
    ),
    (
        b"add T x 9 key=tos attr=ttl filter=all 32",
        1,
        LineFault::Words,
    ),
    (
        b"add T x 9 attr=ttl key=tos filter=all memory=32",
        1,
        LineFault::Words,
    ),
    (b"# a\r\n\r\nrun all\r\nrum\r\n", 3, LineFault::Words),
];

#[test]
fn lines_at_fault(rt: HostRuntime) {
    for (text, line, kind) in LINES {
        assert_eq!(rt; fail_of(rt.alloc(), text), fault(line, kind));
    }
}

/// From the name on, each fault with a later one behind it.
const PARTS: [Refused; 32] = [
    (b"remove T\nrum", 1, LineFault::Name),
    (b"release 1t", 1, LineFault::Name),
    (b"read _t", 1, LineFault::Name),
    (b"frozen a-b", 1, LineFault::Name),
    (b"dist abcdefghijklmnopq", 1, LineFault::Name),
    (b"card tA", 1, LineFault::Name),
    (b"query T ttl:1", 1, LineFault::Name),
    (b"resize T memory=x", 1, LineFault::Name),
    (
        b"add T CMS 5 key=ttl attr=x filter=x memory=x",
        1,
        LineFault::Name,
    ),
    (
        b"add t CMS 5 key=ttl attr=x filter=x memory=x",
        1,
        LineFault::Kind,
    ),
    (
        b"add t sumax 5 key=ttl attr=x filter=x memory=x",
        1,
        LineFault::Kind,
    ),
    (
        b"add t cms 5 key=ttl attr=x filter=x memory=x",
        1,
        LineFault::Rows,
    ),
    (
        b"add t mrac 2 key=ttl attr=x filter=x memory=x",
        1,
        LineFault::Rows,
    ),
    (
        b"add t hll 2 key=ttl attr=x filter=x memory=x",
        1,
        LineFault::Rows,
    ),
    (
        b"add t bloom 0 key=ttl attr=x filter=x memory=x",
        1,
        LineFault::Rows,
    ),
    (
        b"add t cms 00000000001 key=ttl attr=x filter=x memory=x",
        1,
        LineFault::Rows,
    ),
    (
        b"add t cms 4294967297 key=ttl attr=x filter=x memory=x",
        1,
        LineFault::Rows,
    ),
    (
        b"add t cms one key=ttl attr=x filter=x memory=x",
        1,
        LineFault::Rows,
    ),
    (
        b"add t cms +1 key=ttl attr=x filter=x memory=x",
        1,
        LineFault::Rows,
    ),
    (
        b"add t cms 1 key=tos attr= filter=x memory=x",
        1,
        LineFault::Attr,
    ),
    (
        b"add t cms 1 key=tos attr=Ttl filter=x memory=x",
        1,
        LineFault::Attr,
    ),
    (
        b"add t cms 1 key=tos attr=flow filter=x memory=x",
        1,
        LineFault::Attr,
    ),
    (
        b"add t mrac 1 key=tos attr=flags filter=x memory=x",
        1,
        LineFault::Attr,
    ),
    (
        b"add t bloom 1 key=tos attr=packets filter=x memory=x",
        1,
        LineFault::Attr,
    ),
    (
        b"add t flag_or 1 key=tos attr=bytes filter=x memory=x",
        1,
        LineFault::Attr,
    ),
    (
        b"add t cms 1 key=tos attr=ttl filter=all memory=\nrum",
        1,
        LineFault::Size,
    ),
    (
        b"add t cms 1 key=tos attr=ttl filter=all memory=4294967296\nrum",
        1,
        LineFault::Size,
    ),
    (b"resize t memory=00000000032\nrum", 1, LineFault::Size),
    (b"resize t memory=0x20\nrum", 1, LineFault::Size),
    (b"packets 4294967296\nrum", 1, LineFault::Number),
    (b"packets 00000000001\nrum", 1, LineFault::Number),
    (b"run\npackets -1\nrum", 2, LineFault::Number),
];

#[test]
fn parts_at_fault(rt: HostRuntime) {
    for (text, line, kind) in PARTS {
        assert_eq!(rt; fail_of(rt.alloc(), text), fault(line, kind));
    }
}

/// Keys with a fault and a later one behind it: the fault, and how many bytes stand before its item.
const KEYS: [(&[u8], FieldKind, usize); 6] = [
    (
        b"add t cms 1 key= attr=x filter=x memory=x",
        FieldKind::UnknownField,
        0,
    ),
    (
        b"add t cms 1 key=tos,ttl,tos attr=x filter=x memory=x",
        FieldKind::UnknownField,
        4,
    ),
    (
        b"add t cms 1 key=tos,proto,tos,ttl attr=x filter=x memory=x",
        FieldKind::RepeatedField,
        10,
    ),
    (
        b"add t cms 1 key=src_ip/33,ttl attr=x filter=x memory=x",
        FieldKind::BadPrefix,
        0,
    ),
    (
        b"add t cms 1 key=tos,src_ip6/129 attr=x filter=x memory=x",
        FieldKind::BadPrefix,
        4,
    ),
    (
        b"add t cms 1 key=tos,dst_port/16 attr=x filter=x memory=x",
        FieldKind::BadPrefix,
        4,
    ),
];

#[test]
fn keys_at_fault(rt: HostRuntime) {
    for (text, kind, place) in KEYS {
        assert_eq!(rt;
            fail_of(rt.alloc(), text),
            fault(1, LineFault::Key(FieldFault { kind, place }))
        );
    }
}

/// Filters with a fault and a later one behind it: the fault, and how many bytes stand before its item.
const FILTERS: [(&[u8], FieldKind, usize); 6] = [
    (
        b"add t cms 1 key=tos attr=ttl filter= memory=x",
        FieldKind::UnknownField,
        0,
    ),
    (
        b"add t cms 1 key=tos attr=ttl filter=tos:1,all memory=x",
        FieldKind::UnknownField,
        6,
    ),
    (
        b"add t cms 1 key=tos attr=ttl filter=proto:6,tos:1,proto memory=x",
        FieldKind::RepeatedField,
        14,
    ),
    (
        b"add t cms 1 key=tos attr=ttl filter=tos:1,src_ip:x/0 memory=x",
        FieldKind::BadPrefix,
        6,
    ),
    (
        b"add t cms 1 key=tos attr=ttl filter=tos:256 memory=x",
        FieldKind::BadValue,
        0,
    ),
    (
        b"add t cms 1 key=tos attr=ttl filter=tos:1,ethertype:0X0800 memory=x",
        FieldKind::BadValue,
        6,
    ),
];

#[test]
fn filters_at_fault(rt: HostRuntime) {
    for (text, kind, place) in FILTERS {
        assert_eq!(rt;
            fail_of(rt.alloc(), text),
            fault(1, LineFault::Filter(FieldFault { kind, place }))
        );
    }
}

/// Key values with a fault, a later line with one too: the fault, and how many bytes stand before its item.
const ATS: [(&[u8], FieldKind, usize); 6] = [
    (b"query t ttl:1\nrum", FieldKind::UnknownField, 0),
    (b"query t tos:1,tos\nrum", FieldKind::RepeatedField, 6),
    (b"query t tos:1,proto:x/8\nrum", FieldKind::BadPrefix, 6),
    (b"query t dst_ip:1.2.3\nrum", FieldKind::BadValue, 0),
    (b"query t src_ip6:1::/129\nrum", FieldKind::BadPrefix, 0),
    (b"query t src_ip6:1::2::3\nrum", FieldKind::BadValue, 0),
];

#[test]
fn key_values_at_fault(rt: HostRuntime) {
    for (text, kind, place) in ATS {
        assert_eq!(rt;
            fail_of(rt.alloc(), text),
            fault(1, LineFault::At(FieldFault { kind, place }))
        );
    }
}
