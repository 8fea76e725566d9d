//! Commands as they are parsed and printed.
use key_mask::{FieldFault, FieldKind};
use std::test::Fail;
use task_lang::{LineFault, ParseFail, ScriptFault, parse_script, put_command};

#[test]
fn prints_the_canonical_spelling(rt: HostRuntime) -> Result<(), Fail> {
    let alloc = rt.alloc();
    for (text, canonical) in [
        (
            "add  t cms 01 key=proto,src_ip/32 attr=ttl filter=ethertype:0x0800 memory=032",
            "add t cms 1 key=src_ip,proto attr=ttl filter=ethertype:0x0800 memory=32",
        ),
        (
            "\tquery t  ethertype:0xABCD,src_ip:10.01.002.3/08,proto:006\r\n",
            "query t src_ip:10.0.0.0/8,proto:6,ethertype:0xabcd",
        ),
        ("resize\tt memory=00", "resize t memory=0"),
        ("# first\n packets 0000000007 \n", "packets 7"),
    ] {
        let commands = parse_script(alloc, text.as_bytes())?;
        let command = commands.first().ok_or("a command")?;
        let printed = put_command(command);
        assert_eq!(rt; printed.as_str(), canonical);
        let again = parse_script(alloc, canonical.as_bytes())?;
        assert_eq!(rt; again.as_slice(), commands.as_slice());
    }
    Ok(())
}

#[test]
fn wants_small_letters_in_numbers(rt: HostRuntime) {
    let text = "add  t cms 01 key=proto,src_ip/32 attr=ttl filter=ethertype:0X0800 memory=032";
    let fail = match parse_script(rt.alloc(), text.as_bytes()) {
        Ok(_) => None,
        Err(fail) => Some(fail),
    };
    let place = FieldFault {
        kind: FieldKind::BadValue,
        place: 0,
    };
    let kind = LineFault::Filter(place);
    assert_eq!(rt; fail, Some(ParseFail::Fault(ScriptFault { line: 1, kind })));
}
