//! The values of a field, as they are read.
ghost use Rattle.std.specs.Prelude.{◌≡◌};
ghost use Rattle.key_mask.specs.Spellings.{value_in};

use crate::fields::{Field, ValueKind};
use crate::ipv6::ipv6_of;
use crate::numbers::{address_of, hex_of, number_of};

/// The value of the field that the text writes: `A.B.C.D` for an IPv4 address, the most significant
/// number first, groups with `:` between for an IPv6 address, `0x` and four hexadecimal digits for
/// an EtherType, decimal digits for others.
pub fn value_of(field: Field, text: &[u8]) -> Option<u128>
    ensures { result ≡ value_in field text.now }
{
    match field.kind() {
        ValueKind::Ipv4 => address_of(text).map(u128::from),
        ValueKind::Port => number_of(text, 5, 65535).map(u128::from),
        ValueKind::Byte => number_of(text, 3, 255).map(u128::from),
        ValueKind::Hex => hex_of(text).map(u128::from),
        ValueKind::Ipv6 => ipv6_of(text),
    }
}

#[cfg(test)]
mod tests {
    use super::value_of;
    use crate::fields::Field;

    #[test]
    fn values_of_fields(rt: HostRuntime) {
        let rows: [(Field, &[u8], Option<u128>); 12] = [
            (Field::SrcIp, b"10.0.0.20", Some(0x0a00_0014)),
            (Field::SrcIp, b"10.0.0.256", None),
            (Field::DstIp, b"255.255.255.255", Some(0xffff_ffff)),
            (Field::DstIp, b"1.2.3", None),
            (Field::SrcPort, b"00080", Some(80)),
            (Field::SrcPort, b"", None),
            (Field::DstPort, b"65536", None),
            (Field::Proto, b"255", Some(255)),
            (Field::Tos, b"256", None),
            (Field::EtherType, b"0x86dD", Some(0x86dd)),
            (Field::EtherType, b"0X0800", None),
            (Field::EtherType, b"2048", None),
        ];
        for (field, text, value) in rows {
            assert_eq!(rt; value_of(field, text), value);
        }
    }

    #[test]
    fn ipv6_addresses(rt: HostRuntime) {
        let rows: [(&[u8], u128); 11] = [
            (b"2001:db8::1", 0x2001_0db8_0000_0000_0000_0000_0000_0001),
            (b"2001:DB8::1", 0x2001_0db8_0000_0000_0000_0000_0000_0001),
            (
                b"2001:0db8:0:0:0:0:0:0001",
                0x2001_0db8_0000_0000_0000_0000_0000_0001,
            ),
            (b"::", 0),
            (b"::1", 1),
            (b"1::", 0x0001_0000_0000_0000_0000_0000_0000_0000),
            (
                b"1:2:3:4:5:6:7:8",
                0x0001_0002_0003_0004_0005_0006_0007_0008,
            ),
            (b"1::3:4:5:6:7:8", 0x0001_0000_0003_0004_0005_0006_0007_0008),
            (
                b"::2:3:4:5:6:7:8",
                0x0000_0002_0003_0004_0005_0006_0007_0008,
            ),
            (
                b"1:2:3:4:5:6:7::",
                0x0001_0002_0003_0004_0005_0006_0007_0000,
            ),
            (b"FF01::101", 0xff01_0000_0000_0000_0000_0000_0000_0101),
        ];
        for (text, value) in rows {
            assert_eq!(rt; value_of(Field::SrcIp6, text), Some(value));
            assert_eq!(rt; value_of(Field::DstIp6, text), Some(value));
        }
    }

    #[test]
    fn no_ipv6_addresses(rt: HostRuntime) {
        let texts: [&[u8]; 18] = [
            b"",
            b":",
            b":::",
            b"1::2::3",
            b"1:::2",
            b"1:2:3:4:5:6:7",
            b"1:2:3:4:5:6:7:8:9",
            b"1:2:3:4:5:6:7:8::",
            b"::1:2:3:4:5:6:7:8",
            b"1:2:3:4::5:6:7:8",
            b":1:2:3:4:5:6:7",
            b"1:2:3:4:5:6:7:",
            b"12345::",
            b"::00001",
            b"::g",
            b"::ffff:10.0.0.1",
            b"::1%eth0",
            b"[::1]",
        ];
        for text in texts {
            assert_eq!(rt; value_of(Field::SrcIp6, text), None);
        }
    }
}
