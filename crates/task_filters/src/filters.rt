//! A filter matches the vectors that have its value under its mask.
ghost use Rattle.std.specs.Prelude.{◌≡◌, ◌≤◌, ◌↔◌, IsTrue, IfOk, Ok, length};
ghost use Rattle.key_mask.specs.Bytes.{and_bytes};
ghost use Rattle.task_filters.specs.Filters.{Pattern, IsFilter, IsVector, Matches, passes, AreDisjoint, are_disjoint};
ghost use Rattle.task_filters.specs.Printing.{filter_text, longest_filter};
ghost use Rattle.task_filters.specs.Terms.{filter_in, is_canonical_filter};

use crate::terms::terms_of;
use key_mask::{FieldFault, KEY_BYTES, KeyVec, Line, Mask, eight_at, put_items, xor_of};
use std::marker::Model;

/// The value that the bits of a mask must have.
#[derive(Clone, Copy, Debug, PartialEq, Eq)]
pub struct Filter {
    value: KeyVec,
    mask: Mask,
}

impl Model for Filter {
    ghost use Rattle.task_filters.specs.Filters.{Pattern, IsFilter};

    ghost Value = { Pattern };

    ghost view = { λ f. record { value = f.value; mask = f.mask } };

    ghost invariant = { λ f. IsFilter (record { value = f.value; mask = f.mask }) };

    ghost inverse = { λ pattern. record { value = pattern.value; mask = pattern.mask } };
}

impl Filter {
    /// The filter that the text writes: `all`, which every vector matches, or items with commas
    /// between, each `FIELD:VALUE`, for an address with `/` and a prefix or without. Bits of an
    /// address past its prefix count as 0.
    #[tactic(auto, using(key_mask::proofs::BytesLemmas::and_bytes_twice))]
    pub fn parse(text: &[u8]) -> Result<Filter, FieldFault>
        ensures { result ≡ filter_in text.now }
    {
        let terms = terms_of(text)?;
        Ok(Filter {
            value: terms.value.masked(&terms.mask),
            mask: terms.mask,
        })
    }

    /// The canonical text of the filter, which is read as it: `all`, or its fields in their order.
    #[tactic(auto, unfolding(crate::specs::Printing::filter_text))]
    pub fn put(&self) -> Line
        ensures text { result.bytes ≡ filter_text self.now }
        ensures again { filter_in result.bytes ≡ Ok self.now }
        ensures canonical { IsTrue (is_canonical_filter result.bytes) }
        ensures short { length result.bytes ≤ longest_filter }
        ensures keeps { IsFilter self.now }
    {
        if self.mask.is_empty() {
            let mut line = Line::new();
            line.push_str("all");
            return line;
        }
        put_items(&self.mask, Some(&self.value))
    }

    /// The value, 0 in each bit outside the mask.
    pub fn value(&self) -> &KeyVec
        ensures value { result.now ≡ self.now.value }
        ensures keeps { IsFilter self.now }
        ensures vector { IsVector result.now }
    {
        &self.value
    }

    /// The bits that it looks at.
    pub fn mask(&self) -> &Mask
        ensures value { result.now ≡ self.now.mask }
        ensures keeps { IsFilter self.now }
    {
        &self.mask
    }

    /// Whether the vector has the filter's value under its mask.
    pub fn matches(&self, vec: &KeyVec) -> bool
        ensures exact { IsTrue result ↔ Matches self.now vec.now }
        ensures test { result ≡ passes self.now vec.now }
    {
        leaves(&vec.0, self.mask.bytes(), &self.value.0)
    }

    /// Whether no vector matches both filters.
    #[tactic(auto, using(crate::proofs::FilterLemmas::none_in_both, crate::proofs::FilterLemmas::told_apart))]
    pub fn disjoint(&self, other: &Filter) -> bool
        ensures exact { IsTrue result ↔ AreDisjoint self.now other.now }
        ensures test { result ≡ are_disjoint self.now other.now }
    {
        differ(&self.value, &self.mask, &other.value, &other.mask)
    }
}

/// Whether the values differ in a bit of both masks.
#[tactic(auto, unfolding(crate::specs::Filters::are_disjoint))]
fn differ(one: &KeyVec, one_mask: &Mask, two: &KeyVec, two_mask: &Mask) -> bool
    ensures { let first : Pattern = record { value = one.now; mask = one_mask.now } in
        let second : Pattern = record { value = two.now; mask = two_mask.now } in
        result ≡ are_disjoint first second }
{
    let apart = KeyVec(xor_of(&one.0, &two.0));
    let both = apart.masked(one_mask).masked(two_mask);
    both.0.iter().any(|byte| *byte != 0)
}

/// Whether the mask leaves this value of the bytes, which are looked at eight at a time.
fn leaves(bytes: &[u8; KEY_BYTES], mask: &[u8; KEY_BYTES], value: &[u8; KEY_BYTES]) -> bool
    ensures { IsTrue result ↔ (and_bytes bytes.now mask.now ≡ value.now) }
{
    'eights: for eight in 0..KEY_BYTES / 8 {
        let at = 8 * eight;
        if eight_at(bytes, at) & eight_at(mask, at) != eight_at(value, at) {
            return false;
        }
    }
    true
}

#[cfg(test)]
mod tests {
    use super::Filter;
    use key_mask::{FieldFault, FieldKind, KeyVec};
    use std::test::Fail;

    // over TCP from 10.0.0.20 to port 80 of 10.128.0.1
    const PACKET: KeyVec = KeyVec([
        10, 0, 0, 20, 10, 128, 0, 1, 4, 210, 0, 80, 6, 0, 8, 0, // ports, protocol and type too
        0, 0, 0, 0, 0, 0, 0, 0, 0, 0, 0, 0, 0, 0, 0, 0, // no IPv6 source
        0, 0, 0, 0, 0, 0, 0, 0, 0, 0, 0, 0, 0, 0, 0, 0,
    ]);

    // over UDP from 2001:db8::1 to port 53 of fe80::2:0:ff
    const PACKET6: KeyVec = KeyVec([
        0, 0, 0, 0, 0, 0, 0, 0, 4, 210, 0, 53, 17, 0, 0x86, 0xdd, // no IPv4 address
        0x20, 1, 0x0d, 0xb8, 0, 0, 0, 0, 0, 0, 0, 0, 0, 0, 0, 1, // its source
        0xfe, 0x80, 0, 0, 0, 0, 0, 0, 0, 0, 0, 2, 0, 0, 0, 0xff,
    ]);

    fn parsed(text: &[u8]) -> Result<Filter, Fail> {
        Ok(Filter::parse(text).ok().ok_or("a filter")?)
    }

    #[test]
    fn filters_match_packets(rt: HostRuntime) -> Result<(), Fail> {
        let rows: [(&[u8], bool, bool); 14] = [
            (b"all", true, true),
            (b"src_ip:10.1.2.3/8", true, false),
            (b"src_ip:10.0.0.21", false, false),
            (b"src_ip:10.0.0.21/31,dst_ip:10.255.0.0/9", true, false),
            (b"ethertype:0x0800,proto:006", true, false),
            (b"ethertype:0x86dD", false, true),
            (b"dst_port:00080,src_port:1234,tos:0", true, false),
            (b"dst_port:80,proto:17", false, false),
            (b"src_port:1234", true, true),
            (b"src_ip6:2001:db8::/32", false, true),
            (b"src_ip6:2001:DB8::2/127", false, false),
            (b"src_ip6:2001:DB8::/127,proto:17", false, true),
            (b"dst_ip6:fe80::2:0:ff", false, true),
            (b"dst_ip6:fe80::2:0:fe", false, false),
        ];
        for (text, matched, matched6) in rows {
            let filter = parsed(text)?;
            assert_eq!(rt; filter.matches(&PACKET), matched);
            assert_eq!(rt; filter.matches(&PACKET6), matched6);
        }
        Ok(())
    }

    #[test]
    fn filters_share_vectors(rt: HostRuntime) -> Result<(), Fail> {
        let rows: [(&[u8], &[u8], bool); 8] = [
            (b"all", b"proto:6", false),
            (b"proto:6", b"proto:17", true),
            (b"src_ip:10.0.0.0/8", b"src_ip:10.0.0.20", false),
            (b"src_ip:10.0.0.0/9", b"src_ip:10.128.0.0/9", true),
            (b"src_ip:10.0.0.0/9", b"src_ip:10.128.0.0/8", false),
            (b"src_port:80", b"dst_port:81", false),
            (b"src_ip6:1::/16", b"src_ip6:2::/16", true),
            (b"dst_ip6:1::/15", b"dst_ip6:1::8", false),
        ];
        for (one, two, apart) in rows {
            let (one, two) = (parsed(one)?, parsed(two)?);
            assert_eq!(rt; one.disjoint(&two), apart);
            assert_eq!(rt; two.disjoint(&one), apart);
        }
        Ok(())
    }

    #[test]
    fn faults_name_the_first_item(rt: HostRuntime) {
        let rows: [(&[u8], FieldKind, usize); 24] = [
            (b"", FieldKind::UnknownField, 0),
            (b"ttl:1,tos:1,proto:6", FieldKind::UnknownField, 0),
            (b"tos:1,Proto:6,src_port:80", FieldKind::UnknownField, 6),
            (b"tos:1,proto:6,", FieldKind::UnknownField, 14),
            (b"tos:1,all", FieldKind::UnknownField, 6),
            (b"tos:1,tos:2,proto:6", FieldKind::RepeatedField, 6),
            (b"tos:1,proto:6,tos:1,ttl:1", FieldKind::RepeatedField, 14),
            (b"tos:1,proto:6,proto", FieldKind::RepeatedField, 14),
            (b"src_ip:1.2.3.4/33,ttl:1", FieldKind::BadPrefix, 0),
            (b"src_ip:1.2.3.4/0,tos:1", FieldKind::BadPrefix, 0),
            (b"tos:1,proto:6/8,src_port:80", FieldKind::BadPrefix, 6),
            (b"tos:1,dst_ip:1.2.3/,ttl:1", FieldKind::BadPrefix, 6),
            (
                b"tos:1,proto:6,dst_ip:1.2.3.4/8/9",
                FieldKind::BadPrefix,
                14,
            ),
            (b"tos:1,proto:6,dst_ip:1.2.3.4/+8", FieldKind::BadPrefix, 14),
            (b"tos:1,src_ip6:::/129", FieldKind::BadPrefix, 6),
            (b"tos:1,src_ip6:::/0", FieldKind::BadPrefix, 6),
            (b"tos,proto:6", FieldKind::BadValue, 0),
            (b"tos:1,src_ip6:1::2::3/8", FieldKind::BadValue, 6),
            (b"tos:1,dst_ip6:10.0.0.1", FieldKind::BadValue, 6),
            (b"ethertype:2048,tos:1", FieldKind::BadValue, 0),
            (b"tos:1,src_port:65536,proto:6", FieldKind::BadValue, 6),
            (b"tos:1,src_ip:/8,ttl:1", FieldKind::BadValue, 6),
            (b"tos:1,proto:6,ethertype:0X0800", FieldKind::BadValue, 14),
            (
                b"tos:1,proto:6,dst_ip:1.2.3.256/24",
                FieldKind::BadValue,
                14,
            ),
        ];
        for (text, kind, place) in rows {
            assert_eq!(rt; Filter::parse(text), Err(FieldFault { kind, place }));
        }
    }

    #[test]
    fn ipv6_addresses_of_filters(rt: HostRuntime) -> Result<(), Fail> {
        let good: [&[u8]; 8] = [
            b"src_ip6:2001:db8::1",
            b"src_ip6:::",
            b"src_ip6:::1",
            b"src_ip6:1::",
            b"src_ip6:1::/1",
            b"dst_ip6:1:2:3:4:5:6:7:8",
            b"dst_ip6:0001:2:3::FFFF:7:8/128",
            b"dst_ip6:1:2:3:4:5:6:7::",
        ];
        for text in good {
            assert!(rt; Filter::parse(text).is_ok());
        }
        let bad: [&[u8]; 11] = [
            b"src_ip6:",
            b"src_ip6:1::2::3",
            b"src_ip6:1:::2",
            b"src_ip6:1:2:3:4:5:6:7",
            b"src_ip6:1:2:3:4:5:6:7:8:9",
            b"src_ip6:1:2:3:4:5:6:7:8::",
            b"dst_ip6:1:2:3:4::5:6:7:8",
            b"dst_ip6:12345::",
            b"dst_ip6:::ffff:10.0.0.1",
            b"dst_ip6:10.0.0.1",
            b"dst_ip:::1",
        ];
        for text in bad {
            let fault = FieldFault {
                kind: FieldKind::BadValue,
                place: 0,
            };
            assert_eq!(rt; Filter::parse(text), Err(fault));
        }
        Ok(())
    }

    #[test]
    fn filters_print_in_one_spelling(rt: HostRuntime) -> Result<(), Fail> {
        let rows: [(&[u8], &str); 10] = [
            (b"all", "all"),
            (b"src_ip:10.1.2.3/8", "src_ip:10.0.0.0/8"),
            (b"dst_ip:010.1.2.003/32", "dst_ip:10.1.2.3"),
            (b"src_ip6:2001:db8::/32", "src_ip6:2001:db8:0:0:0:0:0:0/32"),
            (b"dst_ip6:::/128", "dst_ip6:0:0:0:0:0:0:0:0"),
            (b"src_ip6:FFFF::abcd/17", "src_ip6:ffff:0:0:0:0:0:0:0/17"),
            (
                b"dst_ip6:1:02:003:0004:5:6:7:8/127,tos:9",
                "tos:9,dst_ip6:1:2:3:4:5:6:7:8/127",
            ),
            (b"proto:006,ethertype:0x86DD", "proto:6,ethertype:0x86dd"),
            (
                b"tos:0,dst_port:65535,src_port:00080",
                "src_port:80,dst_port:65535,tos:0",
            ),
            (
                b"ethertype:0x0800,src_ip:255.255.255.255/1",
                "src_ip:128.0.0.0/1,ethertype:0x0800",
            ),
        ];
        for (text, canonical) in rows {
            let filter = parsed(text)?;
            assert_eq!(rt; filter.put().as_str(), canonical);
            assert_eq!(rt; Filter::parse(canonical.as_bytes()), Ok(filter));
        }
        Ok(())
    }
}
