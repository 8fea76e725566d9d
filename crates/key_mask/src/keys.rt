//! Keys as texts: which fields a key has, and how much of each.
ghost use Rattle.std.specs.Prelude.{◌≡◌, ◌≢◌, ◌≤◌, length, IfOk, IsTrue, Ok};
ghost use Rattle.key_mask.specs.Masks.{AreLengths, no_lengths};
ghost use Rattle.key_mask.specs.Keys.{with_item, key_in, key_text, is_canonical_key, longest_key};

use crate::items::{FieldFault, FieldKind, FromItems, field_of, prefix_of, read_items};
use crate::masks::Mask;
use crate::printing::{Line, put_items};
use texts::cut;

impl FromItems for Mask {
    ghost item_in = { with_item };

    #[tactic(auto, unfolding(crate::specs::Keys::with_item))]
    fn with_item(&self, item: &[u8]) -> Result<Mask, FieldKind> {
        let (name, behind) = cut(item, b'/');
        let field = field_of(name).ok_or(FieldKind::UnknownField)?;
        if self.length(field) != 0 {
            return Err(FieldKind::RepeatedField);
        }
        let prefix = prefix_of(field, behind).ok_or(FieldKind::BadPrefix)?;
        Ok(self.with(field, prefix))
    }
}

/// The mask of a key: items with commas between, each a field's name, for an address with `/` and
/// a prefix of 1 bit up to the whole address or without.
#[tactic(auto, unfolding(crate::specs::Keys::key_in))]
pub fn parse_key(text: &[u8]) -> Result<Mask, FieldFault>
    ensures value { result ≡ key_in text.now }
    ensures stands { IfOk result (λ mask. mask ≢ no_lengths) }
{
    read_items(text, Mask::empty())
}

/// The canonical key of a mask in which some field stands: the fields in their order with commas
/// between, and no prefix where an address is whole.
pub fn put_key(mask: &Mask) -> Line
    requires { mask.now ≢ no_lengths }
    ensures text { result.bytes ≡ key_text mask.now }
    ensures again { key_in result.bytes ≡ Ok mask.now }
    ensures canonical { IsTrue (is_canonical_key result.bytes) }
    ensures short { length result.bytes ≤ longest_key }
    ensures known { AreLengths mask.now }
{
    put_items(mask, None)
}

#[cfg(test)]
mod tests {
    use super::{parse_key, put_key};
    use crate::fields::Field;
    use crate::items::{FieldFault, FieldKind};
    use crate::masks::mask_of;
    use std::test::Fail;

    #[test]
    fn keys_name_fields(rt: HostRuntime) -> Result<(), Fail> {
        let rows: [(&[u8], &[(Field, u32)]); 6] = [
            (b"src_ip", &[(Field::SrcIp, 32)]),
            (b"tos,dst_ip/9", &[(Field::DstIp, 9), (Field::Tos, 8)]),
            (
                b"src_port,dst_port",
                &[(Field::SrcPort, 16), (Field::DstPort, 16)],
            ),
            (
                b"src_ip/01,ethertype,proto",
                &[(Field::EtherType, 16), (Field::Proto, 8), (Field::SrcIp, 1)],
            ),
            (
                b"dst_ip6/128,src_ip6/064",
                &[(Field::SrcIp6, 64), (Field::DstIp6, 128)],
            ),
            (
                b"src_ip6/33,src_ip",
                &[(Field::SrcIp, 32), (Field::SrcIp6, 33)],
            ),
        ];
        for (text, parts) in rows {
            let mask = mask_of(parts).ok_or("the parts of a mask")?;
            assert_eq!(rt; parse_key(text), Ok(mask));
        }
        Ok(())
    }

    #[test]
    fn faults_name_the_first_item(rt: HostRuntime) {
        let rows: [(&[u8], FieldKind, usize); 18] = [
            (b"", FieldKind::UnknownField, 0),
            (b"ttl,tos,proto", FieldKind::UnknownField, 0),
            (b"tos,Proto,src_ip", FieldKind::UnknownField, 4),
            (b"tos,proto,", FieldKind::UnknownField, 10),
            (b"src_ip7", FieldKind::UnknownField, 0),
            (b"tos,tos,proto", FieldKind::RepeatedField, 4),
            (b"src_ip/8,tos,src_ip/9,ttl", FieldKind::RepeatedField, 13),
            (b"tos,proto,dst_ip,tos/8", FieldKind::RepeatedField, 17),
            (b"src_ip/33,ttl", FieldKind::BadPrefix, 0),
            (b"src_ip/0,tos", FieldKind::BadPrefix, 0),
            (b"tos,src_port/16,proto", FieldKind::BadPrefix, 4),
            (b"tos,dst_ip/,dst_ip", FieldKind::BadPrefix, 4),
            (b"tos,proto,dst_ip/008", FieldKind::BadPrefix, 10),
            (b"tos,proto,dst_ip/+8", FieldKind::BadPrefix, 10),
            (b"tos,proto,dst_ip/8/9", FieldKind::BadPrefix, 10),
            (b"tos,src_ip6/129", FieldKind::BadPrefix, 4),
            (b"tos,src_ip6/0", FieldKind::BadPrefix, 4),
            (b"tos,dst_ip6/0064", FieldKind::BadPrefix, 4),
        ];
        for (text, kind, place) in rows {
            assert_eq!(rt; parse_key(text), Err(FieldFault { kind, place }));
        }
    }

    #[test]
    fn keys_print_in_field_order(rt: HostRuntime) -> Result<(), Fail> {
        let rows: [(&[u8], &str); 8] = [
            (b"src_ip", "src_ip"),
            (b"dst_ip/32", "dst_ip"),
            (b"tos,src_ip/08", "src_ip/8,tos"),
            (b"dst_ip/1,src_ip/31", "src_ip/31,dst_ip/1"),
            (
                b"ethertype,proto,dst_port,src_port",
                "src_port,dst_port,proto,ethertype",
            ),
            (
                b"ethertype,tos,proto,dst_port,src_port,dst_ip/10,src_ip/24",
                "src_ip/24,dst_ip/10,src_port,dst_port,proto,tos,ethertype",
            ),
            (b"src_ip6/032", "src_ip6/32"),
            (
                b"dst_ip6/128,src_ip6/127,ethertype",
                "ethertype,src_ip6/127,dst_ip6",
            ),
        ];
        for (text, canonical) in rows {
            let Ok(mask) = parse_key(text) else {
                return Err("a key".into());
            };
            assert_eq!(rt; put_key(&mask).as_str(), canonical);
            assert_eq!(rt; parse_key(canonical.as_bytes()), Ok(mask));
        }
        Ok(())
    }
}
