//! A short session on three units.

use super::GroupKeys;
use crate::uses::KeyUse;
use key_mask::parse_key;
use std::test::Fail;

const FIRST: Option<KeyUse> = Some(KeyUse::Single { unit: 0 });

const SECOND: Option<KeyUse> = Some(KeyUse::Single { unit: 1 });

const THIRD: Option<KeyUse> = Some(KeyUse::Single { unit: 2 });

const FIRST_TWO: Option<KeyUse> = Some(KeyUse::Pair { one: 0, two: 1 });

const OUTER_TWO: Option<KeyUse> = Some(KeyUse::Pair { one: 0, two: 2 });

// a key, the units that serve it, and whether they are freed at once
const ROWS: [(&[u8], Option<KeyUse>, bool); 9] = [
    (b"src_ip", FIRST, false),
    (b"dst_ip/9", SECOND, true),
    (b"dst_ip", SECOND, false),
    (b"src_ip,dst_ip", FIRST_TWO, true),
    (b"src_ip,dst_ip", FIRST_TWO, false),
    (b"proto", THIRD, false),
    (b"src_ip", FIRST, true),
    (b"src_ip,proto", OUTER_TWO, false),
    (b"src_ip/8", None, false),
];

#[test]
fn three_units(rt: HostRuntime) -> Result<(), Fail> {
    let mut group = GroupKeys::new(3);
    assert_eq!(rt; group.unit(1), None);
    for (key, keys, freed) in ROWS {
        let mask = parse_key(key).ok().ok_or("a key")?;
        assert_eq!(rt; group.find(&mask), keys);
        assert!(rt; group.has_room());
        let served = group.serve(&mask);
        assert_eq!(rt; served, keys);
        if let Some(keys) = served
            && freed
        {
            group.free(keys);
        }
    }
    Ok(())
}
