//! Entries of three masks, found as a plain scan of the list finds them.

use super::Table;
use crate::entries::Entry;
use crate::operations::{Code, First, Micro, Second};
use addr_translate::Region;
use group_keys::KeyUse;
use key_mask::{KEY_BYTES, KeyVec};
use std::alloc::Global;
use std::test::Fail;
use task_filters::Filter;

const MICRO: Micro = Micro {
    code: Code::Max,
    first: First::Bit,
    second: Second::Top,
};

// of three masks, each with protocols of its own
fn entry_of(alloc: Global, number: u32, base: u32) -> Result<Entry, Fail> {
    let text = match number % 3 {
        0 => format!(in alloc; "proto:{number}")?,
        1 => format!(in alloc; "src_port:{number},proto:100")?,
        _ => format!(in alloc; "src_ip:{number}.128.0.0/9,proto:101")?,
    };
    let filter = Filter::parse(text.as_bytes()).ok().ok_or("a filter")?;
    Ok(Entry {
        row: number,
        filter,
        keys: KeyUse::Single { unit: 0 },
        region: Region { base, bits: 0 },
        micro: MICRO,
    })
}

fn put_in(table: &mut Table, entry: &Entry) -> bool {
    if table.has_room() && table.admits(&entry.filter) && !table.has_base(entry.region.base) {
        table.install(*entry);
        return true;
    }
    false
}

fn vector_of(seed: u32) -> KeyVec {
    let mut bytes = [0; KEY_BYTES];
    let protocols = [0u8, 3, 6, 9, 100, 101, 30, 31];
    bytes[0] = (seed.wrapping_mul(7) & 31) as u8;
    bytes[1] = 128;
    bytes[9] = (seed.wrapping_mul(3) & 31) as u8;
    bytes[12] = protocols[(seed & 7) as usize];
    KeyVec(bytes)
}

// of a thousand vectors how many the scan finds an entry for, and for how many the table agrees
fn agreements(table: &Table, list: &[Entry]) -> (u32, u32) {
    let mut found = 0u32;
    let mut same = 0u32;
    for seed in 0..1000u32 {
        let vec = vector_of(seed);
        let plain = list.iter().find(|entry| entry.filter.matches(&vec));
        found = found.wrapping_add(u32::from(plain.is_some()));
        same = same.wrapping_add(u32::from(table.find(&vec).copied() == plain.copied()));
    }
    (found, same)
}

// whether two tables have the same group at this place, whatever the bases are
fn have_same_group(one: &Table, two: &Table, at: usize) -> bool {
    if at >= one.mask_count() || at >= two.mask_count() {
        return false;
    }
    let left = one.mask_group(at);
    let right = two.mask_group(at);
    left.len() == right.len()
        && left
            .iter()
            .zip(right)
            .all(|(entry, other)| entry.filter == other.filter)
}

#[test]
fn groups_stand_in_order(rt: HostRuntime) -> Result<(), Fail> {
    let alloc = rt.alloc();
    let mut one = Table::new(alloc, 64)?;
    let mut two = Table::new(alloc, 64)?;
    let mut list: Vec<Entry> = Vec::new(alloc);
    for number in 0..32u32 {
        let entry = entry_of(alloc, number, number)?;
        assert!(rt; put_in(&mut one, &entry));
        list.push(entry)?;
        let again = entry_of(alloc, 31 - number, 1000 + number)?;
        assert!(rt; put_in(&mut two, &again));
    }
    assert_eq!(rt; one.mask_count(), 3);
    assert_eq!(rt; two.mask_count(), 3);
    for at in 0..3usize {
        assert!(rt; have_same_group(&one, &two, at));
    }
    let (found, same) = agreements(&one, &list);
    assert!(rt; found > 100);
    assert_eq!(rt; same, 1000);
    for base in 0..16u32 {
        if one.has_base(base * 2) {
            let gone = one.uninstall(base * 2);
            assert_eq!(rt; gone.row, base * 2);
        }
    }
    list.retain(|entry| entry.region.base % 2 == 1);
    assert_eq!(rt; one.entries().len(), 16);
    assert_eq!(rt; agreements(&one, &list).1, 1000);
    let twin = one.twin(alloc)?;
    assert_eq!(rt; agreements(&twin, &list).1, 1000);
    Ok(())
}

// an entry for packets from this port
fn port_entry(alloc: Global, port: u32) -> Result<Entry, Fail> {
    let text = format!(in alloc; "src_port:{port}")?;
    let filter = Filter::parse(text.as_bytes()).ok().ok_or("a filter")?;
    Ok(Entry {
        row: 0,
        filter,
        keys: KeyUse::Single { unit: 0 },
        region: Region {
            base: port,
            bits: 0,
        },
        micro: MICRO,
    })
}

#[test]
fn many_entries_of_one_mask(rt: HostRuntime) -> Result<(), Fail> {
    let alloc = rt.alloc();
    let mut table = Table::new(alloc, 256)?;
    let mut list: Vec<Entry> = Vec::new(alloc);
    // every other port, so that half of the vectors find none
    for number in 0..200u32 {
        let entry = port_entry(alloc, number * 2)?;
        assert!(rt; put_in(&mut table, &entry));
        list.push(entry)?;
    }
    assert_eq!(rt; table.mask_count(), 1);
    let (found, same) = agreements(&table, &list);
    assert!(rt; found > 100 && found < 900);
    assert_eq!(rt; same, 1000);
    Ok(())
}
