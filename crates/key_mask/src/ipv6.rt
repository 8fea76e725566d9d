//! IPv6 addresses in texts.
ghost use Rattle.std.specs.Prelude.{◌≡◌, ◌<◌, ◌≤◌, ◌+◌, ◌-◌, ◌++◌, length, replicate, IfSome};
ghost use Rattle.std.specs.Option.{option_map};
ghost use Rattle.arrayvec.specs.ArrayVec.{array_vec_len};
ghost use Rattle.texts.specs.Cuts.{parts};
ghost use Rattle.key_mask.specs.Ipv6.{hex_after, group_in, groups_in, side_in, double_from, full_in, sides_in, eight_groups_in, groups_value, ipv6_in};

use crate::numbers::hex_digit_of;
use arrayvec::ArrayVec;
use texts::cut;

/// The groups of an address: eight of 16 bits.
type Groups = ArrayVec<u16, 8>;

/// The number that hexadecimal digits write.
fn group_number(text: &[u8]) -> Option<u32>
    requires { length text.now ≤ 4 }
    ensures value { result ≡ hex_after 0 text.now }
    ensures below { IfSome result (λ n. n < 65536) }
{
    let mut number = 0;
    'digits: for byte in text {
        number = number * 16 + hex_digit_of(*byte)?;
    }
    Some(number)
}

/// A group of 1 to 4 digits.
#[tactic(auto, using(std::proofs::lemmas::Bool::Decides::nat_tests), unfolding(crate::specs::Ipv6::group_in))]
fn group_of(text: &[u8]) -> Option<u16>
    ensures { result ≡ group_in text.now }
{
    if text.is_empty() || text.len() > 4 {
        return None;
    }
    group_number(text).map(|number| number as u16)
}

/// Groups with `:` between, at most `most` of them.
#[tactic(auto, using(crate::proofs::Ipv6ReadLemmas::reading))]
fn groups_of(text: &[u8], most: usize) -> Option<Groups>
    requires { most ≤ 8 }
    ensures value { option_map (λ v. v.items) result ≡ groups_in most (parts 58 text.now) }
    ensures few { IfSome result (λ v. array_vec_len v ≤ most) }
{
    let mut groups = Groups::new();
    let mut left = Some(text);
    'groups: while let Some(text) = left {
        if groups.len() == most {
            return None;
        }
        let (part, rest) = cut(text, b':');
        let Some(group) = group_of(part) else {
            return None;
        };
        groups.push(group);
        left = rest;
    }
    Some(groups)
}

/// One side of `::`, which may be empty.
#[tactic(auto, unfolding(crate::specs::Ipv6::side_in))]
fn side_of(text: &[u8], most: usize) -> Option<Groups>
    requires { most ≤ 8 }
    ensures value { option_map (λ v. v.items) result ≡ side_in most text.now }
    ensures few { IfSome result (λ v. array_vec_len v ≤ most) }
{
    if text.is_empty() {
        Some(Groups::new())
    } else {
        groups_of(text, most)
    }
}

/// The place of the first `::`.
fn double_of(text: &[u8]) -> Option<usize>
    ensures value { result ≡ double_from 0 text.now }
    ensures inside { IfSome result (λ at. at + 2 ≤ length text.now) }
{
    'bytes: for at in 0..text.len() {
        if text[at] == b':' && at + 1 < text.len() && text[at + 1] == b':' {
            return Some(at);
        }
    }
    None
}

/// Eight groups as one number.
fn groups_number(groups: &[u16; 8]) -> u128
    ensures { result ≡ groups_value groups.now }
{
    let mut number = 0u128;
    'groups: for group in groups {
        number = number * 65536 + u128::from(*group);
    }
    number
}

/// Two sides with zeros between.
#[tactic(auto, using(crate::proofs::Ipv6ReadLemmas::filled_is))]
fn filled(left: &[u16], right: &[u16]) -> [u16; 8]
    requires { length left.now + length right.now ≤ 7 }
    ensures { result ≡ left.now ++ (replicate (8 - length left.now - length right.now) 0 ++ right.now) }
{
    let mut groups = [0; 8];
    groups[..left.len()].copy_from_slice(left);
    groups[8 - right.len()..].copy_from_slice(right);
    groups
}

/// The eight groups of a text without `::`.
#[tactic(auto, unfolding(crate::specs::Ipv6::full_in))]
fn full(text: &[u8]) -> Option<[u16; 8]>
    ensures { result ≡ full_in text.now }
{
    let groups = groups_of(text, 8)?;
    if groups.len() != 8 {
        return None;
    }
    Some(whole(groups.as_slice()))
}

fn whole(groups: &[u16]) -> [u16; 8]
    requires { length groups.now ≡ 8 }
    ensures { result ≡ groups.now }
{
    let mut all = [0; 8];
    all.copy_from_slice(groups);
    all
}

/// The eight groups of a text that was cut at `::`.
#[tactic(auto, unfolding(crate::specs::Ipv6::sides_in))]
fn sides(before: &[u8], behind: &[u8]) -> Option<[u16; 8]>
    ensures { result ≡ sides_in before.now behind.now }
{
    let left = side_of(before, 7)?;
    let right = side_of(behind, 7 - left.len())?;
    Some(filled(left.as_slice(), right.as_slice()))
}

/// The eight groups of an address.
#[tactic(auto, unfolding(crate::specs::Ipv6::eight_groups_in))]
fn eight_groups(text: &[u8]) -> Option<[u16; 8]>
    ensures { result ≡ eight_groups_in text.now }
{
    match double_of(text) {
        Some(at) => sides(&text[..at], &text[at + 2..]),
        None => full(text),
    }
}

/// The address that a text writes.
#[tactic(auto, unfolding(crate::specs::Ipv6::ipv6_in))]
pub(crate) fn ipv6_of(text: &[u8]) -> Option<u128>
    ensures { result ≡ ipv6_in text.now }
{
    let groups = eight_groups(text)?;
    Some(groups_number(&groups))
}
