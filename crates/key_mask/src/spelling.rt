//! The values of a field, as they are printed: one canonical spelling each.
ghost use Rattle.std.specs.Prelude.{◌≡◌, ◌+◌, ◌≤◌, ◌<◌, ◌^◌, ◌++◌, ◌∷◌, [], length, map};
ghost use Rattle.std.specs.Char.{digit_char};
ghost use Rattle.std.specs.Fmt.{decimal};
ghost use Rattle.std.specs.List.{join_with_byte};
ghost use Rattle.key_mask.specs.Fields.{kind_of, width_of};
ghost use Rattle.key_mask.specs.Ipv6.{group_text, groups_before, ipv6_text};
ghost use Rattle.key_mask.specs.Spellings.{address_text, hex_text, value_text, longest_value};

use crate::fields::{Field, ValueKind};
use crate::printing::Line;
use itoa::Buffer;

/// Appends a value of the field.
pub(crate) fn put_value(line: &mut Line, field: Field, value: u128)
    requires room { length line.old.bytes + longest_value (kind_of field) ≤ 512 }
    requires small { value < 2 ^ width_of field }
    ensures text { line.new.bytes ≡ line.old.bytes ++ value_text field value }
    ensures short { length line.new.bytes ≤ length line.old.bytes + longest_value (kind_of field) }
{
    match field.kind() {
        ValueKind::Ipv4 => put_address(line, value as u32),
        ValueKind::Port => line.push_str(Buffer::new().format(value as u16)),
        ValueKind::Byte => line.push_str(Buffer::new().format(value as u8)),
        ValueKind::Hex => put_hex(line, value as u16),
        ValueKind::Ipv6 => put_ipv6(line, value),
    }
}

/// Appends an IPv4 address: its four bytes in decimal, with dots between.
#[tactic(auto, unfolding(crate::specs::Spellings::address_text))]
fn put_address(line: &mut Line, address: u32)
    requires { length line.old.bytes + 15 ≤ 512 }
    ensures text { line.new.bytes ≡ line.old.bytes ++ address_text address }
    ensures short { length line.new.bytes ≤ length line.old.bytes + 15 }
{
    let [a, b, c, d] = address.to_be_bytes();
    put_dotted(line, a, b, c, d);
}

/// Appends four numbers with dots between.
fn put_dotted(line: &mut Line, a: u8, b: u8, c: u8, d: u8)
    requires { length line.old.bytes + 15 ≤ 512 }
    ensures text { line.new.bytes
        ≡ line.old.bytes ++ (decimal a ++ 46 ∷ (decimal b ++ 46 ∷ (decimal c ++ 46 ∷ decimal d))) }
    ensures short { length line.new.bytes ≤ length line.old.bytes + 15 }
{
    line.push_str(Buffer::new().format(a));
    line.push_str(".");
    line.push_str(Buffer::new().format(b));
    line.push_str(".");
    line.push_str(Buffer::new().format(c));
    line.push_str(".");
    line.push_str(Buffer::new().format(d));
}

/// Appends `0x` and four hexadecimal digits.
#[tactic(auto, unfolding(crate::specs::Spellings::hex_text))]
fn put_hex(line: &mut Line, value: u16)
    requires { length line.old.bytes + 6 ≤ 512 }
    ensures text { line.new.bytes ≡ line.old.bytes ++ hex_text value }
    ensures short { length line.new.bytes ≤ length line.old.bytes + 6 }
{
    line.push_str("0x");
    put_digit(line, value / 16 / 16 / 16);
    put_digit(line, value / 16 / 16 % 16);
    put_digit(line, value / 16 % 16);
    put_digit(line, value % 16);
}

/// Appends an IPv6 address: eight groups with `:` between.
#[tactic(auto, unfolding(crate::specs::Ipv6::ipv6_text))]
fn put_ipv6(line: &mut Line, address: u128)
    requires { length line.old.bytes + 39 ≤ 512 }
    ensures text { line.new.bytes ≡ line.old.bytes ++ ipv6_text address }
    ensures short { length line.new.bytes ≤ length line.old.bytes + 39 }
{
    put_groups(line, &groups_of(address));
}

/// The groups of an address.
fn groups_of(address: u128) -> [u16; 8]
    ensures { result ≡ groups_before 8 address [] }
{
    let mut groups = [0; 8];
    let mut rest = address;
    'groups: for k in 0..8 {
        groups[7 - k] = (rest % 65536) as u16;
        rest /= 65536;
    }
    groups
}

/// Appends groups with `:` between.
fn put_groups(line: &mut Line, groups: &[u16; 8])
    requires { length line.old.bytes + 39 ≤ 512 }
    ensures text { line.new.bytes ≡ line.old.bytes ++ join_with_byte 58 (map group_text groups.now) }
    ensures short { length line.new.bytes ≤ length line.old.bytes + 39 }
{
    put_group(line, groups[0]);
    'groups: for k in 1..8usize {
        line.push_str(":");
        put_group(line, groups[k]);
    }
}

/// Appends a group, without zeros in front.
#[tactic(auto, unfolding(crate::specs::Ipv6::group_text))]
fn put_group(line: &mut Line, group: u16)
    requires { length line.old.bytes + 4 ≤ 512 }
    ensures text { line.new.bytes ≡ line.old.bytes ++ group_text group }
    ensures short { length line.new.bytes ≤ length line.old.bytes + 4 }
{
    if group >= 4096 {
        put_digit(line, group / 16 / 16 / 16);
    }
    if group >= 256 {
        put_digit(line, group / 16 / 16 % 16);
    }
    if group >= 16 {
        put_digit(line, group / 16 % 16);
    }
    put_digit(line, group % 16);
}

/// Appends a hexadecimal digit, in lower case.
#[tactic(auto, using(std::proofs::lemmas::Bool::Decides::nat_tests))]
fn put_digit(line: &mut Line, digit: u16)
    requires small { digit < 16 }
    requires room { length line.old.bytes + 1 ≤ 512 }
    ensures text { line.new.bytes ≡ line.old.bytes ++ digit_char digit ∷ [] }
    ensures short { length line.new.bytes ≡ length line.old.bytes + 1 }
{
    let code = if digit < 10 {
        b'0' + digit as u8
    } else {
        b'a' - 10 + digit as u8
    };
    line.push(code as char);
}
