//! Items as they are printed: one canonical text for each mask, and for each value under it.
ghost use Rattle.std.specs.Prelude.{◌≡◌, ◌≢◌, ◌+◌, ◌≤◌, ◌++◌, IsTrue, length, is_some};
ghost use Rattle.std.specs.Option.{option_copied};
ghost use Rattle.key_mask.specs.Fields.{is_length};
ghost use Rattle.key_mask.specs.Masks.{AreLengths};
ghost use Rattle.key_mask.specs.Items.{items_text, with_field, prefix_text, longest_item, longest_items, longest_prefix};

use crate::fields::{FIELDS, Field};
use crate::masks::Mask;
use crate::spelling::put_value;
use crate::vectors::KeyVec;
use arrayvec::ArrayString;
use itoa::Buffer;

/// A line of text, of at most 512 bytes.
pub type Line = ArrayString<512>;

/// The items of the fields that stand in the mask, in their order with commas between, each with
/// the value that it has in the vector, where there is one.
pub fn put_items(mask: &Mask, values: Option<&KeyVec>) -> Line
    ensures text { result.bytes ≡ items_text (option_copied values.entry) mask.now }
    ensures short { length result.bytes ≤ longest_items (is_some values.entry) }
    ensures known { AreLengths mask.now }
{
    let lengths = mask.lengths();
    let mut line = Line::new();
    'fields: for field in FIELDS {
        put_field(&mut line, values, field, lengths[field.number()]);
    }
    line
}

/// Appends the item of the field, where it stands in the mask.
#[tactic(auto, unfolding(crate::specs::Items::with_field))]
fn put_field(line: &mut Line, values: Option<&KeyVec>, field: Field, prefix: u8)
    requires room { length line.old.bytes + longest_item (is_some values) field + 1 ≤ 512 }
    requires fits { prefix ≢ 0 → IsTrue (is_length field prefix) }
    ensures text { line.new.bytes ≡ with_field (option_copied values.entry) line.old.bytes field prefix }
    ensures short { let most = longest_item (is_some values.entry) field + 1 in
        length line.new.bytes ≤ length line.old.bytes + most }
{
    if prefix == 0 {
        return;
    }
    if !line.is_empty() {
        line.push_str(",");
    }
    line.push_str(field.name());
    if let Some(vector) = values {
        line.push_str(":");
        put_value(line, field, vector.value(field));
    }
    put_prefix(line, field, prefix);
}

/// Appends a slash and the prefix length, where it is not the whole field.
fn put_prefix(line: &mut Line, field: Field, prefix: u8)
    requires room { length line.old.bytes + longest_prefix field ≤ 512 }
    requires fits { IsTrue (is_length field prefix) }
    ensures text { line.new.bytes ≡ line.old.bytes ++ prefix_text field prefix }
    ensures short { length line.new.bytes ≤ length line.old.bytes + longest_prefix field }
{
    if prefix != field.width() {
        line.push_str("/");
        line.push_str(Buffer::new().format(prefix));
    }
}
