//! Items with commas between, each of which names a field: what the readers of keys and of filters
//! share.
ghost use Rattle.std.specs.Prelude.{◌≡◌, ◌≤◌, ℕ, List, length, Result, IsTrue, IfSome};
ghost use Rattle.std.specs.Option.{option_copied};
ghost use Rattle.texts.specs.Cuts.{parts};
ghost use Rattle.key_mask.specs.declared.items.FieldKind.{FieldKind};
ghost use Rattle.key_mask.specs.Fields.{is_length};
ghost use Rattle.key_mask.specs.Items.{field_named, field_words, prefix_behind, prefix_in, with_items};

use crate::fields::{FIELDS, Field};
use crate::numbers::number_of;
use texts::cut;

/// What is wrong with an item of a key or a filter.
#[derive(Clone, Copy, Debug, PartialEq, Eq)]
pub enum FieldKind {
    /// Its name is no field's.
    UnknownField,
    /// Its field stood in an earlier item.
    RepeatedField,
    /// Its prefix is no prefix of the field.
    BadPrefix,
    /// Its value is none of the field.
    BadValue,
}

impl FieldKind {
    /// How it is told, in front of its place.
    pub fn words(self) -> &'static str
        ensures words { result.now ≡ field_words self }
        ensures short { length result.now ≤ 15 }
    {
        match self {
            FieldKind::UnknownField => "unknown field ",
            FieldKind::RepeatedField => "repeated field ",
            FieldKind::BadPrefix => "bad prefix ",
            FieldKind::BadValue => "bad value ",
        }
    }
}

/// The fault of the first item at fault.
#[derive(Clone, Copy, Debug, PartialEq, Eq)]
pub struct FieldFault {
    pub kind: FieldKind,
    /// How many bytes of the text stand before the item.
    pub place: usize,
}

/// What items are read into, one after another.
pub trait FromItems: Copy {
    ghost item_in: { Self → List ℕ → Result Self FieldKind };

    /// What was found before with what this item adds to it, or the item's first fault.
    fn with_item(&self, item: &[u8]) -> Result<Self, FieldKind>
        ensures { result ≡ item_in self.now item.now };
}

/// Reads items with commas between.
pub fn read_items<T: FromItems>(text: &[u8], none: T) -> Result<T, FieldFault>
    ensures { result ≡ with_items T.item_in 0 none (parts 44 text.now) }
{
    let mut found = none;
    let mut place = 0;
    let mut left = Some(text);
    'items: while let Some(text) = left {
        let (item, rest) = cut(text, b',');
        match found.with_item(item) {
            Ok(next) => found = next,
            Err(kind) => return Err(FieldFault { kind, place }),
        }
        place += item.len() + 1;
        left = rest;
    }
    Ok(found)
}

/// The field that has this name.
#[tactic(auto, unfolding(crate::specs::Items::field_named))]
pub fn field_of(name: &[u8]) -> Option<Field>
    ensures { result ≡ field_named name.now }
{
    FIELDS
        .iter()
        .copied()
        .find(|field| field.name().as_bytes() == name)
}

/// The prefix length by what stands behind the slash; the whole field where there is no slash.
pub fn prefix_of(field: Field, behind: Option<&[u8]>) -> Option<u8>
    ensures value { result ≡ prefix_in field (option_copied behind.entry) }
    ensures allowed { IfSome result (λ prefix. IsTrue (is_length field prefix)) }
{
    match behind {
        Some(text) => prefix_after_slash(field, text),
        None => Some(field.width()),
    }
}

/// The prefix length that a text behind the slash writes.
#[tactic(auto, using(std::proofs::lemmas::Bool::Decides::nat_tests))]
fn prefix_after_slash(field: Field, text: &[u8]) -> Option<u8>
    ensures value { result ≡ prefix_behind field text.now }
    ensures allowed { IfSome result (λ prefix. IsTrue (is_length field prefix)) }
{
    let digits = field.kind().prefix_digits()?;
    let prefix = number_of(text, digits, u32::from(field.width()))?;
    if prefix == 0 {
        None
    } else {
        Some(prefix as u8)
    }
}
