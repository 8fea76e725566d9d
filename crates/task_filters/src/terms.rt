//! Filters as texts: which fields a packet must have, and with which values.
ghost use Rattle.std.specs.Prelude.{◌≡◌};
ghost use Rattle.std.specs.Option.{option_copied};
ghost use Rattle.task_filters.specs.Terms.{slash_behind, value_behind, with_term, no_terms, terms_in};

use key_mask::{
    Field, FieldFault, FieldKind, FromItems, KEY_BYTES, KeyVec, Mask, field_of, prefix_of,
    read_items, value_of,
};
use std::marker::Model;
use texts::cut;

/// What the items of a filter say: the values as they are written, not cut at their prefixes, and
/// how much of each counts.
#[derive(Clone, Copy)]
pub(crate) struct Terms {
    pub(crate) value: KeyVec,
    pub(crate) mask: Mask,
}

impl Model for Terms {
    ghost use Rattle.task_filters.specs.Filters.{Pattern};

    ghost Value = { Pattern };

    ghost view = { λ terms. record { value = terms.value; mask = terms.mask } };

    ghost inverse = { λ pattern. record { value = pattern.value; mask = pattern.mask } };
}

impl Terms {
    /// What no item says.
    fn none() -> Terms
        ensures { result ≡ no_terms }
    {
        Terms {
            value: KeyVec([0; KEY_BYTES]),
            mask: Mask::empty(),
        }
    }
}

impl FromItems for Terms {
    ghost item_in = { with_term };

    /// `FIELD:VALUE`, for an address with `/` and a prefix or without.
    #[tactic(auto, unfolding(crate::specs::Terms::with_term))]
    fn with_item(&self, item: &[u8]) -> Result<Terms, FieldKind> {
        let (name, behind) = cut(item, b':');
        let field = field_of(name).ok_or(FieldKind::UnknownField)?;
        if self.mask.length(field) != 0 {
            return Err(FieldKind::RepeatedField);
        }
        let prefix = prefix_of(field, behind_slash(behind)).ok_or(FieldKind::BadPrefix)?;
        let value = value_before_slash(field, behind).ok_or(FieldKind::BadValue)?;
        Ok(Terms {
            value: self.value.with_value(field, value),
            mask: self.mask.with(field, prefix),
        })
    }
}

/// What a filter says: `all` for nothing, or items with commas between.
#[tactic(auto, unfolding(crate::specs::Terms::terms_in))]
pub(crate) fn terms_of(text: &[u8]) -> Result<Terms, FieldFault>
    ensures { result ≡ terms_in text.now }
{
    if text == b"all".as_slice() {
        Ok(Terms::none())
    } else {
        read_items(text, Terms::none())
    }
}

/// What stands behind the first slash.
fn behind_slash(rest: Option<&[u8]>) -> Option<&[u8]>
    ensures { option_copied result ≡ slash_behind (option_copied rest.entry) }
{
    let (_, behind) = cut(rest?, b'/');
    behind
}

/// The field's value that stands before the first slash.
fn value_before_slash(field: Field, rest: Option<&[u8]>) -> Option<u128>
    ensures { result ≡ value_behind field (option_copied rest.entry) }
{
    let (text, _) = cut(rest?, b'/');
    value_of(field, text)
}
