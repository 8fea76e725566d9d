//! The names of tasks.
ghost use Rattle.std.specs.Prelude.{◌≡◌, ◌≤◌, IsTrue, if◌then◌else◌, length, Some, None};
ghost use Rattle.std.specs.List.{list_all};
ghost use Rattle.sketch_defs.specs.Names.{is_name, is_name_byte, starts_low, padded};

use std::marker::Model;

/// The most bytes of a name.
pub const NAME_BYTES: usize = 16;

/// The name of a task: 1 to 16 bytes, a lower-case letter first, then lower-case letters, digits
/// and `_`.
#[derive(Clone, Copy, Debug, PartialEq, Eq)]
pub struct Name {
    bytes: [u8; NAME_BYTES],
    len: usize,
}

impl Model for Name {
    ghost use Rattle.std.specs.Prelude.{◌≡◌, ℕ, List, IsTrue, take, length};
    ghost use Rattle.sketch_defs.specs.Names.{is_name, padded};

    ghost Value = { List ℕ };

    ghost view = { λ n. take n.len n.bytes };

    ghost invariant = { λ n. (n.bytes ≡ padded (take n.len n.bytes)) × (n.len ≡ length (take n.len n.bytes)) × IsTrue (is_name (take n.len n.bytes)) };

    ghost inverse = { λ name. record { bytes = padded name; len = length name } };

    ghost use Rattle.std.proofs.Common.{sym, ap₂};

    ghost inverse_ok = { λ n h. ap₂ (λ bytes len. record { bytes = bytes; len = len }) (sym h.0) (sym h.1) };
}

impl Name {
    /// The name that the text is; `None` where it is no name.
    #[tactic(auto, using(crate::proofs::NameLemmas::padded_again))]
    pub fn parse(text: &[u8]) -> Option<Name>
        ensures { result ≡ (if is_name text.now then Some text.now else None) }
    {
        if !is_name_text(text) {
            return None;
        }
        Some(Name {
            bytes: padded(text),
            len: text.len(),
        })
    }

    /// Its bytes.
    pub fn bytes(&self) -> &[u8]
        ensures same { result.now ≡ self.now }
        ensures named { IsTrue (is_name result.now) }
    {
        &self.bytes[..self.len]
    }

    /// Its bytes as a text, which they are since they are letters, digits and `_`.
    #[tactic(auto, using(crate::proofs::NameLemmas::name_is_text, crate::proofs::NameLemmas::name_short))]
    pub fn as_str(&self) -> &str
        ensures same { result.now ≡ self.now }
        ensures named { IsTrue (is_name result.now) }
        ensures short { length result.now ≤ NAME_BYTES }
    {
        match str::from_utf8(self.bytes()) {
            Ok(text) => text,
            Err(_) => unreachable!(),
        }
    }
}

/// The text with zeros behind.
fn padded(text: &[u8]) -> [u8; NAME_BYTES]
    requires { length text.now ≤ 16 }
    ensures { result ≡ padded text.now }
{
    let mut bytes = [0; NAME_BYTES];
    bytes[..text.len()].copy_from_slice(text);
    bytes
}

/// Whether the text is a name.
#[tactic(auto, using(std::proofs::lemmas::Bool::Decides::nat_tests))]
fn is_name_text(text: &[u8]) -> bool
    ensures { result ≡ is_name text.now }
{
    starts_low(text) && text.len() <= NAME_BYTES && has_name_bytes(text)
}

/// Whether the first byte is a lower-case letter.
fn starts_low(text: &[u8]) -> bool
    ensures { result ≡ starts_low text.now }
{
    match text.first() {
        Some(first) => first.is_ascii_lowercase(),
        None => false,
    }
}

fn has_name_bytes(text: &[u8]) -> bool
    ensures { result ≡ list_all is_name_byte text.now }
{
    text.iter().all(|byte| is_name_byte(*byte))
}

/// Whether the byte may stand behind the first of a name.
fn is_name_byte(byte: u8) -> bool
    ensures { result ≡ is_name_byte byte }
{
    byte.is_ascii_lowercase() || byte.is_ascii_digit() || byte == b'_'
}
