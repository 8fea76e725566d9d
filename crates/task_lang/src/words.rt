//! The words of a command.
ghost use Rattle.std.specs.Prelude.{◌≡◌, ◌≤◌, IsTrue, IfSome, length};
ghost use Rattle.std.specs.Option.{option_copied};
ghost use Rattle.sketch_defs.specs.Tasks.{allows, allows_rows};
ghost use Rattle.task_lang.specs.Words.{verb_word, verb_named, longest_verb, kind_word, kind_named, longest_kind, attr_word, attr_named, longest_attr, full_number, rows_in, attr_in, after_label};

use crate::commands::Verb;
use key_mask::number_of;
use pkt_headers::Attr;
use sketch_defs::Kind;

const VERBS: [Verb; 13] = [
    Verb::Add,
    Verb::Resize,
    Verb::Remove,
    Verb::Release,
    Verb::Packets,
    Verb::Run,
    Verb::Read,
    Verb::Frozen,
    Verb::Query,
    Verb::Dist,
    Verb::Card,
    Verb::Show,
    Verb::Stat,
];

const KINDS: [Kind; 8] = [
    Kind::Cms,
    Kind::SumaxSum,
    Kind::SumaxMax,
    Kind::Bloom,
    Kind::Mrac,
    Kind::Hll,
    Kind::FlagOr,
    Kind::FlagAnd,
];

const ATTRS: [Attr; 5] = [
    Attr::Packets,
    Attr::Bytes,
    Attr::Ttl,
    Attr::Flags,
    Attr::Flow,
];

/// The first word of the command.
pub(crate) fn verb_word(verb: Verb) -> &'static str
    ensures text { result.now ≡ verb_word verb }
    ensures short { length result.now ≤ longest_verb }
{
    match verb {
        Verb::Add => "add",
        Verb::Resize => "resize",
        Verb::Remove => "remove",
        Verb::Release => "release",
        Verb::Packets => "packets",
        Verb::Run => "run",
        Verb::Read => "read",
        Verb::Frozen => "frozen",
        Verb::Query => "query",
        Verb::Dist => "dist",
        Verb::Card => "card",
        Verb::Show => "show",
        Verb::Stat => "stat",
    }
}

/// The name of the kind.
pub(crate) fn kind_word(kind: Kind) -> &'static str
    ensures text { result.now ≡ kind_word kind }
    ensures short { length result.now ≤ longest_kind }
{
    match kind {
        Kind::Cms => "cms",
        Kind::SumaxSum => "sumax_sum",
        Kind::SumaxMax => "sumax_max",
        Kind::Bloom => "bloom",
        Kind::Mrac => "mrac",
        Kind::Hll => "hll",
        Kind::FlagOr => "flag_or",
        Kind::FlagAnd => "flag_and",
    }
}

/// The name of the attribute.
pub(crate) fn attr_word(attr: Attr) -> &'static str
    ensures text { result.now ≡ attr_word attr }
    ensures short { length result.now ≤ longest_attr }
{
    match attr {
        Attr::Packets => "packets",
        Attr::Bytes => "bytes",
        Attr::Ttl => "ttl",
        Attr::Flags => "flags",
        Attr::Flow => "flow",
    }
}

/// The command that begins with this word.
#[tactic(auto, unfolding(crate::specs::Words::verb_named))]
pub(crate) fn verb_of(word: &[u8]) -> Option<Verb>
    ensures { result ≡ verb_named word.now }
{
    VERBS
        .iter()
        .copied()
        .find(|verb| verb_word(*verb).as_bytes() == word)
}

/// The kind of this name.
#[tactic(auto, unfolding(crate::specs::Words::kind_named))]
pub(crate) fn kind_of(word: &[u8]) -> Option<Kind>
    ensures { result ≡ kind_named word.now }
{
    KINDS
        .iter()
        .copied()
        .find(|kind| kind_word(*kind).as_bytes() == word)
}

/// The attribute of this name.
#[tactic(auto, unfolding(crate::specs::Words::attr_named))]
fn attr_of(word: &[u8]) -> Option<Attr>
    ensures { result ≡ attr_named word.now }
{
    ATTRS
        .iter()
        .copied()
        .find(|attr| attr_word(*attr).as_bytes() == word)
}

/// The attribute of this name, where the kind allows it.
#[tactic(auto, unfolding(crate::specs::Words::attr_in))]
pub(crate) fn attr_for(kind: Kind, word: &[u8]) -> Option<Attr>
    ensures value { result ≡ attr_in kind word.now }
    ensures allowed { IfSome result (λ attr. IsTrue (allows kind attr)) }
{
    attr_of(word).filter(|attr| kind.allows(*attr))
}

/// The number of rows, where the kind allows it.
#[tactic(auto, unfolding(crate::specs::Words::rows_in))]
pub(crate) fn rows_for(kind: Kind, word: &[u8]) -> Option<u32>
    ensures value { result ≡ rows_in kind word.now }
    ensures allowed { IfSome result (λ rows. IsTrue (allows_rows kind rows)) }
{
    full_number_of(word).filter(|rows| kind.allows_rows(*rows))
}

/// A number of 32 bits in one to ten digits.
pub(crate) fn full_number_of(word: &[u8]) -> Option<u32>
    ensures { result ≡ full_number word.now }
{
    number_of(word, 10, u32::MAX)
}

/// What stands behind the label, where the word has it.
#[tactic(auto, using(std::proofs::lemmas::Bool::Decides::nat_tests), unfolding(crate::specs::Words::after_label))]
pub(crate) fn after_label<'a>(label: &[u8], word: &'a [u8]) -> Option<&'a [u8]>
    ensures { option_copied result ≡ after_label label.now word.now }
{
    word.strip_prefix(label)
}
