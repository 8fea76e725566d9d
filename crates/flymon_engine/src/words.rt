//! The words of the command line.
ghost use Rattle.std.specs.Prelude.{◌≡◌, ◌≤◌, length, IfSome};
ghost use Rattle.key_mask.specs.Numbers.{digits_after};
ghost use Rattle.flymon_engine.specs.Words.{form_of, texts_of, way_in, demo_by, seed_in, count_in};
ghost use Rattle.flymon_engine.specs.Opening.{form_view, IsWithinDemo};

use key_mask::number_of;

/// The names of the three files of a run.
#[derive(Clone, Copy)]
pub(crate) struct Names<'a> {
    pub profile: &'a str,
    pub script: &'a str,
    pub capture: &'a str,
}

/// How packets pass: one after another, or before different groups at once.
#[derive(Clone, Copy, Debug, PartialEq, Eq)]
pub(crate) enum Way {
    Replay,
    Flight,
}

/// What the words ask for.
#[derive(Clone, Copy)]
pub(crate) enum Asked<'a> {
    Carry { way: Way, names: Names<'a> },
    Demo { seed: u64, count: u32 },
}

/// The most packets of a demo.
const DEMO_LIMIT: u32 = 1_000_000;

/// What the words ask for; None where they are no such form.
pub(crate) fn asked_of(words: &[String]) -> Option<Asked<'_>>
    ensures form { form_of (texts_of words.now) ≡ form_view result }
    ensures few { IfSome result IsWithinDemo }
{
    match words {
        [word, seed, count] if word.as_str() == "demo" => demo_of(seed, count),
        [word, profile, script, capture] => {
            let way = way_of(word)?;
            let names = Names {
                profile: profile.as_str(),
                script: script.as_str(),
                capture: capture.as_str(),
            };
            Some(Asked::Carry { way, names })
        }
        _ => None,
    }
}

/// The way that this word names.
fn way_of(word: &str) -> Option<Way>
    ensures { result ≡ way_in word.now }
{
    match word {
        "replay" => Some(Way::Replay),
        "flight" => Some(Way::Flight),
        _ => None,
    }
}

/// The demo of this seed and so many packets.
fn demo_of<'a>(seed: &str, count: &str) -> Option<Asked<'a>>
    ensures form { form_view result ≡ demo_by (seed_in seed.now) (count_in count.now) }
    ensures few { IfSome result IsWithinDemo }
{
    let seed = seed_of(seed.as_bytes())?;
    let count = number_of(count.as_bytes(), 7, DEMO_LIMIT)?;
    Some(Asked::Demo { seed, count })
}

/// A number of 64 bits in one to 20 decimal digits, with leading zeros or without.
#[tactic(auto, using(std::proofs::lemmas::Bool::Decides::nat_tests), unfolding(key_mask::specs::Numbers::number_in))]
fn seed_of(text: &[u8]) -> Option<u64>
    ensures { result ≡ seed_in text.now }
{
    if text.is_empty() || text.len() > 20 {
        return None;
    }
    let number = digits_of(text)?;
    if number <= u64::MAX as u128 {
        Some(number as u64)
    } else {
        None
    }
}

/// The number that the decimal digits write.
fn digits_of(text: &[u8]) -> Option<u128>
    requires { length text.now ≤ 20 }
    ensures { result ≡ digits_after 0 text.now }
{
    let mut number = 0;
    'digits: for digit in text {
        if !digit.is_ascii_digit() {
            return None;
        }
        number = number * 10 + (digit - b'0') as u128;
    }
    Some(number)
}
