//! Cuts at the first separator.
ghost use Rattle.std.specs.Prelude.{◌≡◌, ◌+◌, ◌==◌, length, position};
ghost use Rattle.std.specs.Option.{option_copied};
ghost use Rattle.texts.specs.Cuts.{front, back, left_behind};

/// What stands before the first `separator`, and what stands behind it; the whole text where there is none.
#[tactic(auto, using(crate::proofs::CutLemmas::cuts))]
pub fn cut(text: &[u8], separator: u8) -> (&[u8], Option<&[u8]>)
    ensures front { result.0.now ≡ front (λ b. b == separator) text.now }
    ensures back { option_copied result.1 ≡ back (λ b. b == separator) text.now }
    ensures room { length result.0.now + left_behind (option_copied result.1) ≡ length text.now }
{
    match place_of(text, separator) {
        Some(place) => (&text[..place], Some(&text[place + 1..])),
        None => (text, None),
    }
}

fn place_of(text: &[u8], separator: u8) -> Option<usize>
    ensures { result ≡ position (λ b. b == separator) text.now }
{
    text.iter().position(|b| *b == separator)
}

#[cfg(test)]
mod tests {
    use super::cut;

    #[test]
    fn cuts_at_the_first_separator(rt: HostRuntime) {
        let (front, behind) = cut(b"add hot cms", b' ');
        assert_eq!(rt; front, b"add".as_slice());
        assert_eq!(rt; behind, Some(b"hot cms".as_slice()));
        let (whole, nothing) = cut(b"run", b' ');
        assert_eq!(rt; whole, b"run".as_slice());
        assert_eq!(rt; nothing, None);
    }
}
