//! Words with blanks between.
ghost use Rattle.std.specs.Prelude.{◌≡◌, length};
ghost use Rattle.std.specs.Option.{option_copied};
ghost use Rattle.std.specs.List.{slice_get};
ghost use Rattle.texts.specs.Words.{is_blank, words, word_at};

/// The word of this number, from 0; empty where there is none.
#[tactic(auto, using(crate::proofs::WordLemmas::word_none))]
pub fn word_of(text: &[u8], number: usize) -> &[u8]
    ensures { result.now ≡ word_at (words text.now) number }
{
    match find_word(text, number) {
        Some(word) => word,
        None => &[],
    }
}

fn find_word(text: &[u8], number: usize) -> Option<&[u8]>
    ensures { option_copied result ≡ slice_get (words text.now) number }
{
    text.split(|byte| is_blank_byte(*byte))
        .filter(|word| !word.is_empty())
        .nth(number)
}

/// How many words the text has.
pub fn word_count(text: &[u8]) -> usize
    ensures { result ≡ length (words text.now) }
{
    text.split(|byte| is_blank_byte(*byte))
        .filter(|word| !word.is_empty())
        .count()
}

fn is_blank_byte(byte: u8) -> bool
    ensures { result ≡ is_blank byte }
{
    byte == b' ' || byte == b'\t'
}

#[cfg(test)]
mod tests {
    use super::{word_count, word_of};

    #[test]
    fn words_between_blanks(rt: HostRuntime) {
        let rows: [(&[u8], usize, usize, &[u8]); 6] = [
            (b"add 1 key=tos", 0, 3, b"add"),
            (b"  add\t 1 \t", 1, 2, b"1"),
            (b"add 1", 2, 2, b""),
            (b"", 0, 0, b""),
            (b" \t ", 0, 0, b""),
            (b"run\r", 0, 1, b"run\r"),
        ];
        for (text, number, count, word) in rows {
            assert_eq!(rt; word_count(text), count);
            assert_eq!(rt; word_of(text, number), word);
        }
    }
}
