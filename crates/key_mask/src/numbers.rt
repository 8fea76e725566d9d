//! Numbers in texts.
ghost use Rattle.std.specs.Prelude.{◌≡◌, ◌≤◌, ◌<◌, ◌^◌, length, IfSome};
ghost use Rattle.key_mask.specs.Numbers.{address_in, number_in, hex_in, hex_digit_in, digits_after};

use texts::cut;

/// Four numbers up to 255 with dots between, each in one to three digits.
#[tactic(auto, unfolding(crate::specs::Numbers::address_in))]
pub(crate) fn address_of(text: &[u8]) -> Option<u32>
    ensures { result ≡ address_in text.now }
{
    let (first, behind) = cut(text, b'.');
    let a = number_of(first, 3, 255)?;
    let (second, behind) = cut(behind?, b'.');
    let b = number_of(second, 3, 255)?;
    let (third, behind) = cut(behind?, b'.');
    let c = number_of(third, 3, 255)?;
    let d = number_of(behind?, 3, 255)?;
    Some(((a * 256 + b) * 256 + c) * 256 + d)
}

/// A number up to `limit` in one to `most` decimal digits, with leading zeros or without.
#[tactic(auto, using(std::proofs::lemmas::Bool::Decides::nat_tests), unfolding(crate::specs::Numbers::number_in))]
pub fn number_of(text: &[u8], most: usize, limit: u32) -> Option<u32>
    requires { most ≤ 10 }
    ensures value { result ≡ number_in most limit text.now }
    ensures below { IfSome result (λ n. n ≤ limit) }
{
    if text.is_empty() || text.len() > most {
        return None;
    }
    let number = digits_of(text)?;
    if number <= limit as u64 {
        Some(number as u32)
    } else {
        None
    }
}

/// The number that the decimal digits write.
fn digits_of(text: &[u8]) -> Option<u64>
    requires { length text.now ≤ 10 }
    ensures { result ≡ digits_after 0 text.now }
{
    let mut number = 0;
    'digits: for digit in text {
        if !digit.is_ascii_digit() {
            return None;
        }
        number = number * 10 + (digit - b'0') as u64;
    }
    Some(number)
}

/// `0x` and four hexadecimal digits of either case.
#[tactic(auto, using(std::proofs::lemmas::Bool::Decides::nat_tests), unfolding(crate::specs::Numbers::hex_in))]
pub(crate) fn hex_of(text: &[u8]) -> Option<u32>
    ensures { result ≡ hex_in text.now }
{
    if text.len() != 6 || text[0] != b'0' || text[1] != b'x' {
        return None;
    }
    let a = hex_digit_of(text[2])?;
    let b = hex_digit_of(text[3])?;
    let c = hex_digit_of(text[4])?;
    let d = hex_digit_of(text[5])?;
    Some(((a * 16 + b) * 16 + c) * 16 + d)
}

/// The value of a hexadecimal digit of either case.
#[tactic(auto, using(std::proofs::lemmas::Bool::Decides::nat_tests))]
pub(crate) fn hex_digit_of(byte: u8) -> Option<u32>
    ensures value { result ≡ hex_digit_in byte }
    ensures below { IfSome result (λ digit. digit < 16) }
{
    (byte as char).to_digit(16)
}

#[cfg(test)]
mod tests {
    use super::number_of;

    #[test]
    fn numbers_up_to_the_widest(rt: HostRuntime) {
        assert_eq!(rt; number_of(b"4294967295", 10, u32::MAX), Some(u32::MAX));
        assert_eq!(rt; number_of(b"4294967296", 10, u32::MAX), None);
        assert_eq!(rt; number_of(b"04294967295", 10, u32::MAX), None);
    }
}
