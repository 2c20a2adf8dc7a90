//! Decodes hexadecimal digits.

ghost use Rattle.std.specs.Prelude.{◌≡◌, ◌*◌, ℕ, true, false, length, unwrap_or, MatchResult};
ghost use Rattle.hex.specs.Hex.{hex_digit_value, decode_pairs};

/// The value of a byte that is not a digit: more than any digit's.
const NO_DIGIT: u8 = 255;

/// The value of a hexadecimal digit of either case, or `NO_DIGIT`.
fn value_of(digit: u8) -> u8
    ensures { result ≡ unwrap_or (hex_digit_value digit) 255 }
{
    match digit {
        b'0'..=b'9' => digit - b'0',
        b'a'..=b'f' => digit - b'a' + 10,
        b'A'..=b'F' => digit - b'A' + 10,
        _ => NO_DIGIT,
    }
}

/// Decodes pairs of digits, and returns whether all of them were digits; if one was not, the bytes are arbitrary. It
/// does not stop at that one: without a branch for each digit, a processor decodes several at once.
pub fn decode(digits: &[u8], bytes: &mut [u8]) -> bool
    requires pairs { length digits.now ≡ 2 * length bytes.old }
    ensures { MatchResult (decode_pairs 0 digits.now) (λ all. (result ≡ true) × (bytes.new ≡ all))
        (λ _. result ≡ false) }
{
    let mut good = true;
    for i in 0..bytes.len() {
        let high = value_of(digits[2 * i]);
        let low = value_of(digits[2 * i + 1]);
        good = good & (high < 16) & (low < 16);
        bytes[i] = high.wrapping_mul(16).wrapping_add(low);
    }
    good
}
