//! The numbers of a script: decimal, or `0x` and hexadecimal digits of either case. There may be any number of leading
//! zeros, and no sign.

ghost use Rattle.std.specs.Prelude.{◌≡◌, ◌^◌, ◌≤◌};
ghost use Rattle.script_text.specs.Numbers.{numeral, below, number_at};

/// The number of digits of a base, if it fits 128 bits.
fn wide_numeral_of(digits: &[u8], base: u32) -> Option<u128>
    requires low { 2 ≤ base }
    requires high { base ≤ 16 }
    ensures { result ≡ below (2 ^ 128) (numeral base digits.now) }
{
    if digits.is_empty() {
        return None;
    }
    let mut value: u128 = 0;
    for byte in digits {
        let digit = char::from(*byte).to_digit(base)?;
        value = value
            .checked_mul(u128::from(base))?
            .checked_add(u128::from(digit))?;
    }
    Some(value)
}

/// The number of digits of a base, if it fits 64 bits.
#[inline(always)]
fn numeral_of(digits: &[u8], base: u32) -> Option<u64>
    requires low { 2 ≤ base }
    requires high { base ≤ 16 }
    ensures { result ≡ below (2 ^ 64) (numeral base digits.now) }
{
    if digits.is_empty() {
        return None;
    }
    let mut value: u64 = 0;
    for byte in digits {
        let digit = char::from(*byte).to_digit(base)?;
        value = value
            .checked_mul(u64::from(base))?
            .checked_add(u64::from(digit))?;
    }
    Some(value)
}

/// The number of a word. `None` if the word is not a number, or it does not fit 128 bits.
#[tactic(auto, unfolding(crate::specs::Numbers::number_at))]
pub fn number_u128(word: &[u8]) -> Option<u128>
    ensures value { result ≡ number_at 128 word.now }
{
    match word.strip_prefix(b"0x".as_slice()) {
        Some(digits) => wide_numeral_of(digits, 16),
        None => wide_numeral_of(word, 10),
    }
}

/// The number of a word. `None` if the word is not a number, or it does not fit 64 bits.
#[tactic(auto, unfolding(crate::specs::Numbers::number_at))]
pub fn number_u64(word: &[u8]) -> Option<u64>
    ensures value { result ≡ number_at 64 word.now }
{
    match word.strip_prefix(b"0x".as_slice()) {
        Some(digits) => numeral_of(digits, 16),
        None => numeral_of(word, 10),
    }
}

/// The number of a word. `None` if the word is not a number, or it does not fit 32 bits.
#[tactic(auto, unfolding(crate::specs::Numbers::number_at))]
pub fn number_u32(word: &[u8]) -> Option<u32>
    ensures value { result ≡ number_at 32 word.now }
{
    u32::try_from(number_u64(word)?).ok()
}

/// The number of a word. `None` if the word is not a number, or it does not fit 16 bits.
#[tactic(auto, unfolding(crate::specs::Numbers::number_at))]
pub fn number_u16(word: &[u8]) -> Option<u16>
    ensures value { result ≡ number_at 16 word.now }
{
    u16::try_from(number_u64(word)?).ok()
}

/// The number of a word. `None` if the word is not a number, or it does not fit 8 bits.
#[tactic(auto, unfolding(crate::specs::Numbers::number_at))]
pub fn number_u8(word: &[u8]) -> Option<u8>
    ensures value { result ≡ number_at 8 word.now }
{
    u8::try_from(number_u64(word)?).ok()
}
