//! Parses a number at the front of a line while the line is split: most numbers have a few decimal digits.

ghost use Rattle.std.specs.Prelude.{◌≡◌, ◌<◌, ◌^◌, ◌≤◌, true, false, length, take, IfSome, IsNone};
ghost use Rattle.std.specs.List.{list_all};
ghost use Rattle.std.specs.Str.Parse.{digits_value};
ghost use Rattle.script_text.specs.Front.{BeginsWith, begins_number};
ghost use Rattle.script_text.specs.Numbers.{is_digit};
ghost use Rattle.script_text.specs.Words.{line_words, is_line_text, starts_apart};

use super::number::number_u64;
use super::words::{behind_separators, first_word, is_separator_byte};

/// A number at the front of a line, and the line after it and the separators that follow it.
#[derive(Clone, Copy)]
pub struct FrontNumber<'a> {
    pub number: u64,
    pub behind: &'a [u8],
}

/// The number of decimal digits at the front of a line, and their value. `None` if that does not fit 64 bits.
#[inline(always)]
fn front_digits(line: &[u8]) -> Option<(usize, u64)>
    ensures within { IfSome result (λ front. front.0 ≤ length line.now) }
    ensures digits { IfSome result (λ front. list_all (is_digit 10) (take front.0 line.now) ≡ true) }
    ensures value { IfSome result (λ front. front.1 ≡ digits_value 10 (take front.0 line.now)) }
    ensures fits { IfSome result (λ front. front.1 < 2 ^ 64) }
{
    let mut len = 0;
    let mut value: u64 = 0;
    while len < line.len() {
        let Some(digit) = char::from(line[len]).to_digit(10) else {
            return Some((len, value));
        };
        value = value.checked_mul(10)?.checked_add(u64::from(digit))?;
        len += 1;
    }
    Some((len, value))
}

/// The decimal number at the front of a line that does not begin with a separator. `None` if there is none, it has
/// another form, or it does not fit 64 bits.
#[inline(always)]
fn decimal_number(line: &[u8]) -> Option<FrontNumber<'_>>
    requires apart { starts_apart line.now ≡ true }
    requires some { 0 < length line.now }
    ensures text { IfSome result (λ front. is_line_text front.behind.now ≡ is_line_text line.now) }
    ensures words { IfSome result (λ front. is_line_text line.now ≡ true
        → BeginsWith front.number (line_words line.now) (line_words front.behind.now)) }
    ensures apart { IfSome result (λ front. starts_apart front.behind.now ≡ true) }
    ensures shorter { IfSome result (λ front. length front.behind.now < length line.now) }
{
    let (len, number) = front_digits(line)?;
    if len == 0 {
        return None;
    }
    let (_, behind) = line.split_at(len);
    match behind.split_first() {
        None => Some(FrontNumber { number, behind }),
        Some((separator, rest)) if is_separator_byte(*separator) => Some(FrontNumber {
            number,
            behind: behind_separators(rest),
        }),
        Some(_) => None,
    }
}

/// The same for a number of any form. `None` if the first word is not a number, or it does not fit 64 bits.
#[inline(never)]
fn spelled_number(line: &[u8]) -> Option<FrontNumber<'_>>
    requires apart { starts_apart line.now ≡ true }
    requires some { 0 < length line.now }
    ensures text { IfSome result (λ front. is_line_text front.behind.now ≡ is_line_text line.now) }
    ensures words { IfSome result (λ front. is_line_text line.now ≡ true
        → BeginsWith front.number (line_words line.now) (line_words front.behind.now)) }
    ensures apart { IfSome result (λ front. starts_apart front.behind.now ≡ true) }
    ensures shorter { IfSome result (λ front. length front.behind.now < length line.now) }
    ensures none { IsNone result → is_line_text line.now ≡ true → begins_number (line_words line.now) ≡ false }
{
    let first = first_word(line)?;
    Some(FrontNumber {
        number: number_u64(first.word)?,
        behind: first.behind,
    })
}

/// The number in the first word of a line that does not begin with a separator. `None` if the word is not a number, or
/// it does not fit 64 bits.
#[inline(always)]
pub fn front_number(line: &[u8]) -> Option<FrontNumber<'_>>
    requires apart { starts_apart line.now ≡ true }
    requires some { 0 < length line.now }
    ensures text { IfSome result (λ front. is_line_text front.behind.now ≡ is_line_text line.now) }
    ensures words { IfSome result (λ front. is_line_text line.now ≡ true
        → BeginsWith front.number (line_words line.now) (line_words front.behind.now)) }
    ensures apart { IfSome result (λ front. starts_apart front.behind.now ≡ true) }
    ensures shorter { IfSome result (λ front. length front.behind.now < length line.now) }
    ensures none { IsNone result → is_line_text line.now ≡ true → begins_number (line_words line.now) ≡ false }
{
    match decimal_number(line) {
        Some(front) => Some(front),
        None => spelled_number(line),
    }
}
