//! The words of a line, separated by spaces, tabs and carriage returns.

ghost use Rattle.std.specs.Prelude.{◌≡◌, ◌+◌, ◌<◌, ◌≤◌, ◌∷◌, ◌++◌, true, false, map, length, IfSome, IsNone};
ghost use Rattle.std.specs.List.{prefix_len, AllByRecursion};
ghost use Rattle.script_text.specs.Words.{
  line_words,
  is_separator,
  is_visible,
  is_line_text,
  starts_apart,
  most_words,
  behind_separators,
  behind_word,
  is_text,
};

use arrayvec::ArrayVec;

/// The most words at the front of a line that are split off at once.
pub const MOST_WORDS: usize = 8;

/// Whether a byte is a separator: a space, a tab or a carriage return.
#[inline(always)]
pub(crate) fn is_separator_byte(byte: u8) -> bool
    ensures { result ≡ is_separator byte }
{
    matches!(byte, b' ' | b'\t' | b'\r')
}

/// Whether a byte may be in a word, that is, a visible character.
#[inline(always)]
fn is_visible_byte(byte: u8) -> bool
    ensures { result ≡ is_visible byte }
{
    33 <= byte && byte <= 126
}

/// The number of bytes at the front of a line that are separators or visible characters.
pub fn text_len(line: &[u8]) -> usize
    ensures { result ≡ prefix_len is_text line.now }
{
    line.iter()
        .take_while(|byte| is_separator_byte(**byte) || is_visible_byte(**byte))
        .count()
}

/// The line after the separators at its front.
#[inline(always)]
pub fn behind_separators(line: &[u8]) -> &[u8]
    ensures exact { result.now ≡ behind_separators line.now }
    ensures words { line_words result.now ≡ line_words line.now }
    ensures text { is_line_text result.now ≡ is_line_text line.now }
    ensures apart { starts_apart result.now ≡ true }
    ensures shorter { length result.now ≤ length line.now }
{
    let mut rest = line;
    while let Some((first, behind)) = rest.split_first() {
        if !is_separator_byte(*first) {
            break;
        }
        rest = behind;
    }
    rest
}

/// The number of visible characters at the front of a line.
#[inline(always)]
fn word_len(line: &[u8]) -> usize
    ensures { result ≡ prefix_len is_visible line.now }
{
    line.iter()
        .take_while(|byte| is_visible_byte(**byte))
        .count()
}

/// The first word of a line, and the rest of the line after the separators that follow the word.
#[derive(Clone, Copy)]
pub struct FirstWord<'a> {
    pub word: &'a [u8],
    pub behind: &'a [u8],
}

/// The first word of a line that does not begin with a separator. `None` if the word is empty, or the byte after it is
/// neither a separator nor visible.
#[inline(always)]
pub fn first_word(line: &[u8]) -> Option<FirstWord<'_>>
    requires apart { starts_apart line.now ≡ true }
    requires some { 0 < length line.now }
    ensures exact { IfSome result (λ first. first.behind.now ≡ behind_word line.now) }
    ensures text { IfSome result (λ first. is_line_text first.behind.now ≡ is_line_text line.now) }
    ensures words { IfSome result (λ first. is_line_text line.now ≡ true
        → line_words line.now ≡ first.word.now ∷ line_words first.behind.now) }
    ensures apart { IfSome result (λ first. starts_apart first.behind.now ≡ true) }
    ensures within { IfSome result (λ first. length first.word.now + length first.behind.now ≤ length line.now) }
    ensures shorter { IfSome result (λ first. most_words first.behind.now < most_words line.now) }
    ensures none { IsNone result → is_line_text line.now ≡ false }
{
    let (word, behind) = line.split_at(word_len(line));
    if word.is_empty() {
        return None;
    }
    match behind.split_first() {
        None => Some(FirstWord { word, behind }),
        Some((separator, behind)) if is_separator_byte(*separator) => Some(FirstWord {
            word,
            behind: behind_separators(behind),
        }),
        Some(_) => None,
    }
}

/// The words at the front of a line, and the rest of the line after them.
#[derive(Drop)]
pub struct FrontWords<'a> {
    /// The first words, from left to right.
    pub words: ArrayVec<&'a [u8], MOST_WORDS>,
    /// The line after `MOST_WORDS` words and the separators that follow them; empty if the line has no more words.
    pub rest: &'a [u8],
}

/// The first words of a line, from left to right. `None` if a byte before the rest is neither a separator nor visible.
pub fn words_of(line: &[u8]) -> Option<FrontWords<'_>>
    ensures text { IfSome result (λ front. is_line_text front.rest.now ≡ is_line_text line.now) }
    ensures words { IfSome result (λ front. is_line_text line.now ≡ true
        → line_words line.now ≡ map (λ word. word.now) front.words.items ++ line_words front.rest.now) }
    ensures all { IfSome result (λ front. 0 < length front.rest.now → length front.words.items ≡ 8) }
    ensures apart { IfSome result (λ front. starts_apart front.rest.now ≡ true) }
    ensures within { IfSome result
        (λ front. AllByRecursion (λ word. length word.now ≤ length line.now) front.words.items) }
    ensures room { IfSome result (λ front. length front.words.items + most_words front.rest.now ≤ most_words line.now) }
    ensures none { IsNone result → is_line_text line.now ≡ false }
{
    let mut words = ArrayVec::new();
    let mut rest = behind_separators(line);
    while !rest.is_empty() && !words.is_full() {
        let first = first_word(rest)?;
        words.push(first.word);
        rest = first.behind;
    }
    Some(FrontWords { words, rest })
}
