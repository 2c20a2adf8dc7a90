//! The lines of a text, in order.

ghost use Rattle.std.specs.Prelude.{◌≡◌, ◌+◌, ◌-◌, ◌<◌, ◌≤◌, ◌∷◌, drop, length, IfSome};
ghost use Rattle.std.specs.List.{prefix_len};
ghost use Rattle.script_text.specs.Lines.{text_lines, is_of_line, lines_left, longest_line};

use memchr::memchr;

/// The length of the first line of a text. It tests many bytes at once, except for an empty line.
#[inline(always)]
fn line_len(text: &[u8]) -> usize
    ensures { result ≡ prefix_len is_of_line text.now }
{
    if text.first() == Some(&b'\n') {
        return 0;
    }
    match memchr(b'\n', text) {
        Some(place) => place,
        None => text.len(),
    }
}

/// The first line of a text, without the line feed that ends it, and the text after that, if there is a line feed.
#[inline(always)]
pub fn front_line(text: &[u8]) -> (&[u8], Option<&[u8]>)
    ensures lines { text_lines text.now ≡ result.0.now ∷ lines_left result.1 }
    ensures short { length result.0.now ≤ length text.now }
    ensures shorter { IfSome result.1 (λ rest. length rest.now < length text.now) }
    ensures end { IfSome result.1 (λ rest. rest.now ≡ drop (length text.now - length rest.now) text.now) }
    ensures longest { length result.0.now ≤ longest_line text.now }
    ensures left { IfSome result.1 (λ rest. longest_line rest.now ≤ longest_line text.now) }
{
    let (line, behind) = text.split_at(line_len(text));
    match behind.split_first() {
        Some((_, rest)) => (line, Some(rest)),
        None => (line, None),
    }
}

/// The number of bytes after a line feed that are skipped.
const STRIDE: usize = 4096;

/// A bound on the length of a text's lines: at most 4,096 more than the longest has. It skips most line feeds.
pub fn line_bound(text: &[u8]) -> usize
    ensures bound { longest_line text.now ≤ result }
    ensures close { result ≤ longest_line text.now + 4096 }
{
    let mut longest = 0;
    let mut place = 0;
    while place < text.len() {
        let len = line_len(&text[place..]);
        longest = longest.max(len);
        place += len + STRIDE;
    }
    longest + STRIDE
}
