//! Whether a file begins like a script.

ghost use Rattle.std.specs.Prelude.{◌≡◌, ◌≤◌, ◌++◌, ◌∷◌, [], true, false, length, take, codes};
ghost use Rattle.std.specs.List.{prefix_len};
ghost use Rattle.script_text.specs.Lines.{text_lines};
ghost use Rattle.script_text.specs.Words.{is_visible};
ghost use Rattle.nvme_grammar.specs.Beginnings.{begins_script, line_begins, lines_begin, lacks_zeros};

use super::keyword::Keyword;
use super::line::is_comment_line;
use script_text::{behind_separators, front_line};

/// Whether a byte is a visible character.
fn is_visible_byte(byte: u8) -> bool
    ensures { result ≡ is_visible byte }
{
    33 <= byte && byte <= 126
}

/// The number of visible characters at the front of some bytes.
fn front_len(bytes: &[u8]) -> usize
    ensures exact { result ≡ prefix_len is_visible bytes.now }
    ensures within { result ≤ length bytes.now }
{
    bytes
        .iter()
        .take_while(|byte| is_visible_byte(**byte))
        .count()
}

/// The visible characters at the front of some bytes.
fn front_word(bytes: &[u8]) -> &[u8]
    ensures { result.now ≡ take (prefix_len is_visible bytes.now) bytes.now }
{
    let (word, _) = bytes.split_at(front_len(bytes));
    word
}

/// Whether a line begins with a keyword. `None` if it is a comment, or has only separators.
fn line_begins(line: &[u8]) -> Option<bool>
    ensures { result ≡ line_begins line.now }
{
    if is_comment_line(line) {
        return None;
    }
    let rest = behind_separators(line);
    if rest.is_empty() {
        return None;
    }
    Some(Keyword::of(front_word(rest)).is_some())
}

/// Whether the first line of a text that is neither empty nor a comment begins with a keyword.
fn lines_begin(text: &[u8]) -> bool
    ensures { result ≡ lines_begin (text_lines text.now) }
{
    let mut rest = Some(text);
    while let Some(lines) = rest {
        let (line, behind) = front_line(lines);
        if let Some(begins) = line_begins(line) {
            return begins;
        }
        rest = behind;
    }
    false
}

/// Whether a text has no byte 00h.
fn lacks_zeros(text: &[u8]) -> bool
    ensures { result ≡ lacks_zeros text.now }
{
    text.iter().all(|byte| *byte != 0)
}

/// Whether a file begins like a script: it has no byte 00h, and its first line that is neither empty nor a comment
/// begins with a keyword. It need not be a script.
#[tactic(auto, unfolding(crate::specs::Beginnings::begins_script))]
pub fn begins_script(text: &[u8]) -> bool
    ensures { result ≡ begins_script text.now }
{
    lacks_zeros(text) && lines_begin(text)
}

/// Worked examples.
#[tactic(auto, unfolding(crate::proofs::OnLiterals::beginnings_on_literals))]
pub fn examples()
    ensures comment { begins_script (codes "# words" ++ 10 ∷ 32 ∷ 13 ∷ 10 ∷ 9 ∷ codes "controller 1") ≡ true }
    ensures keyword_alone { begins_script (codes "start") ≡ true }
    ensures behind_the_word { begins_script (codes "poll" ++ 13 ∷ 10 ∷ 255 ∷ []) ≡ true }
    ensures longer { begins_script (codes "controllers 1") ≡ false }
    ensures nothing { begins_script [] ≡ false }
    ensures comments_alone { begins_script (codes "# words" ++ 10 ∷ []) ≡ false }
    ensures zero_behind { begins_script (codes "start" ++ 10 ∷ 0 ∷ []) ≡ false }
    ensures zero_in_front { begins_script (0 ∷ codes "start") ≡ false }
    ensures second_line { begins_script (codes "x" ++ 10 ∷ codes "start") ≡ false }
{}
