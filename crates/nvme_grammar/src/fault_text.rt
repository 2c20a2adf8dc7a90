//! The texts of a line's fault.

ghost use Rattle.std.specs.Prelude.{◌≡◌, ◌≤◌, ◌+◌, ◌++◌, Some, length, take};
ghost use Rattle.std.specs.Char.{is_ascii_hexdigit};
ghost use Rattle.std.specs.List.{flat_map, list_all};
ghost use Rattle.script_text.specs.Pages.{Adds};
ghost use Rattle.nvme_grammar.specs.FaultTexts as spec;
ghost use Rattle.nvme_grammar.specs.FaultTexts.{meant_early, most_shown};
ghost use Rattle.nvme_grammar.specs.Keywords.{places_of, behind_of};
ghost use Rattle.nvme_grammar.specs.declared.fault.Why.TheVariants as line_why;

use super::fault::{LineFault, Why};
use super::keyword::Keyword;
use super::place::{Behind, Operand, Place};
use arrayvec::ArrayString;
use script_text::{
    NoRoom, Page, Spell, put_both, put_byte_between, put_labelled, put_number, put_three,
};
use std::fmt;

/// The most bytes of a word that are shown.
const MOST_SHOWN: usize = 32;

/// The most bytes of a fault's text, and some more.
const ROOM: usize = 512;

impl fmt::Display for LineFault<'_> {
    ghost output = { λ fault. Some (spec.fault_text fault) };

    fn fmt<W: fmt::Write>(&self, f: &mut fmt::Formatter<W>) -> fmt::Result {
        let mut page = ArrayString::<ROOM>::new();
        match self.spell(&mut page) {
            Ok(()) => f.write_str(page.as_str()),
            Err(NoRoom) => Err(fmt::Error),
        }
    }
}

impl Spell for LineFault<'_> {
    ghost spelled = { spec.fault_text };

    fn spell<P: Page>(&self, page: &mut P) -> Result<(), NoRoom> {
        put_number(page, self.column as u64)?;
        page.put_str(": ")?;
        put_number_of_word(page, self.why)?;
        self.why.spell(page)
    }
}

/// Puts which word is at fault, if it is a single one.
fn put_number_of_word<P: Page>(page: &mut P, why: Why<'_>) -> Result<(), NoRoom>
    ensures { Adds P.room result (P.written page.old) (spec.word_text why.entry) (P.written page.new) }
{
    match why {
        Why::Misfit { number, .. } => {
            put_labelled(page, "word ", number as u64)?;
            page.put_str(": ")
        }
        Why::Byte(_) | Why::Unknown { .. } | Why::Count(_) | Why::TooEarly(_) | Why::TooLate(_) =>
            page.put_str(""),
    }
}

impl Spell for Why<'_> {
    ghost spelled = { spec.why_text };

    fn spell<P: Page>(&self, page: &mut P) -> Result<(), NoRoom> {
        match self {
            Why::Byte(byte) => put_foreign(page, *byte),
            Why::Unknown { word, nearest } => put_unknown(page, word, *nearest),
            Why::Count(keyword) => put_count(page, *keyword),
            Why::Misfit { wanted, word, .. } => put_misfit(page, *wanted, word),
            Why::TooEarly(keyword) => put_too_early(page, *keyword),
            Why::TooLate(keyword) => put_too_late(page, *keyword),
        }
    }
}

/// Puts that a line may not have a byte.
fn put_foreign<P: Page>(page: &mut P, byte: u8) -> Result<(), NoRoom>
    ensures { Adds P.room result (P.written page.old) (spec.why_text (line_why.Byte byte)) (P.written page.new) }
{
    let behind = " is neither a visible character nor a space, a tab or a carriage return";
    put_byte_between(page, "the byte \\x", byte, behind)
}

/// Puts that no line begins with a word, and the keyword that was probably intended, as a question.
fn put_unknown<P: Page>(page: &mut P, word: &[u8], nearest: Option<Keyword>) -> Result<(), NoRoom>
    ensures { Adds P.room result (P.written page.old) (spec.unknown_text word.now nearest) (P.written page.new) }
{
    put_word_between(page, "there is no line '", word, "'")?;
    put_nearest(page, nearest)
}

/// Puts the number of words of a keyword's lines, and the form of such a line.
fn put_count<P: Page>(page: &mut P, keyword: Keyword) -> Result<(), NoRoom>
    ensures { Adds P.room result (P.written page.old) (spec.why_text (line_why.Count keyword)) (P.written page.new) }
{
    page.put_str(keyword.text())?;
    page.put_str(" takes ")?;
    put_words(page, keyword.places().len() as u64 + 1, keyword.behind())?;
    page.put_str(": ")?;
    page.put_str(keyword.form())
}

/// Puts the number of words of a line, with its keyword.
fn put_words<P: Page>(page: &mut P, words: u64, behind: Behind) -> Result<(), NoRoom>
    ensures { Adds P.room result (P.written page.old) (spec.count_text words behind) (P.written page.new) }
{
    if words == 1 && behind == Behind::Nothing {
        return page.put_str("1 word");
    }
    put_number(page, words)?;
    page.put_str(match behind {
        Behind::Nothing => " words",
        Behind::Raw => " words, or one more",
        Behind::Controllers => " words or more",
    })
}

/// Puts that a word does not fit its place.
fn put_misfit<P: Page>(page: &mut P, wanted: Place, word: &[u8]) -> Result<(), NoRoom>
    ensures { Adds P.room result (P.written page.old) (spec.misfit_text wanted word.now) (P.written page.new) }
{
    wanted.spell(page)?;
    put_word_between(page, ", not '", word, "'")?;
    put_prefix(page, wanted, word)
}

/// Puts that an event precedes `start`, and the line that was probably intended, as a question.
fn put_too_early<P: Page>(page: &mut P, keyword: Keyword) -> Result<(), NoRoom>
    ensures { Adds P.room result (P.written page.old) (spec.why_text (line_why.TooEarly keyword)) (P.written page.new) }
{
    let behind = " needs a 'start' before it";
    put_both(page, keyword.text(), behind)?;
    put_nearest(page, meant_early(keyword))
}

/// Puts that a line follows `start`.
fn put_too_late<P: Page>(page: &mut P, keyword: Keyword) -> Result<(), NoRoom>
    ensures { Adds P.room result (P.written page.old) (spec.too_late_text keyword) (P.written page.new) }
{
    match keyword {
        Keyword::Start => page.put_str("a script has only one start"),
        _ => put_both(page, keyword.text(), " must come before 'start'"),
    }
}

/// Puts the keyword that was probably intended, as a question.
fn put_nearest<P: Page>(page: &mut P, nearest: Option<Keyword>) -> Result<(), NoRoom>
    ensures { Adds P.room result (P.written page.old) (spec.nearest_text nearest) (P.written page.new) }
{
    let Some(keyword) = nearest else {
        return page.put_str("");
    };
    put_three(page, "; did you mean '", keyword.text(), "'?")
}

/// The line before `start` that was probably intended by an event there.
fn meant_early(keyword: Keyword) -> Option<Keyword>
    ensures { result ≡ meant_early keyword }
{
    match keyword {
        Keyword::Attach => Some(Keyword::Attached),
        _ => None,
    }
}

/// Whether a word has only hexadecimal digits.
fn are_digits(word: &[u8]) -> bool
    ensures { result ≡ list_all is_ascii_hexdigit word.now }
{
    word.iter().all(|byte| byte.is_ascii_hexdigit())
}

/// Whether a word has hexadecimal digits without `0x`, and would fit with it.
fn lacks_prefix(operand: Operand, word: &[u8]) -> bool
    ensures { result ≡ spec.lacks_prefix operand word.now }
{
    word.len() <= operand.digits() && are_digits(word)
}

/// Puts the number that was probably intended by a word without `0x`, as a question.
#[tactic(auto, unfolding(crate::specs::FaultTexts::prefix_text))]
fn put_prefix<P: Page>(page: &mut P, place: Place, word: &[u8]) -> Result<(), NoRoom>
    ensures { Adds P.room result (P.written page.old) (spec.prefix_text place word.now) (P.written page.new) }
{
    match place {
        Place::Number(operand) if lacks_prefix(operand, word) => {
            put_word_between(page, "; did you mean '0x", word, "'?")
        }
        _ => page.put_str(""),
    }
}

/// Puts a word between two texts, in the form for reasons.
pub fn put_word_between<P: Page>(
    page: &mut P,
    front: &str,
    word: &[u8],
    behind: &str,
) -> Result<(), NoRoom>
    ensures { Adds P.room result (P.written page.old) (front.now ++ spec.shown_word word.now ++ behind.now)
        (P.written page.new) }
{
    page.put_str(front)?;
    ShownWord(word).spell(page)?;
    page.put_str(behind)
}

/// Puts a byte of a word, as it is or escaped.
fn put_shown_byte<P: Page>(page: &mut P, byte: u8) -> Result<(), NoRoom>
    ensures { Adds P.room result (P.written page.old) (spec.shown_byte byte) (P.written page.new) }
{
    if 33 <= byte && byte <= 126 {
        let mut character = [0u8; 4];
        return page.put_str(char::from(byte).encode_utf8(&mut character));
    }
    put_byte_between(page, "\\x", byte, "")
}

/// Puts bytes of a word, each as it is or escaped.
fn put_shown_bytes<P: Page>(page: &mut P, bytes: &[u8]) -> Result<(), NoRoom>
    ensures { Adds P.room result (P.written page.old) (flat_map spec.shown_byte bytes.now) (P.written page.new) }
{
    let mut rest = bytes;
    while let Some((first, behind)) = rest.split_first() {
        put_shown_byte(page, *first)?;
        rest = behind;
    }
    Ok(())
}

/// The first bytes of a word that is longer.
fn front_of(word: &[u8]) -> &[u8]
    requires { most_shown ≤ length word.now }
    ensures { result.now ≡ take most_shown word.now }
{
    &word[..MOST_SHOWN]
}

/// A word in the form for reasons: its first 32 bytes, each escaped unless it is a visible character, and two dots if
/// there are more.
#[derive(Clone, Copy)]
pub struct ShownWord<'a>(pub &'a [u8]);

impl Spell for ShownWord<'_> {
    ghost spelled = { λ text. spec.shown_word text.0.now };

    fn spell<P: Page>(&self, page: &mut P) -> Result<(), NoRoom> {
        if self.0.len() <= MOST_SHOWN {
            return put_shown_bytes(page, self.0);
        }
        put_shown_bytes(page, front_of(self.0))?;
        page.put_str("..")
    }
}
