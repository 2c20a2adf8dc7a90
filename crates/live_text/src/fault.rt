//! Why a line is refused, and the answer to it.

ghost use Rattle.std.specs.Prelude.{◌≡◌, map};
ghost use Rattle.script_text.specs.Pages.{Adds};
ghost use Rattle.nvme_grammar.specs.Room.{HasBytesRoom};
ghost use Rattle.live_text.specs.Faults as spec;

use crate::looking_word::LookingWord;
use nvme_grammar::{Why as LineWhy, foreign_byte, line_fault, put_word_between};
use script_text::{NoRoom, Page, Spell, put_both, put_labelled, put_three, words_of};

/// Why a line is refused. Its text is a sentence for a person.
#[derive(Clone, Copy)]
pub enum Why<'a> {
    /// It is too long.
    TooLong,
    /// It is not a line of a script, or has a byte that no line may have.
    Line(LineWhy<'a>),
    /// It is a query, and its words do not fit its first word.
    Looking(LookingWord),
    /// No line begins with its first word; the query word that it resembles, if there is one.
    NoLine {
        word: &'a [u8],
        nearest: Option<LookingWord>,
    },
    /// It follows `start`, which is not allowed.
    BeforeStart,
    /// It precedes `start`, which is not allowed.
    BehindStart,
    /// It names a controller that isn't configured.
    NoController,
    /// Its controller has no driver.
    NoDriver,
    /// It names a namespace that isn't configured.
    NoNamespace,
    /// Some of its bytes are outside a window, or they are too many.
    OutsideWindow,
    /// Some of its blocks are outside a namespace, or they are too many.
    OutsideNamespace,
    /// A call of the medium failed.
    MediumFailed,
    /// It is a `?line` query, and its text is too long.
    LongText,
}

impl Why<'_> {
    /// The word at fault, counted from 1.
    fn word(self) -> usize
        ensures { result ≡ spec.word_of self.entry }
    {
        match self {
            Why::Line(why) => why.word(),
            Why::TooLong
            | Why::Looking(_)
            | Why::NoLine { .. }
            | Why::BeforeStart
            | Why::BehindStart
            | Why::MediumFailed => 1,
            Why::NoController | Why::NoDriver | Why::NoNamespace | Why::LongText => 2,
            Why::OutsideWindow | Why::OutsideNamespace => 3,
        }
    }
}

/// Puts the query word that a word resembles, as a question, or else a hint to the list of all.
fn put_nearest<P: Page>(page: &mut P, nearest: Option<LookingWord>) -> Result<(), NoRoom>
    ensures { Adds P.room result (P.written page.old) (spec.nearest_text nearest) (P.written page.new) }
{
    let Some(word) = nearest else {
        return page.put_str("; ?help names all");
    };
    put_three(page, "; did you mean '", word.text(), "'?")
}

/// Puts that no line begins with a word.
fn put_no_line<P: Page>(
    page: &mut P,
    word: &[u8],
    nearest: Option<LookingWord>,
) -> Result<(), NoRoom>
    ensures { Adds P.room result (P.written page.old) (spec.no_line_text word.now nearest) (P.written page.new) }
{
    put_word_between(page, "there is no line '", word, "'")?;
    put_nearest(page, nearest)
}

impl Spell for Why<'_> {
    ghost spelled = { spec.why_text };

    fn spell<P: Page>(&self, page: &mut P) -> Result<(), NoRoom> {
        match self {
            Why::TooLong => page.put_str("a line has at most 1048576 bytes"),
            Why::Line(why) => why.spell(page),
            Why::Looking(word) => put_both(page, "the line is ", word.form()),
            Why::NoLine { word, nearest } => put_no_line(page, word, *nearest),
            Why::BeforeStart => { page.put_str("this line must come before 'start'") }
            Why::BehindStart => { page.put_str("this line needs a 'start' before it") }
            Why::NoController => page.put_str("there is no such controller"),
            Why::NoDriver => page.put_str("there is no such controller with a driver"),
            Why::NoNamespace => page.put_str("there is no such namespace"),
            Why::OutsideWindow => page.put_str(
                "at most 131072 bytes are shown, all of them in the window's 4194304",
            ),
            Why::OutsideNamespace => page.put_str(
                "1 to 256 blocks are shown, all of them in the namespace",
            ),
            Why::MediumFailed => page.put_str("the medium failed"),
            Why::LongText => page.put_str("?line reads a TEXT of at most 262208 bytes"),
        }
    }
}

/// The answer to a refused line.
#[derive(Clone, Copy)]
pub struct Refusal<'a> {
    pub number: u64,
    pub why: Why<'a>,
}

impl Spell for Refusal<'_> {
    ghost spelled = { λ r. spec.refusal r.number r.why };

    fn spell<P: Page>(&self, page: &mut P) -> Result<(), NoRoom> {
        put_labelled(page, "! line ", self.number)?;
        put_labelled(page, " word ", self.why.word() as u64)?;
        page.put_str(": ")?;
        self.why.spell(page)
    }
}

/// The fault of a line that begins with `?` but is not a query, by its words.
fn words_fault<'a>(words: &[&'a [u8]]) -> Why<'a>
    ensures { spec.why_by_value result ≡ spec.words_fault (map (λ word. word.now) words.now) }
{
    let Some((word, _)) = words.split_first() else {
        return Why::NoLine {
            word: &[],
            nearest: None,
        };
    };
    match LookingWord::of(word) {
        Some(named) => Why::Looking(named),
        None => Why::NoLine {
            word,
            nearest: LookingWord::nearest(word),
        },
    }
}

/// The fault of a line that begins with `?` but is not a query.
#[tactic(auto, unfolding(crate::specs::Faults::looking_fault))]
pub fn looking_fault(line: &[u8]) -> Why<'_>
    ensures { spec.why_by_value result ≡ spec.looking_fault line.now }
{
    if let Some(fault) = foreign_byte(line) {
        return Why::Line(fault.why);
    }
    match words_of(line) {
        Some(front) => words_fault(front.words.as_slice()),
        None => words_fault(&[]),
    }
}

/// The fault of a line outside the grammar of scripts. The buffer is overwritten.
pub fn outside<'a>(line: &'a [u8], bytes: &mut [u8]) -> Why<'a>
    requires bytes_room { HasBytesRoom line.now bytes.old }
    ensures { spec.why_by_value result ≡ spec.outside line.now }
{
    match line_fault(line, false, bytes) {
        Some(fault) => Why::Line(fault.why),
        None => Why::NoLine {
            word: &[],
            nearest: None,
        },
    }
}
