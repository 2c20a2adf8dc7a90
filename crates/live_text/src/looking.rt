//! Query lines of a session, which change nothing. They begin with `?`, so that no script can have one.

ghost use Rattle.std.specs.Prelude.{◌≡◌, ◌≤◌, length, map, option_map, IfSome, Some};
ghost use Rattle.script_text.specs.Words.{is_separator};
ghost use Rattle.live_text.specs.Looking as spec;

use crate::form::{Form, form_of};
use crate::looking_word::LookingWord;
use script_text::{number_u16, number_u32, number_u64, words_of};

/// A query.
#[derive(Clone, Copy, Debug)]
pub enum Looking {
    /// `?window C ADDR LEN`
    Window { cntlid: u16, address: u64, len: u32 },
    /// `?register C OFF`
    Register { cntlid: u16, offset: u64 },
    /// `?registers C`
    Registers(u16),
    /// `?queues C`
    Queues(u16),
    /// `?fetched C`
    Fetched(u16),
    /// `?driver C`
    Driver(u16),
    /// `?namespaces`
    Namespaces,
    /// `?reservation N`
    Reservation(u32),
    /// `?attached`
    Attached,
    /// `?blocks N SLBA COUNT`
    Blocks { nsid: u32, slba: u64, count: u32 },
    /// `?help`
    Help,
    /// `?help WORD`
    HelpOn(Form),
}

impl Looking {
    /// The identifier of its controller, if it names one.
    pub fn cntlid(self) -> Option<u16>
        ensures { result ≡ spec.controller_named self }
    {
        match self {
            Looking::Window { cntlid, .. }
            | Looking::Register { cntlid, .. }
            | Looking::Registers(cntlid)
            | Looking::Queues(cntlid)
            | Looking::Fetched(cntlid) => Some(cntlid),
            Looking::Driver(_)
            | Looking::Namespaces
            | Looking::Reservation(_)
            | Looking::Attached
            | Looking::Blocks { .. }
            | Looking::Help
            | Looking::HelpOn(_) => None,
        }
    }
}

/// Whether a line begins with `?`.
pub fn is_looking(line: &[u8]) -> bool
    ensures { result ≡ spec.is_looking line.now }
{
    line.first() == Some(&b'?')
}

/// Whether a byte ends the word before it.
fn ends_word(byte: u8) -> bool
    ensures { result ≡ is_separator byte }
{
    byte == b' ' || byte == b'\t' || byte == b'\r'
}

/// The text of a line `?line TEXT`: everything after `?line` and one separator. `None` for other lines.
#[tactic(auto, unfolding(crate::specs::Looking::text_in))]
pub fn text_in(line: &[u8]) -> Option<&[u8]>
    ensures text { option_map (λ text. text.now) result ≡ spec.text_in line.now }
    ensures within { IfSome result (λ text. length text.now ≤ length line.now) }
{
    let behind = line.strip_prefix(b"?line".as_slice())?;
    match behind.split_first() {
        None => Some(behind),
        Some((first, text)) if ends_word(*first) => Some(text),
        Some(_) => None,
    }
}

/// `C` alone.
fn controller_in(words: &[&[u8]]) -> Option<u16>
    ensures { result ≡ spec.number_alone 16 (map (λ word. word.now) words.now) }
{
    let [cntlid, behind @ ..] = words else {
        return None;
    };
    if behind.is_empty() {
        number_u16(cntlid)
    } else {
        None
    }
}

/// `N` alone.
fn namespace_in(words: &[&[u8]]) -> Option<u32>
    ensures { result ≡ spec.number_alone 32 (map (λ word. word.now) words.now) }
{
    let [nsid, behind @ ..] = words else {
        return None;
    };
    if behind.is_empty() {
        number_u32(nsid)
    } else {
        None
    }
}

/// `C ADDR LEN`
fn window_of(words: &[&[u8]]) -> Option<Looking>
    ensures { result ≡ spec.window (map (λ word. word.now) words.now) }
{
    let [cntlid, address, len, behind @ ..] = words else {
        return None;
    };
    if !behind.is_empty() {
        return None;
    }
    Some(Looking::Window {
        cntlid: number_u16(cntlid)?,
        address: number_u64(address)?,
        len: number_u32(len)?,
    })
}

/// `C OFF`
fn register_of(words: &[&[u8]]) -> Option<Looking>
    ensures { result ≡ spec.register (map (λ word. word.now) words.now) }
{
    let [cntlid, offset, behind @ ..] = words else {
        return None;
    };
    if !behind.is_empty() {
        return None;
    }
    Some(Looking::Register {
        cntlid: number_u16(cntlid)?,
        offset: number_u64(offset)?,
    })
}

/// `N SLBA COUNT`
fn blocks_of(words: &[&[u8]]) -> Option<Looking>
    ensures { result ≡ spec.blocks (map (λ word. word.now) words.now) }
{
    let [nsid, slba, count, behind @ ..] = words else {
        return None;
    };
    if !behind.is_empty() {
        return None;
    }
    Some(Looking::Blocks {
        nsid: number_u32(nsid)?,
        slba: number_u64(slba)?,
        count: number_u32(count)?,
    })
}

/// No words, or the first word of a line.
fn help_of(words: &[&[u8]]) -> Option<Looking>
    ensures { result ≡ spec.help (map (λ word. word.now) words.now) }
{
    let Some((word, behind)) = words.split_first() else {
        return Some(Looking::Help);
    };
    if behind.is_empty() {
        Some(Looking::HelpOn(form_of(word)?))
    } else {
        None
    }
}

/// A query without words after its first one.
fn alone(looking: Looking, words: &[&[u8]]) -> Option<Looking>
    ensures { result ≡ spec.alone (map (λ word. word.now) words.now) (Some looking) }
{
    if words.is_empty() {
        Some(looking)
    } else {
        None
    }
}

/// The query of the words after the first one.
fn looking_in(first: LookingWord, words: &[&[u8]]) -> Option<Looking>
    ensures { result ≡ spec.looking_in first (map (λ word. word.now) words.now) }
{
    match first {
        LookingWord::Window => window_of(words),
        LookingWord::Register => register_of(words),
        LookingWord::Registers => controller_in(words).map(Looking::Registers),
        LookingWord::Queues => controller_in(words).map(Looking::Queues),
        LookingWord::Fetched => controller_in(words).map(Looking::Fetched),
        LookingWord::Driver => controller_in(words).map(Looking::Driver),
        LookingWord::Namespaces => alone(Looking::Namespaces, words),
        LookingWord::Reservation => namespace_in(words).map(Looking::Reservation),
        LookingWord::Attached => alone(Looking::Attached, words),
        LookingWord::Blocks => blocks_of(words),
        LookingWord::Line => None,
        LookingWord::Help => help_of(words),
    }
}

/// The query of all words of a line.
fn looking_by(words: &[&[u8]]) -> Option<Looking>
    ensures { result ≡ spec.looking_by (map (λ word. word.now) words.now) }
{
    let (first, behind) = words.split_first()?;
    if behind.len() <= 3 {
        looking_in(LookingWord::of(first)?, behind)
    } else {
        None
    }
}

/// The query of a line that begins with `?`. `None` if it is outside the grammar.
#[tactic(auto, unfolding(crate::specs::Looking::looking_at))]
pub fn looking_of(line: &[u8]) -> Option<Looking>
    ensures { result ≡ spec.looking_at line.now }
{
    let front = words_of(line)?;
    if front.rest.is_empty() {
        looking_by(front.words.as_slice())
    } else {
        None
    }
}
