//! Parses the lines before `start`, and `start`: the configuration of a subsystem.

ghost use Rattle.std.specs.Prelude.{◌≡◌, map, option_map, true};
ghost use Rattle.nvme_grammar.specs.Reader.{sentence_behind, sets_up_by_words};
ghost use Rattle.nvme_grammar.specs.Lent.{line_by_value};
ghost use Rattle.nvme_grammar.specs.Line.{rawness, controller, namespace, start, sharing};
ghost use Rattle.nvme_grammar.specs.declared.keyword.Keyword.TheVariants.{Attached};
ghost use Rattle.script_text.specs.Words.{starts_apart};

use super::keyword::Keyword;
use super::line::Line;
use super::numbers::{named_in, numbers_in};
use arrayvec::ArrayVec;
use nvme_spec::{ControllerConfig, NsConfig};
use script_text::{number_u16, number_u32, number_u64, number_u128, words_of};

/// Whether a controller's host is raw, by the words after `controller C host H`: none, or `raw`.
fn is_raw(words: &[&[u8]]) -> Option<bool>
    ensures { result ≡ rawness (map (λ word. word.now) words.now) }
{
    let Some((word, rest)) = words.split_first() else {
        return Some(false);
    };
    if *word == b"raw".as_slice() && rest.is_empty() {
        Some(true)
    } else {
        None
    }
}

/// `controller C host H`, or `controller C host H raw`, without its first word.
fn controller_of(words: &[&[u8]]) -> Option<Line<'static>>
    ensures { option_map line_by_value result ≡ controller (map (λ word. word.now) words.now) }
{
    let [cntlid, keyword, host, behind @ ..] = words else {
        return None;
    };
    if *keyword != b"host".as_slice() {
        return None;
    }
    Some(Line::Controller(ControllerConfig {
        cntlid: number_u16(cntlid)?,
        host: number_u128(host)?,
        raw: is_raw(behind)?,
    }))
}

/// Whether a word is `shared` or `private`.
pub fn is_shared(word: &[u8]) -> Option<bool>
    ensures { result ≡ sharing word.now }
{
    if word == b"shared".as_slice() {
        Some(true)
    } else if word == b"private".as_slice() {
        Some(false)
    } else {
        None
    }
}

/// `namespace N blocks B shared`, or `private`, without its first word.
#[tactic(auto, using(crate::proofs::ArityLemmas::four_other))]
fn namespace_of(words: &[&[u8]]) -> Option<Line<'static>>
    ensures { option_map line_by_value result ≡ namespace (map (λ word. word.now) words.now) }
{
    let [nsid, keyword, blocks, sharing] = words.as_array::<4>()?;
    if *keyword != b"blocks".as_slice() {
        return None;
    }
    Some(Line::Namespace(NsConfig {
        nsid: number_u32(nsid)?,
        blocks: number_u64(blocks)?,
        shared: is_shared(sharing)?,
    }))
}

/// `attached C N`, without its first word.
pub fn attached_in(line: &[u8]) -> Option<Line<'static>>
    requires apart { starts_apart line.now ≡ true }
    ensures { option_map line_by_value result ≡ sentence_behind Attached line.now }
{
    let mut numbers = ArrayVec::new();
    let rest = numbers_in(line, 2, &mut numbers);
    let (cntlid, nsid) = named_in(numbers.as_slice())?;
    if rest.is_empty() {
        Some(Line::Attached { cntlid, nsid })
    } else {
        None
    }
}

/// `start`, without its first word: no word follows.
fn start_of(words: &[&[u8]]) -> Option<Line<'static>>
    ensures { option_map line_by_value result ≡ start (map (λ word. word.now) words.now) }
{
    if words.is_empty() {
        Some(Line::Start)
    } else {
        None
    }
}

/// Parses a line after one of the other keywords of lines before `start`, or after `start`.
pub fn setup_of(keyword: Keyword, line: &[u8]) -> Option<Line<'static>>
    requires { sets_up_by_words keyword ≡ true }
    ensures { option_map line_by_value result ≡ sentence_behind keyword line.now }
{
    let front = words_of(line)?;
    if !front.rest.is_empty() {
        return None;
    }
    let words = front.words.as_slice();
    match keyword {
        Keyword::Controller => controller_of(words),
        Keyword::Namespace => namespace_of(words),
        _ => start_of(words),
    }
}
