//! The words that lines begin with, and the places after each of them.

ghost use Rattle.std.specs.Prelude.{◌≡◌, IfSome};
ghost use Rattle.nvme_grammar.specs.Keywords.{
  keyword_text,
  keyword_texts,
  keyword_of,
  places_of,
  behind_of,
  place_at,
  takes_words,
  sets_up,
  form_text,
  nearest_to,
};
ghost use Rattle.nvme_grammar.specs.Near.{is_meant};

use super::near::is_meant;
use super::place::{Behind, Operand, Place};

/// The word that a line begins with.
#[derive(Clone, Copy, Debug, PartialEq, Eq)]
pub enum Keyword {
    Controller,
    Namespace,
    Attached,
    Start,
    Up,
    Read,
    Write,
    Compare,
    Zeroes,
    Flush,
    Register,
    Acquire,
    Release,
    Report,
    Identify,
    Protect,
    Protection,
    Attach,
    Detach,
    Ring,
    Fetch,
    Execute,
    Poll,
    Reset,
    Store,
    Write32,
    PowerCycle,
}

/// All keywords, those of the lines before `start` first.
const KEYWORDS: [Keyword; 27] = [
    Keyword::Controller,
    Keyword::Namespace,
    Keyword::Attached,
    Keyword::Start,
    Keyword::Up,
    Keyword::Read,
    Keyword::Write,
    Keyword::Compare,
    Keyword::Zeroes,
    Keyword::Flush,
    Keyword::Register,
    Keyword::Acquire,
    Keyword::Release,
    Keyword::Report,
    Keyword::Identify,
    Keyword::Protect,
    Keyword::Protection,
    Keyword::Attach,
    Keyword::Detach,
    Keyword::Ring,
    Keyword::Fetch,
    Keyword::Execute,
    Keyword::Poll,
    Keyword::Reset,
    Keyword::Store,
    Keyword::Write32,
    Keyword::PowerCycle,
];

/// Their texts in this order, each after a space.
const KEYWORD_TEXTS: &str =
    " controller namespace attached start up read write compare zeroes flush register acquire release report \
identify protect protection attach detach ring fetch execute poll reset store write32 powercycle";

/// The controller that a line names.
const CNTLID: Place = Place::Number(Operand::Cntlid);

/// The namespace that a line names.
const NSID: Place = Place::Number(Operand::Nsid);

impl Keyword {
    /// All keywords, each after a space: those of the lines before `start` first.
    pub fn all_texts() -> &'static str
        ensures { result.now ≡ keyword_texts }
    {
        KEYWORD_TEXTS
    }

    /// The keyword as scripts have it.
    pub fn text(self) -> &'static str
        ensures { result.now ≡ keyword_text self }
    {
        match self {
            Keyword::Controller => "controller",
            Keyword::Namespace => "namespace",
            Keyword::Attached => "attached",
            Keyword::Start => "start",
            Keyword::Up => "up",
            Keyword::Read => "read",
            Keyword::Write => "write",
            Keyword::Compare => "compare",
            Keyword::Zeroes => "zeroes",
            Keyword::Flush => "flush",
            Keyword::Register => "register",
            Keyword::Acquire => "acquire",
            Keyword::Release => "release",
            Keyword::Report => "report",
            Keyword::Identify => "identify",
            Keyword::Protect => "protect",
            Keyword::Protection => "protection",
            Keyword::Attach => "attach",
            Keyword::Detach => "detach",
            Keyword::Ring => "ring",
            Keyword::Fetch => "fetch",
            Keyword::Execute => "execute",
            Keyword::Poll => "poll",
            Keyword::Reset => "reset",
            Keyword::Store => "store",
            Keyword::Write32 => "write32",
            Keyword::PowerCycle => "powercycle",
        }
    }

    /// A line of this keyword, with the names of its places: a part in brackets may be left out, and `..` means any
    /// number of words.
    pub fn form(self) -> &'static str
        ensures { result.now ≡ form_text self }
    {
        match self {
            Keyword::Controller => "controller C host H [raw]",
            Keyword::Namespace => "namespace N blocks B shared|private",
            Keyword::Attached => "attached C N",
            Keyword::Start => "start",
            Keyword::Up => "up C",
            Keyword::Read => "read C N SLBA BLOCKS",
            Keyword::Write => "write C N SLBA BLOCKS DATA",
            Keyword::Compare => "compare C N SLBA BLOCKS DATA",
            Keyword::Zeroes => "zeroes C N SLBA BLOCKS",
            Keyword::Flush => "flush C N",
            Keyword::Register => "register C N ACTION IEKEY CPTPL CRKEY NRKEY",
            Keyword::Acquire => "acquire C N ACTION RTYPE CRKEY PRKEY",
            Keyword::Release => "release C N ACTION RTYPE CRKEY",
            Keyword::Report => "report C N DWORDS",
            Keyword::Identify => "identify C CNS NSID",
            Keyword::Protect => "protect C N STATE",
            Keyword::Protection => "protection C N",
            Keyword::Attach => "attach C N C1 C2 ..",
            Keyword::Detach => "detach C N C1 C2 ..",
            Keyword::Ring => "ring C",
            Keyword::Fetch => "fetch C Q",
            Keyword::Execute => "execute C I",
            Keyword::Poll => "poll C",
            Keyword::Reset => "reset C",
            Keyword::Store => "store C ADDR hex:DIGITS",
            Keyword::Write32 => "write32 C OFF V",
            Keyword::PowerCycle => "powercycle",
        }
    }

    /// The places after the keyword, word by word.
    pub(crate) fn places(self) -> &'static [Place]
        ensures { result.now ≡ places_of self }
    {
        match self {
            Keyword::Controller => &[CNTLID, Place::Host, Place::Number(Operand::Host)],
            Keyword::Namespace => &[
                NSID,
                Place::Blocks,
                Place::Number(Operand::Size),
                Place::Sharing,
            ],
            Keyword::Attached | Keyword::Flush | Keyword::Protection => &[CNTLID, NSID],
            Keyword::Attach | Keyword::Detach => &[CNTLID, NSID],
            Keyword::Start | Keyword::PowerCycle => &[],
            Keyword::Up | Keyword::Ring | Keyword::Poll | Keyword::Reset => &[CNTLID],
            Keyword::Read | Keyword::Zeroes => &[
                CNTLID,
                NSID,
                Place::Number(Operand::Slba),
                Place::Number(Operand::Blocks),
            ],
            Keyword::Write | Keyword::Compare => &[
                CNTLID,
                NSID,
                Place::Number(Operand::Slba),
                Place::Number(Operand::Blocks),
                Place::Data,
            ],
            Keyword::Register => &[
                CNTLID,
                NSID,
                Place::Number(Operand::Action),
                Place::Iekey,
                Place::Number(Operand::Cptpl),
                Place::Number(Operand::Crkey),
                Place::Number(Operand::Nrkey),
            ],
            Keyword::Acquire => &[
                CNTLID,
                NSID,
                Place::Number(Operand::Action),
                Place::Number(Operand::Rtype),
                Place::Number(Operand::Crkey),
                Place::Number(Operand::Prkey),
            ],
            Keyword::Release => &[
                CNTLID,
                NSID,
                Place::Number(Operand::Action),
                Place::Number(Operand::Rtype),
                Place::Number(Operand::Crkey),
            ],
            Keyword::Report => &[CNTLID, NSID, Place::Number(Operand::Dwords)],
            Keyword::Identify => &[
                CNTLID,
                Place::Number(Operand::Cns),
                Place::Number(Operand::AnyNsid),
            ],
            Keyword::Protect => &[CNTLID, NSID, Place::Number(Operand::State)],
            Keyword::Fetch => &[CNTLID, Place::Number(Operand::Queue)],
            Keyword::Execute => &[CNTLID, Place::Number(Operand::Index)],
            Keyword::Store => &[CNTLID, Place::Number(Operand::Address), Place::Bytes],
            Keyword::Write32 => &[
                CNTLID,
                Place::Number(Operand::Offset),
                Place::Number(Operand::Value),
            ],
        }
    }

    /// What may follow those words.
    pub(crate) fn behind(self) -> Behind
        ensures { result ≡ behind_of self }
    {
        match self {
            Keyword::Controller => Behind::Raw,
            Keyword::Attach | Keyword::Detach => Behind::Controllers,
            _ => Behind::Nothing,
        }
    }

    /// Whether its lines precede `start`, or are `start`; all others follow it.
    pub(crate) fn sets_up(self) -> bool
        ensures { result ≡ sets_up self }
    {
        match self {
            Keyword::Controller | Keyword::Namespace | Keyword::Attached | Keyword::Start => true,
            _ => false,
        }
    }

    /// The place of the word with this index after the keyword, from 0, if a line is that long.
    pub(crate) fn place(self, index: usize) -> Option<Place>
        ensures { result ≡ place_at self index }
    {
        let places = self.places();
        match places.get(index) {
            Some(place) => Some(*place),
            None => self.behind().place(index - places.len()),
        }
    }

    /// Whether `words` words may follow the keyword.
    pub(crate) fn takes(self, words: usize) -> bool
        ensures { result ≡ takes_words self words }
    {
        let places = self.places().len();
        places <= words && self.behind().takes(words - places)
    }

    /// The keyword of a word. `None` if it is not one of the most frequent keywords after `start`.
    #[inline(always)]
    pub(crate) fn frequent_of(word: &[u8]) -> Option<Keyword>
        ensures { IfSome result (λ keyword. word.now ≡ keyword_text keyword) }
    {
        match word {
            b"ring" => Some(Keyword::Ring),
            b"fetch" => Some(Keyword::Fetch),
            b"execute" => Some(Keyword::Execute),
            b"poll" => Some(Keyword::Poll),
            b"read" => Some(Keyword::Read),
            b"write" => Some(Keyword::Write),
            b"compare" => Some(Keyword::Compare),
            b"zeroes" => Some(Keyword::Zeroes),
            b"flush" => Some(Keyword::Flush),
            b"register" => Some(Keyword::Register),
            b"acquire" => Some(Keyword::Acquire),
            b"release" => Some(Keyword::Release),
            b"report" => Some(Keyword::Report),
            b"identify" => Some(Keyword::Identify),
            b"protect" => Some(Keyword::Protect),
            b"protection" => Some(Keyword::Protection),
            b"up" => Some(Keyword::Up),
            b"reset" => Some(Keyword::Reset),
            b"store" => Some(Keyword::Store),
            b"write32" => Some(Keyword::Write32),
            _ => None,
        }
    }

    /// The keyword of a word, if it is one.
    #[inline(never)]
    #[tactic(auto, unfolding(crate::specs::Keywords::keyword_of))]
    pub fn of(word: &[u8]) -> Option<Keyword>
        ensures { result ≡ keyword_of word.now }
    {
        let mut keywords = KEYWORDS.as_slice();
        while let Some((keyword, behind)) = keywords.split_first() {
            if word == keyword.text().as_bytes() {
                return Some(*keyword);
            }
            keywords = behind;
        }
        None
    }

    /// The keyword of a word, if it is one: the most frequent keywords after `start` are tried first.
    #[inline(always)]
    pub(crate) fn first_of(word: &[u8]) -> Option<Keyword>
        ensures { result ≡ keyword_of word.now }
    {
        match Keyword::frequent_of(word) {
            Some(keyword) => Some(keyword),
            None => Keyword::of(word),
        }
    }

    /// The first keyword that a word resembles: one letter is wrong, missing or too many, two are exchanged, or some
    /// are capitals.
    #[tactic(auto, unfolding(crate::specs::Keywords::nearest_to))]
    pub(crate) fn nearest(word: &[u8]) -> Option<Keyword>
        ensures { result ≡ nearest_to word.now }
    {
        let mut keywords = KEYWORDS.as_slice();
        while let Some((keyword, behind)) = keywords.split_first() {
            if is_meant(word, keyword.text().as_bytes()) {
                return Some(*keyword);
            }
            keywords = behind;
        }
        None
    }
}
