//! The words that query lines begin with.

ghost use Rattle.std.specs.Prelude.{◌≡◌};
ghost use Rattle.live_text.specs.LookingWords as spec;

use nvme_grammar::is_meant;

/// The word that a query line begins with.
#[derive(Clone, Copy, Debug, PartialEq, Eq)]
pub enum LookingWord {
    Window,
    Register,
    Registers,
    Queues,
    Fetched,
    Driver,
    Namespaces,
    Reservation,
    Attached,
    Blocks,
    Line,
    Help,
}

/// All of them.
const LOOKING_WORDS: [LookingWord; 12] = [
    LookingWord::Window,
    LookingWord::Register,
    LookingWord::Registers,
    LookingWord::Queues,
    LookingWord::Fetched,
    LookingWord::Driver,
    LookingWord::Namespaces,
    LookingWord::Reservation,
    LookingWord::Attached,
    LookingWord::Blocks,
    LookingWord::Line,
    LookingWord::Help,
];

/// Their texts in this order, each after a space.
const LOOKING_TEXTS: &str =
    " ?window ?register ?registers ?queues ?fetched ?driver ?namespaces ?reservation ?attached ?blocks ?line ?help";

impl LookingWord {
    /// All of them, each after a space.
    pub fn all_texts() -> &'static str
        ensures { result.now ≡ spec.word_texts }
    {
        LOOKING_TEXTS
    }

    /// The word as sessions have it.
    pub fn text(self) -> &'static str
        ensures { result.now ≡ spec.word_text self }
    {
        match self {
            LookingWord::Window => "?window",
            LookingWord::Register => "?register",
            LookingWord::Registers => "?registers",
            LookingWord::Queues => "?queues",
            LookingWord::Fetched => "?fetched",
            LookingWord::Driver => "?driver",
            LookingWord::Namespaces => "?namespaces",
            LookingWord::Reservation => "?reservation",
            LookingWord::Attached => "?attached",
            LookingWord::Blocks => "?blocks",
            LookingWord::Line => "?line",
            LookingWord::Help => "?help",
        }
    }

    /// A line that begins with it, with the names of its places: a part in brackets may be left out.
    pub fn form(self) -> &'static str
        ensures { result.now ≡ spec.form_text self }
    {
        match self {
            LookingWord::Window => "?window C ADDR LEN",
            LookingWord::Register => "?register C OFF",
            LookingWord::Registers => "?registers C",
            LookingWord::Queues => "?queues C",
            LookingWord::Fetched => "?fetched C",
            LookingWord::Driver => "?driver C",
            LookingWord::Namespaces => "?namespaces",
            LookingWord::Reservation => "?reservation N",
            LookingWord::Attached => "?attached",
            LookingWord::Blocks => "?blocks N SLBA COUNT",
            LookingWord::Line => "?line TEXT",
            LookingWord::Help => "?help [WORD]",
        }
    }

    /// The query word of a word, if it is one.
    #[tactic(auto, unfolding(crate::specs::LookingWords::looking_word_of))]
    pub fn of(word: &[u8]) -> Option<LookingWord>
        ensures { result ≡ spec.looking_word_of word.now }
    {
        let mut words = LOOKING_WORDS.as_slice();
        while let Some((first, behind)) = words.split_first() {
            if word == first.text().as_bytes() {
                return Some(*first);
            }
            words = behind;
        }
        None
    }

    /// The first that a word resembles: one letter is wrong, missing or too many, two are exchanged, or some are
    /// capitals.
    #[tactic(auto, unfolding(crate::specs::LookingWords::nearest_to))]
    pub(crate) fn nearest(word: &[u8]) -> Option<LookingWord>
        ensures { result ≡ spec.nearest_to word.now }
    {
        let mut words = LOOKING_WORDS.as_slice();
        while let Some((first, behind)) = words.split_first() {
            if is_meant(word, first.text().as_bytes()) {
                return Some(*first);
            }
            words = behind;
        }
        None
    }
}
