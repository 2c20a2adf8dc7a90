//! The forms of a session's lines, by their first words: those of scripts, and queries.

ghost use Rattle.std.specs.Prelude.{◌≡◌};
ghost use Rattle.live_text.specs.Forms as spec;

use crate::looking_word::LookingWord;
use nvme_grammar::Keyword;

/// A kind of line.
#[derive(Clone, Copy, Debug, PartialEq, Eq)]
pub enum Form {
    /// A line of a script.
    Line(Keyword),
    /// A query.
    Looking(LookingWord),
}

impl Form {
    /// The form of such a line.
    pub fn text(self) -> &'static str
        ensures { result.now ≡ spec.form_text self }
    {
        match self {
            Form::Line(keyword) => keyword.form(),
            Form::Looking(word) => word.form(),
        }
    }
}

/// The form of the lines with this first word. `None` if there is no such line.
pub fn form_of(word: &[u8]) -> Option<Form>
    ensures { result ≡ spec.form_at word.now }
{
    match LookingWord::of(word) {
        Some(first) => Some(Form::Looking(first)),
        None => Keyword::of(word).map(Form::Line),
    }
}
