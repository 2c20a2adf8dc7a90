//! Texts of limited length that are assembled from parts. A part is refused only if it does not fit; a formatter of
//! the standard library may refuse any text.

ghost use Rattle.std.specs.Prelude.{◌≡◌, ◌≤◌, ◌++◌, ℕ, List, [], IfOk, vec_capacity};
ghost use Rattle.std.specs.Fmt.{decimal};
ghost use Rattle.script_text.specs.Pages.{Adds, most_text};

use arrayvec::ArrayString;
use itoa::Buffer;
use std::alloc::{AllocError, Global};
use std::marker::Model;

/// The most bytes of a text: those of the longest answer to a line.
pub const MOST_TEXT: usize = 262_240;

/// A text does not fit the page, which may have some of it then.
#[derive(Clone, Copy, Debug, PartialEq, Eq)]
pub struct NoRoom;

/// A page, on which a text is assembled from parts. For contracts it defines by `room` the most bytes that it can
/// have, and by `written` those that it has.
pub trait Page {
    ghost room: { ℕ };

    ghost written: { Self → List ℕ };

    /// Appends a text to the page.
    ///
    /// # Errors
    ///
    /// Only if it does not fit.
    fn put_str(&mut self, piece: &str) -> Result<(), NoRoom>
        ensures { Adds room result (written self.old) piece.now (written self.new) };
}

/// Puts a number in decimal digits.
pub fn put_number<P: Page>(page: &mut P, number: u64) -> Result<(), NoRoom>
    ensures { Adds P.room result (P.written page.old) (decimal number) (P.written page.new) }
{
    let mut buffer = Buffer::new();
    page.put_str(buffer.format(number))
}

/// Puts a number after a label.
pub fn put_labelled<P: Page>(page: &mut P, label: &str, number: u64) -> Result<(), NoRoom>
    ensures { Adds P.room result (P.written page.old) (label.now ++ decimal number) (P.written page.new) }
{
    page.put_str(label)?;
    put_number(page, number)
}

/// Puts two texts.
pub fn put_both<P: Page>(page: &mut P, front: &str, behind: &str) -> Result<(), NoRoom>
    ensures { Adds P.room result (P.written page.old) (front.now ++ behind.now) (P.written page.new) }
{
    page.put_str(front)?;
    page.put_str(behind)
}

/// Puts three texts.
pub fn put_three<P: Page>(
    page: &mut P,
    front: &str,
    middle: &str,
    behind: &str,
) -> Result<(), NoRoom>
    ensures { Adds P.room result (P.written page.old) (front.now ++ middle.now ++ behind.now) (P.written page.new) }
{
    page.put_str(front)?;
    put_both(page, middle, behind)
}

/// A value that has a text.
pub trait Spell {
    ghost spelled: { Self → List ℕ };

    /// Puts its text onto a page.
    ///
    /// # Errors
    ///
    /// Only if it does not fit.
    fn spell<P: Page>(&self, page: &mut P) -> Result<(), NoRoom>
        ensures { Adds P.room result (P.written page.old) (spelled self.now) (P.written page.new) };
}

/// A page that is long enough for every answer to a line.
#[derive(Drop)]
pub struct Text {
    bytes: Vec<u8>,
}

impl Model for Text {
    ghost use Rattle.std.specs.Prelude.{ℕ, List};

    ghost Value = { List ℕ };

    ghost view = { λ text. text.bytes.items };

    ghost use Rattle.std.specs.Prelude.{◌≤◌, vec_capacity};
    ghost use Rattle.script_text.specs.Pages.{most_text};

    ghost invariant = { λ text. most_text ≤ vec_capacity text.bytes };
}

#[tactic(auto, unfolding(crate::specs::Pages::most_text))]
impl Text {
    /// An empty page.
    pub fn new(alloc: Global) -> Result<Text, AllocError>
        ensures { IfOk result (λ text. text ≡ []) }
    {
        Ok(Text {
            bytes: Vec::with_capacity(alloc, MOST_TEXT)?,
        })
    }

    /// Removes all from the page.
    pub fn clear(&mut self)
        ensures { self.new ≡ [] }
    {
        self.bytes.clear();
    }

    /// The bytes on the page.
    pub fn as_bytes(&self) -> &[u8]
        ensures { result.now ≡ self.now }
    {
        self.bytes.as_slice()
    }
}

impl Page for Text {
    ghost room = { most_text };

    ghost written = { λ text. text };

    #[tactic(auto, unfolding(crate::specs::Pages::most_text))]
    fn put_str(&mut self, piece: &str) -> Result<(), NoRoom> {
        if self.bytes.len() + piece.len() > MOST_TEXT {
            return Err(NoRoom);
        }
        match self.bytes.extend_from_slice(piece.as_bytes()) {
            Ok(()) => Ok(()),
            Err(_) => Err(NoRoom),
        }
    }
}

impl<const N: usize> Page for ArrayString<N> {
    ghost room = { N };

    ghost written = { λ text. text.bytes };

    fn put_str(&mut self, piece: &str) -> Result<(), NoRoom> {
        match self.try_push_str(piece) {
            Ok(()) => Ok(()),
            Err(_) => Err(NoRoom),
        }
    }
}
