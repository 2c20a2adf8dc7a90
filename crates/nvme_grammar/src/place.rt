//! The places of a line.

ghost use Rattle.std.specs.Prelude.{◌≡◌, ◌*◌, ◌/◌, ◌≤◌, length};
ghost use Rattle.nvme_spec.specs.Limits.{most_bytes};
ghost use Rattle.nvme_grammar.specs.LineFaults.{suits};
ghost use Rattle.nvme_grammar.specs.Requests.{bit_at, bit_of};
ghost use Rattle.nvme_grammar.specs.Places.{
  operand_name,
  operand_bits,
  spells,
  place_behind,
  takes_behind,
  wanted_text,
};

use super::configuration::is_shared;
use script_text::{
    NoRoom, Page, Spell, bytes_in, data_in, number_u8, number_u16, number_u32, number_u64,
    number_u128, put_labelled,
};

/// IEKEY, by its number: 0 or 1.
pub fn bit_of(number: u64) -> Option<bool>
    ensures { result ≡ bit_of number }
{
    match number {
        0 => Some(false),
        1 => Some(true),
        _ => None,
    }
}

/// IEKEY: 0 or 1.
fn bit_in(word: &[u8]) -> Option<bool>
    ensures { result ≡ bit_at word.now }
{
    bit_of(u64::from(number_u8(word)?))
}

/// The kind of a number in a line.
#[derive(Clone, Copy, Debug, PartialEq, Eq)]
pub enum Operand {
    /// C, a controller
    Cntlid,
    /// Q, a queue
    Queue,
    /// I, a place among the fetched commands
    Index,
    /// N, a namespace
    Nsid,
    /// NSID, any number as the namespace of a command
    AnyNsid,
    /// H, a host
    Host,
    /// B, the blocks of a namespace
    Size,
    Slba,
    Blocks,
    Dwords,
    Action,
    Cptpl,
    Rtype,
    Cns,
    State,
    Crkey,
    Nrkey,
    Prkey,
    /// ADDR, an address of a window
    Address,
    /// OFF, of a register
    Offset,
    /// V, of a register
    Value,
}

impl Operand {
    /// Its name in the forms of lines.
    pub(crate) fn name(self) -> &'static str
        ensures { result.now ≡ operand_name self }
    {
        match self {
            Operand::Cntlid => "C",
            Operand::Queue => "Q",
            Operand::Index => "I",
            Operand::Nsid => "N",
            Operand::AnyNsid => "NSID",
            Operand::Host => "H",
            Operand::Size => "B",
            Operand::Slba => "SLBA",
            Operand::Blocks => "BLOCKS",
            Operand::Dwords => "DWORDS",
            Operand::Action => "ACTION",
            Operand::Cptpl => "CPTPL",
            Operand::Rtype => "RTYPE",
            Operand::Cns => "CNS",
            Operand::State => "STATE",
            Operand::Crkey => "CRKEY",
            Operand::Nrkey => "NRKEY",
            Operand::Prkey => "PRKEY",
            Operand::Address => "ADDR",
            Operand::Offset => "OFF",
            Operand::Value => "V",
        }
    }

    /// Its width in bits: 8, 16, 32, 64 or 128.
    pub(crate) fn bits(self) -> u32
        ensures { result ≡ operand_bits self }
    {
        match self {
            Operand::Action | Operand::Cptpl | Operand::Rtype | Operand::Cns | Operand::State => 8,
            Operand::Cntlid | Operand::Queue | Operand::Index => 16,
            Operand::Nsid | Operand::AnyNsid | Operand::Blocks | Operand::Dwords => 32,
            Operand::Value => 32,
            Operand::Size | Operand::Slba | Operand::Address | Operand::Offset => 64,
            Operand::Crkey | Operand::Nrkey | Operand::Prkey => 64,
            Operand::Host => 128,
        }
    }

    /// The most hexadecimal digits of such a number.
    pub(crate) fn digits(self) -> usize
        ensures { result ≡ operand_bits self / 4 }
    {
        self.bits() as usize / 4
    }

    /// Whether a word is such a number.
    fn is_spelled(self, word: &[u8]) -> bool
        ensures { result ≡ spells self word.now }
    {
        match self.bits() {
            8 => number_u8(word).is_some(),
            16 => number_u16(word).is_some(),
            32 => number_u32(word).is_some(),
            64 => number_u64(word).is_some(),
            _ => number_u128(word).is_some(),
        }
    }
}

/// A place of a line: the kind of word that it takes.
#[derive(Clone, Copy, Debug, PartialEq, Eq)]
pub enum Place {
    Number(Operand),
    /// IEKEY, 0 or 1
    Iekey,
    /// The word `host`
    Host,
    /// The word `blocks`
    Blocks,
    /// `shared` or `private`
    Sharing,
    /// The word `raw`
    Raw,
    /// DATA, for the number of blocks in the word before it
    Data,
    /// `hex:DIGITS`
    Bytes,
}

impl Place {
    /// Whether a word fits the place; `before` is the word before it.
    pub(crate) fn suits(self, before: &[u8], word: &[u8], bytes: &mut [u8]) -> bool
        requires data_room { most_bytes ≤ length bytes.old }
        requires digits_room { length word.now ≤ 2 * length bytes.old }
        ensures answer { result ≡ suits before.now self word.now }
        ensures room { length bytes.new ≡ length bytes.old }
    {
        match self {
            Place::Number(operand) => operand.is_spelled(word),
            Place::Iekey => bit_in(word).is_some(),
            Place::Host => word == b"host".as_slice(),
            Place::Blocks => word == b"blocks".as_slice(),
            Place::Sharing => is_shared(word).is_some(),
            Place::Raw => word == b"raw".as_slice(),
            Place::Data => match number_u32(before) {
                Some(blocks) => data_in(word, blocks, bytes).is_some(),
                None => false,
            },
            Place::Bytes => bytes_in(word, bytes).is_some(),
        }
    }
}

impl Spell for Place {
    ghost spelled = { wanted_text };

    /// The kind of word for the place.
    fn spell<P: Page>(&self, page: &mut P) -> Result<(), NoRoom> {
        match self {
            Place::Number(operand) => {
                page.put_str(operand.name())?;
                put_labelled(page, ", a number below 2^", u64::from(operand.bits()))
            }
            Place::Iekey => page.put_str("IEKEY, 0 or 1"),
            Place::Host => page.put_str("the word 'host'"),
            Place::Blocks => page.put_str("the word 'blocks'"),
            Place::Sharing => page.put_str("'shared' or 'private'"),
            Place::Raw => page.put_str("'raw' or nothing"),
            Place::Data => page.put_str(
                "DATA, fill: and two hexadecimal digits, or hex: and pairs of them that BLOCKS have room for",
            ),
            Place::Bytes => page.put_str("hex: and pairs of hexadecimal digits"),
        }
    }
}

/// What may follow the words that each line of a keyword has.
#[derive(Clone, Copy, Debug, PartialEq, Eq)]
pub enum Behind {
    /// No word.
    Nothing,
    /// `raw`, or no word.
    Raw,
    /// Any number of controllers.
    Controllers,
}

impl Behind {
    /// The place of the word with this index, from 0.
    pub(crate) fn place(self, index: usize) -> Option<Place>
        ensures { result ≡ place_behind self index }
    {
        match self {
            Behind::Raw if index == 0 => Some(Place::Raw),
            Behind::Controllers => Some(Place::Number(Operand::Cntlid)),
            _ => None,
        }
    }

    /// Whether `words` words may follow.
    pub(crate) fn takes(self, words: usize) -> bool
        ensures { result ≡ takes_behind self words }
    {
        match self {
            Behind::Nothing => words == 0,
            Behind::Raw => words <= 1,
            Behind::Controllers => true,
        }
    }
}
