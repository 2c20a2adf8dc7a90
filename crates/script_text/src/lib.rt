//! The parts of a script's text: reading a text to its end, its lines, the words of a line, the numbers and data in
//! words, the data in a transcript, and writing bytes. Nothing here depends on NVMe, so it is proved in parallel with
//! that.
#![tactic(auto)]

mod data;
mod decoding;
mod examples;
mod front;
mod hex_number;
mod hex_text;
pub mod laws;
mod lines;
mod number;
mod page;
mod reading;
mod stream;
mod words;
mod writing;

pub use data::{bytes_in, data_in, is_data};
pub use front::{FrontNumber, front_number};
pub use hex_number::{put_byte_between, put_hex, put_hex_in, put_wide_hex};
pub use hex_text::{HexText, encode_into, put_digits, trimmed};
pub use lines::{front_line, line_bound};
pub use number::{number_u8, number_u16, number_u32, number_u64, number_u128};
pub use page::{
    MOST_TEXT, NoRoom, Page, Spell, Text, put_both, put_labelled, put_number, put_three,
};
pub use reading::{ReadFault, read_text};
pub use stream::{FlushedSink, Sink, Source};
pub use words::{
    FirstWord, FrontWords, MOST_WORDS, behind_separators, first_word, text_len, words_of,
};
pub use writing::{write_front, write_whole};
