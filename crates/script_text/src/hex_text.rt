//! Data in a transcript: hexadecimal, without the zero bytes at the end.

ghost use Rattle.std.specs.Prelude.{◌≡◌, ◌*◌, ◌<◌, ◌≤◌, ◌==◌, false, length, map, take};
ghost use Rattle.std.specs.Fmt.{digit_glyph};
ghost use Rattle.std.specs.List.{flat_map, list_all};
ghost use Rattle.script_text.specs.Pages.{Adds};
ghost use Rattle.script_text.specs.HexText.{hex_pair, high_digit, low_digit, hex_or_dash, without_trailing_zeros};

use crate::page::{NoRoom, Page, Spell};
use std::simd::prelude::*;

/// The number of bytes that are encoded at once.
const CHUNK: usize = 128;

/// The number of bytes that are tested at once, while all of them are zeros.
const MANY_ZEROS: usize = 256;

/// The number of the remaining bytes that are tested at once.
const FEW_ZEROS: usize = 32;

/// Bytes in lower-case hexadecimal without their trailing zero bytes, or `-` if nothing is left.
#[derive(Clone, Copy)]
pub struct HexText<'a>(pub &'a [u8]);

/// Whether all bytes are zero. It does not stop at another one: without a branch for each byte, a processor tests
/// several at once.
fn are_zeros<const N: usize>(bytes: &[u8; N]) -> bool
    ensures { result ≡ list_all (λ byte. byte == 0) bytes.now }
{
    let mut all = true;
    for i in 0..N {
        all = all & (bytes[i] == 0);
    }
    all
}

/// The bytes without zeros at their end, removed `N` at a time.
fn without_zero_chunks<const N: usize>(bytes: &[u8]) -> &[u8]
    requires some { 0 < N }
    requires few { N ≤ 4096 }
    ensures { without_trailing_zeros result.now ≡ without_trailing_zeros bytes.now }
{
    let mut rest = bytes;
    while let Some((front, last)) = rest.split_last_chunk::<N>() {
        if !are_zeros(last) {
            break;
        }
        rest = front;
    }
    rest
}

/// The bytes up to the last that is not zero.
pub fn trimmed(bytes: &[u8]) -> &[u8]
    ensures { result.now ≡ without_trailing_zeros bytes.now }
{
    let mut rest = without_zero_chunks::<FEW_ZEROS>(without_zero_chunks::<MANY_ZEROS>(bytes));
    while let Some((last, front)) = rest.split_last() {
        if *last != 0 {
            break;
        }
        rest = front;
    }
    rest
}

/// The second digit of each byte, without a branch for each.
#[inline(always)]
fn low_digits(bytes: u8x32) -> u8x32
    ensures { result ≡ map low_digit bytes }
{
    let numbers = bytes & u8x32::splat(15);
    let letters = numbers.simd_gt(u8x32::splat(9));
    numbers + letters.select(u8x32::splat(b'a' - 10), u8x32::splat(b'0'))
}

/// The first digit of each byte.
#[inline(always)]
fn high_digits(bytes: u8x32) -> u8x32
    ensures { result ≡ map high_digit bytes }
{
    low_digits(bytes >> u8x32::splat(4))
}

/// Bytes as hexadecimal digits, 32 bytes at a time.
fn encode(bytes: &[u8; CHUNK], digits: &mut [u8; 2 * CHUNK])
    ensures { digits.new ≡ flat_map hex_pair bytes.now }
{
    for k in 0..CHUNK / 32 {
        let lanes = u8x32::from_slice(&bytes[32 * k..]);
        let (front, back) = high_digits(lanes).interleave(low_digits(lanes));
        front.copy_to_slice(&mut digits[64 * k..]);
        back.copy_to_slice(&mut digits[64 * k + 32..]);
    }
}

/// A chunk's bytes, and then zeros.
fn padded(chunk: &[u8]) -> [u8; CHUNK]
    requires { length chunk.now ≤ 128 }
    ensures { take (length chunk.now) result ≡ chunk.now }
{
    let mut bytes = [0; CHUNK];
    bytes[..chunk.len()].copy_from_slice(chunk);
    bytes
}

/// A whole chunk as text in hexadecimal.
fn text_of_chunk<'a>(chunk: &[u8; CHUNK], digits: &'a mut [u8; 2 * CHUNK]) -> &'a str
    ensures { result.now ≡ flat_map hex_pair chunk.now }
{
    encode(chunk, digits);
    // SAFETY: digits are ASCII. A test would take as long as encoding them.
    unsafe { str::from_utf8_unchecked(digits) }
}

/// The bytes after the last whole chunk as text in hexadecimal.
fn text_of<'a>(rest: &[u8], digits: &'a mut [u8; 2 * CHUNK]) -> &'a str
    requires { length rest.now ≤ 128 }
    ensures { result.now ≡ flat_map hex_pair rest.now }
{
    encode(&padded(rest), digits);
    // SAFETY: as above.
    unsafe { str::from_utf8_unchecked(&digits[..2 * rest.len()]) }
}

impl Spell for HexText<'_> {
    ghost spelled = { λ t. hex_or_dash (without_trailing_zeros t.0.now) };

    fn spell<P: Page>(&self, page: &mut P) -> Result<(), NoRoom> {
        let rest = trimmed(self.0);
        if rest.is_empty() {
            return page.put_str("-");
        }
        put_digits(page, rest)
    }
}

/// Puts bytes in hexadecimal, two digits each.
pub fn put_digits<P: Page>(page: &mut P, bytes: &[u8]) -> Result<(), NoRoom>
    ensures { Adds P.room result (P.written page.old) (flat_map hex_pair bytes.now) (P.written page.new) }
{
    let mut rest = bytes;
    let mut digits = [0; 2 * CHUNK];
    while let Some((chunk, behind)) = rest.split_first_chunk::<CHUNK>() {
        page.put_str(text_of_chunk(chunk, &mut digits))?;
        rest = behind;
    }
    page.put_str(text_of(rest, &mut digits))
}

/// Puts bytes in hexadecimal into a buffer of twice their length.
pub fn encode_into(bytes: &[u8], buffer: &mut [u8])
    requires { length buffer.old ≡ 2 * length bytes.now }
    ensures { buffer.new ≡ flat_map hex_pair bytes.now }
{
    let mut rest = bytes;
    let mut at = 0;
    let mut digits = [0; 2 * CHUNK];
    while let Some((chunk, behind)) = rest.split_first_chunk::<CHUNK>() {
        encode(chunk, &mut digits);
        buffer[at..at + 2 * CHUNK].copy_from_slice(&digits);
        at += 2 * CHUNK;
        rest = behind;
    }
    encode(&padded(rest), &mut digits);
    buffer[at..].copy_from_slice(&digits[..2 * rest.len()]);
}
