//! The bytes of a script's words: decoded into a buffer, and borrowed from its front.

ghost use Rattle.std.specs.Prelude.{◌≡◌, ◌≤◌, ◌*◌, length, take, option_map, is_some, IfSome};
ghost use Rattle.script_text.specs.Data.{
  transfer_len,
  longest_data,
  fill_data,
  filled_up,
  some_bytes,
  bytes_at,
  data_at,
};
ghost use Rattle.hex.specs.Hex.{decode_of};

use super::decoding::decode;

/// The length of a transfer of `blocks` blocks, if that count is valid.
fn transfer_len_of(blocks: u32) -> Option<usize>
    ensures { result ≡ transfer_len blocks }
{
    if 1 <= blocks && blocks <= 256 {
        Some(512 * blocks as usize)
    } else {
        None
    }
}

/// Decodes hexadecimal digits to the front of a buffer, and returns the number of bytes. `None` if there are none, or
/// they are not pairs of digits.
fn decoded(digits: &[u8], buffer: &mut [u8]) -> Option<usize>
    requires room { length digits.now ≤ 2 * length buffer.old }
    ensures bytes { option_map (λ count. take count buffer.new) result ≡ some_bytes (decode_of digits.now) }
    ensures room { IfSome result (λ count. count ≤ length buffer.new) }
{
    if digits.is_empty() {
        return None;
    }
    if digits.len() % 2 != 0 {
        return None;
    }
    let count = digits.len() / 2;
    if decode(digits, &mut buffer[..count]) {
        Some(count)
    } else {
        None
    }
}

/// Decodes `hex:` and digits, and returns the number of bytes at the front of the buffer.
#[tactic(auto, unfolding(crate::specs::Data::bytes_at))]
fn spelled(word: &[u8], buffer: &mut [u8]) -> Option<usize>
    requires room { length word.now ≤ 2 * length buffer.old }
    ensures bytes { option_map (λ count. take count buffer.new) result ≡ bytes_at word.now }
    ensures room { IfSome result (λ count. count ≤ length buffer.new) }
{
    let digits = word.strip_prefix(b"hex:".as_slice())?;
    decoded(digits, buffer)
}

/// Decodes the bytes of a word into a buffer: `hex:` and an even number of hexadecimal digits of either case, at least
/// two. `None` if the word has another form.
pub fn bytes_in<'a>(word: &[u8], buffer: &'a mut [u8]) -> Option<&'a [u8]>
    requires room { length word.now ≤ 2 * length buffer.old }
    ensures bytes { option_map (λ bytes. bytes.now) result ≡ bytes_at word.now }
{
    let count = spelled(word, buffer)?;
    Some(&buffer[..count])
}

/// Data that repeat one byte.
fn filled<'a>(digits: &[u8], len: Option<usize>, buffer: &'a mut [u8]) -> Option<&'a [u8]>
    requires room { IfSome len (λ n. n ≤ length buffer.old) }
    ensures { option_map (λ bytes. bytes.now) result ≡ fill_data len (decode_of digits.now) }
{
    let mut byte = [0];
    hex::decode_to_slice(digits, &mut byte).ok()?;
    let Some(len) = len else {
        return Some(&[]);
    };
    let data = &mut buffer[..len];
    data.fill(byte[0]);
    Some(data)
}

/// Whether the digits are one byte.
fn is_byte(digits: &[u8], len: Option<usize>) -> bool
    ensures { result ≡ is_some (fill_data len (decode_of digits.now)) }
{
    let mut byte = [0];
    match hex::decode_to_slice(digits, &mut byte) {
        Ok(()) => true,
        Err(_) => false,
    }
}

/// Extends bytes at the front of a buffer with zeros. `None` if they are more than the data.
fn padded<'a>(count: usize, len: usize, buffer: &'a mut [u8]) -> Option<&'a [u8]>
    requires some { count ≤ length buffer.old }
    requires room { len ≤ length buffer.old }
    ensures { option_map (λ bytes. bytes.now) result ≡ filled_up len (take count buffer.old) }
{
    if count > len {
        return None;
    }
    let data = &mut buffer[..len];
    data[count..].fill(0);
    Some(data)
}

/// Decodes the data of a word for a transfer of `blocks` blocks into a buffer: `fill:` and two hexadecimal digits, or
/// `hex:` and an even number of them, at least two; the digits are of either case. For 1 to 256 blocks the data are 512
/// bytes a block, `hex:` data extended with zeros; for any other count they are empty.
///
/// `None` if the word has another form, or its data are longer than the transfer.
#[tactic(auto, unfolding(crate::specs::Data::data_at))]
pub fn data_in<'a>(word: &[u8], blocks: u32, buffer: &'a mut [u8]) -> Option<&'a [u8]>
    requires room { longest_data ≤ length buffer.old }
    requires room_for_digits { length word.now ≤ 2 * length buffer.old }
    ensures bytes { option_map (λ bytes. bytes.now) result ≡ data_at blocks word.now }
{
    let len = transfer_len_of(blocks);
    if let Some(digits) = word.strip_prefix(b"fill:".as_slice()) {
        return filled(digits, len, buffer);
    }
    let count = spelled(word, buffer)?;
    match len {
        Some(len) => padded(count, len, buffer),
        None => Some(&[]),
    }
}

/// Whether a word has data for a transfer of `blocks` blocks, that is, whether `data_in` returns any. It overwrites the
/// buffer, but does not fill it.
#[tactic(auto, unfolding(crate::specs::Data::data_at))]
pub fn is_data(word: &[u8], blocks: u32, buffer: &mut [u8]) -> bool
    requires room_for_digits { length word.now ≤ 2 * length buffer.old }
    ensures { result ≡ is_some (data_at blocks word.now) }
{
    let len = transfer_len_of(blocks);
    if let Some(digits) = word.strip_prefix(b"fill:".as_slice()) {
        return is_byte(digits, len);
    }
    let Some(count) = spelled(word, buffer) else {
        return false;
    };
    match len {
        Some(len) => count <= len,
        None => true,
    }
}
