//! Numbers in hexadecimal.

ghost use Rattle.std.specs.Prelude.{◌≡◌, ◌<◌, ◌^◌, ◌∷◌, ◌++◌, [], false};
ghost use Rattle.std.specs.Fmt.{digit_glyph, digits};
ghost use Rattle.script_text.specs.Pages.{Adds, in_hex};

use crate::page::{NoRoom, Page};

/// The hexadecimal digit of a number below 16.
fn digit_text(number: u64) -> &'static str
    requires { number < 16 }
    ensures { result.now ≡ digit_glyph false number ∷ [] }
{
    match number {
        0 => "0",
        1 => "1",
        2 => "2",
        3 => "3",
        4 => "4",
        5 => "5",
        6 => "6",
        7 => "7",
        8 => "8",
        9 => "9",
        10 => "a",
        11 => "b",
        12 => "c",
        13 => "d",
        14 => "e",
        _ => "f",
    }
}

/// Puts a number in hexadecimal, without leading zeros.
#[tactic(auto, using(crate::proofs::HexNumberLemmas::digits_of_few))]
pub fn put_hex<P: Page>(page: &mut P, number: u64) -> Result<(), NoRoom>
    ensures { Adds P.room result (P.written page.old) (digits 16 false number) (P.written page.new) }
{
    if number < 16 {
        return page.put_str(digit_text(number));
    }
    put_hex(page, number / 16)?;
    page.put_str(digit_text(number % 16))
}

/// Puts a number of 128 bits in hexadecimal, without leading zeros.
pub fn put_wide_hex<P: Page>(page: &mut P, number: u128) -> Result<(), NoRoom>
    ensures { Adds P.room result (P.written page.old) (digits 16 false number) (P.written page.new) }
{
    if number < 18_446_744_073_709_551_616 {
        return put_hex(page, number as u64);
    }
    put_wide_hex(page, number / 16)?;
    page.put_str(digit_text((number % 16) as u64))
}

/// Puts a byte in two hexadecimal digits, between two texts.
pub fn put_byte_between<P: Page>(
    page: &mut P,
    front: &str,
    byte: u8,
    behind: &str,
) -> Result<(), NoRoom>
    ensures { Adds P.room result (P.written page.old) (front.now ++ in_hex 2 byte ++ behind.now) (P.written page.new) }
{
    page.put_str(front)?;
    put_hex_in(page, 2, u64::from(byte))?;
    page.put_str(behind)
}

/// Puts a number in `width` hexadecimal digits.
#[tactic(auto, using(crate::proofs::HexNumberLemmas::in_hex_of_one, crate::proofs::HexNumberLemmas::one_digit, crate::proofs::HexNumberLemmas::front_fits))]
pub fn put_hex_in<P: Page>(page: &mut P, width: usize, number: u64) -> Result<(), NoRoom>
    requires some { 0 < width }
    requires fits { number < 16 ^ width }
    ensures { Adds P.room result (P.written page.old) (in_hex width number) (P.written page.new) }
{
    if width == 1 {
        return page.put_str(digit_text(number));
    }
    put_hex_in(page, width - 1, number / 16)?;
    page.put_str(digit_text(number % 16))
}
