//! The parts of lines: keywords, numbers and bytes.

ghost use Rattle.std.specs.Prelude.{◌≡◌, ◌++◌, codes};
ghost use Rattle.script_text.specs.Pages.{Adds};
ghost use Rattle.nvme_lines.specs.LineTexts.{bytes_word, data_word, decimals, keyword_line, spaced};

use nvme_grammar::Keyword;
use script_text::{NoRoom, Page, put_digits, put_labelled, trimmed};

/// Puts numbers, each after a space.
pub fn put_numbers<P: Page>(page: &mut P, numbers: &[u64]) -> Result<(), NoRoom>
    ensures { Adds P.room result (P.written page.old) (spaced (decimals numbers.now)) (P.written page.new) }
{
    let mut rest = numbers;
    while let Some((first, behind)) = rest.split_first() {
        put_labelled(page, " ", *first)?;
        rest = behind;
    }
    Ok(())
}

/// Puts identifiers of controllers, each after a space.
pub fn put_identifiers<P: Page>(page: &mut P, list: &[u16]) -> Result<(), NoRoom>
    ensures { Adds P.room result (P.written page.old) (spaced (decimals list.now)) (P.written page.new) }
{
    let mut rest = list;
    while let Some((first, behind)) = rest.split_first() {
        put_labelled(page, " ", u64::from(*first))?;
        rest = behind;
    }
    Ok(())
}

/// Puts a keyword, and numbers after it.
pub fn put_keyword<P: Page>(page: &mut P, keyword: Keyword, numbers: &[u64]) -> Result<(), NoRoom>
    ensures { Adds P.room result (P.written page.old) (keyword_line keyword (decimals numbers.now))
        (P.written page.new) }
{
    page.put_str(keyword.text())?;
    put_numbers(page, numbers)
}

/// Puts bytes after a space, two digits each.
pub fn put_bytes<P: Page>(page: &mut P, bytes: &[u8]) -> Result<(), NoRoom>
    ensures { Adds P.room result (P.written page.old) (codes " " ++ bytes_word bytes.now) (P.written page.new) }
{
    page.put_str(" hex:")?;
    put_digits(page, bytes)
}

/// Puts data after a space, without the zeros at their end, but at least one byte.
pub fn put_data<P: Page>(page: &mut P, bytes: &[u8]) -> Result<(), NoRoom>
    ensures { Adds P.room result (P.written page.old) (codes " " ++ data_word bytes.now) (P.written page.new) }
{
    let front = trimmed(bytes);
    if front.is_empty() {
        return page.put_str(" hex:00");
    }
    put_bytes(page, front)
}
