//! Words that differ a little, for suggestions.

ghost use Rattle.std.specs.Prelude.{◌≡◌, drop};
ghost use Rattle.nvme_grammar.specs.Near.{are_exchanged, differ_little, is_near as near, is_meant};

/// A word without its first byte.
fn behind_first(word: &[u8]) -> &[u8]
    ensures { result.now ≡ drop 1 word.now }
{
    match word.split_first() {
        Some((_, behind)) => behind,
        None => word,
    }
}

/// Whether the first two bytes of a word are those of the other exchanged, and the others are the same.
fn are_exchanged(word: &[u8], other: &[u8]) -> bool
    ensures { result ≡ are_exchanged word.now other.now }
{
    let [a, b, behind @ ..] = word else {
        return false;
    };
    let [c, d, rest @ ..] = other else {
        return false;
    };
    *a == *d && *b == *c && behind == rest
}

/// Whether the first byte is wrong, missing or too many in a word, or its first two are exchanged.
fn differ_little(word: &[u8], other: &[u8]) -> bool
    ensures { result ≡ differ_little word.now other.now }
{
    behind_first(word) == behind_first(other)
        || behind_first(word) == other
        || word == behind_first(other)
        || are_exchanged(word, other)
}

/// Whether a word is another one with one byte wrong, missing or too many, or two exchanged.
fn is_near(word: &[u8], other: &[u8]) -> bool
    ensures { result ≡ near word.now other.now }
{
    let mut left = word;
    let mut right = other;
    while let Some((a, behind)) = left.split_first() {
        let Some((b, rest)) = right.split_first() else {
            return differ_little(left, right);
        };
        if *a != *b {
            return differ_little(left, right);
        }
        left = behind;
        right = rest;
    }
    differ_little(left, right)
}

/// Whether a word resembles another one, or differs only in the case of its letters.
#[tactic(auto, unfolding(crate::specs::Near::is_meant))]
pub fn is_meant(word: &[u8], other: &[u8]) -> bool
    ensures { result ≡ is_meant word.now other.now }
{
    is_near(word, other) || word.eq_ignore_ascii_case(other)
}
