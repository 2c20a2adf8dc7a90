//! Assertions, one function for each kind: each `assert_eq!` makes the proof of its function much longer. A call that
//! fails names its test, and both values.

ghost use Rattle.std.specs.Prelude.{◌≡◌, true};

use std::fmt::Debug;
use std::process::Abort;

/// Fails unless `found` is `expected`.
pub(crate) fn expect_eq<T: PartialEq + Debug + Drop>(rt: &impl Abort, found: T, expected: T) {
    assert_eq!(rt; found, expected);
}

/// Fails unless it holds.
pub(crate) fn expect_that(rt: &impl Abort, holds: bool)
    ensures { holds ≡ true }
{
    assert!(rt; holds);
}
