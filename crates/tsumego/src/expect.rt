//! What a test expects, written as calls: a macro's branch is proved wherever it is used, and proofs of tests took two to four
//! times as long with macros. A call of a function with a type parameter costs ten times as much as one of a function without.

ghost use Rattle.std.specs.Prelude.{IsTrue};

use run_parts::Status;
use std::process::Abort;

/// Expects the program to have ended with this status.
pub(crate) fn expect_status(rt: &impl Abort, found: Status, wanted: Status) {
    assert_eq!(rt; found, wanted);
}

/// Expects this text to have been written.
pub(crate) fn expect_text(rt: &impl Abort, found: &[u8], wanted: &str) {
    assert_eq!(rt; found, wanted.as_bytes());
}

/// Expects both to be the same number.
pub(crate) fn expect_number(rt: &impl Abort, found: u64, wanted: u64) {
    assert_eq!(rt; found, wanted);
}

/// Expects the fact to hold.
pub(crate) fn expect_that(rt: &impl Abort, fact: bool)
    ensures { IsTrue fact }
{
    assert!(rt; fact);
}
