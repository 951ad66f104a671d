//! What a test expects, written as calls, whose proofs take less time than those of macros.

ghost use Rattle.std.specs.Prelude.{IsTrue};

use std::process::Abort;

/// Expects the fact to hold.
pub(crate) fn expect_that(rt: &impl Abort, fact: bool)
    ensures { IsTrue fact }
{
    assert!(rt; fact);
}

/// Expects both to be the same bytes.
pub(crate) fn expect_bytes(rt: &impl Abort, found: &[u8], wanted: &[u8]) {
    assert_eq!(rt; found, wanted);
}

/// Expects both to be the same count.
pub(crate) fn expect_count(rt: &impl Abort, found: usize, wanted: usize) {
    assert_eq!(rt; found, wanted);
}

/// Expects both to be the same number of 64 bits.
pub(crate) fn expect_number(rt: &impl Abort, found: u64, wanted: u64) {
    assert_eq!(rt; found, wanted);
}

/// Expects this text of what was written.
pub(crate) fn expect_written(rt: &impl Abort, written: Vec<u8>, text: &str) {
    let said = String::from_utf8(written).ok().expect(rt, "a text");
    assert_eq!(rt; said.as_str(), text);
}
