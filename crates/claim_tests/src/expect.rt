//! What a test expects, written as calls: a macro's branch is proved wherever it is used, and proofs of tests took two to four
//! times as long with macros. A call of a function with a type parameter costs ten times as much as one of a function without.

ghost use Rattle.std.specs.Prelude.{IsTrue};

use go_points::Colour;
use solution_tree::Expand;
use std::fmt::Debug;
use std::process::Abort;

/// Expects both to be equal.
pub(crate) fn expect_same<T: PartialEq + Debug + Drop>(rt: &impl Abort, found: T, wanted: T) {
    assert_eq!(rt; found, wanted);
}

/// Expects the fact to hold.
pub(crate) fn expect_that(rt: &impl Abort, fact: bool)
    ensures { IsTrue fact }
{
    assert!(rt; fact);
}

/// Expects both to be the same colour.
pub(crate) fn expect_colour(rt: &impl Abort, found: Colour, wanted: Colour) {
    assert_eq!(rt; found, wanted);
}

/// Expects both to be the same count.
pub(crate) fn expect_count(rt: &impl Abort, found: usize, wanted: usize) {
    assert_eq!(rt; found, wanted);
}

/// Expects both to be the same count, or both to be `None`.
pub(crate) fn expect_size(rt: &impl Abort, found: Option<usize>, wanted: Option<usize>) {
    assert_eq!(rt; found, wanted);
}

/// Expects both to be the same reason for which there is no tree, or both to be `None`.
pub(crate) fn expect_stop(rt: &impl Abort, found: Option<Expand>, wanted: Option<Expand>) {
    assert_eq!(rt; found, wanted);
}

/// Expects both to be the same bytes.
pub(crate) fn expect_bytes(rt: &impl Abort, found: &[u8], wanted: &[u8]) {
    assert_eq!(rt; found, wanted);
}

/// Expects both to be the same text.
pub(crate) fn expect_text(rt: &impl Abort, found: &str, wanted: &str) {
    assert_eq!(rt; found, wanted);
}
