//! What a test expects, written as calls: a macro's branch is proved wherever it is used, and proofs of tests took two to four
//! times as long with macros. A call of a function with a type parameter costs ten times as much as one of a function without.

ghost use Rattle.std.specs.Prelude.{IsTrue};

use go_points::{Colour, Colouring, Point};
use std::fmt::Debug;
use std::process::Abort;

/// Expects both to be equal.
pub(crate) fn expect_same<T: PartialEq + Debug + Drop>(rt: &impl Abort, found: T, wanted: T) {
    assert_eq!(rt; found, wanted);
}

/// Expects the fact to hold.
pub(crate) fn expect_that(rt: &impl Abort, fact: bool)
    ensures { IsTrue fact }
{
    assert!(rt; fact);
}

/// Expects both to be the same colour.
pub(crate) fn expect_colour(rt: &impl Abort, found: Colour, wanted: Colour) {
    assert_eq!(rt; found, wanted);
}

/// Expects both to be the same colour, or both to be `None`.
pub(crate) fn expect_optional_colour(
    rt: &impl Abort,
    found: Option<Colour>,
    wanted: Option<Colour>,
) {
    assert_eq!(rt; found, wanted);
}

/// Expects both to be the same colouring.
pub(crate) fn expect_colouring(rt: &impl Abort, found: Colouring, wanted: Colouring) {
    assert_eq!(rt; found, wanted);
}

/// Expects both to be the same count.
pub(crate) fn expect_count(rt: &impl Abort, found: usize, wanted: usize) {
    assert_eq!(rt; found, wanted);
}

/// Expects both to be the same count, or both to be `None`.
pub(crate) fn expect_optional_count(rt: &impl Abort, found: Option<usize>, wanted: Option<usize>) {
    assert_eq!(rt; found, wanted);
}

/// Expects both to be the same number of 64 bits.
pub(crate) fn expect_number(rt: &impl Abort, found: u64, wanted: u64) {
    assert_eq!(rt; found, wanted);
}

/// Expects both to be the same point, or both to be `None`.
pub(crate) fn expect_point(rt: &impl Abort, found: Option<Point>, wanted: Option<Point>) {
    assert_eq!(rt; found, wanted);
}
