//! Problems that tests write as texts.

use go_points::{Colour, Colouring, PointSet, Size, sgf_point};
use std::alloc::Global;
use std::process::Abort;
use target_game::Problem;

/// A problem on a board of `rows` rows: the texts of its history, with the present colouring last; who is to move, and after how
/// many passes; and the points of the targets and the region, two letters for each.
#[derive(Drop)]
pub(crate) struct Position<'a> {
    pub(crate) rows: u8,
    pub(crate) texts: &'a [&'a str],
    pub(crate) mover: Colour,
    pub(crate) passes: u64,
    pub(crate) targets: &'a str,
    pub(crate) region: &'a str,
}

/// The problem that the texts give.
pub(crate) fn problem_of(rt: &impl Abort, alloc: Global, position: &Position<'_>) -> Problem {
    let made = Problem::new(
        history(rt, alloc, position.rows, position.texts),
        position.texts.len().saturating_sub(1),
        position.mover,
        position.passes,
        points(rt, position.rows, position.targets),
        points(rt, position.rows, position.region),
    );
    made.expect(rt, "a problem")
}

/// The colouring with this text.
pub(crate) fn board_of(rt: &impl Abort, rows: u8, text: &str) -> Colouring {
    let size = Size::new(rows).expect(rt, "a size");
    Colouring::from_text(size, text.as_bytes()).expect(rt, "a text")
}

/// The colourings with these texts.
pub(crate) fn history(rt: &impl Abort, alloc: Global, rows: u8, texts: &[&str]) -> Vec<Colouring> {
    let mut all = Vec::new(alloc);
    for text in texts {
        all.push(board_of(rt, rows, text)).expect(rt, "memory");
    }
    all
}

/// The points with these letters, two for each.
pub(crate) fn points(rt: &impl Abort, rows: u8, letters: &str) -> PointSet {
    let size = Size::new(rows).expect(rt, "a size");
    let mut found = PointSet::new();
    for pair in letters.as_bytes().chunks(2) {
        found.insert(sgf_point(size, pair).expect(rt, "a point"));
    }
    found
}
