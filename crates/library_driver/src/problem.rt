//! The problem that is judged and solved, and a claim for it.

use go_points::{Colour, Colouring, PointSet, Size, sgf_point};
use std::alloc::Global;
use target_game::Problem;

/// Three rows, one white stone in the corner that Black cannot take at the two points of the region.
const CELLS: &[u8] = b"O........";

/// A claim that White wins, with a lemma.
pub const CLAIM: &[u8] =
    b"tsucert 1 3 W\nlemma W 0 O......XX\nplay pass\nall 1\nreply pass\nwon\nend\nmain\nall 3\nreply bc\nplay pass\nall 2\nreply cc\nuse 1\nreply pass\nwon\nreply cc\nplay pass\nall 2\nreply bc\nuse 1\nreply pass\nwon\nreply pass\nplay pass\nwon\nend\n";

fn points(size: Size, letters: &[u8]) -> PointSet {
    let mut set = PointSet::new();
    for pair in letters.chunks(2) {
        if let Some(point) = sgf_point(size, pair) {
            set.insert(point);
        }
    }
    set
}

/// The problem, if there is memory for it.
pub fn problem(alloc: Global) -> Option<Problem> {
    let size = Size::new(3)?;
    let mut history = Vec::new(alloc);
    history.push(Colouring::from_text(size, CELLS)?).ok()?;
    let (targets, region) = (points(size, b"aa"), points(size, b"bccc"));
    Problem::new(history, 0, Colour::Black, 0, targets, region).ok()
}

/// Whether both problems are the same.
pub fn is_same(left: &Problem, right: &Problem) -> bool {
    left.history() == right.history()
        && left.place() == right.place()
        && left.mover() == right.mover()
        && left.passes() == right.passes()
        && *left.targets() == *right.targets()
        && *left.region() == *right.region()
}
