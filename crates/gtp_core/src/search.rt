//! What a search finds for a side.

ghost use Rattle.std.specs.Prelude.{◌≡◌};
ghost use Rattle.gtp_core.specs.Private.Following.{IsFound, FoundOnBoard, win_on_board};

use go_points::{Colour, Size, Turn};
use pn_search::{Answers, Budget, Verdict, solve_for};
use std::alloc::Global;
use std::num::NonZeroUsize;
use target_game::Problem;

/// The greatest number of steps of a search.
const MAX_STEPS: u64 = 100_000;

/// The greatest number of entries of its table.
const MAX_ENTRIES: usize = 65_536;

/// What a search finds for a side.
#[derive(Clone, Copy, Debug, PartialEq, Eq)]
pub(crate) enum Found {
    /// The turn is legal, and the side wins after it.
    Win(Turn),
    /// The other side wins.
    Loss,
    Unknown,
}

/// What a search has found for a side.
#[derive(Clone, Copy, Debug)]
pub(crate) struct Known {
    pub(crate) colour: Colour,
    pub(crate) found: Found,
}

/// What a search finds for the side that is to move.
pub(crate) fn searched(alloc: Global, problem: Problem, colour: Colour) -> Found
    ensures found { IsFound colour problem result }
    ensures on_board { FoundOnBoard problem result }
{
    let size = problem.size();
    let Some(table) = NonZeroUsize::new(MAX_ENTRIES) else {
        return Found::Unknown;
    };
    let budget = Budget {
        steps: MAX_STEPS,
        table,
    };
    let Verdict::Wins(checked) = solve_for(alloc, problem, budget, Answers::First) else {
        return Found::Unknown;
    };
    if checked.winner() != colour {
        return Found::Loss;
    }
    match checked.first_turn() {
        Some(turn) => win_on_board(size, turn),
        None => Found::Unknown,
    }
}

/// A winning turn, if the board has it.
fn win_on_board(size: Size, turn: Turn) -> Found
    ensures { result ≡ win_on_board size turn }
{
    match turn {
        Turn::Pass => Found::Win(Turn::Pass),
        Turn::At(point) => {
            if size.holds(point) {
                Found::Win(Turn::At(point))
            } else {
                Found::Unknown
            }
        }
    }
}
