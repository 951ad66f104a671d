//! What all legal play of a number of turns decides.

ghost use Rattle.std.specs.Prelude.{◌≡◌, ◌≤◌, IfOk};
ghost use Rattle.target_game.specs.State.{start};
ghost use Rattle.target_game.specs.Within.{decision};

use crate::PlayState;
use crate::problem::Problem;
use crate::tally::tally_state;
use go_points::Colour;
use std::alloc::{AllocError, Global};

/// What all legal play of a number of turns decides.
#[derive(Clone, Copy, Debug, PartialEq, Eq)]
pub enum Within {
    /// This side can force a win.
    Wins(Colour),
    /// Neither side can force a win.
    Neither,
    /// The tree of all legal play has more states than allowed.
    Limit,
}

/// Who can force a win within `turns` turns. It is `Limit` exactly if the tree of all legal play of at most that many turns has
/// more states than `nodes`, the start included; otherwise it is the side that can force a win, or `Neither`.
///
/// Winning, turns and states are those of the target game, which is this project's own. Every state of the tree is visited, up to
/// the first past the limit, and the memory used is that of one path. An error means that memory was refused, and says nothing
/// about the problem.
pub fn decide_within(
    alloc: Global,
    problem: &Problem,
    turns: u32,
    nodes: u64,
) -> Result<Within, AllocError>
    requires { turns ≤ 200 }
    ensures { IfOk result (λ w. w ≡ decision (start problem.now) turns nodes) }
{
    let mut state = PlayState::of(alloc, problem)?;
    match tally_state(&mut state, turns, nodes)? {
        Some(tally) => Ok(tally.decision()),
        None => Ok(Within::Limit),
    }
}
