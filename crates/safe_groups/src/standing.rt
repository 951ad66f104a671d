//! Areas of a claim that are judged for whichever side keeps, without targets: what other claims stand on.

ghost use Rattle.std.specs.Prelude.{◌≡◌, ◌<◌, ℕ, length, IfOk, OnOk};
ghost use Rattle.go_points.specs.declared.Cell.TheVariants.{Stone};
ghost use Rattle.go_points.specs.Grid.{cell_at, side_of};
ghost use Rattle.safe_groups.specs.Together.{IsKept};
ghost use Rattle.safe_groups.specs.Ground.{areas_of, ground_at, state_at, HasReplies, HoldsOn};

use crate::bodies::Counts;
use crate::claim::{fault_of, judge_bodies, prepare};
use crate::fault::{Fault, Stop};
use crate::ground::Ground;
use crate::heads::{Heads, read_heads};
use crate::lines::ClaimLines;
use crate::verdict::hold_on;
use go_points::{Colour, Colouring};
use std::alloc::Global;
use std::io::Read;
use target_game::Problem;

/// Areas in which the keeper has answers to everything, on a problem's board.
#[derive(Drop)]
pub struct Standing {
    pub grounds: Vec<Ground>,
    pub begins: Vec<Colouring>,
    /// The stones that they keep, as the keeper's on a colouring.
    pub stones: Colouring,
}

/// Judges the bodies of these areas; what follows them has been read then. Without areas nothing more is read.
fn judge_heads<R: Read>(
    alloc: Global,
    problem: &Problem,
    keeper: Colour,
    heads: &Heads,
    lines: &mut ClaimLines<'_, R>,
    counts: &mut Counts,
) -> Result<Colouring, Stop>
    ensures side { IfOk result (λ stones. side_of stones ≡ problem.now.game.size) }
    ensures holds { OnOk result
        (HoldsOn problem.now keeper heads.now.grounds.items heads.now.begins.items) }
    ensures kept { IfOk result (λ stones. (p : ℕ) → cell_at stones p ≡ Stone keeper
        → IsKept keeper (areas_of heads.now.grounds.items) (state_at heads.now.begins.items) p) }
    ensures replies { OnOk result ((i : ℕ) → i < length heads.now.grounds.items
        → HasReplies (ground_at heads.now.grounds.items i) (state_at heads.now.begins.items i)) }
{
    let grounds = heads.grounds.as_slice();
    let begins = heads.begins.as_slice();
    let stones = match hold_on(problem, keeper, grounds, begins) {
        Ok(stones) => stones,
        Err(misfit) => return Err(Stop::Fault(fault_of(misfit))),
    };
    judge_bodies(alloc, grounds, begins, lines, counts)?;
    Ok(stones)
}

/// Reads the areas of a claim, the first of whose lines is the next, and judges them, where this side keeps. Then the line after them
/// has been read. There may be none.
///
/// For each state it takes, at each point of the region, a few sweeps over the board.
pub fn judge_standing<R: Read>(
    alloc: Global,
    problem: &Problem,
    keeper: Colour,
    lines: &mut ClaimLines<'_, R>,
    counts: &mut Counts,
) -> Result<Standing, Stop>
    ensures side { IfOk result (λ s. side_of s.stones ≡ problem.now.game.size) }
    ensures holds { IfOk result (λ s. HoldsOn problem.now keeper s.grounds.items s.begins.items) }
    ensures kept { IfOk result (λ s. (p : ℕ) → cell_at s.stones p ≡ Stone keeper
        → IsKept keeper (areas_of s.grounds.items) (state_at s.begins.items) p) }
    ensures replies { IfOk result (λ s. (i : ℕ) → i < length s.grounds.items
        → HasReplies (ground_at s.grounds.items i) (state_at s.begins.items i)) }
{
    let mut heads = read_heads(alloc, problem, keeper, lines)?;
    let has_areas = !heads.grounds.is_empty();
    if has_areas && !lines.is(b"body", 1) {
        return Err(Stop::Fault(Fault::Malformed));
    }
    if !prepare(problem, keeper, None, &mut heads) {
        return Err(Stop::Fault(Fault::PastBars));
    }
    let stones = judge_heads(alloc, problem, keeper, &heads, lines, counts)?;
    if has_areas {
        lines.next_line()?;
    }
    let Heads {
        grounds,
        begins,
        ..
    } = heads;
    Ok(Standing {
        grounds,
        begins,
        stones,
    })
}
