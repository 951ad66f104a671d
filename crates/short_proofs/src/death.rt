//! What is said of a claim of death by answers that comes after a record.

ghost use Rattle.std.specs.Prelude.{◌≡◌, ◌++◌, ◌*◌, ℕ, string_bytes, IfOk, OnOk, IsTrue};
ghost use Rattle.go_points.specs.declared.Cell.TheVariants.{Stone};
ghost use Rattle.go_points.specs.Grid.{cell_at, opponent_of, side_of};
ghost use Rattle.target_game.specs.State.{start};
ghost use Rattle.target_game.specs.Legal.{holds_point};
ghost use Rattle.dead_groups.specs.Claims.{AreDead};
ghost use Rattle.short_proofs.specs.Says.{stones_text, while_text, SaysVerdict};

use crate::standing::{push_stones, rejected};
use dead_groups::{Verdict, judge};
use go_points::{Colour, Colouring};
use run_parts::Status;
use std::alloc::{AllocError, Global};
use std::io::Read;
use target_game::Problem;
use tool_parts::{Output, colour_name};

/// What is said of the claim of death in these bytes and in what the reader has after them.
pub(crate) fn judged_death<R: Read>(
    alloc: Global,
    problem: &Problem,
    front: &[u8],
    reader: &mut R,
) -> Result<Output, AllocError>
    ensures { IfOk result (SaysVerdict problem.now) }
{
    match judge(alloc, problem, front, reader) {
        Ok(verdict) => accepted(alloc, problem, &verdict),
        Err(reject) => rejected(alloc, &reject),
    }
}

/// Which targets die, and as long as which stones have liberties elsewhere.
fn accepted(alloc: Global, problem: &Problem, verdict: &Verdict) -> Result<Output, AllocError>
    requires targets_side { side_of verdict.now.targets ≡ problem.now.game.size }
    requires supposed_side { side_of verdict.now.supposed ≡ problem.now.game.size }
    requires targets { (p : ℕ) → cell_at verdict.now.targets p ≡ Stone problem.now.game.defender
        → IsTrue (holds_point problem.now.game.targets p) }
    requires dead { AreDead (start problem.now) verdict.now.targets verdict.now.supposed }
    ensures { IfOk result (SaysVerdict problem.now) }
{
    let defender = problem.defender();
    let side = colour_name(defender);
    let rest = named(alloc, defender, verdict)?;
    let text = format!(in alloc; "dead {side}{rest}\n")?;
    Ok(Output::Text(text, Status::Answered))
}

/// The targets, each after a space, and the stones that are only supposed to stand.
fn named(alloc: Global, defender: Colour, verdict: &Verdict) -> Result<String, AllocError>
    ensures { IfOk result (λ s. string_bytes s
        ≡ stones_text (side_of verdict.now.targets) defender verdict.now.targets
        (side_of verdict.now.targets * side_of verdict.now.targets)
        ++ while_text (stones_text (side_of verdict.now.supposed) (opponent_of defender)
        verdict.now.supposed (side_of verdict.now.supposed * side_of verdict.now.supposed))) }
{
    let mut text = Vec::new(alloc);
    push_stones(&mut text, defender, &verdict.targets)?;
    push_while(alloc, &mut text, defender.opponent(), &verdict.supposed)?;
    match String::from_utf8(text) {
        Ok(text) => Ok(text),
        Err(_) => Err(AllocError),
    }
}

/// Appends the stones of this colour, if there are some, after the word `while`.
fn push_while(
    alloc: Global,
    text: &mut Vec<u8>,
    colour: Colour,
    stones: &Colouring,
) -> Result<(), AllocError>
    ensures { OnOk result (text.new.items ≡ text.old.items
        ++ while_text (stones_text (side_of stones.now) colour stones.now
        (side_of stones.now * side_of stones.now))) }
{
    let mut names = Vec::new(alloc);
    push_stones(&mut names, colour, stones)?;
    if names.is_empty() {
        return Ok(());
    }
    text.extend_from_slice(b" while")?;
    text.extend_from_slice(names.as_slice())
}
