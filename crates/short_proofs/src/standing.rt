//! What is said of a claim by answers that comes after a record.

ghost use Rattle.std.specs.Prelude.{◌≡◌, ◌≢◌, ◌++◌, ◌*◌, codes, string_bytes, IfOk, OnOk};
ghost use Rattle.go_points.specs.Grid.{side_of};
ghost use Rattle.safe_groups.specs.Ground.{AllSafe, IsSafeAs};
ghost use Rattle.target_game.specs.State.{start};
ghost use Rattle.tool_parts.specs.Written.{bytes_of, end_of};
ghost use Rattle.short_proofs.specs.Says.{first_text, spaced, stones_text, IsRejection, SaysVerdict};

use go_points::{Cell, Colour, Colouring, Point, to_sgf};
use run_parts::Status;
use safe_groups::{Reject, Stop, Verdict, judge};
use std::alloc::{AllocError, Global};
use std::io::Read;
use target_game::Problem;
use tool_parts::{Output, colour_name, without_input};

/// What is said of the claim of life by answers in these bytes and in what the reader has after them.
pub(crate) fn judged_answers<R: Read>(
    alloc: Global,
    problem: &Problem,
    front: &[u8],
    reader: &mut R,
) -> Result<Output, AllocError>
    ensures { IfOk result (SaysVerdict problem.now) }
{
    match judge(alloc, problem, front, reader) {
        Ok(verdict) => accepted(alloc, problem, &verdict),
        Err(reject) => rejected(alloc, &reject),
    }
}

/// Which stones stand.
fn accepted(alloc: Global, problem: &Problem, verdict: &Verdict) -> Result<Output, AllocError>
    requires side { side_of verdict.now.stones ≡ problem.now.game.size }
    requires targets { IsSafeAs verdict.now.first (start problem.now) }
    requires stones { AllSafe verdict.now.first (start problem.now) verdict.now.stones }
    ensures { IfOk result (SaysVerdict problem.now) }
{
    let keeper = problem.defender();
    let side = colour_name(keeper);
    let rest = named(alloc, keeper, verdict)?;
    let text = format!(in alloc; "stands {side}{rest}\n")?;
    Ok(Output::Text(text, Status::Answered))
}

/// The first move, if there is one, and all stones that stand, each after a space.
fn named(alloc: Global, keeper: Colour, verdict: &Verdict) -> Result<String, AllocError>
    ensures { IfOk result (λ s. string_bytes s ≡ first_text verdict.now.first
        ++ stones_text (side_of verdict.now.stones) keeper verdict.now.stones
        (side_of verdict.now.stones * side_of verdict.now.stones)) }
{
    let mut text = Vec::new(alloc);
    push_first(&mut text, verdict.first)?;
    push_stones(&mut text, keeper, &verdict.stones)?;
    match String::from_utf8(text) {
        Ok(text) => Ok(text),
        Err(_) => Err(AllocError),
    }
}

fn push_first(text: &mut Vec<u8>, first: Option<Point>) -> Result<(), AllocError>
    ensures { OnOk result (text.new.items ≡ text.old.items ++ first_text first) }
{
    match first {
        None => Ok(()),
        Some(point) => {
            text.extend_from_slice(b" by")?;
            push_point(text, point)
        }
    }
}

fn push_point(text: &mut Vec<u8>, point: Point) -> Result<(), AllocError>
    ensures { OnOk result (text.new.items ≡ text.old.items ++ spaced point) }
{
    text.push(b' ')?;
    text.extend_from_slice(&to_sgf(point))
}

/// Appends the stones of this colour, each after a space.
pub(crate) fn push_stones(
    text: &mut Vec<u8>,
    keeper: Colour,
    stones: &Colouring,
) -> Result<(), AllocError>
    ensures { OnOk result (text.new.items ≡ text.old.items
        ++ stones_text (side_of stones.now) keeper stones.now
        (side_of stones.now * side_of stones.now)) }
{
    let size = stones.size();
    for number in 0..size.area() {
        if stones.cell(number) == Cell::Stone(keeper) {
            push_point(text, size.point_at(number))?;
        }
    }
    Ok(())
}

/// Which line is refused, and why; or why the claim was not judged.
pub(crate) fn rejected(alloc: Global, reject: &Reject) -> Result<Output, AllocError>
    ensures { IfOk result IsRejection }
{
    match reject.stop {
        Stop::Memory => Err(AllocError),
        Stop::Read => without_input(alloc),
        Stop::Fault(fault) => {
            let place = reject.line;
            let why = fault.text(alloc)?;
            let text = format!(in alloc; "rejected line {place}: {why}\n")?;
            Ok(Output::Text(text, Status::Unanswered))
        }
    }
}
