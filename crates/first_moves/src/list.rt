//! What is found, as lines.

ghost use Rattle.std.specs.Prelude.{◌≡◌, ◌++◌, ◌∷◌, [], IfOk, OnOk, string_bytes};
ghost use Rattle.first_moves.specs.Outputs.{IsLineSolution};
ghost use Rattle.first_moves.specs.Text.{end_text, later_lines, line_text, long_list, short_list, solution_name, tally_text, turn_lines, turn_text, worth_text};
ghost use Rattle.first_moves.specs.declared.line_solution.LineSolution.{LineSolution};

use crate::found::{Found, Solution, Tally, counted};
use crate::line::{Later, Line};
use crate::line_solution::{LineSolution, line_solution};
use crate::names::{Names, before_text, push_text, turn_name, worth_name};
use go_points::Turn;
use std::alloc::{AllocError, Global};

/// A line for each turn, and one for the solution.
pub(crate) fn short_list(
    alloc: Global,
    names: &Names,
    found: &[Found],
) -> Result<String, AllocError>
    ensures { IfOk result (λ text. string_bytes text ≡ short_list names.now found.now) }
{
    let mut text = String::new(alloc);
    push_turns(alloc, &mut text, names, &[], found)?;
    let last = tally_text(alloc, "solution", counted(found))?;
    push_text(&mut text, last.as_str())?;
    push_text(&mut text, "\n")?;
    Ok(text)
}

/// A line for each turn, one for the solution, and one for the line of play.
pub(crate) fn long_list(
    alloc: Global,
    names: &Names,
    found: &[Found],
    line: &Line,
) -> Result<String, AllocError>
    ensures { IfOk result (λ text. (solution : LineSolution)
        × IsLineSolution found.now line.now.later.items solution
        × (string_bytes text
        ≡ long_list names.now found.now line.now.later.items solution line.now.is_whole)) }
{
    let mut text = String::new(alloc);
    push_turns(alloc, &mut text, names, &[], found)?;
    push_later(alloc, &mut text, names, line.later.as_slice())?;
    let tally = counted(found);
    let last = tally_text(alloc, "solution", tally)?;
    push_text(&mut text, last.as_str())?;
    push_text(&mut text, "\n")?;
    let said = line_text(
        alloc,
        line_solution(tally, line.later.as_slice()),
        line.is_whole,
    )?;
    push_text(&mut text, said.as_str())?;
    push_text(&mut text, "\n")?;
    Ok(text)
}

/// Appends the lines of the later turns.
fn push_later(
    alloc: Global,
    text: &mut String,
    names: &Names,
    later: &[Later],
) -> Result<(), AllocError>
    ensures { OnOk result
        (string_bytes text.new ≡ string_bytes text.old ++ later_lines names.now later.now) }
{
    for i in 0..later.len() {
        let before = later[i].position.turns.as_slice();
        push_turns(alloc, text, names, before, later[i].found.as_slice())?;
    }
    Ok(())
}

/// Appends a line for each of the turns after these.
fn push_turns(
    alloc: Global,
    text: &mut String,
    names: &Names,
    before: &[Turn],
    found: &[Found],
) -> Result<(), AllocError>
    ensures { OnOk result (string_bytes text.new
        ≡ string_bytes text.old ++ turn_lines names.now before.now found.now) }
{
    let after = before_text(alloc, names, before)?;
    for i in 0..found.len() {
        let line = turn_line(alloc, names, after.as_str(), &found[i])?;
        push_text(text, line.as_str())?;
    }
    Ok(())
}

/// The line of a turn, which begins with this text.
fn turn_line(alloc: Global, names: &Names, after: &str, one: &Found) -> Result<String, AllocError>
    ensures { IfOk result (λ line. string_bytes line ≡ after.now
        ++ (turn_text names.now one.now.turn ++ (32 ∷ (worth_text one.now.judged ++ 10 ∷ [])))) }
{
    let name = turn_name(alloc, names, one.turn)?;
    let worth = worth_name(&one.judged);
    format!(in alloc; "{after}{name} {worth}\n")
}

/// What is said about the solution, and in a second line about the line of play if that was judged.
pub(crate) fn solution_text(
    alloc: Global,
    tally: Tally,
    line: Option<&Line>,
) -> Result<String, AllocError> {
    let solution = tally_text(alloc, "solution", tally)?;
    match line {
        Some(line) => {
            let said = line_text(
                alloc,
                line_solution(tally, line.later.as_slice()),
                line.is_whole,
            )?;
            format!(in alloc; "{solution}\n{said}")
        }
        None => Ok(solution),
    }
}

/// What is said about the turns that were counted: `solution unique: 1 winning, 0 unknown`, where `what` is the first word.
pub(crate) fn tally_text(alloc: Global, what: &str, tally: Tally) -> Result<String, AllocError>
    ensures { IfOk result (λ text. string_bytes text
        ≡ tally_text what.now tally.solution tally.winning tally.unknown) }
{
    let word = solution_name(tally.solution);
    let winning = tally.winning;
    let unknown = tally.unknown;
    format!(in alloc; "{what} {word}: {winning} winning, {unknown} unknown")
}

pub(crate) fn solution_name(solution: Solution) -> &'static str
    ensures { result.now ≡ solution_name solution }
{
    match solution {
        Solution::Unique => "unique",
        Solution::Several => "several",
        Solution::Lost => "lost",
        Solution::Open => "open",
    }
}

/// What is said about the line of play.
fn line_text(alloc: Global, solution: LineSolution, is_whole: bool) -> Result<String, AllocError>
    ensures { IfOk result (λ text. string_bytes text ≡ line_text solution is_whole) }
{
    match solution {
        LineSolution::Unique(turns) => {
            let end = end_text(is_whole);
            format!(in alloc; "line unique to turn {turns}{end}")
        }
        LineSolution::Several(turn) => {
            format!(in alloc; "line has several right moves at turn {turn}")
        }
        LineSolution::Open(turn, unknown) => {
            format!(in alloc; "line open at turn {turn}: {unknown} unknown")
        }
        LineSolution::Lost => format!(in alloc; "no line: every first turn loses"),
    }
}

/// What is said of the last turn of a whole line.
fn end_text(is_whole: bool) -> &'static str
    ensures { result.now ≡ end_text is_whole }
{
    if is_whole { ", its last" } else { "" }
}
