//! What is found, as JSON with one object on each line.

ghost use Rattle.std.specs.Prelude.{◌≡◌, ◌++◌, IfOk, OnOk, string_bytes};
ghost use Rattle.first_moves.specs.Json.{after_field, bool_text, later_objects, line_fields, line_object, long_json, object_from, quoted, quoted_turns, refutation_field, short_json, tally_object, turn_objects};
ghost use Rattle.first_moves.specs.Outputs.{IsLineSolution};
ghost use Rattle.first_moves.specs.declared.line_solution.LineSolution.{LineSolution};

use crate::found::{Found, Tally, counted};
use crate::line::{Later, Line};
use crate::line_solution::{LineSolution, line_solution};
use crate::list::solution_name;
use crate::names::{Names, push_text, turn_name, worth_name};
use go_points::Turn;
use std::alloc::{AllocError, Global};

/// An object for each turn, and one for the solution.
pub(crate) fn short_json(
    alloc: Global,
    names: &Names,
    found: &[Found],
) -> Result<String, AllocError>
    ensures { IfOk result (λ text. string_bytes text ≡ short_json names.now found.now) }
{
    let mut text = String::new(alloc);
    push_objects(alloc, &mut text, names, &[], found)?;
    let last = tally_object(alloc, counted(found))?;
    push_text(&mut text, last.as_str())?;
    Ok(text)
}

/// An object for each turn, one for the solution, and one for the line of play.
pub(crate) fn long_json(
    alloc: Global,
    names: &Names,
    found: &[Found],
    line: &Line,
) -> Result<String, AllocError>
    ensures { IfOk result (λ text. (solution : LineSolution)
        × IsLineSolution found.now line.now.later.items solution
        × (string_bytes text
        ≡ long_json names.now found.now line.now.later.items solution line.now.is_whole)) }
{
    let mut text = String::new(alloc);
    push_objects(alloc, &mut text, names, &[], found)?;
    push_later(alloc, &mut text, names, line.later.as_slice())?;
    let last = tally_object(alloc, counted(found))?;
    push_text(&mut text, last.as_str())?;
    let said = line_object(
        alloc,
        line_solution(counted(found), line.later.as_slice()),
        line.is_whole,
    )?;
    push_text(&mut text, said.as_str())?;
    Ok(text)
}

/// Appends the objects of the later turns.
fn push_later(
    alloc: Global,
    text: &mut String,
    names: &Names,
    later: &[Later],
) -> Result<(), AllocError>
    ensures { OnOk result
        (string_bytes text.new ≡ string_bytes text.old ++ later_objects names.now later.now) }
{
    for i in 0..later.len() {
        let before = later[i].position.turns.as_slice();
        push_objects(alloc, text, names, before, later[i].found.as_slice())?;
    }
    Ok(())
}

/// Appends an object for each of the turns after these.
fn push_objects(
    alloc: Global,
    text: &mut String,
    names: &Names,
    before: &[Turn],
    found: &[Found],
) -> Result<(), AllocError>
    ensures { OnOk result (string_bytes text.new
        ≡ string_bytes text.old ++ turn_objects names.now before.now found.now) }
{
    let after = after_field(alloc, names, before)?;
    for i in 0..found.len() {
        let object = turn_object(alloc, names, after.as_str(), &found[i])?;
        push_text(text, object.as_str())?;
    }
    Ok(())
}

/// The object of a turn, which begins with this field.
fn turn_object(alloc: Global, names: &Names, after: &str, one: &Found) -> Result<String, AllocError>
    ensures { IfOk result
        (λ text. string_bytes text ≡ object_from after.now names.now one.now) }
{
    let name = turn_name(alloc, names, one.turn)?;
    let worth = worth_name(&one.judged);
    let refutation = refutation_field(alloc, names, one.reply)?;
    format!(in alloc; "{{{after}\"turn\":\"{name}\",\"mover\":\"{worth}\"{refutation}}}\n")
}

/// The field with the turns that come before, or nothing.
fn after_field(alloc: Global, names: &Names, before: &[Turn]) -> Result<String, AllocError>
    ensures { IfOk result (λ text. string_bytes text ≡ after_field names.now before.now) }
{
    if before.is_empty() {
        return Ok(String::new(alloc));
    }
    let turns = quoted_turns(alloc, names, before)?;
    format!(in alloc; "\"after\":[{turns}],")
}

/// The field with the reply that refutes a turn, or nothing.
fn refutation_field(alloc: Global, names: &Names, reply: Option<Turn>) -> Result<String, AllocError>
    ensures { IfOk result (λ text. string_bytes text ≡ refutation_field names.now reply) }
{
    match reply {
        Some(turn) => {
            let name = turn_name(alloc, names, turn)?;
            format!(in alloc; ",\"refutation\":\"{name}\"")
        }
        None => Ok(String::new(alloc)),
    }
}

/// What the first turns say about the solution.
fn tally_object(alloc: Global, tally: Tally) -> Result<String, AllocError>
    ensures { IfOk result (λ text. string_bytes text
        ≡ tally_object tally.solution tally.winning tally.unknown) }
{
    let word = solution_name(tally.solution);
    let winning = tally.winning;
    let unknown = tally.unknown;
    format!(in alloc; "{{\"solution\":\"{word}\",\"winning\":{winning},\"unknown\":{unknown}}}\n")
}

/// What is said of the line of play.
fn line_object(alloc: Global, solution: LineSolution, is_whole: bool) -> Result<String, AllocError>
    ensures { IfOk result (λ text. string_bytes text ≡ line_object solution is_whole) }
{
    let fields = line_fields(alloc, solution, is_whole)?;
    format!(in alloc; "{{\"line\":{fields}}}\n")
}

/// The same, after its key.
fn line_fields(alloc: Global, solution: LineSolution, is_whole: bool) -> Result<String, AllocError>
    ensures { IfOk result (λ text. string_bytes text ≡ line_fields solution is_whole) }
{
    match solution {
        LineSolution::Unique(turns) => {
            let last = bool_name(is_whole);
            format!(in alloc; "\"unique\",\"turn\":{turns},\"last\":{last}")
        }
        LineSolution::Several(turn) => format!(in alloc; "\"several\",\"turn\":{turn}"),
        LineSolution::Open(turn, unknown) => {
            format!(in alloc; "\"open\",\"turn\":{turn},\"unknown\":{unknown}")
        }
        LineSolution::Lost => format!(in alloc; "\"none\""),
    }
}

pub(crate) fn bool_name(value: bool) -> &'static str
    ensures { result.now ≡ bool_text value }
{
    if value { "true" } else { "false" }
}

/// The names of the turns in quotes, with commas between them.
pub(crate) fn quoted_turns(
    alloc: Global,
    names: &Names,
    turns: &[Turn],
) -> Result<String, AllocError>
    ensures { IfOk result (λ text. string_bytes text ≡ quoted_turns names.now turns.now) }
{
    if turns.is_empty() {
        return Ok(String::new(alloc));
    }
    let mut text = quoted(alloc, names, turns[0])?;
    for i in 1..turns.len() {
        let name = quoted(alloc, names, turns[i])?;
        push_text(&mut text, ",")?;
        push_text(&mut text, name.as_str())?;
    }
    Ok(text)
}

/// The name of the turn in quotes.
fn quoted(alloc: Global, names: &Names, turn: Turn) -> Result<String, AllocError>
    ensures { IfOk result (λ text. string_bytes text ≡ quoted names.now turn) }
{
    let name = turn_name(alloc, names, turn)?;
    format!(in alloc; "\"{name}\"")
}
