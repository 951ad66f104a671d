//! What is found, as JSON with a grade.

ghost use Rattle.std.specs.Prelude.{◌≡◌, ◌++◌, ℕ, Bool, IfOk, OnOk, Some, string_bytes};
ghost use Rattle.first_moves.specs.Graded.{IsGraded, graded_text, lesson_text, grade_fields, solution_fields, trap_object, trap_objects, winner_found, winner_value};
ghost use Rattle.first_moves.specs.Json.{long_json, short_json};
ghost use Rattle.first_moves.specs.Outputs.{IsLineSolution};
ghost use Rattle.first_moves.specs.declared.line_solution.LineSolution.{LineSolution};

use crate::found::{Found, Settings, counted};
use crate::grade::{Lesson, Trap, grade_of, has_ko, lesson_of, points, winner_of};
use crate::json::{bool_name, long_json, quoted_turns, short_json};
use crate::line::Line;
use crate::names::{Names, push_text, turn_name};
use go_points::Colour;
use std::alloc::{AllocError, Global};
use target_game::Problem;
use tool_parts::colour_letter;

/// The objects of the first turns, then one for each trap, and one for who wins, with the grade where one first turn is right.
pub(crate) fn short_graded(
    alloc: Global,
    problem: &Problem,
    settings: &Settings,
    found: &[Found],
) -> Result<String, AllocError>
    ensures { IfOk result (λ text. IsGraded settings.now.names problem.now.mover found.now
        (short_json settings.now.names found.now) (string_bytes text)) }
{
    let mut text = short_json(alloc, &settings.names, found)?;
    push_graded(alloc, &mut text, problem, settings, found)?;
    Ok(text)
}

/// The same, with the later turns, and what is said of the line.
pub(crate) fn long_graded(
    alloc: Global,
    problem: &Problem,
    settings: &Settings,
    found: &[Found],
    line: &Line,
) -> Result<String, AllocError>
    ensures { IfOk result (λ text. (solution : LineSolution)
        × IsLineSolution found.now line.now.later.items solution
        × IsGraded settings.now.names problem.now.mover found.now
        (long_json settings.now.names found.now line.now.later.items solution line.now.is_whole)
        (string_bytes text)) }
{
    let mut text = long_json(alloc, &settings.names, found, line)?;
    push_graded(alloc, &mut text, problem, settings, found)?;
    Ok(text)
}

/// Appends the traps and who wins.
fn push_graded(
    alloc: Global,
    text: &mut String,
    problem: &Problem,
    settings: &Settings,
    found: &[Found],
) -> Result<(), AllocError>
    ensures { OnOk result (IsGraded settings.now.names problem.now.mover found.now
        (string_bytes text.old) (string_bytes text.new)) }
{
    let winner = winner_value(alloc, problem, found)?;
    let lesson = lesson_of(alloc, problem, found, settings)?;
    let more = graded_text(alloc, &settings.names, winner.as_str(), &lesson)?;
    push_text(text, more.as_str())?;
    Ok(())
}

/// The winner's letter in quotes; `null` if nobody is known to win.
fn winner_value(alloc: Global, problem: &Problem, found: &[Found]) -> Result<String, AllocError>
    ensures { IfOk result (λ text. string_bytes text
        ≡ winner_value (winner_found problem.now.mover found.now)) }
{
    match winner_of(problem.mover(), counted(found)) {
        Some(colour) => letter_value(alloc, colour),
        None => format!(in alloc; "null"),
    }
}

fn letter_value(alloc: Global, colour: Colour) -> Result<String, AllocError>
    ensures { IfOk result (λ text. string_bytes text ≡ winner_value (Some colour)) }
{
    let letter = colour_letter(colour);
    format!(in alloc; "\"{letter}\"")
}

/// The traps, and the object of the problem with this winner.
fn graded_text(
    alloc: Global,
    names: &Names,
    winner: &str,
    lesson: &Option<Lesson>,
) -> Result<String, AllocError>
    ensures { IfOk result (λ text. (has_ko : Bool) × (points : ℕ)
        × (string_bytes text ≡ graded_text names.now winner.now lesson.now has_ko points)) }
{
    match lesson {
        Some(lesson) => lesson_text(alloc, names, winner, lesson),
        None => format!(in alloc; "{{\"winner\":{winner}}}\n"),
    }
}

fn lesson_text(
    alloc: Global,
    names: &Names,
    winner: &str,
    lesson: &Lesson,
) -> Result<String, AllocError>
    ensures { IfOk result (λ text. (has_ko : Bool) × (points : ℕ)
        × (string_bytes text ≡ lesson_text names.now winner.now lesson.now has_ko points)) }
{
    let mut text = String::new(alloc);
    push_traps(alloc, &mut text, names, lesson.traps.as_slice())?;
    let fields = grade_fields(alloc, names, lesson, has_ko(lesson), points(lesson))?;
    let object = format!(in alloc; "{{\"winner\":{winner}{fields}}}\n")?;
    push_text(&mut text, object.as_str())?;
    Ok(text)
}

/// Appends an object for each trap.
fn push_traps(
    alloc: Global,
    text: &mut String,
    names: &Names,
    traps: &[Trap],
) -> Result<(), AllocError>
    ensures { OnOk result
        (string_bytes text.new ≡ string_bytes text.old ++ trap_objects names.now traps.now) }
{
    for i in 0..traps.len() {
        let object = trap_object(alloc, names, &traps[i])?;
        push_text(text, object.as_str())?;
    }
    Ok(())
}

fn trap_object(alloc: Global, names: &Names, trap: &Trap) -> Result<String, AllocError>
    ensures { IfOk result (λ text. string_bytes text ≡ trap_object names.now trap.now) }
{
    let turn = turn_name(alloc, names, trap.turn)?;
    let turns = quoted_turns(alloc, names, trap.refutation.turns.as_slice())?;
    format!(in alloc; "{{\"trap\":\"{turn}\",\"variation\":[{turns}]}}\n")
}

/// The solution for people, and how many traps there are.
fn solution_fields(alloc: Global, names: &Names, lesson: &Lesson) -> Result<String, AllocError>
    ensures { IfOk result
        (λ text. string_bytes text ≡ solution_fields names.now lesson.now) }
{
    let turns = quoted_turns(alloc, names, lesson.solution.turns.as_slice())?;
    let depth = lesson.solution.turns.len();
    let traps = lesson.traps.len();
    format!(in alloc; ",\"variation\":[{turns}],\"depth\":{depth},\"traps\":{traps}")
}

/// The same, and how hard the problem is.
fn grade_fields(
    alloc: Global,
    names: &Names,
    lesson: &Lesson,
    has_ko: bool,
    points: usize,
) -> Result<String, AllocError>
    ensures { IfOk result
        (λ text. string_bytes text ≡ grade_fields names.now lesson.now has_ko points) }
{
    let solution = solution_fields(alloc, names, lesson)?;
    let lost = lesson.solution.lost;
    let ko = bool_name(has_ko);
    let grade = grade_of(points);
    format!(in alloc;
        "{solution},\"sacrifices\":{lost},\"ko\":{ko},\"points\":{points},\"grade\":{grade}"
    )
}
