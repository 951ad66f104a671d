//! The answer to a move, as lines for a reader or as JSON.

ghost use Rattle.std.specs.Prelude.{◌≡◌, codes, IfOk, string_bytes};
ghost use Rattle.group_status.specs.After.{after_fields, after_text, end_text, IsPassFields, IsPassLine, IsReplyFields, IsReplyLine, reply_name};
ghost use Rattle.group_status.specs.Lines.{BeginsWith, HasFields};

use crate::condition::{condition_by_move, condition_of};
use crate::json::{begun_at, push_points};
use crate::names::point_name;
use crate::proof_json::push_proof;
use crate::reasons::push_details;
use go_points::{Colour, Point, PointSet, Size};
use group_search::Finding;
use proved_groups::{AnswerTo, Proven, ProvenByMove};
use std::alloc::{AllocError, Global};
use tool_parts::{colour_letter, colour_name};

/// A move that is asked about.
#[derive(Clone, Copy)]
pub(crate) struct MoveAsked {
    pub(crate) size: Size,
    pub(crate) target: Point,
    pub(crate) mover: Colour,
    pub(crate) point: Point,
}

/// The lines of an answer, the first of which has the status after it.
pub(crate) fn answer_lines(
    alloc: Global,
    asked: &MoveAsked,
    answer: &AnswerTo,
) -> Result<String, AllocError> {
    match answer {
        AnswerTo::Pass(proven) => pass_lines(alloc, asked, proven),
        AnswerTo::Move(proven) => reply_lines(alloc, asked, proven),
        AnswerTo::Barred => barred_line(alloc, asked),
        AnswerTo::Unknown => unknown_line(alloc, asked),
    }
}

/// That the rules bar the move.
pub(crate) fn barred_line(alloc: Global, asked: &MoveAsked) -> Result<String, AllocError> {
    let mover = colour_name(asked.mover);
    let point = point_name(alloc, asked.size, asked.point)?;
    format!(in alloc; "refused: {mover} {point} may not be played there\n")
}

/// That the steps show no answer.
fn unknown_line(alloc: Global, asked: &MoveAsked) -> Result<String, AllocError> {
    let name = point_name(alloc, asked.size, asked.target)?;
    let mover = colour_name(asked.mover);
    let point = point_name(alloc, asked.size, asked.point)?;
    format!(in alloc; "{name}: {mover} {point}: unknown\n")
}

/// The lines of a move that needs no answer.
fn pass_lines(alloc: Global, asked: &MoveAsked, proven: &Proven) -> Result<String, AllocError>
    ensures { IfOk result
        (λ text. BeginsWith (IsPassLine asked.now proven.now) (string_bytes text)) }
{
    let line = pass_line(alloc, asked, proven)?;
    with_details(alloc, asked.size, line.as_str(), proven.finding())
}

/// The first of them.
fn pass_line(alloc: Global, asked: &MoveAsked, proven: &Proven) -> Result<String, AllocError>
    ensures { IfOk result (λ text. IsPassLine asked.now proven.now (string_bytes text)) }
{
    let condition = condition_of(alloc, asked.size, proven)?;
    let end = ", which needs no answer\n";
    after_line(alloc, asked, proven.status(), condition.as_str(), end)
}

/// The lines of a move and its answer.
fn reply_lines(
    alloc: Global,
    asked: &MoveAsked,
    proven: &ProvenByMove,
) -> Result<String, AllocError>
    ensures { IfOk result
        (λ text. BeginsWith (IsReplyLine asked.now proven.now) (string_bytes text)) }
{
    let line = reply_line(alloc, asked, proven)?;
    with_details(alloc, asked.size, line.as_str(), proven.finding())
}

/// The first of them.
fn reply_line(alloc: Global, asked: &MoveAsked, proven: &ProvenByMove) -> Result<String, AllocError>
    ensures { IfOk result (λ text. IsReplyLine asked.now proven.now (string_bytes text)) }
{
    let condition = condition_by_move(alloc, asked.size, proven)?;
    let (first, status) = proven.status();
    let end = reply_end(alloc, asked.size, proven.mover(), first)?;
    after_line(alloc, asked, status, condition.as_str(), end.as_str())
}

/// The answer, as the end of a line.
fn reply_end(
    alloc: Global,
    size: Size,
    mover: Colour,
    first: Option<Point>,
) -> Result<String, AllocError>
    ensures { IfOk result (λ text. string_bytes text ≡ end_text size mover first) }
{
    let colour = colour_name(mover);
    let name = reply_name(alloc, size, first)?;
    format!(in alloc; ", {colour} {name}\n")
}

/// The name of the answer, if it is known.
fn reply_name(alloc: Global, size: Size, first: Option<Point>) -> Result<String, AllocError>
    ensures { IfOk result (λ text. string_bytes text ≡ reply_name size first) }
{
    match first {
        Some(point) => point_name(alloc, size, point),
        None => Ok(String::new(alloc)),
    }
}

/// What becomes of the group after the move, that it is proved and on what condition, and how the line ends.
fn after_line(
    alloc: Global,
    asked: &MoveAsked,
    status: &str,
    condition: &str,
    end: &str,
) -> Result<String, AllocError>
    ensures { IfOk result
        (λ text. string_bytes text ≡ after_text asked.now status.now condition.now end.now) }
{
    let name = point_name(alloc, asked.size, asked.target)?;
    let mover = colour_name(asked.mover);
    let point = point_name(alloc, asked.size, asked.point)?;
    format!(in alloc; "{name}: {status} (proved{condition}) after {mover} {point}{end}")
}

/// The line, and below it what stands, where is played, and what it rests on.
fn with_details(
    alloc: Global,
    size: Size,
    line: &str,
    finding: &Finding,
) -> Result<String, AllocError>
    ensures { IfOk result
        (λ text. BeginsWith (λ first. first ≡ line.now) (string_bytes text)) }
{
    let mut rest = String::new(alloc);
    push_details(alloc, &mut rest, size, finding, "  ")?;
    format!(in alloc; "{line}{rest}")
}

/// The JSON object of a move and what is proved after it.
pub(crate) fn answer_object(
    alloc: Global,
    asked: &MoveAsked,
    stones: &PointSet,
    answer: &AnswerTo,
) -> Result<String, AllocError> {
    match answer {
        AnswerTo::Pass(proven) => pass_object(alloc, asked, stones, proven),
        AnswerTo::Move(proven) => reply_object(alloc, asked, stones, proven),
        AnswerTo::Barred => unknown_object(alloc, asked, stones),
        AnswerTo::Unknown => unknown_object(alloc, asked, stones),
    }
}

/// The object with these fields, in which a proof stands and no question was asked.
fn proved_object(
    alloc: Global,
    asked: &MoveAsked,
    stones: &PointSet,
    fields: &str,
    finding: &Finding,
    supposed: &PointSet,
) -> Result<String, AllocError>
    ensures { IfOk result (λ text.
        HasFields asked.now.size asked.now.target (λ said. said ≡ fields.now) (string_bytes text)) }
{
    let begun = begun_at(alloc, asked.size, asked.target)?;
    let mut rest = String::new(alloc);
    push_points(&mut rest, "stones", asked.size, stones)?;
    push_proof(&mut rest, asked.size, finding, supposed)?;
    rest.push_str(",\"questions\":[]}\n")?;
    format!(in alloc; "{begun}{fields}{rest}")
}

/// The object of a move that needs no answer.
fn pass_object(
    alloc: Global,
    asked: &MoveAsked,
    stones: &PointSet,
    proven: &Proven,
) -> Result<String, AllocError>
    ensures { IfOk result (λ text.
        HasFields asked.now.size asked.now.target (IsPassFields asked.now proven.now) (string_bytes text)) }
{
    let fields = pass_fields(alloc, asked, proven)?;
    let (finding, supposed) = (proven.finding(), proven.supposed());
    proved_object(alloc, asked, stones, fields.as_str(), finding, &supposed)
}

/// The object of a move and its answer.
fn reply_object(
    alloc: Global,
    asked: &MoveAsked,
    stones: &PointSet,
    proven: &ProvenByMove,
) -> Result<String, AllocError>
    ensures { IfOk result (λ text.
        HasFields asked.now.size asked.now.target (IsReplyFields asked.now proven.now) (string_bytes text)) }
{
    let fields = reply_fields(alloc, asked, proven)?;
    let (finding, supposed) = (proven.finding(), proven.supposed());
    proved_object(alloc, asked, stones, fields.as_str(), finding, &supposed)
}

/// The object of a move to which the steps show no answer.
fn unknown_object(
    alloc: Global,
    asked: &MoveAsked,
    stones: &PointSet,
) -> Result<String, AllocError> {
    let mut text = begun_at(alloc, asked.size, asked.target)?;
    let mover = colour_letter(asked.mover);
    let point = point_name(alloc, asked.size, asked.point)?;
    write!(
        text,
        ",\"first\":\"{mover}\",\"move\":\"{point}\",\"status\":\"unknown\",\"word\":\"unknown\",\"answer\":null"
    )?;
    push_points(&mut text, "stones", asked.size, stones)?;
    text.push_str(",\"questions\":[]}\n")?;
    Ok(text)
}

fn pass_fields(alloc: Global, asked: &MoveAsked, proven: &Proven) -> Result<String, AllocError>
    ensures { IfOk result (λ text. IsPassFields asked.now proven.now (string_bytes text)) }
{
    after_fields(alloc, asked, proven.status(), "pass")
}

fn reply_fields(
    alloc: Global,
    asked: &MoveAsked,
    proven: &ProvenByMove,
) -> Result<String, AllocError>
    ensures { IfOk result (λ text. IsReplyFields asked.now proven.now (string_bytes text)) }
{
    let (first, status) = proven.status();
    let answer = reply_name(alloc, asked.size, first)?;
    after_fields(alloc, asked, status, answer.as_str())
}

/// The move, what becomes of the group after it, and the answer.
fn after_fields(
    alloc: Global,
    asked: &MoveAsked,
    status: &str,
    answer: &str,
) -> Result<String, AllocError>
    ensures { IfOk result
        (λ text. string_bytes text ≡ after_fields asked.now status.now answer.now) }
{
    let mover = colour_letter(asked.mover);
    let point = point_name(alloc, asked.size, asked.point)?;
    format!(in alloc;
        ",\"first\":\"{mover}\",\"move\":\"{point}\",\"status\":\"{status}\",\"word\":\"proved\",\"answer\":\"{answer}\""
    )
}
