//! The answer about one group: by what is proved of it, by what each side's first move is proved to do, or by the procedures.

ghost use Rattle.std.specs.Prelude.{IfOk, IfSome};
ghost use Rattle.proved_groups.specs.Proven.{IsOfStoneByMove};
ghost use Rattle.group_status.specs.About.{IsDecisionOf, IsProofOf, IsToldOf};

use crate::answer_lines::{MoveAsked, answer_lines, answer_object, barred_line};
use crate::answer_record::{answers_record, first_moves_record};
use crate::claims::{claims, first_moves_claims, proof_claim};
use crate::group::Group;
use crate::json::{found_object, judged_object};
use crate::lines::{Report, found_lines, judged_lines};
use crate::move_proof::{Decided, decided_lines};
use crate::proof::{Proof, proof_lines};
use crate::proof_json::{first_moves_object, proof_object};
use crate::solutions::{Told, solutions};
use crate::table::Table;
use crate::verdict::{found_alone, judge_alone};
use go_points::Colour;
use group_words::{Finding, Form, Judgement, Request, Side};
use pn_search::Budget;
use proved_groups::{AnswerTo, ByShape, FirstMoves, Proven, answer_to, proven_stone};
use regions::named_point;
use run_parts::Status;
use std::alloc::{AllocError, Global};
use std::io::Write;
use tool_parts::{Output, refused};

/// What is written of the group.
pub(crate) fn answered<N: Write>(
    alloc: Global,
    request: &Request,
    group: &Group,
    budget: Budget,
    notes: &mut N,
) -> Result<Output, AllocError> {
    if let Some(proof) = proof_of(alloc, group, request.steps)? {
        return if request.answer.is_empty() {
            answered_by_proof(alloc, request, group, &proof)
        } else {
            answered_to_move(alloc, request, group, proof.is_alive())
        };
    }
    if !request.answer.is_empty() {
        return refused(format!(in alloc;
            "refused: the group is not proved to be alive or dead, so there is no answer to name\n"
        )?);
    }
    let first_moves = group.first_moves(alloc, request.first, request.steps)?;
    if let Some(decided) = decided_by(request, group, &first_moves) {
        return answered_by_moves(alloc, request, group, &decided, &first_moves);
    }
    answered_by_procedures(alloc, request, group, budget, &first_moves, notes)
}

/// The answer where the procedures are asked, but for the first moves that are proved to win.
fn answered_by_procedures<N: Write>(
    alloc: Global,
    request: &Request,
    group: &Group,
    budget: Budget,
    first_moves: &FirstMoves,
    notes: &mut N,
) -> Result<Output, AllocError> {
    let is_quick = request.is_quick;
    let mut table = Table::new(alloc, budget, request.is_told);
    if let Some(first) = request.first {
        let (finding, procedures) = found_alone(alloc, group, &mut table, first, is_quick, notes)?;
        let report = Report::of(group, &table, first_moves, procedures, request.is_why);
        return answered_one(alloc, request.form, report, first, finding);
    }
    let (judged, procedures) = judge_alone(alloc, group, &mut table, is_quick, first_moves, notes)?;
    let report = Report::of(group, &table, first_moves, procedures, request.is_why);
    answered_both(alloc, request.form, report, &judged)
}

/// The answer to the move that is asked about, of the side that would change the status.
fn answered_to_move(
    alloc: Global,
    request: &Request,
    group: &Group,
    is_alive: bool,
) -> Result<Output, AllocError> {
    let size = group.problem.size();
    let name = request.answer.as_str();
    let Some(point) = named_point(size, name.as_bytes()) else {
        return refused(format!(in alloc; "refused: {name} is no point of the board\n")?);
    };
    let mover = if is_alive {
        group.defender.opponent()
    } else {
        group.defender
    };
    let asked = MoveAsked {
        size,
        target: group.target,
        mover,
        point,
    };
    let answer = answer_to(
        alloc,
        &group.problem,
        group.target,
        is_alive,
        mover,
        point,
        request.steps,
    )?;
    answered_after(alloc, request, group, &asked, &answer)
}

/// What is proved after that move.
fn answered_after(
    alloc: Global,
    request: &Request,
    group: &Group,
    asked: &MoveAsked,
    answer: &AnswerTo,
) -> Result<Output, AllocError>
    requires { IsToldOf group.now.problem group.now.target asked.now answer.now }
{
    if let AnswerTo::Barred = answer {
        return refused(barred_line(alloc, asked)?);
    }
    if request.form == Form::Json {
        let stones = group.position.stones(group.target);
        return text_of(answer_object(alloc, asked, &stones, answer)?);
    }
    text_of(answer_lines(alloc, asked, answer)?)
}

/// What the first moves that are proved to win decide, if that is all that is asked.
fn decided_by<'a>(
    request: &Request,
    group: &Group,
    first_moves: &'a FirstMoves,
) -> Option<Decided<'a>>
    requires attack { IfSome first_moves.now.attack
        (IsOfStoneByMove group.now.problem group.now.target) }
    requires defence { IfSome first_moves.now.defence
        (IsOfStoneByMove group.now.problem group.now.target) }
    ensures { IfSome result (IsDecisionOf group.now.problem group.now.target
        group.now.defender request.now.first) }
{
    match request.first {
        Some(side) => match first_moves.by(side.colour(group.defender)) {
            Some(proven) => Some(Decided::Wins(proven)),
            None => None,
        },
        None => match first_moves.both() {
            Some(both) => Some(Decided::Unsettled(both)),
            None => None,
        },
    }
}

/// The answer where it is proved by first moves, so that nothing is asked of the procedures.
fn answered_by_moves(
    alloc: Global,
    request: &Request,
    group: &Group,
    decided: &Decided<'_>,
    first_moves: &FirstMoves,
) -> Result<Output, AllocError>
    requires { IsDecisionOf group.now.problem group.now.target
        group.now.defender request.now.first decided.now }
{
    let (size, target) = (group.problem.size(), group.target);
    if request.form == Form::Json {
        let stones = group.position.stones(target);
        return text_of(first_moves_object(alloc, group, &stones, decided, first_moves)?);
    }
    let lines = decided_lines(alloc, size, target, decided)?;
    match request.form {
        Form::Claims(_) => text_of(first_moves_claims(alloc, group, first_moves, lines.as_str())?),
        Form::Record => {
            let record = first_moves_record(alloc, group, first_moves, lines.as_str())?;
            Ok(Output::Record(record))
        }
        _ => text_of(lines),
    }
}

/// Why the group is alive or dead, where that is proved.
fn proof_of(alloc: Global, group: &Group, steps: u64) -> Result<Option<Proof>, AllocError>
    ensures { IfOk result
        (λ o. IfSome o (IsProofOf group.now.problem group.now.target)) }
{
    if let Some(shape) = ByShape::of(group.problem.colouring(), group.target, group.defender) {
        let proven = proven_stone(alloc, &group.problem, group.target, 0)?;
        return Ok(Some(Proof::Shape(shape, proven)));
    }
    match proven_stone(alloc, &group.problem, group.target, steps)? {
        Some(proven) => Ok(Some(Proof::Answers(proven))),
        None => Ok(None),
    }
}

/// The answer if the fate of the group is proved, so that nothing is asked of the procedures.
fn answered_by_proof(
    alloc: Global,
    request: &Request,
    group: &Group,
    proof: &Proof,
) -> Result<Output, AllocError>
    requires { IsProofOf group.now.problem group.now.target proof.now }
{
    let size = group.problem.size();
    let (target, defender, first) = (group.target, group.defender, request.first);
    if request.form == Form::Json {
        let stones = group.position.stones(target);
        return text_of(proof_object(alloc, size, target, defender, first, &stones, proof)?);
    }
    let lines = proof_lines(alloc, size, target, defender, first, proof)?;
    match (request.form, proof.proven()) {
        (Form::Claims(_), Some(proven)) => {
            text_of(proof_claim(alloc, proven, target, lines.as_str())?)
        }
        (Form::Record, Some(proven)) => {
            let first = first_in_answers(proven);
            let finding = Some(proven.finding());
            let record = answers_record(alloc, group, first, finding, lines.as_str())?;
            Ok(Output::Record(record))
        }
        (Form::Record, None) => {
            let record = answers_record(alloc, group, defender, None, lines.as_str())?;
            Ok(Output::Record(record))
        }
        _ => text_of(lines),
    }
}

/// The side whose moves are answered: the owner's of stones that die, else the other.
fn first_in_answers(proven: &Proven) -> Colour {
    if proven.is_alive() {
        proven.finding().colour.opponent()
    } else {
        proven.finding().colour
    }
}

/// The answer if only one side was asked about.
fn answered_one(
    alloc: Global,
    form: Form,
    report: Report<'_>,
    first: Side,
    finding: Finding,
) -> Result<Output, AllocError> {
    if form == Form::Json {
        return text_of(found_object(alloc, report, first, &finding)?);
    }
    let lines = found_lines(alloc, report, first, &finding)?;
    let told = [Told { first, finding }];
    in_form(alloc, form, report, &told, lines)
}

/// The answer if both sides were asked about.
fn answered_both(
    alloc: Global,
    form: Form,
    report: Report<'_>,
    judged: &Judgement,
) -> Result<Output, AllocError> {
    if form == Form::Json {
        return text_of(judged_object(alloc, report, judged)?);
    }
    let lines = judged_lines(alloc, report, judged)?;
    let attacker = Told {
        first: Side::Attacker,
        finding: judged.attacker_first,
    };
    match judged.defender_first {
        Some(finding) => {
            let first = Side::Defender;
            let told = [attacker, Told { first, finding }];
            in_form(alloc, form, report, &told, lines)
        }
        None => in_form(alloc, form, report, &[attacker], lines),
    }
}

/// The lines, with the solutions or the claims if they are asked for.
fn in_form(
    alloc: Global,
    form: Form,
    report: Report<'_>,
    told: &[Told],
    lines: String,
) -> Result<Output, AllocError> {
    let (group, table, first_moves) = (report.group, report.table, report.first_moves);
    let text = lines.as_str();
    match form {
        Form::Record => {
            let record = solutions(alloc, group, table, told, first_moves, text)?;
            Ok(Output::Record(record))
        }
        Form::Claims(length) => text_of(claims(alloc, group, table, length, first_moves, text)?),
        _ => text_of(lines),
    }
}

/// The text, as an answer.
pub(crate) fn text_of(text: String) -> Result<Output, AllocError> {
    Ok(Output::Text(text, Status::Answered))
}
