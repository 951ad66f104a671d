//! What is said of a group where all are asked about: one line.

use crate::group::Group;
use crate::json::judged_object;
use crate::lines::{Report, first_line, open_line};
use crate::move_proof::{Decided, unsettled_line};
use crate::proof::{Proof, proved_line};
use crate::proof_json::{first_moves_object, proof_object};
use crate::table::Table;
use crate::totals::Said;
use crate::verdict::{Procedures, judge_by};
use group_words::{Form, Judgement, Request, Word};
use pn_search::Budget;
use proved_groups::{ByShape, FirstMoves};
use std::alloc::{AllocError, Global};

/// The first, quick look at a group gets one part in this many of the steps.
const QUICK_SHARE: u64 = 10;

/// Each question of the long look gets one part in this many: of a group that stays open some ten are asked.
const LONG_SHARE: u64 = 4;

/// What is said about the group: that it lives, if a quick look finds that surely; that each side's first move decides it, if that is
/// proved with few steps; what the quick look finds with these, if that is sure, or life if there is no such proof of death; this
/// proof, which depends on stones that are only supposed to stand; first moves that are proved with all steps; and otherwise what both
/// procedures find.
pub(crate) fn said_and_line(
    alloc: Global,
    group: &Group,
    request: &Request,
    budget: Budget,
    proof: Option<&Proof>,
) -> Result<(Said, String), AllocError> {
    let is_json = request.form == Form::Json;
    if let Some(shape) = ByShape::of(group.problem.colouring(), group.target, group.defender) {
        let shape = Proof::Shape(shape, None);
        return Ok((Said::Proved, line_by_proof(alloc, group, &shape, is_json)?));
    }
    let few = one_part(budget, QUICK_SHARE);
    let none = group.first_moves(alloc, None, 0)?;
    let (word, quick) = line_by(alloc, group, Procedures::First, few, &none, is_json)?;
    if quick.0 == Said::Alive && word == Word::Sure {
        return Ok(quick);
    }
    let moves = group.first_moves(alloc, None, few.steps)?;
    if let Some(line) = line_by_moves(alloc, group, &moves, is_json)? {
        return Ok((Said::Unsettled, line));
    }
    let (word, quick) = with_moves(alloc, group, few, &moves, (word, quick), is_json)?;
    if word == Word::Sure || quick.0 == Said::Alive && proof.is_none() {
        return Ok(quick);
    }
    if let Some(proof) = proof {
        return Ok((proof.said(), line_by_proof(alloc, group, proof, is_json)?));
    }
    if request.is_quick {
        return Ok(quick);
    }
    let more = group.first_moves(alloc, None, budget.steps)?;
    if let Some(line) = line_by_moves(alloc, group, &more, is_json)? {
        return Ok((Said::Unsettled, line));
    }
    let long = one_part(budget, LONG_SHARE);
    let (_, both) = line_by(alloc, group, Procedures::Both, long, &more, is_json)?;
    Ok(both)
}

/// The budget with one part in this many of its steps, but one at least.
fn one_part(budget: Budget, share: u64) -> Budget {
    Budget {
        steps: (budget.steps / share.max(1)).max(1),
        table: budget.table,
    }
}

/// What the quick look found, or finds anew if a first move is proved to win.
fn with_moves(
    alloc: Global,
    group: &Group,
    few: Budget,
    moves: &FirstMoves,
    found: (Word, (Said, String)),
    is_json: bool,
) -> Result<(Word, (Said, String)), AllocError> {
    let attack = moves.outright(group.defender.opponent());
    if attack.is_none() && moves.outright(group.defender).is_none() {
        return Ok(found);
    }
    line_by(alloc, group, Procedures::First, few, moves, is_json)
}

/// What these procedures find: how far that is to be trusted, what is said, and the line or the object.
fn line_by(
    alloc: Global,
    group: &Group,
    procedures: Procedures,
    budget: Budget,
    moves: &FirstMoves,
    is_json: bool,
) -> Result<(Word, (Said, String)), AllocError> {
    // The notes of a run are about its groups, not about their questions.
    let mut silent: Vec<u8> = Vec::new(alloc);
    let mut table = Table::new(alloc, budget, false);
    table.lost = group.lost;
    let judged = judge_by(alloc, group, &mut table, procedures, moves, &mut silent)?;
    let report = Report::of(group, &table, moves, procedures, false);
    Ok((judged.word, line_of(alloc, report, &judged, is_json)?))
}

/// The line or the object of a group that each side is proved to decide by moving first, where nothing is supposed for it.
fn line_by_moves(
    alloc: Global,
    group: &Group,
    moves: &FirstMoves,
    is_json: bool,
) -> Result<Option<String>, AllocError> {
    let (size, target) = (group.problem.size(), group.target);
    match moves.both() {
        Some(both) => {
            if !both.attack().supposed().is_empty() {
                return Ok(None);
            }
            if !is_json {
                return Ok(Some(unsettled_line(alloc, size, target, &both)?));
            }
            let stones = group.position.stones(target);
            let text = first_moves_object(alloc, group, &stones, &Decided::Unsettled(both), moves)?;
            Ok(Some(text))
        }
        None => Ok(None),
    }
}

/// The line or the object of a group with this proof.
fn line_by_proof(
    alloc: Global,
    group: &Group,
    proof: &Proof,
    is_json: bool,
) -> Result<String, AllocError> {
    let (size, target) = (group.problem.size(), group.target);
    if is_json {
        let stones = group.position.stones(target);
        return proof_object(alloc, size, target, group.defender, None, &stones, proof);
    }
    proved_line(alloc, size, target, proof)
}

/// The line or the object of a group, and what it says. A group about which nothing was decided is open.
fn line_of(
    alloc: Global,
    report: Report<'_>,
    judged: &Judgement,
    is_json: bool,
) -> Result<(Said, String), AllocError> {
    let said = Said::of(judged);
    if is_json {
        return Ok((said, judged_object(alloc, report, judged)?));
    }
    if report.table.is_open() {
        return Ok((said, open_line(alloc, report.group)?));
    }
    Ok((said, first_line(alloc, report, judged)?))
}
