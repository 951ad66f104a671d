//! A group whose fate is proved, as an object of JSON.

ghost use Rattle.std.specs.Prelude.{◌≡◌, codes, IfOk, string_bytes};
ghost use Rattle.group_status.specs.Lines.{HasFields, IsDecidedFields, IsFields, IsStatusFields, IsWinnerByMoveFields, IsWinnerFields, status_fields, winner_fields};

use crate::group::Group;
use crate::json::{begun_at, push_points, push_set};
use crate::lines::push_point;
use crate::move_proof::Decided;
use crate::proof::Proof;
use crate::reasons::push_answer_name;
use go_points::{Colour, Point, PointSet, Size};
use group_search::{Answer, Finding, Kind};
use group_words::Side;
use proved_groups::{FirstMoves, ProvenByMove};
use std::alloc::{AllocError, Global};
use tool_parts::colour_letter;

/// How the stones live or die, as a word.
fn kind_name(kind: Kind) -> &'static str {
    match kind {
        Kind::PassAlive => "shape",
        Kind::OneRegion => "region",
        Kind::WithFriends => "friends",
        Kind::TwoRegions => "two regions",
        Kind::Dead => "taken",
        Kind::DeadWhile => "taken while",
    }
}

/// The object of a group, in which nothing is asked of the procedures. `stones` are its own where no finding names more.
pub(crate) fn proof_object(
    alloc: Global,
    size: Size,
    target: Point,
    defender: Colour,
    first: Option<Side>,
    stones: &PointSet,
    proof: &Proof,
) -> Result<String, AllocError>
    ensures { IfOk result (λ text.
        HasFields size target (IsFields defender first proof.now) (string_bytes text)) }
{
    let begun = begun_at(alloc, size, target)?;
    let fields = proof_fields(alloc, defender, first, proof)?;
    let mut rest = String::new(alloc);
    match proof.proven() {
        Some(proven) => {
            push_points(&mut rest, "stones", size, &proven.finding().stones)?;
            push_proof(&mut rest, size, proven.finding(), &proven.supposed())?;
        }
        None => push_points(&mut rest, "stones", size, stones)?,
    }
    rest.push_str(",\"questions\":[]}\n")?;
    format!(in alloc; "{begun}{fields}{rest}")
}

/// What the proof says: of the group, or of who wins if one side is asked about.
fn proof_fields(
    alloc: Global,
    defender: Colour,
    first: Option<Side>,
    proof: &Proof,
) -> Result<String, AllocError>
    ensures { IfOk result (λ text. IsFields defender first proof.now (string_bytes text)) }
{
    match first {
        None => status_of_proof(alloc, proof),
        Some(side) => winner_of_proof(alloc, side.colour(defender), proof),
    }
}

fn status_of_proof(alloc: Global, proof: &Proof) -> Result<String, AllocError>
    ensures { IfOk result (λ text. IsStatusFields proof.now (string_bytes text)) }
{
    status_fields(alloc, proof.status())
}

fn winner_of_proof(alloc: Global, mover: Colour, proof: &Proof) -> Result<String, AllocError>
    ensures { IfOk result (λ text. IsWinnerFields mover proof.now (string_bytes text)) }
{
    winner_fields(alloc, mover, proof.winner())
}

/// The same of a first move.
fn winner_by_move(alloc: Global, proven: &ProvenByMove) -> Result<String, AllocError>
    ensures { IfOk result (λ text. IsWinnerByMoveFields proven.now (string_bytes text)) }
{
    winner_fields(alloc, proven.mover(), proven.winner())
}

/// The status, and that it is proved.
fn status_fields(alloc: Global, word: &str) -> Result<String, AllocError>
    ensures { IfOk result (λ text. string_bytes text ≡ status_fields word.now) }
{
    format!(in alloc; ",\"status\":\"{word}\",\"word\":\"proved\"")
}

/// Who moves first, that it is proved, and who wins.
fn winner_fields(alloc: Global, mover: Colour, winner: Colour) -> Result<String, AllocError>
    ensures { IfOk result (λ text. string_bytes text ≡ winner_fields mover winner) }
{
    let first = colour_letter(mover);
    let won = colour_letter(winner);
    format!(in alloc; ",\"first\":\"{first}\",\"word\":\"proved\",\"winner\":\"{won}\"")
}

/// What first moves decide of the group, or of the side that is asked about.
fn decided_fields(alloc: Global, decided: &Decided<'_>) -> Result<String, AllocError>
    ensures { IfOk result (λ text. IsDecidedFields decided.now (string_bytes text)) }
{
    match decided {
        Decided::Unsettled(_) => status_fields(alloc, "unsettled"),
        Decided::Wins(proven) => winner_by_move(alloc, proven),
    }
}

/// The object of a group of which this is decided by first moves.
pub(crate) fn first_moves_object(
    alloc: Global,
    group: &Group,
    stones: &PointSet,
    decided: &Decided<'_>,
    first_moves: &FirstMoves,
) -> Result<String, AllocError>
    ensures { IfOk result (λ text. HasFields group.now.problem.game.size group.now.target
        (IsDecidedFields decided.now) (string_bytes text)) }
{
    let size = group.problem.size();
    let begun = begun_at(alloc, size, group.target)?;
    let fields = decided_fields(alloc, decided)?;
    let mut rest = String::new(alloc);
    push_points(&mut rest, "stones", size, stones)?;
    push_first_moves(&mut rest, group, first_moves, false)?;
    rest.push_str(",\"questions\":[]}\n")?;
    format!(in alloc; "{begun}{fields}{rest}")
}

/// Appends the first moves that are proved to win, if there are any; only those for which nothing is supposed if `is_outright`.
pub(crate) fn push_first_moves(
    text: &mut String,
    group: &Group,
    first_moves: &FirstMoves,
    is_outright: bool,
) -> Result<(), AllocError> {
    let mut is_first = true;
    for mover in [group.defender.opponent(), group.defender] {
        let found = if is_outright {
            first_moves.outright(mover)
        } else {
            first_moves.by(mover)
        };
        if let Some(proven) = found {
            text.push_str(if is_first { ",\"first_moves\":[" } else { "," })?;
            is_first = false;
            push_first_move(text, group.problem.size(), proven)?;
        }
    }
    if is_first {
        return Ok(());
    }
    text.push(']')
}

/// Appends a first move as an object.
fn push_first_move(text: &mut String, size: Size, proven: &ProvenByMove) -> Result<(), AllocError> {
    let mover = colour_letter(proven.mover());
    write!(text, "{{\"first\":\"{mover}\",\"winner\":\"{mover}\"")?;
    if let (Some(first), _) = proven.end() {
        text.push_str(",\"move\":\"")?;
        push_point(text, size, first)?;
        text.push('"')?;
    }
    push_proof(text, size, proven.finding(), &proven.supposed())?;
    text.push('}')
}

/// Appends what a judge has accepted.
pub(crate) fn push_proof(
    text: &mut String,
    size: Size,
    finding: &Finding,
    supposed: &PointSet,
) -> Result<(), AllocError> {
    let kind = kind_name(finding.kind);
    write!(text, ",\"proof\":{{\"kind\":\"{kind}\",")?;
    push_set(text, "kept", size, &finding.kept)?;
    push_points(text, "region", size, &finding.region)?;
    push_points(text, "friends", size, &finding.friends)?;
    if !supposed.is_empty() {
        push_points(text, "while", size, supposed)?;
    }
    push_answers(text, size, finding.answers.as_slice())?;
    push_claim(text, finding.claim.as_slice())?;
    text.push('}')
}

/// Appends the answers to the other side's first moves.
fn push_answers(text: &mut String, size: Size, answers: &[Answer]) -> Result<(), AllocError> {
    text.push_str(",\"answers\":[")?;
    let mut is_first = true;
    for one in answers {
        text.push_str(if is_first { "[\"" } else { ",[\"" })?;
        is_first = false;
        push_point(text, size, one.point)?;
        text.push_str("\",\"")?;
        push_answer_name(text, size, *one)?;
        text.push_str("\"]")?;
    }
    text.push(']')
}

/// Appends the text of the claim, whose lines have no byte that JSON writes in another way but their ends.
fn push_claim(text: &mut String, claim: &[u8]) -> Result<(), AllocError> {
    text.push_str(",\"claim\":\"")?;
    for byte in claim {
        if *byte == b'\n' {
            text.push_str("\\n")?;
        } else {
            text.push(char::from(*byte))?;
        }
    }
    text.push('"')
}
