//! A run of the program: from its words and its input to its answer.

ghost use Rattle.std.specs.Prelude.{◌≡◌, ◌≢◌, ◌++◌, IfOk, OnOk, Ok, Some, true, false};
ghost use Rattle.sgf_text.specs.Text.{tree_text};
ghost use Rattle.tsumego_replies.specs.Texts.{line};
ghost use Rattle.target_game.specs.State.{start};
ghost use Rattle.tool_parts.specs.Written.{bytes_of, end_of};
ghost use Rattle.run_parts.specs.declared.status.Status.TheVariants.{Answered};
ghost use Rattle.tsumego_problem.specs.Walk.{problem_within, history_limit};
ghost use Rattle.short_proofs.specs.Says.{IsRecordWith, IsSaidOf, Says};
ghost use Rattle.short_proofs.specs.declared.words.Request.TheVariants.{Prove as ProveAsked, Tree as TreeAsked};

use crate::judged::judged;
use crate::proof::{Proved, prove};
use crate::reading::{Reading, find_reading};
use crate::whole::{Found, find_claim};
use crate::words::{Request, read_request};
use pn_search::{Audience, Budget, Cause};
use run_parts::{InputEnd, MAX_FRONT, MAX_TURNS, Status, TABLE, read_to_limit};
use sgf_text::{Tree, WriteFault, read_tree, write_bytes, write_tree};
use std::alloc::{AllocError, Global};
use std::convert::AsStr;
use std::io::{Read, Write};
use std::num::NonZeroUsize;
use target_game::Problem;
use tool_parts::{
    Output, refused_problem, refused_tree, text_of, without_input, without_request, write_output,
};
use tsumego_problem::{problem_tree, read_problem};
use tsumego_replies::{TOO_LARGE, unknown_text};

/// Runs the program on its words, the first of which is its name.
pub fn run<S: AsStr, R: Read, W: Write>(
    alloc: Global,
    words: &[S],
    reader: &mut R,
    writer: &mut W,
) -> Status {
    write_output(writer, output(alloc, words, reader))
}

/// What is written for the words and the input.
fn output<S: AsStr, R: Read>(
    alloc: Global,
    words: &[S],
    reader: &mut R,
) -> Result<Output, AllocError> {
    let request = match read_request(alloc, words) {
        Ok(request) => request,
        Err(none) => return without_request(none),
    };
    let mut front = Vec::new(alloc);
    if read_to_limit(reader, &mut front, MAX_FRONT)? == InputEnd::Failed {
        return without_input(alloc);
    }
    let (tree, end) = match read_tree(alloc, front.as_slice()) {
        Ok(read) => read,
        Err(fault) => return refused_tree(alloc, fault),
    };
    let behind = front.as_slice().get(end..).unwrap_or(b"");
    output_of(alloc, request, &tree, behind, reader)
}

/// What is written for what is asked for, this record, and the bytes after it.
fn output_of<R: Read>(
    alloc: Global,
    request: Request,
    tree: &Tree,
    behind: &[u8],
    reader: &mut R,
) -> Result<Output, AllocError>
    ensures { IfOk result (IsSaidOf request tree.now) }
{
    let problem = match read_problem(alloc, tree) {
        Ok(problem) => problem,
        Err(fault) => return refused_problem(alloc, fault),
    };
    match request {
        Request::Check => judged(alloc, &problem, behind, reader),
        Request::Prove { steps, is_whole } => claim_for(alloc, &problem, steps, is_whole),
        Request::Tree { steps } => read_out(alloc, &problem, budget_of(steps)?),
    }
}

/// The budget of a search with at most this many steps.
fn budget_of(steps: u64) -> Result<Budget, AllocError> {
    match NonZeroUsize::new(TABLE) {
        Some(table) => Ok(Budget { steps, table }),
        None => Err(AllocError),
    }
}

/// The record of the problem and a claim, or why there is none: a claim by answers of the whole board, or a short one.
fn claim_for(
    alloc: Global,
    problem: &Problem,
    steps: u64,
    is_whole: bool,
) -> Result<Output, AllocError>
    ensures { IfOk result (Says (ProveAsked steps is_whole) problem.now) }
{
    if is_whole {
        return proved_whole(alloc, problem, steps);
    }
    proved(alloc, problem, budget_of(steps)?)
}

/// The record of the problem and a short claim, or why there is none.
fn proved(alloc: Global, problem: &Problem, budget: Budget) -> Result<Output, AllocError>
    ensures { (steps : _) → IfOk result (Says (ProveAsked steps false) problem.now) }
{
    match prove(alloc, problem, Audience::Judge, budget)? {
        Proved::Wins {
            winner: _,
            turn: _,
            text,
            certificate: _certificate,
        } => with_claim(alloc, problem, text.as_slice()),
        Proved::Unknown { cause, steps } => unknown(alloc, cause, steps),
    }
}

/// The record of the problem and a claim by answers, or why there is none.
fn proved_whole(alloc: Global, problem: &Problem, steps: u64) -> Result<Output, AllocError>
    ensures { (same : _) → IfOk result (Says (ProveAsked same true) problem.now) }
{
    match find_claim(alloc, problem, steps)? {
        Found::Claim(claim) => with_claim(alloc, problem, claim.as_slice()),
        Found::Refused => unknown(alloc, Cause::NotConfirmed, steps),
        Found::Nothing => unknown(alloc, Cause::Steps, steps),
    }
}

/// The record of the problem, and the text of a claim.
fn with_claim(alloc: Global, problem: &Problem, claim: &[u8]) -> Result<Output, AllocError>
    ensures { IfOk result (λ o. IsRecordWith problem.now claim.now (bytes_of o)) }
{
    let tree = problem_tree(alloc, problem)?;
    let mut bytes = Vec::new(alloc);
    if push_all(&tree, claim, &mut bytes).is_err() {
        return Err(AllocError);
    }
    match String::from_utf8(bytes) {
        Ok(text) => Ok(Output::Text(text, Status::Answered)),
        Err(_) => Err(AllocError),
    }
}

/// The record for readers, or why there is none.
fn read_out(alloc: Global, problem: &Problem, budget: Budget) -> Result<Output, AllocError>
    ensures { (steps : _) → IfOk result (Says (TreeAsked steps) problem.now) }
{
    match find_reading(alloc, problem, budget, MAX_TURNS)? {
        Reading::Wins {
            winner: _,
            turns: _,
            tree,
        } => Ok(Output::Record(tree)),
        Reading::TooLarge { winner: _, turn: _ } => too_large(alloc),
        Reading::Unknown { cause, steps } => unknown(alloc, cause, steps),
    }
}

fn too_large(alloc: Global) -> Result<Output, AllocError>
    ensures { IfOk result (λ o. end_of o ≢ Answered) }
{
    Ok(Output::Text(text_of(alloc, TOO_LARGE)?, Status::Unanswered))
}

/// Appends the record, a line feed and the claim.
fn push_all(tree: &Tree, claim: &[u8], bytes: &mut Vec<u8>) -> Result<(), WriteFault>
    ensures { OnOk result
        (bytes.new.items ≡ bytes.old.items ++ (line (tree_text tree.now) ++ claim.now)) }
{
    match write_tree(tree, bytes) {
        Ok(()) => match write_bytes(b"\n", bytes) {
            Ok(()) => write_bytes(claim, bytes),
            Err(fault) => Err(fault),
        },
        Err(fault) => Err(fault),
    }
}

/// Why there is no claim.
fn unknown(alloc: Global, cause: Cause, steps: u64) -> Result<Output, AllocError>
    ensures { IfOk result (λ o. end_of o ≢ Answered) }
{
    match cause {
        Cause::Memory => Err(AllocError),
        _ => Ok(Output::Text(unknown_text(alloc, cause, steps)?, Status::Unanswered)),
    }
}
