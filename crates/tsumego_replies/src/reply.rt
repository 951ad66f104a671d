//! What a command answers for its input.

ghost use Rattle.std.specs.Prelude.{◌≡◌, ◌≤◌, ℕ, List, Option, IfOk, IsFalse, IsSome, string_bytes};
ghost use Rattle.target_game.specs.State.{start};
ghost use Rattle.target_game.specs.Within.{decision};
ghost use Rattle.tsumego_problem.specs.Walk.{problem_node};
ghost use Rattle.solution_tree.specs.Audit.{audit};
ghost use Rattle.tsumego_words.specs.CommandLine.{FitsRanges, is_session};
ghost use Rattle.tsumego_words.specs.declared.command_line.Command.{Command};
ghost use Rattle.tsumego_replies.specs.Replies.{AsksOn, Decides, HasNoRecord, IsNodeRejectionOf, IsReplyAfter, IsSaidAfter, IsSearched, SaysAfter};
ghost use Rattle.tsumego_replies.specs.Answers.{Says, audit_answer, within_answer};

use crate::claim::judge;
use crate::record::{NoRecord, read_record};
use crate::texts::{node_reject_text, unknown_text, wins_text};
use cert_check::Checked;
use go_points::Size;
use pn_search::{Answers, Budget, Verdict, solve_for};
use run_parts::Status;
use sgf_text::Tree;
use sgf_text::laws::fronts_decide;
use solution_tree::{AuditFault, AuditWhy, audit};
use std::alloc::Global;
use std::io::Read;
use std::num::NonZeroUsize;
use target_game::{Problem, Within, decide_within};
use tsumego_words::Command;

/// A whole answer.
#[derive(Debug, Drop)]
pub struct Reply {
    pub status: Status,
    pub text: String,
}

/// What a command answers.
#[derive(Drop)]
pub enum Response {
    /// This text.
    Text(Reply),
    /// This claim is to be written: as a tree, or as a proof, for which it may be made into one lemma.
    Solution {
        checked: Checked,
        proof: bool,
        lift: bool,
    },
    /// The input has no end in sight: a bound was passed.
    TooLong,
}

/// Why there is no answer.
#[derive(Clone, Copy, Debug, PartialEq, Eq)]
pub enum Failure {
    Memory,
    /// A read failed.
    Read,
}

/// What the command answers for these bytes and what the reader has after them. Only `check` reads on, and only behind a record.
pub fn reply_to<R: Read>(
    alloc: Global,
    command: Command,
    front: &[u8],
    reader: &mut R,
) -> Result<Response, Failure>
    requires fits { FitsRanges command }
    requires whole { IsFalse (is_session command) }
    requires decided { Decides front.now (R.remaining reader.old) }
    ensures reply { IfOk result (λ r. IsReplyAfter command front.now (R.remaining reader.old) r) }
    ensures asked { AsksOn command front.now (R.remaining reader.old) (R.remaining reader.new) }
{
    fronts_decide();
    let record = match read_record(alloc, front) {
        Ok(record) => record,
        Err(none) => return as_text(refused(none)),
    };
    match command {
        Command::Check => {
            as_response(judge(alloc, &record.problem, &front[record.end..], reader))
        },
        Command::Within { turns, nodes } => as_text(within(alloc, &record.problem, turns, nodes)),
        Command::Audit => as_text(audited(alloc, &record.problem, &record.tree)),
        Command::Solve {
            steps,
            table,
            proof,
            lift,
        } => searched(alloc, record.problem, steps, table, proof, lift),
        Command::Gtp => unreachable!(),
    }
}

fn as_text(reply: Result<Reply, Failure>) -> Result<Response, Failure>
    ensures { (command : Command) (front : List ℕ) (told : Option (List ℕ))
        → IfOk reply (λ r. SaysAfter command front told r.status (string_bytes r.text))
        → IfOk result (λ r. IsReplyAfter command front told r) }
{
    match reply {
        Ok(reply) => Ok(Response::Text(reply)),
        Err(failure) => Err(failure),
    }
}

fn as_response(reply: Result<Option<Reply>, Failure>) -> Result<Response, Failure>
    ensures { (command : Command) (front : List ℕ) (told : Option (List ℕ))
        → IfOk reply (λ o. IsSaidAfter command front told o)
        → IfOk result (λ r. IsReplyAfter command front told r) }
{
    match reply {
        Ok(Some(reply)) => Ok(Response::Text(reply)),
        Ok(None) => Ok(Response::TooLong),
        Err(failure) => Err(failure),
    }
}

/// What is answered if there is no record, whatever the command is.
fn refused(none: NoRecord) -> Result<Reply, Failure>
    ensures { (command : Command) (bytes : List ℕ) → IsFalse (is_session command)
        → HasNoRecord bytes none
        → IfOk result (λ r. Says command bytes r.status (string_bytes r.text)) }
{
    match none {
        NoRecord::Refused(text) => Ok(Reply {
            status: Status::Refused,
            text,
        }),
        NoRecord::Memory => Err(Failure::Memory),
    }
}

/// Decides by full search who can force a win.
fn within(alloc: Global, problem: &Problem, turns: u32, nodes: u64) -> Result<Reply, Failure>
    requires { turns ≤ 200 }
    ensures { IfOk result
        (λ r. (r.status, string_bytes r.text)
        ≡ within_answer (decision (start problem.now) turns nodes)) }
{
    match decide_within(alloc, problem, turns, nodes) {
        Ok(Within::Wins(winner)) => said(alloc, Status::Answered, wins_text(winner)),
        Ok(Within::Neither) => said(alloc, Status::Answered, "neither\n"),
        Ok(Within::Limit) => said(alloc, Status::Unanswered, "limit\n"),
        Err(_) => Err(Failure::Memory),
    }
}

/// Audits the tree below the problem node.
fn audited(alloc: Global, problem: &Problem, tree: &Tree) -> Result<Reply, Failure>
    requires { IsSome (problem_node tree.now) }
    ensures { IfOk result
        (λ r. (r.status, string_bytes r.text)
        ≡ audit_answer problem.now.game.size (audit problem.now tree.now)) }
{
    match audit(alloc, problem, tree) {
        Ok(winner) => said(alloc, Status::Answered, wins_text(winner)),
        Err(fault) => node_rejected(alloc, problem.size(), &fault),
    }
}

/// Why the tree is rejected; or why it was not judged.
fn node_rejected(alloc: Global, size: Size, fault: &AuditFault) -> Result<Reply, Failure>
    ensures { IfOk result (λ r. IsNodeRejectionOf size fault.now r.status (string_bytes r.text)) }
{
    match fault.why {
        AuditWhy::Memory => Err(Failure::Memory),
        _ => match node_reject_text(alloc, size, fault) {
            Ok(text) => Ok(Reply {
                status: Status::Unanswered,
                text,
            }),
            Err(_) => Err(Failure::Memory),
        },
    }
}

/// Searches for a claim.
fn searched(
    alloc: Global,
    problem: Problem,
    steps: u64,
    table: usize,
    proof: bool,
    lift: bool,
) -> Result<Response, Failure>
    requires { 1 ≤ table }
    ensures { IfOk result (λ r. IsSearched steps proof lift problem r) }
{
    let Some(table) = NonZeroUsize::new(table) else {
        unreachable!()
    };
    // Nobody reads the tree of a claim.
    let answers = if proof {
        Answers::First
    } else {
        Answers::Small
    };
    match solve_for(alloc, problem, Budget { steps, table }, answers) {
        Verdict::Wins(checked) => Ok(Response::Solution {
            checked,
            proof,
            lift,
        }),
        Verdict::Unknown { cause, steps, .. } => match unknown_text(alloc, cause, steps) {
            Ok(text) => Ok(Response::Text(Reply {
                status: Status::Unanswered,
                text,
            })),
            Err(_) => Err(Failure::Memory),
        },
    }
}

/// A text that is not made of parts.
pub fn said(alloc: Global, status: Status, text: &str) -> Result<Reply, Failure>
    ensures { IfOk result (λ r. (r.status ≡ status) × (string_bytes r.text ≡ text.now)) }
{
    match text.to_string(alloc) {
        Ok(text) => Ok(Reply { status, text }),
        Err(_) => Err(Failure::Memory),
    }
}
