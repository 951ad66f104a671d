//! The record at the front of the input.

ghost use Rattle.std.specs.Prelude.{◌≡◌, ◌≤◌, ℕ, List, length, IfOk, IfErr, string_bytes};
ghost use Rattle.tsumego_replies.specs.Answers.{IsRecord};
ghost use Rattle.tsumego_problem.specs.Refusals.{sgf_refusal, problem_refusal};
ghost use Rattle.tsumego_replies.specs.Texts.{line};
ghost use Rattle.tsumego_replies.specs.Replies.{HasNoRecord, IsTold};

use crate::texts::{problem_refusal, sgf_refusal};
use sgf_text::{SgfFault, Tree, read_tree};
use std::alloc::{AllocError, Global};
use target_game::Problem;
use tsumego_problem::{ProblemFault, read_problem};

/// Why there is no record.
#[derive(Debug, Drop)]
pub enum NoRecord {
    /// The text that says why.
    Refused(String),
    Memory,
}

/// A record that was read.
#[derive(Drop)]
pub struct Record {
    pub problem: Problem,
    pub tree: Tree,
    /// The place after the record.
    pub end: usize,
}

/// The record at the front of the bytes.
pub fn read_record(alloc: Global, bytes: &[u8]) -> Result<Record, NoRecord>
    ensures ok { IfOk result (λ r. IsRecord bytes.now r.tree r.end r.problem) }
    ensures within { IfOk result (λ r. r.end ≤ length bytes.now) }
    ensures err { IfErr result (λ e. HasNoRecord bytes.now e) }
{
    let (tree, end) = match read_tree(alloc, bytes) {
        Ok(read) => read,
        Err(fault) => return Err(no_tree(alloc, fault)),
    };
    match read_problem(alloc, &tree) {
        Ok(problem) => Ok(Record { problem, tree, end }),
        Err(fault) => Err(no_problem(alloc, fault)),
    }
}

fn no_tree(alloc: Global, fault: SgfFault) -> NoRecord
    ensures told { IsTold (line (sgf_refusal fault)) result }
    ensures memory { fault ≡ SgfFault.Memory → result ≡ NoRecord.Memory }
{
    match fault {
        SgfFault::Memory => NoRecord::Memory,
        _ => told(sgf_refusal(alloc, fault)),
    }
}

fn no_problem(alloc: Global, fault: ProblemFault) -> NoRecord
    ensures told { IsTold (line (problem_refusal fault)) result }
    ensures memory { fault ≡ ProblemFault.Memory → result ≡ NoRecord.Memory }
{
    match fault {
        ProblemFault::Memory => NoRecord::Memory,
        _ => told(problem_refusal(alloc, fault)),
    }
}

fn told(text: Result<String, AllocError>) -> NoRecord
    ensures { (wanted : List ℕ) → IfOk text (λ t. string_bytes t ≡ wanted) → IsTold wanted result }
{
    match text {
        Ok(text) => NoRecord::Refused(text),
        Err(_) => NoRecord::Memory,
    }
}
