//! A run of the program: from its words and its input to its answer.

use crate::all_groups::{Stop, all_groups};
use crate::answer::{answered, text_of};
use crate::board_record::board_record;
use crate::group::Group;
use crate::past::without_past;
use crate::score::score;
use group_words::{
    Form, Request, before_passes, no_marks, no_stone, no_tree, node_asked, read_request,
};
use pn_search::Budget;
use record_marks::{NoStone, marked_problem, position_problem, stone_problem};
use run_parts::{Status, TABLE};
use sgf_text::{Tree, read_tree, write_bytes};
use std::alloc::{AllocError, Global};
use std::convert::AsStr;
use std::io::{Read, Write};
use std::num::NonZeroUsize;
use target_game::Problem;
use tool_parts::{Output, read_whole, refused, without_input, without_request, write_output};
use tsumego_problem::ProblemFault;

/// Runs the program on its words, the first of which is its name.
pub fn run<S: AsStr, R: Read, W: Write, N: Write>(
    alloc: Global,
    words: &[S],
    reader: &mut R,
    writer: &mut W,
    notes: &mut N,
) -> Status {
    let output = output(alloc, words, reader, writer, notes);
    write_output(writer, output)
}

/// What is written for the words and the input, after the lines of all groups, which are written as they become known.
fn output<S: AsStr, R: Read, W: Write, N: Write>(
    alloc: Global,
    words: &[S],
    reader: &mut R,
    writer: &mut W,
    notes: &mut N,
) -> Result<Output, AllocError> {
    let request = match read_request(alloc, words) {
        Ok(request) => request,
        Err(none) => return without_request(none),
    };
    let mut bytes = Vec::new(alloc);
    if !read_whole(reader, &mut bytes)? {
        return without_input(alloc);
    }
    match read_tree(alloc, bytes.as_slice()) {
        Ok((tree, end)) => {
            tell_others(alloc, bytes.as_slice(), end, notes);
            output_of(alloc, &request, &tree, writer, notes)
        }
        Err(fault) => no_tree(alloc, fault),
    }
}

/// Says on `notes` that the file has more games than the first.
fn tell_others<N: Write>(alloc: Global, bytes: &[u8], end: usize, notes: &mut N) {
    let rest = bytes.get(end..).unwrap_or(b"");
    if read_tree(alloc, rest).is_ok() {
        let _ = write_bytes(
            b"group_status: the file has several games; the first is asked about\n",
            notes,
        );
    }
}

/// What is written for what is asked for and this record.
fn output_of<W: Write, N: Write>(
    alloc: Global,
    request: &Request,
    tree: &Tree,
    writer: &mut W,
    notes: &mut N,
) -> Result<Output, AllocError> {
    let Some(budget) = budget_of(request) else {
        return Err(AllocError);
    };
    if request.is_score {
        return score_answered(alloc, request, tree, notes);
    }
    if request.is_all {
        return all_answered(alloc, request, tree, budget, writer, notes);
    }
    let problem = match problem_asked(alloc, request, tree) {
        Ok(problem) => problem,
        Err(none) => return nothing_asked(alloc, request, tree, none),
    };
    match group_of(alloc, problem, request.is_position_only)? {
        Some(group) => answered(alloc, request, &group, budget, notes),
        None => refused(format!(in alloc; "refused: there is no stone at the target\n")?),
    }
}

/// The problem of the stone that is asked for, or of the record's own marks.
fn problem_asked(alloc: Global, request: &Request, tree: &Tree) -> Result<Problem, NoStone> {
    if request.target.is_empty() {
        marked_problem(alloc, tree)
    } else {
        stone_problem(alloc, tree, request.node, request.target.as_bytes())
    }
}

/// Why there is no such problem.
fn nothing_asked(
    alloc: Global,
    request: &Request,
    tree: &Tree,
    none: NoStone,
) -> Result<Output, AllocError> {
    if request.target.is_empty() {
        no_marks(alloc, none)
    } else {
        no_stone(alloc, tree, request.node, request.target.as_str(), none)
    }
}

/// The group of the problem, with its past or without.
fn group_of(
    alloc: Global,
    problem: Problem,
    is_position_only: bool,
) -> Result<Option<Group>, AllocError> {
    if !is_position_only {
        return Group::new(alloc, problem);
    }
    match without_past(alloc, &problem)? {
        Some(problem) => Group::new(alloc, problem),
        None => Ok(None),
    }
}

/// What the search may use for each question.
fn budget_of(request: &Request) -> Option<Budget> {
    let entries = NonZeroUsize::new(TABLE)?;
    Some(Budget {
        steps: request.steps,
        table: entries,
    })
}

/// What is written after the lines about all groups.
fn all_answered<W: Write, N: Write>(
    alloc: Global,
    request: &Request,
    tree: &Tree,
    budget: Budget,
    writer: &mut W,
    notes: &mut N,
) -> Result<Output, AllocError> {
    let problem = match position_asked(alloc, tree, request.node, notes) {
        Ok(problem) => problem,
        Err(none) => return no_stone(alloc, tree, request.node, "", none),
    };
    if request.form == Form::Record {
        return all_marked(alloc, &problem, request, budget, notes);
    }
    match all_groups(alloc, &problem, request, budget, writer, notes) {
        Ok(_) => text_of(String::new(alloc)),
        Err(Stop::Memory) => Err(AllocError),
        Err(Stop::Write) => Ok(Output::Text(String::new(alloc), Status::Failed)),
    }
}

/// The record in which each stone of the position has a mark.
fn all_marked<N: Write>(
    alloc: Global,
    problem: &Problem,
    request: &Request,
    budget: Budget,
    notes: &mut N,
) -> Result<Output, AllocError> {
    let mut bytes = Vec::new(alloc);
    let Ok(course) = all_groups(alloc, problem, request, budget, &mut bytes, notes) else {
        return Err(AllocError);
    };
    let Ok(lines) = String::from_utf8(bytes) else {
        return Err(AllocError);
    };
    Ok(Output::Record(board_record(alloc, problem, &course, lines)?))
}

/// The score of the position.
fn score_answered<N: Write>(
    alloc: Global,
    request: &Request,
    tree: &Tree,
    notes: &mut N,
) -> Result<Output, AllocError> {
    let problem = match position_asked(alloc, tree, request.node, notes) {
        Ok(problem) => problem,
        Err(none) => return no_stone(alloc, tree, request.node, "", none),
    };
    if !request.is_position_only {
        return text_of(score(alloc, &problem, request)?);
    }
    match without_past(alloc, &problem)? {
        Some(same) => text_of(score(alloc, &same, request)?),
        None => text_of(String::new(alloc)),
    }
}

/// The problem of a stone of the position. If no node is named and the game ends there with two passes, the position is the
/// one before them, which is the same with the turn to move.
fn position_asked<N: Write>(
    alloc: Global,
    tree: &Tree,
    node: Option<usize>,
    notes: &mut N,
) -> Result<Problem, NoStone> {
    let found = position_problem(alloc, tree, node);
    if node.is_some() {
        return found;
    }
    match found {
        Err(NoStone::NoProblem(ProblemFault::Ended { .. })) => {
            let last = node_asked(tree, node);
            let before = before_passes(last);
            tell_passes(alloc, last, before, notes)?;
            position_problem(alloc, tree, Some(before))
        }
        _ => found,
    }
}

/// Says on `notes` that another node is asked about than the last.
fn tell_passes<N: Write>(
    alloc: Global,
    last: usize,
    before: usize,
    notes: &mut N,
) -> Result<(), AllocError> {
    let note = format!(in alloc;
        "group_status: two passes end the game at node {last}; the position of node {before} is asked about\n"
    )?;
    let _ = write_bytes(note.as_bytes(), notes);
    Ok(())
}
