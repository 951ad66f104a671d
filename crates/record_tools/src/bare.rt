//! A record of the present position alone, without what was played before.

ghost use Rattle.std.specs.Prelude.{◌≡◌, IfOk, Ok, Some};
ghost use Rattle.record_pages.specs.Bare.{IsBare};
ghost use Rattle.tsumego_problem.specs.Walk.{problem_within, history_limit};

use record_marks::{Refusal, problem_of};
use record_pages::{are_same, may_return, push_titles, without_past};
use sgf_text::{Property, SgfNode, Tree};
use std::alloc::Global;
use target_game::Problem;
use tool_parts::copy_properties;
use tsumego_problem::{marks_node, past_nodes};

/// The record, its problem, and whether the game bars turns that the position alone does not.
#[derive(Drop)]
pub(crate) struct BareRecord {
    pub(crate) tree: Tree,
    pub(crate) problem: Problem,
    pub(crate) is_another: bool,
}

/// The node of these properties.
fn node_of(properties: Vec<Property>) -> Result<SgfNode, Refusal> {
    match SgfNode::new(properties) {
        Some(node) => Ok(node),
        None => Err(Refusal::BadMarks),
    }
}

/// The nodes of the problem, with the titles of another record in the root. If no pass comes before the problem, they are a single
/// node.
fn nodes_of(alloc: Global, problem: &Problem, titled: &Tree) -> Result<Vec<SgfNode>, Refusal> {
    let past = past_nodes(alloc, problem)?;
    let marks = marks_node(alloc, problem)?;
    let mut nodes = Vec::new(alloc);
    let mut open = Vec::new(alloc);
    for i in 0..past.len() {
        let mut properties = copy_properties(alloc, past[i].as_slice())?;
        if i == 0 {
            push_titles(alloc, &titled.nodes()[0], &mut properties)?;
        }
        if past.len() == 1 {
            open = properties;
        } else {
            push_node(properties, &mut nodes)?;
        }
    }
    let mut some = copy_properties(alloc, marks.as_slice())?;
    open.append(&mut some)?;
    push_node(open, &mut nodes)?;
    Ok(nodes)
}

fn push_node(properties: Vec<Property>, into: &mut Vec<SgfNode>) -> Result<(), Refusal> {
    let node = node_of(properties)?;
    match into.push(node) {
        Ok(()) => Ok(()),
        Err(_) => Err(Refusal::Memory),
    }
}

/// The record of the problem's present position alone, with the titles of the record that it is taken from. The new record is read
/// again: it has that problem.
pub(crate) fn bare_record(
    alloc: Global,
    problem: &Problem,
    titled: &Tree,
) -> Result<BareRecord, Refusal>
    ensures problem { IfOk result (λ r. problem_within (Some history_limit) r.tree ≡ Ok r.problem) }
    ensures alone { IfOk result (λ r. IsBare problem.now r.problem) }
{
    let is_another = !may_return(alloc, problem)?.is_empty();
    let Some(bare) = without_past(alloc, problem)? else {
        return Err(Refusal::BadMarks);
    };
    let Some(tree) = Tree::new(nodes_of(alloc, &bare, titled)?, Vec::new(alloc)) else {
        return Err(Refusal::BadMarks);
    };
    let read = problem_of(alloc, &tree)?;
    if !are_same(&bare, &read) {
        return Err(Refusal::BadMarks);
    }
    Ok(BareRecord {
        tree,
        problem: read,
        is_another,
    })
}
