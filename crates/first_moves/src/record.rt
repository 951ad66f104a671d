//! What is found, as a record: a branch for each first turn, with the answer tree below it. A right turn with a large answer tree
//! has the lines of a short claim below it instead, if one is found.

ghost use Rattle.std.specs.Prelude.{◌≡◌, ◌≤◌, ◌++◌, ◌∷◌, ℕ, [], List, codes, length, string_bytes, IfOk, IfSome};
ghost use Rattle.sgf_text.specs.Trees.{Node};
ghost use Rattle.tool_parts.specs.Says.{winner_text};
ghost use Rattle.first_moves.specs.Branch.{label_text, HasLabel, IsLabelled};

use crate::found::{Found, Tally};
use crate::judged::Judged;
use crate::line::Line;
use crate::line_record::with_line;
use crate::list::solution_text;
use crate::reading::reading_by;
use cert_check::Checked;
use go_points::Colour;
use pn_search::Budget;
use run_parts::MAX_TURNS;
use sgf_text::{SgfNode, Tree};
use solution_tree::{Expand, expand, to_sgf};
use std::alloc::{AllocError, Global};
use target_game::Problem;
use tool_parts::{copy_properties, push_nodes, push_trees, single, winner_said};
use tsumego_problem::{first_marked, marks_node, past_nodes, turn_node, values_at};

/// The greatest number of turns of an answer tree below a right turn that is always played out.
const MAX_PLAYED_OUT: usize = 1_000;

/// The kinds of branches, in the order in which they are written.
#[derive(Clone, Copy, Debug, PartialEq, Eq)]
enum Kind {
    Right,
    Wrong,
    Unknown,
}

/// The record of the problem with a branch for each turn: first those that win (`TE[1]`), then those that lose (`BM[1]`)
/// with their refutation, then those about which nothing is known (SGF FF[4], "Move annotation properties"). In the first branch
/// that wins, further right turns of the line are variations; their trees get the room that those of the branches leave. If a line
/// is given, that branch is always played out. The search for each short claim has this budget.
pub(crate) fn moves_record(
    alloc: Global,
    problem: &Problem,
    found: &[Found],
    tally: Tally,
    line: Option<&Line>,
    budget: Budget,
) -> Result<Tree, AllocError> {
    let mut nodes = past_nodes(alloc, problem)?;
    let marks = marks_node(alloc, problem)?;
    let said = solution_text(alloc, tally, line)?;
    nodes.push(with_comment(alloc, &marks, None, said.as_str())?)?;
    let mut branches = Vec::new(alloc);
    let mut left = MAX_TURNS;
    for kind in [Kind::Right, Kind::Wrong, Kind::Unknown] {
        push_branches(
            alloc,
            problem,
            found,
            kind,
            line.is_some(),
            budget,
            &mut left,
            &mut branches,
        )?;
    }
    let branches = with_line(alloc, branches, line, &mut left)?;
    tree_with(nodes, branches)
}

/// Appends the branches of this kind. The first one may have the line, which is played out.
fn push_branches(
    alloc: Global,
    problem: &Problem,
    found: &[Found],
    kind: Kind,
    has_line: bool,
    budget: Budget,
    left: &mut usize,
    into: &mut Vec<Tree>,
) -> Result<(), AllocError> {
    for one in found {
        if kind_of(&one.judged) == kind {
            let is_played_out = has_line && into.is_empty();
            let short = if is_played_out { None } else { Some(budget) };
            into.push(branch(alloc, problem, one, "right", short, left)?)?;
        }
    }
    Ok(())
}

fn kind_of(judged: &Judged) -> Kind {
    match judged {
        Judged::Right(_) => Kind::Right,
        Judged::Refuted(_) => Kind::Wrong,
        Judged::Ends => Kind::Wrong,
        Judged::Unknown => Kind::Unknown,
    }
}

/// The branch of a turn; `right` is what a right one is called. With a budget a short claim may be searched for.
pub(crate) fn branch(
    alloc: Global,
    problem: &Problem,
    one: &Found,
    right: &str,
    short: Option<Budget>,
    left: &mut usize,
) -> Result<Tree, AllocError>
    ensures { IfOk result
        (HasLabel (label_text right.now problem.now.mover one.now.judged)) }
{
    let turn = turn_node(alloc, problem.size(), problem.mover(), one.turn)?;
    let mover = problem.mover();
    match &one.judged {
        Judged::Right(checked) => {
            let text = said(alloc, right, mover)?;
            if let Some(tree) = read_out(alloc, problem, one, checked, &text, short, left)? {
                return Ok(tree);
            }
            let first = with_comment(alloc, &turn, Some(b"TE"), &text)?;
            // The claim's own first turn is that of the branch.
            tree_of_claim(alloc, checked, 1, first, left)
        }
        Judged::Refuted(checked) => {
            let text = said(alloc, "wrong", mover.opponent())?;
            let first = with_comment(alloc, &turn, Some(b"BM"), &text)?;
            tree_of_claim(alloc, checked, 0, first, left)
        }
        Judged::Ends => {
            let text = said(alloc, "wrong", mover.opponent())?;
            single_node(alloc, with_comment(alloc, &turn, Some(b"BM"), &text)?)
        }
        Judged::Unknown => single_node(alloc, with_comment(alloc, &turn, None, "unknown")?),
    }
}

/// Whether the turn is right, and who wins.
fn said(alloc: Global, word: &str, winner: Colour) -> Result<String, AllocError>
    ensures { IfOk result
        (λ text. string_bytes text ≡ word.now ++ (codes ": " ++ winner_text winner)) }
{
    let wins = winner_said(alloc, winner)?;
    format!(in alloc; "{word}: {wins}")
}

/// The node with a comment and, if one is named, a mark for the turn.
pub(crate) fn with_comment(
    alloc: Global,
    node: &SgfNode,
    mark: Option<&[u8]>,
    text: &str,
) -> Result<SgfNode, AllocError>
    ensures { IfOk result (IsLabelled text.now) }
{
    let mut properties = copy_properties(alloc, node.as_slice())?;
    if let Some(name) = mark {
        properties.push(single(alloc, name, b"1")?)?;
    }
    properties.push(single(alloc, b"C", text.as_bytes())?)?;
    match SgfNode::new(properties) {
        Some(node) => Ok(node),
        None => Err(AllocError),
    }
}

/// The tree of one node.
fn single_node(alloc: Global, node: SgfNode) -> Result<Tree, AllocError>
    ensures { IfOk result (λ tree. tree.nodes ≡ node ∷ []) }
{
    let mut nodes = Vec::new(alloc);
    nodes.push(node)?;
    tree_with(nodes, Vec::new(alloc))
}

/// The tree of these nodes and child trees.
pub(crate) fn tree_with(nodes: Vec<SgfNode>, children: Vec<Tree>) -> Result<Tree, AllocError>
    ensures { IfOk result (λ tree. tree.nodes ≡ nodes.items) }
{
    match Tree::new(nodes, children) {
        Some(tree) => Ok(tree),
        None => Err(AllocError),
    }
}

/// The node, and below it the answer tree of the claim without its first `skipped` nodes. If the tree is too large for what is
/// left, only the node.
fn tree_of_claim(
    alloc: Global,
    checked: &Checked,
    skipped: usize,
    first: SgfNode,
    left: &mut usize,
) -> Result<Tree, AllocError>
    ensures { IfOk result (λ tree. (later : List Node) × (tree.nodes ≡ first ∷ later)) }
{
    let answer = match expand(alloc, checked, *left) {
        Ok(answer) => answer,
        Err(Expand::TooLarge) => return single_node(alloc, first),
        Err(Expand::Memory) => return Err(AllocError),
    };
    *left = left.saturating_sub(answer.size().unwrap_or(0));
    let whole = to_sgf(alloc, checked, &answer)?;
    let mut nodes = Vec::new(alloc);
    nodes.push(first)?;
    let from = first_below(whole.nodes(), skipped);
    push_nodes(alloc, &whole.nodes()[from..], &mut nodes)?;
    let mut children = Vec::new(alloc);
    push_trees(alloc, whole.children(), &mut children)?;
    tree_with(nodes, children)
}

/// The branch of a right turn by the lines of a short claim, with this comment at its first node. `None` if the claim's own tree is
/// not large or no short claim is found.
fn read_out(
    alloc: Global,
    problem: &Problem,
    one: &Found,
    checked: &Checked,
    text: &str,
    short: Option<Budget>,
    left: &mut usize,
) -> Result<Option<Tree>, AllocError>
    ensures { IfOk result (λ o. IfSome o (HasLabel text.now)) }
{
    let Some(budget) = short else {
        return Ok(None);
    };
    match expand(alloc, checked, MAX_PLAYED_OUT.min(*left)) {
        Ok(_) => return Ok(None),
        Err(Expand::TooLarge) => {}
        Err(Expand::Memory) => return Err(AllocError),
    }
    match reading_by(alloc, problem, one.turn, budget, left)? {
        Some(whole) => Ok(Some(read_branch(alloc, &whole, text)?)),
        None => Ok(None),
    }
}

/// The branch of the record's first turn, with this comment before the turn's own.
fn read_branch(alloc: Global, whole: &Tree, text: &str) -> Result<Tree, AllocError>
    ensures { IfOk result (HasLabel text.now) }
{
    let from = first_below(whole.nodes(), 0);
    let Some((first, later)) = whole.nodes()[from..].split_first() else {
        // No record is without a turn.
        return Err(AllocError);
    };
    let mut nodes = Vec::new(alloc);
    nodes.push(right_node(alloc, first, text)?)?;
    push_nodes(alloc, later, &mut nodes)?;
    let mut children = Vec::new(alloc);
    push_trees(alloc, whole.children(), &mut children)?;
    tree_with(nodes, children)
}

/// The node as that of a right turn, with this comment before its own.
fn right_node(alloc: Global, node: &SgfNode, text: &str) -> Result<SgfNode, AllocError>
    ensures { IfOk result (IsLabelled text.now) }
{
    let mut properties = copy_properties(alloc, node.as_slice())?;
    properties.retain(|property| property.ident.as_slice() != b"C".as_slice());
    properties.push(single(alloc, b"TE", b"1")?)?;
    let comment = comment_after(alloc, node, text)?;
    properties.push(single(alloc, b"C", comment.as_slice())?)?;
    match SgfNode::new(properties) {
        Some(node) => Ok(node),
        None => Err(AllocError),
    }
}

/// The text, and on the next lines the node's own comment if it has one.
fn comment_after(alloc: Global, node: &SgfNode, text: &str) -> Result<Vec<u8>, AllocError>
    ensures { IfOk result (λ v. (rest : List ℕ) × (v.items ≡ text.now ++ rest)) }
{
    let mut comment = text.as_bytes().to_vec(alloc)?;
    if let Some(own) = values_at(b"C", node).first() {
        comment.push(b'\n')?;
        comment.extend_from_slice(own.as_slice())?;
    }
    Ok(comment)
}

/// The place after the problem node and this many more nodes.
fn first_below(nodes: &[SgfNode], skipped: usize) -> usize
    ensures { result ≤ length nodes.now }
{
    match first_marked(nodes) {
        Some(at) => nodes
            .len()
            .min(at.saturating_add(1).saturating_add(skipped)),
        None => nodes.len(),
    }
}
