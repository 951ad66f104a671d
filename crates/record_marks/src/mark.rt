//! A record with the marks of a problem.

ghost use Rattle.std.specs.Prelude.{◌≡◌, ◌++◌, ◌∷◌, [], ◌<◌, IfOk, OnOk, map, length};
ghost use Rattle.sgf_text.specs.Nodes.{without};
ghost use Rattle.sgf_text.specs.Trees.{tree_of};
ghost use Rattle.tsumego_problem.specs.Walk.{has_turn};
ghost use Rattle.record_marks.specs.Marked.{unmarked, marked_here, marked_nodes, marked, unplayed};

use sgf_text::{Property, SgfNode, Tree};
use std::alloc::{AllocError, Global};
use tool_parts::{copy_node, copy_property, push_nodes, push_trees};
use tsumego_problem::{has_setup, values_at};

/// Why no record was made.
#[derive(Clone, Copy, Debug, PartialEq, Eq)]
pub(crate) enum NoMark {
    /// The main line has no node with this number.
    OffTheLine,
    /// The marks and the node's properties do not make a node together: a value has a bracket or ends in a backslash.
    NoNode,
    Memory,
}

impl From<AllocError> for NoMark {
    fn from(_: AllocError) -> NoMark {
        NoMark::Memory
    }
}

/// Appends the properties of the list except those with this name.
fn push_without(
    alloc: Global,
    name: &[u8],
    properties: &[Property],
    into: &mut Vec<Property>,
) -> Result<(), AllocError>
    ensures { OnOk result (into.new.items ≡ into.old.items ++ without name.now properties.now) }
{
    for i in 0..properties.len() {
        if name != properties[i].ident.as_slice() {
            into.push(copy_property(alloc, &properties[i])?)?;
        }
    }
    Ok(())
}

/// The properties of the node except TR and SQ.
fn unmarked_properties(alloc: Global, node: &SgfNode) -> Result<Vec<Property>, AllocError>
    ensures { IfOk result (λ properties. properties.items ≡ unmarked node.now) }
{
    let mut first = Vec::new(alloc);
    push_without(alloc, b"SQ", node.as_slice(), &mut first)?;
    let mut both = Vec::new(alloc);
    push_without(alloc, b"TR", first.as_slice(), &mut both)?;
    Ok(both)
}

/// The node of these properties.
fn node_with(properties: Vec<Property>) -> Result<SgfNode, NoMark>
    ensures { IfOk result (λ node. node ≡ properties.items) }
{
    match SgfNode::new(properties) {
        Some(node) => Ok(node),
        None => Err(NoMark::NoNode),
    }
}

/// Appends the node.
fn push_node(node: SgfNode, into: &mut Vec<SgfNode>) -> Result<(), NoMark>
    ensures { OnOk result (into.new.items ≡ into.old.items ++ node ∷ []) }
{
    match into.push(node) {
        Ok(()) => Ok(()),
        Err(_) => Err(NoMark::Memory),
    }
}

/// Appends the nodes without their TR and SQ.
fn push_unmarked(alloc: Global, nodes: &[SgfNode], into: &mut Vec<SgfNode>) -> Result<(), NoMark>
    ensures { OnOk result (into.new.items ≡ into.old.items ++ map unmarked nodes.now) }
{
    for i in 0..nodes.len() {
        let node = node_with(unmarked_properties(alloc, &nodes[i])?)?;
        push_node(node, into)?;
    }
    Ok(())
}

/// Whether the node has B or W.
fn has_turn(node: &SgfNode) -> bool
    ensures { result ≡ has_turn node.now }
{
    !values_at(b"B", node).is_empty() || !values_at(b"W", node).is_empty()
}

/// The properties without PL, if the marks have it.
fn unplayed(
    alloc: Global,
    properties: Vec<Property>,
    marks: &SgfNode,
) -> Result<Vec<Property>, AllocError>
    ensures { IfOk result (λ kept. kept.items ≡ unplayed marks.now properties.items) }
{
    if values_at(b"PL", marks).is_empty() {
        return Ok(properties);
    }
    let mut kept = Vec::new(alloc);
    push_without(alloc, b"PL", properties.as_slice(), &mut kept)?;
    Ok(kept)
}

/// Appends the node with the marks, which replace its own PL; or, if it has a turn or the marks place stones, the node and then the
/// marks.
fn push_marked(
    alloc: Global,
    node: &SgfNode,
    marks: &SgfNode,
    into: &mut Vec<SgfNode>,
) -> Result<(), NoMark>
    ensures { OnOk result (into.new.items ≡ into.old.items ++ marked_here marks.now node.now) }
{
    let properties = unmarked_properties(alloc, node)?;
    if has_turn(node) || has_setup(marks) {
        push_node(node_with(properties)?, into)?;
        return push_node(copy_node(alloc, marks)?, into);
    }
    let mut both = unplayed(alloc, properties, marks)?;
    push_properties(alloc, marks.as_slice(), &mut both)?;
    push_node(node_with(both)?, into)
}

/// Appends the properties.
pub(crate) fn push_properties(
    alloc: Global,
    properties: &[Property],
    into: &mut Vec<Property>,
) -> Result<(), AllocError>
    ensures { OnOk result (into.new.items ≡ into.old.items ++ properties.now) }
{
    for i in 0..properties.len() {
        into.push(copy_property(alloc, &properties[i])?)?;
    }
    Ok(())
}

/// The nodes of a sequence, in which the one with this number is marked.
fn mark_nodes(
    alloc: Global,
    nodes: &[SgfNode],
    place: usize,
    marks: &SgfNode,
) -> Result<Vec<SgfNode>, NoMark>
    requires { place < length nodes.now }
    ensures { IfOk result (λ made. made.items ≡ marked_nodes place marks.now nodes.now) }
{
    let mut made = Vec::new(alloc);
    push_unmarked(alloc, &nodes[..place], &mut made)?;
    push_marked(alloc, &nodes[place], marks, &mut made)?;
    push_nodes(alloc, &nodes[place + 1..], &mut made)?;
    Ok(made)
}

/// The tree of these nodes and child trees.
fn tree_with(nodes: Vec<SgfNode>, children: Vec<Tree>) -> Result<Tree, NoMark>
    ensures { IfOk result (λ tree. tree ≡ tree_of nodes.items children.items) }
{
    match Tree::new(nodes, children) {
        Some(tree) => Ok(tree),
        None => Err(NoMark::NoNode),
    }
}

/// Appends the tree.
fn push_tree(tree: Tree, into: &mut Vec<Tree>) -> Result<(), NoMark>
    ensures { OnOk result (into.new.items ≡ into.old.items ++ tree ∷ []) }
{
    match into.push(tree) {
        Ok(()) => Ok(()),
        Err(_) => Err(NoMark::Memory),
    }
}

/// The tree in which the node of the main line with this number is marked, and no node before it. Everything else stays as it is.
/// It recurses as deep as the main line's trees are nested.
pub(crate) fn mark_tree(
    alloc: Global,
    tree: &Tree,
    place: usize,
    marks: &SgfNode,
) -> Result<Tree, NoMark>
    ensures { IfOk result (λ made. made ≡ marked place marks.now tree.now) }
{
    let nodes = tree.nodes();
    let children = tree.children();
    let mut trees = Vec::new(alloc);
    if place < nodes.len() {
        let made = mark_nodes(alloc, nodes, place, marks)?;
        push_trees(alloc, children, &mut trees)?;
        return tree_with(made, trees);
    }
    if children.is_empty() {
        return Err(NoMark::OffTheLine);
    }
    let mut made = Vec::new(alloc);
    push_unmarked(alloc, nodes, &mut made)?;
    let first = mark_tree(alloc, &children[0], place - nodes.len(), marks)?;
    push_tree(first, &mut trees)?;
    push_trees(alloc, &children[1..], &mut trees)?;
    tree_with(made, trees)
}
