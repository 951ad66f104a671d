//! The main line of a tree, and what its nodes hold.

ghost use Rattle.std.specs.Prelude.{◌≡◌, ◌+◌, IfSome, IsTrue, Some, is_some, option_and_then, position};
ghost use Rattle.sgf_text.specs.Nodes.{values_at};
ghost use Rattle.sgf_text.specs.Text.{is_forest};
ghost use Rattle.sgf_text.specs.Trees.{forest_of};
ghost use Rattle.tsumego_problem.specs.Below.{below_problem, children_of};
ghost use Rattle.tsumego_problem.specs.Walk.{has, has_setup, has_turn, is_marked, problem_node, usize_of};

use sgf_text::{Bytes, SgfNode, Tree};

/// The values of the property with this name. There are none if the node does not have it.
pub fn values_at<'a>(name: &[u8], node: &'a SgfNode) -> &'a [Bytes]
    ensures { result.now ≡ values_at name.now node.now }
{
    for property in node.as_slice() {
        if name == property.ident.as_slice() {
            return property.values.as_slice();
        }
    }
    &[]
}

/// Whether the node has a property with this name.
pub(crate) fn has(name: &[u8], node: &SgfNode) -> bool
    ensures { result ≡ has name.now node.now }
{
    !values_at(name, node).is_empty()
}

/// Whether the node has TR or SQ.
pub(crate) fn is_marked(node: &SgfNode) -> bool
    ensures { result ≡ is_marked node.now }
{
    has(b"TR", node) || has(b"SQ", node)
}

/// Whether the node has AB, AW or AE (SGF FF[4], "Setup properties").
pub fn has_setup(node: &SgfNode) -> bool
    ensures { result ≡ has_setup node.now }
{
    has(b"AB", node) || has(b"AW", node) || has(b"AE", node)
}

/// Whether the node has B or W.
pub(crate) fn has_turn(node: &SgfNode) -> bool
    ensures { result ≡ has_turn node.now }
{
    has(b"B", node) || has(b"W", node)
}

/// The place of the first of these nodes that has TR or SQ, or `None` if no node has. On the main line that is the problem node
/// (this project's own).
pub fn first_marked(nodes: &[SgfNode]) -> Option<usize>
    ensures { result ≡ position is_marked nodes.now }
{
    nodes.iter().position(|node| is_marked(node))
}

/// A problem node and where it is.
#[derive(Clone, Copy)]
pub struct Mark<'a> {
    /// Its number on the main line. `None` if that is more than a `usize` can hold.
    pub number: Option<usize>,
    /// The nodes after it in its sequence.
    pub nodes: &'a [SgfNode],
    /// The child trees of that sequence.
    pub children: &'a [Tree],
}

/// The number plus `more`, if a `usize` can hold it.
fn add(number: Option<usize>, more: usize) -> Option<usize>
    ensures { result ≡ option_and_then (λ n. usize_of (n + more)) number }
{
    number?.checked_add(more)
}

/// The problem node, the first node of the main line that has TR or SQ. `None` if there is none.
pub fn locate<'a>(tree: &'a Tree) -> Option<Mark<'a>>
    ensures found { is_some result ≡ is_some (problem_node tree.now) }
    ensures number { IfSome result
        (λ m. m.number ≡ option_and_then usize_of (problem_node tree.now)) }
    ensures below { IfSome result
        (λ m. below_problem tree.now ≡ Some (children_of m.nodes.now (forest_of m.children.now))) }
    ensures forest { IfSome result (λ m. IsTrue (is_forest (forest_of m.children.now))) }
{
    let mut part = tree;
    let mut before = Some(0);
    loop {
        let nodes = part.nodes();
        let children = part.children();
        if let Some(at) = first_marked(nodes) {
            let number = add(before, at);
            let nodes = &nodes[at + 1..];
            return Some(Mark {
                number,
                nodes,
                children,
            });
        }
        before = add(before, nodes.len());
        part = children.first()?;
    }
}

/// The number of the problem node, which is the first node of the main line that has TR or SQ. `None` if there is none, or if its
/// number is more than a `usize` can hold.
pub fn problem_node(tree: &Tree) -> Option<usize>
    ensures { result ≡ option_and_then usize_of (problem_node tree.now) }
{
    locate(tree)?.number
}
