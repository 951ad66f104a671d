//! Which node of a record is asked about.

use clap::Arg;
use clap::builder::ValueParser;
use sgf_text::{SgfNode, Tree};
use std::alloc::Global;
use tsumego_problem::{has_setup, values_at};

/// The greatest number that words may give to a node or a game: more than a record may have.
pub const MAX_NODE_NUMBER: u64 = 1_000_000;

/// The argument of a command line that names the node: `default_node` says which it is without.
pub fn node_argument<'a>(alloc: Global) -> Arg<'a> {
    Arg::new(alloc, "node")
        .help(
            "The node of the main line, from 0 [default: the root where it sets up a problem, else the last]",
        )
        .long("node")
        .value_name("N")
        .value_parser(ValueParser::unsigned(0, MAX_NODE_NUMBER))
}

/// The number of the main line's last node.
pub fn last_node(tree: &Tree) -> usize {
    let mut part = tree;
    let mut count: usize = 0;
    loop {
        count = count.saturating_add(part.nodes().len());
        let Some(child) = part.children().first() else {
            return count.saturating_sub(1);
        };
        part = child;
    }
}

/// Whether the node gives a handicap of two stones or more (SGF FF[4], HA of Go), so that a game begins there.
fn gives_handicap(node: &SgfNode) -> bool {
    match values_at(b"HA", node).first() {
        Some(value) => !matches!(value.as_slice(), b"0" | b"1"),
        None => false,
    }
}

/// The number of the node that is asked about if none is named: the root if it sets up stones and gives no handicap, as a problem's
/// does, otherwise the last node of the main line.
pub fn default_node(tree: &Tree) -> usize {
    let root = &tree.nodes()[0];
    if has_setup(root) && !gives_handicap(root) {
        return 0;
    }
    last_node(tree)
}
