//! A game tree that is being read: its nodes and its child trees so far.

ghost use Rattle.std.specs.Prelude.{◌≡◌, IsTrue, OnOk};
ghost use Rattle.sgf_text.specs.OpenTrees.{bare_tree, with_node, with_child};
ghost use Rattle.sgf_text.specs.Text.{is_tree};

use crate::node::SgfNode;
use crate::tree::Tree;
use std::alloc::{AllocError, Global};
use std::marker::Model;

/// The finished part of an open tree. Contracts see it as a game tree, which may have no node yet.
#[derive(Drop)]
pub struct OpenTree {
    nodes: Vec<SgfNode>,
    children: Vec<Tree>,
}

impl Model for OpenTree {
    ghost use Rattle.sgf_text.specs.Trees.{GameTree, tree_of};
    ghost use Rattle.sgf_text.specs.Private.TreeCodes.{coded_tree};

    ghost Value = { GameTree };

    ghost coded = { coded_tree };

    ghost view = { λ t. tree_of t.nodes.items t.children.items };
}

impl OpenTree {
    pub fn new(alloc: Global) -> Self
        ensures { result ≡ bare_tree }
    {
        OpenTree {
            nodes: Vec::new(alloc),
            children: Vec::new(alloc),
        }
    }

    pub fn push_node(&mut self, node: SgfNode) -> Result<(), AllocError>
        ensures { OnOk result (self.new ≡ with_node self.old node) }
    {
        self.nodes.push(node)?;
        Ok(())
    }

    pub fn push_child(&mut self, child: Tree) -> Result<(), AllocError>
        ensures { OnOk result (self.new ≡ with_child self.old child) }
    {
        self.children.push(child)?;
        Ok(())
    }

    /// The tree that has ended.
    pub fn into_tree(self) -> Tree
        requires { IsTrue (is_tree self) }
        ensures { result ≡ self }
    {
        Tree::from_good(self.nodes, self.children)
    }
}
