//! The open trees of a text that is being read, byte by byte.
//!
//! The trees are on a stack of their own, which the limit on depth bounds, so reading does not recurse.

ghost use Rattle.std.specs.Prelude.{◌≡◌, ◌+◌, IsTrue, OnOk, IfOk, ◌<◌};
ghost use Rattle.sgf_text.specs.Bytes.{sign_of};
ghost use Rattle.sgf_text.specs.Followers.{transition, node_limit};
ghost use Rattle.sgf_text.specs.OpenTrees.{Steps, IsSound, at_start, led, can_close, opened_in, begun_in, ClosesTo, node_ended, property_ended, ident_ended, value_ended};

use crate::bytes::Bytes;
use crate::fault::SgfFault;
use crate::followers::{ParserState, Sign, Transition, follow, sign_of};
use crate::open_node::OpenNode;
use crate::open_tree::OpenTree;
use crate::tree::Tree;
use crate::values::Values;
use std::alloc::{AllocError, Global};
use std::marker::Model;
use std::mem;

/// How many trees may be open at once.
const MOST_DEEP: usize = 1000;

/// How many nodes a text may have.
const MOST_NODES: usize = 100_000;

/// What is known of the open trees between two bytes. Contracts see it as one record.
#[derive(Drop)]
pub struct OpenTrees {
    alloc: Global,
    state: ParserState,
    word: Vec<u8>,
    ident: Bytes,
    values: Vec<Bytes>,
    node: OpenNode,
    tree: OpenTree,
    outer: Vec<OpenTree>,
    nodes: usize,
}

impl Model for OpenTrees {
    ghost use Rattle.std.specs.Prelude.{reverse};
    ghost use Rattle.std.specs.Coded.{codes};
    ghost use Rattle.sgf_text.specs.OpenTrees.{Parser};
    ghost use Rattle.sgf_text.specs.Private.TreeCodes.{coded_tree};

    ghost Value = { Parser };

    ghost coded = { Prim.hlevel (codes, coded_tree) };

    ghost view = { λ o. record {
      state = o.state;
      word = o.word.items;
      ident = o.ident;
      values = o.values.items;
      properties = o.node;
      tree = o.tree;
      outer = reverse o.outer.items;
      nodes = o.nodes;
    } };
}

impl OpenTrees {
    /// The state just after the "(" of the first tree.
    pub fn new(alloc: Global) -> Self
        ensures { result ≡ at_start }
    {
        OpenTrees {
            alloc,
            state: ParserState::AfterOpen,
            word: Vec::new(alloc),
            ident: Bytes::from_vec(Vec::new(alloc)),
            values: Vec::new(alloc),
            node: OpenNode::new(alloc),
            tree: OpenTree::new(alloc),
            outer: Vec::new(alloc),
            nodes: 0,
        }
    }

    /// Takes the byte at a place of the text. Returns the first tree if the byte ends it.
    pub fn step(&mut self, byte: u8, at: usize) -> Result<Option<Tree>, SgfFault>
        requires { IsSound self.old }
        ensures { Steps (transition self.old.state (sign_of byte)) (sign_of byte) byte at self.old result
            self.new }
    {
        let sign = sign_of(byte);
        match follow(self.state, sign) {
            Transition::Opens => {
                if self.outer.len() >= MOST_DEEP - 1 {
                    return Err(SgfFault::TooDeep);
                }
                self.open()?;
            }
            Transition::Begins => {
                if self.nodes >= MOST_NODES {
                    return Err(SgfFault::TooMany);
                }
                self.begin()?;
            }
            Transition::Closes => return Ok(self.close()?),
            Transition::To(next) => {
                self.lead(sign, byte)?;
                self.state = next;
            }
            Transition::Refused => return Err(SgfFault::Syntax { at }),
        }
        Ok(None)
    }

    fn open(&mut self) -> Result<(), AllocError>
        requires { IsSound self.old }
        ensures { OnOk result (self.new ≡ opened_in (node_ended self.old.state self.old)) }
    {
        self.end_node()?;
        let tree = mem::replace(&mut self.tree, OpenTree::new(self.alloc));
        self.outer.push(tree)?;
        self.state = ParserState::AfterOpen;
        Ok(())
    }

    fn begin(&mut self) -> Result<(), AllocError>
        requires sound { IsSound self.old }
        requires few { self.old.nodes < node_limit }
        ensures { OnOk result (self.new ≡ begun_in (node_ended self.old.state self.old)) }
    {
        self.end_node()?;
        self.nodes += 1;
        self.state = ParserState::AfterSemicolon;
        Ok(())
    }

    /// Ends the innermost tree, and returns it if it is the first.
    fn close(&mut self) -> Result<Option<Tree>, AllocError>
        requires sound { IsSound self.old }
        requires closes { IsTrue (can_close self.old.state) }
        ensures { IfOk result (λ tree. ClosesTo self.old tree self.new) }
    {
        self.end_node()?;
        let tree = mem::replace(&mut self.tree, OpenTree::new(self.alloc)).into_tree();
        let Some(mut around) = self.outer.pop() else {
            return Ok(Some(tree));
        };
        around.push_child(tree)?;
        self.tree = around;
        self.state = ParserState::AfterChild;
        Ok(None)
    }

    /// Ends the node that is open, if one is.
    fn end_node(&mut self) -> Result<(), AllocError>
        requires { IsSound self.old }
        ensures { OnOk result (self.new ≡ node_ended self.old.state self.old) }
    {
        match self.state {
            ParserState::AfterSemicolon => {}
            ParserState::AfterValue => self.end_property()?,
            _ => return Ok(()),
        }
        let node = self.node.take_node()?;
        self.tree.push_node(node)
    }

    /// Takes a byte that leads on.
    fn lead(&mut self, sign: Sign, byte: u8) -> Result<(), AllocError>
        ensures { OnOk result (self.new ≡ led self.old.state sign byte self.old) }
    {
        match (self.state, sign) {
            (ParserState::AfterValue, Sign::Upper) => {
                self.end_property()?;
                self.word.push(byte)?;
            }
            (ParserState::AfterValue, Sign::Lower) => self.end_property()?,
            (ParserState::AfterSemicolon | ParserState::InIdent(_), Sign::Upper) => self
                .word
                .push(byte)?,
            (ParserState::InIdent(_), Sign::Lower) => {}
            (ParserState::InIdent(_), _) => self.end_ident()?,
            (ParserState::InValue, Sign::CloseSquare) => self.end_value()?,
            (ParserState::InValue | ParserState::AfterBackslash, _) => self.word.push(byte)?,
            _ => {}
        }
        Ok(())
    }

    fn end_ident(&mut self) -> Result<(), AllocError>
        ensures { OnOk result (self.new ≡ ident_ended self.old) }
    {
        self.ident = Bytes::copy_from_slice(self.alloc, self.word.as_slice())?;
        self.word.clear();
        Ok(())
    }

    fn end_value(&mut self) -> Result<(), AllocError>
        ensures { OnOk result (self.new ≡ value_ended self.old) }
    {
        let value = Bytes::copy_from_slice(self.alloc, self.word.as_slice())?;
        self.word.clear();
        self.values.push(value)?;
        Ok(())
    }

    fn end_property(&mut self) -> Result<(), AllocError>
        ensures { OnOk result (self.new ≡ property_ended self.old) }
    {
        let ident = mem::replace(&mut self.ident, Bytes::from_vec(Vec::new(self.alloc)));
        let values = Values::taken_from(self.alloc, &mut self.values);
        self.node.add(ident, values)
    }
}
