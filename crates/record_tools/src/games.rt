//! The game trees of a collection.

ghost use Rattle.std.specs.Prelude.{IfOk};
ghost use Rattle.record_tools.specs.Games.{IsGame};
ghost use Rattle.sgf_text.specs.Grammar.{Reads};

use crate::parts::{first_tree, part_length, text_after};
use sgf_text::{SgfFault, Tree, read_tree};
use std::alloc::Global;

/// The game tree with this number, counted from 0. Each tree is looked for after the end of the one before (SGF FF[4], Collection).
/// The fault is that of the first tree that cannot be read; after the last tree it is `NoTree`.
pub(crate) fn game(alloc: Global, text: &[u8], number: usize) -> Result<Tree, SgfFault>
    ensures { IfOk result (λ tree. IsGame number text.now tree) }
{
    let mut rest = text;
    for passed in 0..number {
        let (_tree, end) = whole_tree(alloc, rest)?;
        if rest.len() < end {
            return Err(SgfFault::NoTree);
        }
        rest = text_after(rest, end);
    }
    let (tree, _end) = whole_tree(alloc, rest)?;
    Ok(tree)
}

/// The first game tree, and where it ends. If it was cut off and took the next game for a part of itself, the place of the fault is
/// where that game begins.
fn whole_tree(alloc: Global, text: &[u8]) -> Result<(Tree, usize), SgfFault>
    ensures found { IfOk result (λ r. Reads text.now r.0 r.1) }
{
    let (tree, end) = read_tree(alloc, text)?;
    let begin = first_tree(text);
    if begin < end && end <= text.len() {
        let place = begin.saturating_add(part_length(&text[begin..end]));
        if place < end {
            return Err(SgfFault::Syntax { at: place });
        }
    }
    Ok((tree, end))
}
