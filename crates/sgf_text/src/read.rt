//! Reading the first game tree of a text.

ghost use Rattle.std.specs.Prelude.{◌≡◌, ◌≢◌, ℕ, take, IfOk, IfErr, MatchResult, Err};
ghost use Rattle.sgf_text.specs.declared.fault.SgfFault.TheVariants.{Memory};
ghost use Rattle.sgf_text.specs.Trees.{GameTree};
ghost use Rattle.sgf_text.specs.Grammar.{tree_place, Reads};
ghost use Rattle.sgf_text.specs.Followers.{outcome_of, byte_limit, cut_fault};
ghost use Rattle.sgf_text.specs.Laws.{IsWithin};

use crate::fault::SgfFault;
use crate::open_trees::OpenTrees;
use crate::token::is_white;
use crate::tree::Tree;
use std::alloc::Global;

/// How many bytes of a text are read, up to the end of its first tree.
const MOST_BYTES: usize = 1_048_576;

/// Reads the first game tree of a text, and returns it with the place after its closing bracket.
///
/// Bytes before the first "(" that is followed by ";", with or without white space between, are skipped. What follows the tree is
/// not read. The fault is the earliest in the text; its place is counted from the beginning of the text. Time and memory grow with
/// the bytes that are read.
pub fn read_tree(alloc: Global, text: &[u8]) -> Result<(Tree, usize), SgfFault>
    // The grammar spells what is read in this way.
    ensures found { IfOk result (λ r. Reads text.now r.0 r.1 × IsWithin r.0 r.1) }
    // A fault is the text's first.
    ensures fault { IfErr result (λ e. e ≢ Memory → outcome_of text.now ≡ Err e) }
    // What the grammar reads within the limits is what is read.
    ensures only { (tree : GameTree) (n : ℕ) → Reads text.now tree n → IsWithin tree n
        → MatchResult result (λ r. (r.0 ≡ tree) × (r.1 ≡ n)) (λ e. e ≡ Memory) }
{
    let seen = front(text);
    let Some(place) = tree_place(seen) else {
        return Err(SgfFault::NoTree);
    };
    let mut trees = OpenTrees::new(alloc);
    for at in place + 1..seen.len() {
        match trees.step(seen[at], at) {
            Ok(None) => {}
            Ok(Some(tree)) => return Ok((tree, at + 1)),
            Err(fault) => return Err(fault),
        }
    }
    Err(cut_fault(text))
}

/// The bytes that are read.
fn front(text: &[u8]) -> &[u8]
    ensures { result.now ≡ take byte_limit text.now }
{
    &text[..text.len().min(MOST_BYTES)]
}

/// The fault of a text that is cut off before its tree ends.
fn cut_fault(text: &[u8]) -> SgfFault
    ensures { result ≡ cut_fault text.now }
{
    if text.len() > MOST_BYTES {
        SgfFault::TooLong
    } else {
        SgfFault::Syntax { at: text.len() }
    }
}

/// The place of the first "(" that is followed by ";", with or without white space between.
fn tree_place(text: &[u8]) -> Option<usize>
    ensures { result ≡ tree_place text.now }
{
    // The last "(", while only white space has come after it.
    let mut last = None;
    for at in 0..text.len() {
        match text[at] {
            b'(' => last = Some(at),
            b';' if last.is_some() => return last,
            byte if is_white(byte) => {}
            _ => last = None,
        }
    }
    None
}
