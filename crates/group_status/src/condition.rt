//! What a proof depends on: stones that are only supposed to have liberties elsewhere.

ghost use Rattle.std.specs.Prelude.{◌≡◌, IfOk, string_bytes};
ghost use Rattle.group_status.specs.Lines.{condition_by_move, condition_of_claim};
ghost use Rattle.group_status.specs.Names.{condition_text, have_text, killer_text, stones_text};

use crate::names::point_names;
use go_points::{Colour, PointSet, Size};
use proved_groups::{Proven, ProvenByMove};
use std::alloc::{AllocError, Global};

/// On which stones the proof depends that they have liberties elsewhere, if on any.
pub(crate) fn condition_of(alloc: Global, size: Size, proven: &Proven) -> Result<String, AllocError>
    ensures { IfOk result (λ text. string_bytes text ≡ condition_of_claim size proven.now.claim) }
{
    let owner = proven.problem().defender();
    condition_text(alloc, size, owner, &proven.supposed())
}

/// The same of a proof that begins with a first move.
pub(crate) fn condition_by_move(
    alloc: Global,
    size: Size,
    proven: &ProvenByMove,
) -> Result<String, AllocError>
    ensures { IfOk result (λ text. string_bytes text ≡ condition_by_move size proven.now.claim) }
{
    let owner = proven.problem().defender();
    condition_text(alloc, size, owner, &proven.supposed())
}

/// What stands after the word `proved` for stones of this owner: nothing if nothing is supposed, else that these stones, which are of
/// the other side, have liberties elsewhere.
fn condition_text(
    alloc: Global,
    size: Size,
    owner: Colour,
    supposed: &PointSet,
) -> Result<String, AllocError>
    ensures { IfOk result
        (λ text. string_bytes text ≡ condition_text size owner supposed.now) }
{
    if supposed.is_empty() {
        return Ok(String::new(alloc));
    }
    let names = point_names(alloc, size, supposed)?;
    let killer = killer_name(owner);
    let stones = stones_word(supposed);
    let have = have_word(supposed);
    format!(in alloc; ", as long as the {killer} {stones} at {names} {have} liberties elsewhere")
}

/// The side that takes the owner's stones, within a sentence.
fn killer_name(owner: Colour) -> &'static str
    ensures { result.now ≡ killer_text owner }
{
    match owner {
        Colour::Black => "white",
        Colour::White => "black",
    }
}

fn stones_word(stones: &PointSet) -> &'static str
    ensures { result.now ≡ stones_text stones.now }
{
    if stones.len() == 1 { "stone" } else { "stones" }
}

fn have_word(stones: &PointSet) -> &'static str
    ensures { result.now ≡ have_text stones.now }
{
    if stones.len() == 1 { "has" } else { "have" }
}
