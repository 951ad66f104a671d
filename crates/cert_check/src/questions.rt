//! The checks on the line of a node at a state. Each kind of node has its own.

ghost use Rattle.std.specs.Prelude.{◌≡◌, nat_eq, length, None, Some, IfOk, option_map};
ghost use Rattle.std.specs.List.{All, list_all};
ghost use Rattle.go_points.specs.Ply.{ply_of};
ghost use Rattle.target_game.specs.Left.{line_after};
ghost use Rattle.target_game.specs.Over.{over};
ghost use Rattle.cert_check.specs.Body.{is_to_move, won_fault, play_fault, head_fault, use_fault, all_fault, due_replies, is_listed, lemma_at};
ghost use Rattle.cert_check.specs.Stage.{why_value};
ghost use Rattle.cert_check.specs.Parts.{PassesOn, ordinary};

use crate::body::{Body, Head};
use crate::body_state::BodyState;
use crate::lemma_set::LemmaSet;
use crate::reject::Why;
use go_points::{Colour, Turn};
use std::alloc::AllocError;
use target_game::{PlayState, TurnsLeft};

/// Checks that the winner has won here.
pub(crate) fn won_fault(body: &Body<'_>, state: &PlayState) -> Option<Why>
    ensures { option_map (why_value state.now.state.game.size) result
        ≡ option_map Some (won_fault (ordinary body.now) state.now.state) }
{
    if state.over() == Some(body.winner()) {
        None
    } else {
        Some(Why::NotWon)
    }
}

/// Whether nobody has won and this colour is to move.
fn is_to_move(state: &PlayState, colour: Colour) -> bool
    ensures { result ≡ is_to_move colour state.now.state }
{
    state.over().is_none() && state.mover() == colour
}

/// Makes the winner's turn if nothing is wrong with it: the winner is to move, and a move is at an empty point of the region, its
/// result is not known, and in a lemma its result is on the lemma's list. The move is played only once.
pub(crate) fn make_turn(
    body: &Body<'_>,
    state: &mut BodyState,
    turn: Turn,
) -> Result<Option<Why>, AllocError>
    ensures fault { IfOk result
        (λ f. option_map (why_value state.old.state.game.size) f
        ≡ option_map Some (play_fault (ordinary body.now) state.old.state
        (ply_of state.old.state.game.size turn))) }
    ensures made { IfOk result (λ f. f ≡ None
        → state.new ≡ line_after state.old (ply_of state.old.state.game.size turn)) }
    ensures open { IfOk result (λ f. f ≡ None → over state.old.state ≡ None) }
{
    if !is_to_move(state.play(), body.winner()) {
        return Ok(Some(Why::WrongSide));
    }
    let Turn::At(point) = turn else {
        state.after(Turn::Pass)?;
        return Ok(None);
    };
    if !state.play().size().holds(point) || !state.play().is_open(point) {
        return Ok(Some(Why::TurnBarred));
    }
    if !state.try_after(Turn::At(point))? {
        return Ok(Some(Why::RepeatsKnown));
    }
    if !body.lists(&state.play().colouring()) {
        return Ok(Some(Why::NotListed));
    }
    Ok(None)
}

/// Whether the body may make each of the colourings on the lemma's list. Once this holds, it holds for the rest of the body, and is
/// remembered.
fn is_passed_on(
    body: &Body<'_>,
    passed: &mut LemmaSet,
    number: u32,
    head: &Head,
) -> Result<bool, AllocError>
    requires head { lemma_at body.now.earlier number ≡ Some head.now }
    requires passed { All (PassesOn (ordinary body.now)) passed.old }
    ensures passed { All (PassesOn (ordinary body.now)) passed.new }
    ensures value { IfOk result (λ b. b ≡ list_all (is_listed body.now.listed) head.now.absent) }
{
    // If there is nothing to compare, the answer is known.
    if !body.has_list() || head.absent().len() == 0 {
        return Ok(body.lists_all(head.absent()));
    }
    if passed.holds(number) {
        return Ok(true);
    }
    if !body.lists_all(head.absent()) {
        return Ok(false);
    }
    passed.insert(number)?;
    Ok(true)
}

/// Checks that the lemma with this number applies to the state: its root is here, the colourings that it needs are known, none of
/// those on its list is known, and in a lemma each of those on its list is on the present lemma's list.
fn head_fault(
    body: &Body<'_>,
    passed: &mut LemmaSet,
    state: &BodyState,
    number: u32,
    head: &Head,
) -> Result<Option<Why>, AllocError>
    requires head { lemma_at body.now.earlier number ≡ Some head.now }
    requires passed { All (PassesOn (ordinary body.now)) passed.old }
    ensures passed { All (PassesOn (ordinary body.now)) passed.new }
    ensures fault { IfOk result
        (λ f. option_map (why_value state.now.state.game.size) f
        ≡ option_map Some (head_fault (ordinary body.now) state.now.state (Some head.now))) }
{
    if !head.is_at(state.play()) {
        return Ok(Some(Why::StateDiffers));
    }
    if !state.knows_all(head.had()) {
        return Ok(Some(Why::NeededNotOccurred));
    }
    if !state.knows_none(head.absent()) {
        return Ok(Some(Why::ListedOccurred));
    }
    if !is_passed_on(body, passed, number, head)? {
        return Ok(Some(Why::ListedNotPassedOn));
    }
    Ok(None)
}

/// Checks that an earlier lemma has the number, and that it applies to the state.
pub(crate) fn use_fault(
    body: &Body<'_>,
    passed: &mut LemmaSet,
    state: &BodyState,
    number: u32,
) -> Result<Option<Why>, AllocError>
    requires passed { All (PassesOn (ordinary body.now)) passed.old }
    ensures passed { All (PassesOn (ordinary body.now)) passed.new }
    ensures fault { IfOk result
        (λ f. option_map (why_value state.now.state.game.size) f
        ≡ option_map Some (use_fault (ordinary body.now) state.now.state number)) }
{
    match body.lemma(number) {
        Some(head) => head_fault(body, passed, state, number, head),
        None => Ok(Some(Why::LemmaNotLower)),
    }
}

/// Whether exactly this many turns are legal.
fn has_turns(state: &PlayState, count: u32) -> bool
    ensures { result ≡ nat_eq count (length (due_replies state.now.state)) }
{
    let mut left = TurnsLeft::all();
    for taken in 0..count {
        if state.next_left(&mut left).is_none() {
            return false;
        }
    }
    state.next_left(&mut left).is_none()
}

/// Checks that the other side is to move, and that this many replies are due.
pub(crate) fn all_fault(body: &Body<'_>, state: &PlayState, replies: u32) -> Option<Why>
    ensures { option_map (why_value state.now.state.game.size) result
        ≡ option_map Some (all_fault (ordinary body.now) state.now.state replies) }
{
    if !is_to_move(state, body.winner().opponent()) {
        return Some(Why::WrongSide);
    }
    if !has_turns(state, replies) {
        return Some(Why::RepliesDiffer { due: Turn::Pass });
    }
    None
}
