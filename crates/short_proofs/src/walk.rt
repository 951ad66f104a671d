//! The walk over a short claim: which turns a reader is shown, in the order of the record.
//!
//! It has a stack of its own, so no line of play is too long. A lemma is written out where it comes first. Where it comes again,
//! the reader is sent there, unless an earlier position barred a reply there: that reply may be legal here.

use crate::eyes::life_in;
use crate::shown::{Note, Shown, mark_cut, push_turn, set_note};
use go_points::Turn;
use proof_cert::{Certificate, Lemma, Node};
use state_proofs::Play;
use std::alloc::{AllocError, Global};
use target_game::Problem;

/// The replies at a state of the line of play that are still to come, and the number of the node above them.
#[derive(Clone, Copy)]
struct Waiting<'a> {
    replies: &'a [(Turn, Node)],
    parent: usize,
}

/// Appends the nodes below the problem's, of at most `most` turns and one more. Returns whether these are all.
pub(crate) fn is_shown(
    alloc: Global,
    problem: &Problem,
    certificate: &Certificate,
    most: usize,
    shown: &mut Vec<Shown>,
) -> Result<bool, AllocError> {
    let lemmas = certificate.lemmas.as_slice();
    let mut play = Play::of(alloc, problem)?;
    let mut places = no_places(alloc, lemmas.len())?;
    let mut waiting = Vec::new(alloc);
    let mut node = &certificate.main;
    for _ in 0..=most {
        let part = body_at(problem, lemmas, node, &play, shown, &mut places);
        let found = match part {
            Some(part) => open(part, &mut play, shown, &mut waiting)?,
            None => go_on(&mut play, shown, &mut waiting)?,
        };
        let Some(below) = found else {
            return Ok(true);
        };
        node = below;
    }
    Ok(false)
}

/// No lemma has been written out.
fn no_places(alloc: Global, lemmas: usize) -> Result<Vec<Option<usize>>, AllocError> {
    let mut places = Vec::new(alloc);
    for _ in 0..lemmas {
        places.push(None)?;
    }
    Ok(places)
}

/// The tree that is written out below the last node: the claim's, or the body of the lemma that it uses. `None` if nothing comes
/// below, and then the node's note says why.
fn body_at<'a>(
    problem: &Problem,
    lemmas: &'a [Lemma],
    node: &'a Node,
    play: &Play,
    shown: &mut Vec<Shown>,
    places: &mut Vec<Option<usize>>,
) -> Option<&'a Node> {
    let at = shown.len().checked_sub(1)?;
    let mut part = node;
    for _ in 0..=lemmas.len() {
        match part {
            Node::Won => return None,
            Node::Play(_, _) => return Some(part),
            Node::All(_) => return Some(part),
            Node::Use(number) => {
                let Some(lemma) = (*number as usize).checked_sub(1) else {
                    set_note(shown, life_in(problem, &play.colouring()));
                    return None;
                };
                if let Some(place) = whole_place(shown, places, lemma) {
                    set_note(shown, Note::Again(place));
                    return None;
                }
                part = &lemmas.get(lemma)?.body;
                set_place(places, lemma, at);
            }
        }
    }
    None
}

/// The lemma is written out at this node.
fn set_place(places: &mut Vec<Option<usize>>, lemma: usize, at: usize) {
    if lemma < places.len() {
        places[lemma] = Some(at);
    }
}

/// The node at which the lemma was written out, with no reply left out.
fn whole_place(shown: &[Shown], places: &[Option<usize>], lemma: usize) -> Option<usize> {
    let place = places.get(lemma).copied()??;
    if shown.get(place)?.is_cut {
        return None;
    }
    Some(place)
}

/// Makes the first turn of the tree, and returns the tree below it. If there is none, goes on elsewhere.
fn open<'a>(
    part: &'a Node,
    play: &mut Play,
    shown: &mut Vec<Shown>,
    waiting: &mut Vec<Waiting<'a>>,
) -> Result<Option<&'a Node>, AllocError> {
    let parent = shown.len().saturating_sub(1);
    let found = match part {
        Node::Play(turn, below) => {
            let below: &Node = below;
            if make(*turn, &[], parent, play, shown, waiting)? {
                Some(below)
            } else {
                None
            }
        }
        Node::All(replies) => make_next(replies.as_slice(), parent, play, shown, waiting)?,
        Node::Won => None,
        Node::Use(_) => None,
    };
    if found.is_some() {
        return Ok(found);
    }
    go_on(play, shown, waiting)
}

/// Makes the turn below this node if it is legal, with these replies still to come there. Returns whether it was made.
fn make<'a>(
    turn: Turn,
    later: &'a [(Turn, Node)],
    parent: usize,
    play: &mut Play,
    shown: &mut Vec<Shown>,
    waiting: &mut Vec<Waiting<'a>>,
) -> Result<bool, AllocError> {
    let colour = play.key().mover;
    let same = turn;
    if !play.go(same)? {
        return Ok(false);
    }
    push_turn(shown, parent, colour, turn)?;
    waiting.push(Waiting {
        replies: later,
        parent,
    })?;
    Ok(true)
}

/// Makes the first of the replies that is legal, and returns its tree. `None` if none is.
fn make_next<'a>(
    replies: &'a [(Turn, Node)],
    parent: usize,
    play: &mut Play,
    shown: &mut Vec<Shown>,
    waiting: &mut Vec<Waiting<'a>>,
) -> Result<Option<&'a Node>, AllocError> {
    let mut left = replies;
    for _ in 0..replies.len() {
        let Some((reply, later)) = left.split_first() else {
            return Ok(None);
        };
        if make(reply.0, later, parent, play, shown, waiting)? {
            return Ok(Some(&reply.1));
        }
        mark_cut(shown, parent);
        left = later;
    }
    Ok(None)
}

/// Makes the next of the replies that are still to come, at the latest state that has one, and returns its tree. `None` if all have
/// been made.
fn go_on<'a>(
    play: &mut Play,
    shown: &mut Vec<Shown>,
    waiting: &mut Vec<Waiting<'a>>,
) -> Result<Option<&'a Node>, AllocError> {
    for _ in 0..=waiting.len() {
        let Some(last) = waiting.pop() else {
            return Ok(None);
        };
        play.back();
        if let Some(below) = make_next(last.replies, last.parent, play, shown, waiting)? {
            return Ok(Some(below));
        }
    }
    Ok(None)
}
