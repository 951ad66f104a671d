//! Audits of records that are as long, or as deep, as a record may be.

use crate::deep::{TURNS, first_turn, make, turn_of};
use crate::expect::expect_that;
use go_points::{Colour, Turn, to_sgf};
use sgf_text::read_tree;
use solution_tree::{AuditFault, AuditWhy, audit};
use std::alloc::Global;
use std::process::Abort;
use target_game::{PlayState, Problem};
use tsumego_problem::{problem_node, read_problem};

// The audit of the first record of the text.
fn audited(alloc: Global, rt: &impl Abort, text: &[u8]) -> Result<Colour, AuditFault> {
    let (tree, _end) = read_tree(alloc, text).expect(rt, "a tree");
    let problem = read_problem(alloc, &tree).expect(rt, "a problem");
    expect_that(rt, problem_node(&tree).is_some());
    audit(alloc, &problem, &tree)
}

// A front and n copies of a piece after it.
fn repeated(rt: &impl Abort, alloc: Global, front: &[u8], piece: &[u8], n: usize) -> Vec<u8> {
    let mut text = front.to_vec(alloc).expect(rt, "memory");
    for _ in 0..n {
        text.extend_from_slice(piece).expect(rt, "memory");
    }
    text
}

fn at(node: usize, why: AuditWhy) -> Result<Colour, AuditFault> {
    Err(AuditFault { node, why })
}

// A capture: a black stone beside a white one, which Black takes at ba. The problem node has the number 1.
const CAPTURE: &[u8] = b"(;FF[4]GM[1]SZ[3]AB[ab]AW[aa];PL[B]TR[aa]SQ[ba]";

// Whether the fault of the record is a turn after the end, at the node with the number 4.
fn ends_before_four(alloc: Global, rt: &impl Abort, text: &[u8]) -> bool {
    audited(alloc, rt, text) == at(4, AuditWhy::AfterTheEnd)
}

#[test]
fn stops_early_in_long_trees(rt: HostRuntime) {
    let alloc = rt.alloc();
    let front = repeated(&rt, alloc, CAPTURE, b";B[];W[]", 49_999);
    let text = repeated(&rt, alloc, front.as_slice(), b")", 1);
    expect_that(&rt, ends_before_four(alloc, &rt, text.as_slice()));
}

#[test]
fn stops_early_in_deep_trees(rt: HostRuntime) {
    let alloc = rt.alloc();
    let front = repeated(&rt, alloc, CAPTURE, b"(;B[](;W[]", 499);
    let text = repeated(&rt, alloc, front.as_slice(), b")", 999);
    expect_that(&rt, ends_before_four(alloc, &rt, text.as_slice()));
}

// How many turns of black are made: each takes two nested trees with the reply, of the 1,000 that a record may have.
const MADE: usize = 498;

// Two black targets that nobody can take, since they share an eye where nobody may move.
const WIDE: &[u8] = b"(;FF[4]GM[1]SZ[6]PL[B]AB[ba][ab]TR[ba][ab]SQ[ca:fa][bb:fb][ac:ff]";

fn add_turn(text: &mut Vec<u8>, rt: &impl Abort, word: &[u8], turn: Turn) {
    text.extend_from_slice(word).expect(rt, "memory");
    if let Turn::At(point) = turn {
        text.extend_from_slice(&to_sgf(point)).expect(rt, "memory");
    }
    text.push(b']').expect(rt, "memory");
}

// The other legal turns of white, each in a tree in which nothing follows; and the end of the tree that they are in.
fn other_replies(alloc: Global, rt: &impl Abort, state: &PlayState, given: Turn) -> Vec<u8> {
    let mut text = Vec::new(alloc);
    text.push(b')').expect(rt, "memory");
    let all = state.turns();
    for turn in all.as_slice() {
        if *turn != given {
            add_turn(&mut text, rt, b"(;W[", *turn);
            text.push(b')').expect(rt, "memory");
        }
    }
    text.push(b')').expect(rt, "memory");
    text
}

// Adds a turn of black and a reply, each in a tree within the one before. The brackets that close the two trees come later.
fn go_down(
    alloc: Global,
    rt: &impl Abort,
    text: &mut Vec<u8>,
    state: &mut PlayState,
    turn: Turn,
) -> Vec<u8> {
    let made = turn;
    add_turn(text, rt, b"(;B[", turn);
    make(rt, state, made);
    let reply = first_turn(state);
    let given = reply;
    let named = reply;
    let end = other_replies(alloc, rt, state, reply);
    add_turn(text, rt, b"(;W[", named);
    make(rt, state, given);
    end
}

// Adds a pass of black and one of white, which end the game, with the trees of the other replies.
fn end_play(alloc: Global, rt: &impl Abort, text: &mut Vec<u8>, state: &mut PlayState) {
    text.extend_from_slice(b"(;B[](;W[]").expect(rt, "memory");
    make(rt, state, Turn::Pass);
    let end = other_replies(alloc, rt, state, Turn::Pass);
    text.extend_from_slice(end.as_slice()).expect(rt, "memory");
}

// The record. Its first line goes down to the end of play, and beside each of its replies are the other replies, unanswered.
fn record_of(alloc: Global, rt: &impl Abort, problem: &Problem) -> Vec<u8> {
    let mut state = PlayState::of(alloc, problem).expect(rt, "memory");
    let size = state.size();
    let mut text = WIDE.to_vec(alloc).expect(rt, "memory");
    let mut ends: Vec<Vec<u8>> = Vec::new(alloc);
    for turns in TURNS {
        for code in turns.as_bytes() {
            if ends.len() < MADE {
                ends.push(go_down(alloc, rt, &mut text, &mut state, turn_of(size, *code)))
                    .expect(rt, "memory");
            }
        }
    }
    end_play(alloc, rt, &mut text, &mut state);
    let ends = ends.as_slice();
    for place in 0..ends.len() {
        text.extend_from_slice(ends[ends.len() - 1 - place].as_slice())
            .expect(rt, "memory");
    }
    text.push(b')').expect(rt, "memory");
    text
}

// The first line has 998 turns below the root, and the node after the last of them is a reply that black has no answer to.
fn is_left_off(alloc: Global, rt: &impl Abort, text: &[u8]) -> bool {
    audited(alloc, rt, text) == at(999, AuditWhy::NotWon)
}

#[test]
fn goes_down_to_the_depth_of_a_record(rt: HostRuntime) {
    let alloc = rt.alloc();
    let front = repeated(&rt, alloc, WIDE, b")", 1);
    let (tree, _end) = read_tree(alloc, front.as_slice()).expect(&rt, "a tree");
    let problem = read_problem(alloc, &tree).expect(&rt, "a problem");
    let text = record_of(alloc, &rt, &problem);
    expect_that(&rt, is_left_off(alloc, &rt, text.as_slice()));
}
