//! Which proof of a state is found, with which past, and what is left of proofs that are not used.

use crate::expect::{expect_count, expect_optional_count, expect_that};
use go_points::{Colour, Turn};
use pn_table::Key;
use state_proofs::{Below, Branch, Form, Past, Proofs, Settled};
use std::alloc::Global;
use std::process::Abort;

fn state(position: u64) -> Settled {
    Settled {
        key: Key {
            position,
            mover: Colour::Black,
            passes: 0,
        },
        winner: Colour::Black,
        form: Form::Alive,
        is_expanded: false,
    }
}

fn found(alloc: Global, proofs: &Proofs, position: u64) -> Option<usize> {
    found_with(proofs, &Past::new(alloc), position)
}

fn found_with(proofs: &Proofs, past: &Past, position: u64) -> Option<usize> {
    let number = proofs.find(state(position).key, past, 0)?;
    Some(number as usize)
}

// One proof, of the state 7: a turn that wins at once, with what must not have occurred, and what must have.
fn one_proof(rt: &impl Abort, alloc: Global, reached: Option<u64>, barred: &[u64]) -> Proofs {
    let mut proofs = Proofs::new(alloc);
    let wins = Branch::of(Turn::Pass, Below::Won);
    expect_that(rt, proofs.add(state(7), &[wins], reached, barred).is_ok());
    proofs
}

// Expects the proof to be found, or not, if this position has occurred.
fn expect_found(rt: &impl Abort, alloc: Global, proofs: &Proofs, occurred: u64, wanted: bool) {
    let mut past = Past::new(alloc);
    expect_that(rt, past.add(occurred).is_ok());
    expect_that(rt, found_with(proofs, &past, 7).is_some() == wanted);
}

#[test]
fn the_proof_with_the_fewest_turns_is_found(rt: HostRuntime) {
    let alloc = rt.alloc();
    let mut proofs = Proofs::new(alloc);
    for turns in [5, 3, 4] {
        expect_that(&rt, proofs.add_by_shape(state(7), turns, 3).is_ok());
    }
    expect_optional_count(&rt, found(alloc, &proofs, 7), Some(1));
    expect_optional_count(&rt, found(alloc, &proofs, 8), None);
}

// Proofs are found by the upper half of the key of the position, and compared by the whole.
#[test]
fn states_that_share_half_of_a_key_are_told_apart(rt: HostRuntime) {
    let alloc = rt.alloc();
    let mut proofs = Proofs::new(alloc);
    for position in [3 << 32 | 1, 3 << 32 | 2, 4 << 32 | 1] {
        expect_that(&rt, proofs.add_by_shape(state(position), 3, 3).is_ok());
    }
    expect_optional_count(&rt, found(alloc, &proofs, 3 << 32 | 1), Some(0));
    expect_optional_count(&rt, found(alloc, &proofs, 3 << 32 | 2), Some(1));
    expect_optional_count(&rt, found(alloc, &proofs, 4 << 32 | 1), Some(2));
    expect_that(&rt, proofs.hide_from(1).is_ok());
    expect_optional_count(&rt, found(alloc, &proofs, 3 << 32 | 1), Some(0));
    expect_optional_count(&rt, found(alloc, &proofs, 3 << 32 | 2), None);
}

// Of the three proofs the last uses the first, and nobody the second.
#[test]
fn of_a_tree_that_is_kept_nothing_else_is_left(rt: HostRuntime) {
    let alloc = rt.alloc();
    let mut proofs = one_proof(&rt, alloc, Some(5), &[]);
    expect_that(&rt, proofs.add_by_shape(state(8), 5, 3).is_ok());
    let uses_the_first = Branch::of(Turn::Pass, Below::Proof(0));
    expect_that(
        &rt,
        proofs.add(state(9), &[uses_the_first], None, &[]) == Ok(2),
    );
    expect_that(&rt, proofs.keep_tree(alloc, 2) == Ok(1));
    expect_count(&rt, proofs.len(), 2);
    expect_that(&rt, proofs.turns_of(1) == 2);
    let below = match proofs.get(1) {
        Some(root) => proofs.branch(root, 0),
        None => None,
    };
    expect_that(&rt, is_above(below, 0));
    for position in [7, 8, 9] {
        expect_optional_count(&rt, found(alloc, &proofs, position), None);
    }
}

// Whether it is a branch to the proof with this number.
fn is_above(branch: Option<Branch>, number: u32) -> bool {
    match branch {
        Some(branch) => branch.below() == Below::Proof(number),
        None => false,
    }
}

#[test]
fn a_hidden_proof_is_not_found(rt: HostRuntime) {
    let alloc = rt.alloc();
    let mut proofs = Proofs::new(alloc);
    for turns in [5, 3, 4] {
        expect_that(&rt, proofs.add_by_shape(state(7), turns, 3).is_ok());
    }
    expect_that(&rt, proofs.hide_from(1).is_ok());
    expect_optional_count(&rt, found(alloc, &proofs, 7), Some(0));
    expect_that(&rt, proofs.show(1).is_ok());
    expect_optional_count(&rt, found(alloc, &proofs, 7), Some(1));
    proofs.hide_all();
    expect_optional_count(&rt, found(alloc, &proofs, 7), None);
}

// Of a result that must not have occurred only the upper half of the key is held, so the proof is not found either if a position
// with the same half has occurred.
#[test]
fn a_result_must_not_have_occurred(rt: HostRuntime) {
    let alloc = rt.alloc();
    let proofs = one_proof(&rt, alloc, Some(3 << 32 | 1), &[]);
    expect_optional_count(&rt, found(alloc, &proofs, 7), Some(0));
    expect_found(&rt, alloc, &proofs, 3 << 32 | 1, false);
    expect_found(&rt, alloc, &proofs, 3 << 32 | 2, false);
    expect_found(&rt, alloc, &proofs, 4 << 32 | 1, true);
}

// A position that must have occurred is compared whole.
#[test]
fn a_barred_position_must_have_occurred(rt: HostRuntime) {
    let alloc = rt.alloc();
    let proofs = one_proof(&rt, alloc, None, &[3 << 32 | 1]);
    expect_optional_count(&rt, found(alloc, &proofs, 7), None);
    expect_found(&rt, alloc, &proofs, 3 << 32 | 1, true);
    expect_found(&rt, alloc, &proofs, 3 << 32 | 2, false);
}

// Two positions have the same half of their keys: what the one bars stays barred when the other is taken off.
#[test]
fn positions_are_taken_off_one_by_one(rt: HostRuntime) {
    let alloc = rt.alloc();
    let proofs = one_proof(&rt, alloc, Some(3 << 32 | 1), &[]);
    let mut past = Past::new(alloc);
    expect_that(&rt, past.add(3 << 32 | 4).is_ok());
    expect_that(&rt, past.add(3 << 32 | 5).is_ok());
    past.take_last();
    expect_optional_count(&rt, found_with(&proofs, &past, 7), None);
    past.take_last();
    expect_optional_count(&rt, found_with(&proofs, &past, 7), Some(0));
}
