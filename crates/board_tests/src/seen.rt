//! Colourings that have occurred: each has its place, and joins once.

use crate::expect::expect_same;
use crate::turns::{board, painted};
use go_points::Colouring;
use go_turns::*;
use std::alloc::{AllocError, Global};
use stone_key::key_of;

// Whether a list of two colourings names the place of each, until the second is taken off.
fn are_found<S: Seen>(
    alloc: Global,
    first: Colouring,
    second: Colouring,
) -> Result<bool, AllocError> {
    let mut seen = S::new(alloc);
    seen.add(first)?;
    if seen.holds(&second).is_some() {
        return Ok(false);
    }
    seen.add(second)?;
    let were_two = seen.len() == 2 && seen.holds(&second) == Some(1) && *seen.at(1) == second;
    seen.take_last();
    Ok(were_two && seen.len() == 1 && seen.holds(&second) == None && seen.holds(&first) == Some(0))
}

#[test]
fn each_colouring_has_its_place(rt: HostRuntime) {
    let size = board(&rt, 2);
    let are_found = are_found::<PlaySeen>(rt.alloc(), painted(size, "X..."), painted(size, "O..."));
    expect_same(&rt, are_found.ok(), Some(true));
}

// Whether a colouring joins the list exactly if it is new.
fn are_joined<S: Seen>(
    alloc: Global,
    first: Colouring,
    second: Colouring,
) -> Result<bool, AllocError> {
    let mut seen = S::new(alloc);
    let was_new = seen.add_new(first, key_of(&first))? == None;
    let is_second_new = seen.add_new(second, key_of(&second))? == None;
    let again = seen.add_new(first, key_of(&first))?;
    Ok(was_new && is_second_new && again == Some(0) && seen.len() == 2)
}

#[test]
fn each_colouring_joins_once(rt: HostRuntime) {
    let size = board(&rt, 2);
    let first = painted(size, "X...");
    let second = painted(size, "O...");
    expect_same(
        &rt,
        are_joined::<PlaySeen>(rt.alloc(), first, second).ok(),
        Some(true),
    );
    expect_same(
        &rt,
        are_joined::<ListSeen>(rt.alloc(), first, second).ok(),
        Some(true),
    );
}

// Whether a list of two colourings says of the key of each that it may be there, also when the second has been taken off.
fn may_be_there<S: Seen>(
    alloc: Global,
    first: Colouring,
    second: Colouring,
) -> Result<bool, AllocError> {
    let mut seen = S::new(alloc);
    seen.add(first)?;
    let was_one_there = seen.may_hold(key_of(&first));
    if seen.holds(&second).is_some() {
        return Ok(false);
    }
    seen.add(second)?;
    let were_two_there = seen.may_hold(key_of(&first)) && seen.may_hold(key_of(&second));
    seen.take_last();
    Ok(was_one_there && were_two_there && seen.may_hold(key_of(&first)))
}

// Of the words of the stones on nine points, those of a white one at point 5 and of a black one at point 6 alone agree in their last
// nine bits.
#[test]
fn a_key_that_is_there_may_be_there(rt: HostRuntime) {
    let size = board(&rt, 3);
    let first = painted(size, ".....O...");
    let second = painted(size, "......X..");
    expect_same(&rt, key_of(&first) % 512, key_of(&second) % 512);
    expect_same(
        &rt,
        may_be_there::<PlaySeen>(rt.alloc(), first, second).ok(),
        Some(true),
    );
    expect_same(
        &rt,
        may_be_there::<ListSeen>(rt.alloc(), first, second).ok(),
        Some(true),
    );
}

// What a list says of a key before the first colouring, after it, and when it has been taken off again.
fn said_of_key(
    alloc: Global,
    first: Colouring,
    key: u64,
) -> Result<(bool, bool, bool), AllocError> {
    let mut seen = PlaySeen::new(alloc);
    let before = seen.may_hold(key);
    seen.add(first)?;
    let after = seen.may_hold(key);
    seen.take_last();
    Ok((before, after, seen.may_hold(key)))
}

#[test]
fn keys_of_an_empty_bucket_are_ruled_out(rt: HostRuntime) {
    let size = board(&rt, 3);
    let first = painted(size, ".....O...");
    let own = said_of_key(rt.alloc(), first, key_of(&first));
    expect_same(&rt, own.ok(), Some((false, true, false)));
    let other = painted(size, "O........");
    let others = said_of_key(rt.alloc(), first, key_of(&other));
    expect_same(&rt, others.ok(), Some((false, false, false)));
}
