//! Claims expanded: how large their trees are, and which replies they keep.

use crate::expect::{expect_count, expect_size, expect_stop};
use cert_check::{Checked, check_held};
use go_points::{Colour, Colouring, Point, PointSet, Size, Turn};
use proof_cert::{Certificate, Lemma, Node, Version};
use solution_tree::{Answer, Expand, expand};
use std::alloc::{AllocError, Global};
use std::process::Abort;
use target_game::Problem;

fn nine(rt: &impl Abort) -> Size {
    Size::new(9).expect(rt, "a size")
}

// The point of the last row in this column.
fn low(rt: &impl Abort, column: u8) -> Point {
    nine(rt).point(column, 8).expect(rt, "a point")
}

// A set of black stones on the last row: bit k stands for column k.
fn holds(stones: u32, column: u8) -> bool {
    stones.wrapping_shr(column as u32) & 1 == 1
}

fn with(stones: u32, column: u8) -> u32 {
    stones | 1u32.wrapping_shl(column as u32)
}

// The colouring with these stones, and a white one in the upper left corner.
fn root(rt: &impl Abort, stones: u32) -> Colouring {
    let mut text = [b'.'; 81];
    text[0] = b'O';
    for column in 0..8u8 {
        if holds(stones, column) {
            text[72 + column as usize] = b'X';
        }
    }
    Colouring::from_text(nine(rt), &text).expect(rt, "a colouring")
}

// Black moves first, may only move in the first columns of the last row, and would have to capture the corner.
fn last_row(alloc: Global, rt: &impl Abort, columns: u8) -> Problem {
    let mut history = Vec::new(alloc);
    history.push(root(rt, 0)).expect(rt, "memory");
    let mut target = PointSet::new();
    target.insert(nine(rt).point(0, 0).expect(rt, "a point"));
    let mut region = PointSet::new();
    for column in 0..columns {
        region.insert(low(rt, column));
    }
    Problem::new(history, 0, Colour::Black, 0, target, region).expect(rt, "a problem")
}

// All sets of black stones except the empty one, larger ones first.
fn sets(alloc: Global, columns: u8) -> Result<Vec<u32>, AllocError> {
    let mut all = Vec::new(alloc);
    for fewer in 0..columns {
        for stones in 1..256u32 {
            if stones.wrapping_shr(columns as u32) == 0
                && stones.count_ones() + fewer as u32 == columns as u32
            {
                all.push(stones)?;
            }
        }
    }
    Ok(all)
}

// The number of the lemma for this set.
fn lemma_of(rt: &impl Abort, sets: &[u32], stones: u32) -> u32 {
    let mut number: u32 = 1;
    for set in sets {
        if *set == stones {
            return number;
        }
        number = number.checked_add(1).expect(rt, "a number");
    }
    number
}

// Black's turns when it has these stones. White answers each with a pass.
fn replies(
    alloc: Global,
    rt: &impl Abort,
    sets: &[u32],
    columns: u8,
    stones: u32,
) -> Result<Node, AllocError> {
    let mut all = Vec::new(alloc);
    for column in 0..columns {
        if !holds(stones, column) {
            let larger = with(stones, column);
            let number = lemma_of(rt, sets, larger);
            let below = Node::Play(Turn::Pass, Box::new(alloc, Node::Use(number))?);
            all.push((Turn::At(low(rt, column)), below))?;
        }
    }
    let last = if stones == 0 {
        Node::Play(Turn::Pass, Box::new(alloc, Node::Won)?)
    } else {
        Node::Won
    };
    all.push((Turn::Pass, last))?;
    Ok(Node::All(all))
}

// A claim that White wins: it passes whatever Black does, and there is a lemma for each set of black stones.
fn a_lemma_for_each_set(alloc: Global, rt: &impl Abort, columns: u8) -> Checked {
    let order = sets(alloc, columns).expect(rt, "memory");
    let mut lemmas = Vec::new(alloc);
    for stones in order.iter() {
        lemmas
            .push(Lemma {
                mover: Colour::Black,
                passes: 1,
                root: root(rt, *stones),
                had: Vec::new(alloc),
                absent: Vec::new(alloc),
                body: replies(alloc, rt, order.as_slice(), columns, *stones).expect(rt, "memory"),
            })
            .expect(rt, "memory");
    }
    let main = replies(alloc, rt, order.as_slice(), columns, 0).expect(rt, "memory");
    let certificate = Certificate {
        version: Version::One,
        size: nine(rt),
        winner: Colour::White,
        lemmas,
        main,
    };
    let checked = check_held(alloc, last_row(alloc, rt, columns), certificate);
    checked.ok().expect(rt, "a valid claim")
}

// Black has e places left: it plays on one of them, which White answers, or passes. That makes 1 + e (2 + f) turns, f being the number for e - 1 places.
#[test]
fn four_places_of_the_last_row(rt: HostRuntime) {
    let checked = a_lemma_for_each_set(rt.alloc(), &rt, 4);
    let answer = expand(rt.alloc(), &checked, 194).expect(&rt, "a tree");
    expect_size(&rt, answer.size(), Some(194));
    expect_stop(
        &rt,
        expand(rt.alloc(), &checked, 193).err(),
        Some(Expand::TooLarge),
    );
}

// Seven and eight places: 7 (2 + 5869) + 2 and 8 (2 + 41098) + 2 turns, by the same rule.
#[test]
fn the_whole_last_row(rt: HostRuntime) {
    let seven = a_lemma_for_each_set(rt.alloc(), &rt, 7);
    expect_count(&rt, seven.certificate().lemmas.len(), 127);
    let answer = expand(rt.alloc(), &seven, 90_000).expect(&rt, "a tree");
    expect_size(&rt, answer.size(), Some(41_099));
    let eight = a_lemma_for_each_set(rt.alloc(), &rt, 8);
    expect_count(&rt, eight.certificate().lemmas.len(), 255);
    expect_stop(
        &rt,
        expand(rt.alloc(), &eight, 90_000).err(),
        Some(Expand::TooLarge),
    );
    expect_stop(
        &rt,
        expand(rt.alloc(), &eight, 328_801).err(),
        Some(Expand::TooLarge),
    );
    let answer = expand(rt.alloc(), &eight, 328_802).expect(&rt, "a tree");
    expect_size(&rt, answer.size(), Some(328_802));
}

// A line of this many turns, all of them passes, alternating between the winner and the other side.
fn line(alloc: Global, turns: u32) -> Result<Answer, AllocError> {
    let mut answer = Answer::Won;
    for _turn in 0..turns / 2 {
        let mut replies = Vec::new(alloc);
        replies.push((Turn::Pass, answer))?;
        answer = Answer::Turn(Turn::Pass, Box::new(alloc, Answer::Replies(replies))?);
    }
    Ok(answer)
}

#[test]
fn a_long_line_is_counted_and_dropped(rt: HostRuntime) {
    let answer = line(rt.alloc(), 100_000).expect(&rt, "memory");
    expect_size(&rt, answer.size(), Some(100_000));
}
