//! What a table remembers, and what it forgets first.

use crate::expect::expect_that;
use go_points::Colour;
use pn_table::*;
use std::alloc::Global;
use std::num::NonZeroUsize;
use std::process::Abort;

fn table(rt: &impl Abort, alloc: Global, capacity: usize) -> Table {
    let capacity = NonZeroUsize::new(capacity).expect(rt, "a capacity");
    Table::with_capacity(alloc, capacity).expect(rt, "memory")
}

fn black_to_move(position: u64) -> Key {
    Key {
        position,
        mover: Colour::Black,
        passes: 0,
    }
}

fn numbers(proof: u32, disproof: u32) -> Numbers {
    Numbers { proof, disproof }
}

fn expect_numbers(rt: &impl Abort, found: Option<Numbers>, wanted: Option<Numbers>) {
    assert_eq!(rt; found, wanted);
}

#[test]
fn what_was_not_used_for_longest_goes(rt: HostRuntime) {
    let mut table = table(&rt, rt.alloc(), 2);
    expect_that(&rt, table.store(black_to_move(1), numbers(1, 10)));
    expect_that(&rt, table.store(black_to_move(2), numbers(2, 20)));
    expect_that(&rt, table.store(black_to_move(3), numbers(3, 30)));
    expect_numbers(&rt, table.look(black_to_move(1)), None);
    expect_numbers(&rt, table.look(black_to_move(2)), Some(numbers(2, 20)));
    expect_numbers(&rt, table.look(black_to_move(3)), Some(numbers(3, 30)));
}

#[test]
fn a_look_counts_as_use(rt: HostRuntime) {
    let mut table = table(&rt, rt.alloc(), 2);
    expect_that(&rt, table.store(black_to_move(1), numbers(1, 10)));
    expect_that(&rt, table.store(black_to_move(2), numbers(2, 20)));
    expect_numbers(&rt, table.look(black_to_move(1)), Some(numbers(1, 10)));
    expect_that(&rt, table.store(black_to_move(3), numbers(3, 30)));
    expect_numbers(&rt, table.look(black_to_move(1)), Some(numbers(1, 10)));
    expect_numbers(&rt, table.look(black_to_move(2)), None);
}

#[test]
fn newer_numbers_replace_older_ones(rt: HostRuntime) {
    let mut table = table(&rt, rt.alloc(), 2);
    expect_that(&rt, table.store(black_to_move(1), numbers(1, 10)));
    expect_that(&rt, table.store(black_to_move(2), numbers(2, 20)));
    expect_that(&rt, table.store(black_to_move(1), numbers(0, INFINITY)));
    expect_numbers(
        &rt,
        table.look(black_to_move(1)),
        Some(numbers(0, INFINITY)),
    );
    expect_numbers(&rt, table.look(black_to_move(2)), Some(numbers(2, 20)));
}

#[test]
fn a_table_of_one_key_keeps_the_latest(rt: HostRuntime) {
    let mut table = table(&rt, rt.alloc(), 1);
    expect_numbers(&rt, table.look(black_to_move(1)), None);
    expect_that(&rt, table.store(black_to_move(1), numbers(1, 10)));
    expect_numbers(&rt, table.look(black_to_move(1)), Some(numbers(1, 10)));
    expect_that(&rt, table.store(black_to_move(2), numbers(2, 20)));
    expect_numbers(&rt, table.look(black_to_move(1)), None);
    expect_numbers(&rt, table.look(black_to_move(2)), Some(numbers(2, 20)));
}

#[test]
fn mover_and_passes_belong_to_the_key(rt: HostRuntime) {
    let black = black_to_move(5);
    let white = Key {
        position: 5,
        mover: Colour::White,
        passes: 0,
    };
    let passed = Key {
        position: 5,
        mover: Colour::Black,
        passes: 1,
    };
    let mut table = table(&rt, rt.alloc(), 3);
    expect_that(&rt, table.store(black, numbers(1, 10)));
    expect_numbers(&rt, table.look(white), None);
    expect_numbers(&rt, table.look(passed), None);
    expect_that(&rt, table.store(white, numbers(2, 20)));
    expect_that(&rt, table.store(passed, numbers(3, 30)));
    expect_numbers(&rt, table.look(black), Some(numbers(1, 10)));
    expect_numbers(&rt, table.look(white), Some(numbers(2, 20)));
    expect_numbers(&rt, table.look(passed), Some(numbers(3, 30)));
}
