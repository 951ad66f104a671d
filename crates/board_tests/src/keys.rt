//! Keys. The words were drawn by another program, from its own PCG64 seeded with the number 1.

use crate::expect::expect_number;
use go_points::{Colour, Colouring, MAX_SIZE, Size, Turn, sgf_point};
use go_turns::*;
use std::alloc::Global;
use std::process::Abort;

const FIRST_BLACK: u64 = 15_492_934_433_077_865_799;

const FIRST_WHITE: u64 = 319_104_231_195_455_319;

const SECOND_BLACK: u64 = 2_101_115_697_694_094_752;

const SECOND_WHITE: u64 = 18_133_442_382_907_303_891;

const THIRD_WHITE: u64 = 8_777_885_780_164_965_128;

// The words of the point with the number 360, which is the last of 19 rows.
const BLACK_AT_360: u64 = 5_808_706_097_955_543_340;

const WHITE_AT_360: u64 = 5_035_746_336_245_120_834;

const LAST_BLACK: u64 = 1_197_968_238_866_613_284;

const LAST_WHITE: u64 = 3_273_342_464_610_144_078;

fn at(size: Size, letters: &str) -> Turn {
    match sgf_point(size, letters.as_bytes()) {
        Some(point) => Turn::At(point),
        None => Turn::Pass,
    }
}

// The key after these moves on the empty board.
fn key_after(rt: &impl Abort, alloc: Global, rows: u8, moves: &[(Colour, &str)]) -> u64 {
    let size = Size::new(rows).expect(rt, "a size");
    let mut record = PlayRecord::new(alloc, &Colouring::empty(size)).expect(rt, "a record");
    for (colour, letters) in moves {
        record
            .play(*colour, at(size, letters))
            .expect(rt, "a legal turn");
    }
    record.key()
}

#[test]
fn the_empty_board_has_the_key_zero(rt: HostRuntime) {
    for rows in 1..MAX_SIZE + 1 {
        let size = Size::new(rows).expect(&rt, "a size");
        expect_number(&rt, PlainBoard::new(size).key(), 0);
    }
}

#[test]
fn one_stone_gives_its_word(rt: HostRuntime) {
    expect_number(
        &rt,
        key_after(&rt, rt.alloc(), 9, &[(Colour::Black, "aa")]),
        FIRST_BLACK,
    );
    expect_number(
        &rt,
        key_after(&rt, rt.alloc(), 9, &[(Colour::White, "aa")]),
        FIRST_WHITE,
    );
    expect_number(
        &rt,
        key_after(&rt, rt.alloc(), 19, &[(Colour::Black, "ss")]),
        BLACK_AT_360,
    );
    expect_number(
        &rt,
        key_after(&rt, rt.alloc(), 19, &[(Colour::White, "ss")]),
        WHITE_AT_360,
    );
    expect_number(
        &rt,
        key_after(&rt, rt.alloc(), 25, &[(Colour::Black, "yy")]),
        LAST_BLACK,
    );
    expect_number(
        &rt,
        key_after(&rt, rt.alloc(), 25, &[(Colour::White, "yy")]),
        LAST_WHITE,
    );
}

#[test]
fn the_words_are_the_same_on_all_boards(rt: HostRuntime) {
    expect_number(
        &rt,
        key_after(&rt, rt.alloc(), 2, &[(Colour::Black, "ba")]),
        SECOND_BLACK,
    );
    expect_number(
        &rt,
        key_after(&rt, rt.alloc(), 19, &[(Colour::Black, "ba")]),
        SECOND_BLACK,
    );
    expect_number(
        &rt,
        key_after(&rt, rt.alloc(), 25, &[(Colour::Black, "ko")]),
        BLACK_AT_360,
    );
}

#[test]
fn a_captured_stone_leaves_the_key(rt: HostRuntime) {
    let size = Size::new(2).expect(&rt, "a size");
    let mut record = PlayRecord::new(rt.alloc(), &Colouring::empty(size)).expect(&rt, "memory");
    record
        .play(Colour::Black, at(size, "aa"))
        .expect(&rt, "a legal turn");
    record
        .play(Colour::White, at(size, "ba"))
        .expect(&rt, "a legal turn");
    expect_number(&rt, record.key(), FIRST_BLACK ^ SECOND_WHITE);
    record
        .play(Colour::White, at(size, "ab"))
        .expect(&rt, "a legal turn");
    expect_number(&rt, record.key(), SECOND_WHITE ^ THIRD_WHITE);
    record.undo().expect(&rt, "a turn to take back");
    record.undo().expect(&rt, "a turn to take back");
    expect_number(&rt, record.key(), FIRST_BLACK);
}

#[test]
fn the_order_of_the_moves_does_not_matter(rt: HostRuntime) {
    let black = (Colour::Black, "aa");
    let white = (Colour::White, "cc");
    let other_black = (Colour::Black, "bb");
    expect_number(
        &rt,
        key_after(&rt, rt.alloc(), 5, &[black, white, other_black]),
        key_after(&rt, rt.alloc(), 5, &[other_black, black, white]),
    );
    assert_ne!(rt;
        key_after(&rt, rt.alloc(), 5, &[black, white]),
        key_after(&rt, rt.alloc(), 5, &[other_black, white])
    );
}
