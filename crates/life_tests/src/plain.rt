//! Every colouring of small boards: life by shape against a plain search, in which the attacker alone plays.
//!
//! The numbers that are expected were counted by a program written apart from this one, in another language, from the definition
//! and from the rules.

use go_chains::ChainBoard;
use go_points::{Cell, Colour, Colouring, PointSet, Size};
use pass_alive::living_stones;
use std::alloc::{AllocError, Global};
use std::process::Abort;
use std::test::Fail;

/// The number of a colouring that play does not leave, or that is none.
const NONE: u32 = u32::MAX;

/// How many stones of Black's live by their shape, over all colourings; how many can never be taken; and how many live by their
/// shape and can be taken.
#[derive(Clone, Copy, Debug, PartialEq, Eq)]
struct Counts {
    living: u32,
    never_taken: u32,
    wrong: u32,
}

// The colouring with this number: its digits to the base of three are the cells of the first points; the other points are empty.
fn colouring_with(size: Size, count: usize, code: u32) -> Colouring {
    let mut colouring = Colouring::empty(size);
    let mut rest = code;
    for number in 0..size.area() {
        if number < count {
            let point = size.point_at(number);
            let cell = match rest % 3 {
                1 => Cell::Stone(Colour::Black),
                2 => Cell::Stone(Colour::White),
                _ => Cell::Empty,
            };
            if colouring.size().holds(point) {
                colouring.set(point, cell);
            }
            rest = rest / 3;
        }
    }
    colouring
}

// Its number.
fn code_of(colouring: &Colouring, count: usize) -> u32 {
    let size = colouring.size();
    let mut code: u32 = 0;
    let mut weight: u32 = 1;
    for number in 0..size.area() {
        if number < count {
            let digit = match colouring.get(size.point_at(number)) {
                Cell::Empty => 0,
                Cell::Stone(Colour::Black) => 1,
                Cell::Stone(Colour::White) => 2,
            };
            code = code.wrapping_add(weight.wrapping_mul(digit));
            weight = weight.wrapping_mul(3);
        }
    }
    code
}

// The first points that hold a stone of Black's, one bit for each.
fn blacks(colouring: &Colouring) -> u32 {
    let size = colouring.size();
    let mut bits: u32 = 0;
    let mut bit: u32 = 1;
    for number in 0..size.area() {
        if colouring
            .get(size.point_at(number))
            .is_stone_of(Colour::Black)
        {
            bits = bits | bit;
        }
        bit = bit.wrapping_mul(2);
    }
    bits
}

// The points of a set, one bit for each.
fn bits_of(size: Size, set: &PointSet) -> u32 {
    let mut bits: u32 = 0;
    let mut bit: u32 = 1;
    for number in 0..size.area() {
        if set.has(size.point_at(number)) {
            bits = bits | bit;
        }
        bit = bit.wrapping_mul(2);
    }
    bits
}

// The points at which the text has an `x`.
fn marked(size: Size, text: &str) -> PointSet {
    let bytes = text.as_bytes();
    let mut set = PointSet::new();
    for number in 0..size.area() {
        if let Some(byte) = bytes.get(number) {
            if *byte == b'x' {
                set.insert(size.point_at(number));
            }
        }
    }
    set
}

// How many bits are set.
fn ones(bits: u32) -> u32 {
    bits.count_ones()
}

// Adds the number of the colouring after each move of White's in the region, or `NONE`.
fn add_moves(
    next: &mut Vec<u32>,
    board: &ChainBoard,
    count: usize,
    region: &PointSet,
) -> Result<(), AllocError> {
    let size = board.size();
    for number in 0..size.area() {
        if number < count {
            let point = size.point_at(number);
            let mut code = NONE;
            if region.has(point) {
                let mut after = board.copy();
                if after.play(Colour::White, point).is_ok() {
                    code = code_of(&after.colouring(), count);
                }
            }
            next.push(code)?;
        }
    }
    Ok(())
}

fn add_none(next: &mut Vec<u32>, count: usize) -> Result<(), AllocError> {
    for _ in 0..count {
        next.push(NONE)?;
    }
    Ok(())
}

fn at(list: &[u32], index: usize) -> u32 {
    list.get(index).copied().unwrap_or(NONE)
}

// The stones of Black's that may be taken from a colouring on, by what may be taken after each move.
fn in_danger(own: &[u32], next: &[u32], danger: &[u32], count: usize, code: usize) -> u32 {
    let stones = at(own, code);
    let mut found = at(danger, code);
    for number in 0..count {
        let after = at(next, code.wrapping_mul(count).wrapping_add(number));
        if after != NONE {
            let left = at(own, after as usize);
            found = found | stones & (u32::MAX ^ left) | stones & at(danger, after as usize);
        }
    }
    found
}

// One sweep over all colourings. Returns whether anything was found.
fn sweep(own: &[u32], next: &[u32], danger: &mut Vec<u32>, count: usize) -> bool {
    let mut has_changed = false;
    for code in 0..own.len() {
        if at(own, code) != NONE {
            let found = in_danger(own, next, danger.as_slice(), count, code);
            if code < danger.len() && danger[code] != found {
                danger[code] = found;
                has_changed = true;
            }
        }
    }
    has_changed
}

fn counted(
    alloc: Global,
    size: Size,
    count: usize,
    total: u32,
    region: &PointSet,
) -> Result<Counts, AllocError> {
    let mut own = Vec::new(alloc);
    let mut next = Vec::new(alloc);
    let mut living = Vec::new(alloc);
    let mut danger = Vec::new(alloc);
    for code in 0..total {
        let colouring = colouring_with(size, count, code);
        danger.push(0)?;
        match ChainBoard::from_colouring(&colouring) {
            Ok(board) => {
                own.push(blacks(&colouring))?;
                add_moves(&mut next, &board, count, region)?;
                living.push(bits_of(size, &living_stones(&board, Colour::Black, region)))?;
            }
            Err(_) => {
                own.push(NONE)?;
                add_none(&mut next, count)?;
                living.push(0)?;
            }
        }
    }
    for _ in 0..100 {
        if !sweep(own.as_slice(), next.as_slice(), &mut danger, count) {
            break;
        }
    }
    Ok(sums(own.as_slice(), danger.as_slice(), living.as_slice()))
}

fn sums(own: &[u32], danger: &[u32], living: &[u32]) -> Counts {
    let mut sums = Counts {
        living: 0,
        never_taken: 0,
        wrong: 0,
    };
    for code in 0..own.len() {
        let stones = at(own, code);
        if stones != NONE {
            let alive = at(living, code);
            let lost = at(danger, code);
            sums.living = sums.living.wrapping_add(ones(alive));
            sums.never_taken = sums
                .never_taken
                .wrapping_add(ones(stones & (u32::MAX ^ lost)));
            sums.wrong = sums
                .wrong
                .wrapping_add(ones(alive & (lost | u32::MAX ^ stones)));
        }
    }
    sums
}

fn expect_counts(
    rt: &impl Abort,
    alloc: Global,
    board: (u8, usize, u32),
    region: &str,
    wanted: (u32, u32),
) {
    let (rows, count, total) = board;
    let size = Size::new(rows).expect(rt, "a size");
    let region = marked(size, region);
    let found = counted(alloc, size, count, total, &region).ok();
    let (living, never_taken) = wanted;
    assert_eq!(rt;
        found,
        Some(Counts {
            living,
            never_taken,
            wrong: 0
        })
    );
}

const THREE: (u8, usize, u32) = (3, 9, 19_683);

#[test]
fn three_by_three(rt: HostRuntime) {
    expect_counts(&rt, rt.alloc(), THREE, "xxxxxxxxx", (2_948, 2_948));
    expect_counts(&rt, rt.alloc(), THREE, "xxxxxx...", (18_757, 18_922));
    expect_counts(&rt, rt.alloc(), THREE, "xx.xx....", (25_865, 25_951));
    expect_counts(&rt, rt.alloc(), THREE, "xxxx.xxxx", (12_492, 12_492));
}

const FOUR: (u8, usize, u32) = (4, 12, 531_441);

#[test]
fn three_rows_of_four(rt: HostRuntime) {
    expect_counts(
        &rt,
        rt.alloc(),
        FOUR,
        "xxxxxxxxxxxx....",
        (875_720, 875_720),
    );
}
