//! The words of a claim.

use go_points::Colour;
use safety_search::{Board, LocalGame, NumberSet, State};
use std::alloc::AllocError;

/// The powers of ten that a number of a claim may need, greatest first.
const POWERS: [usize; 8] = [10_000_000, 1_000_000, 100_000, 10_000, 1_000, 100, 10, 1];

pub(crate) fn push_text(text: &mut Vec<u8>, more: &str) -> Result<(), AllocError> {
    text.extend_from_slice(more.as_bytes())?;
    Ok(())
}

pub(crate) fn push_number(text: &mut Vec<u8>, number: usize) -> Result<(), AllocError> {
    let mut has_begun = false;
    for power in POWERS {
        let digit = digit_of(number, power);
        if digit > 0 || has_begun || power == 1 {
            has_begun = true;
            text.push(b'0'.saturating_add(digit))?;
        }
    }
    Ok(())
}

/// The digit of the number at this power of ten.
fn digit_of(number: usize, power: usize) -> u8 {
    let digit = number.checked_div(power).unwrap_or(0) % 10;
    digit as u8
}

/// The letter of a cell with a stone of this colour, or with none.
pub(crate) fn letter(colour: Option<Colour>) -> u8 {
    match colour {
        Some(Colour::Black) => b'X',
        Some(Colour::White) => b'O',
        None => b'.',
    }
}

/// The name of a point: its column and its row, each as a letter.
pub(crate) fn push_vertex(
    text: &mut Vec<u8>,
    board: &Board,
    point: usize,
) -> Result<(), AllocError> {
    let rows = board.size().rows() as usize;
    let row = point.checked_div(rows).unwrap_or(0).min(25);
    let column = point.saturating_sub(row.saturating_mul(rows)).min(25);
    text.push(b'a' + column as u8)?;
    text.push(b'a' + row as u8)?;
    Ok(())
}

/// The name of a point, or `pass`.
pub(crate) fn push_turn(
    text: &mut Vec<u8>,
    board: &Board,
    point: Option<usize>,
) -> Result<(), AllocError> {
    match point {
        Some(point) => push_vertex(text, board, point),
        None => push_text(text, "pass"),
    }
}

/// The letters of the whole board: kept stones, the region, and the rest.
pub(crate) fn push_cells(
    text: &mut Vec<u8>,
    board: &Board,
    kept: &NumberSet,
    region: &NumberSet,
) -> Result<(), AllocError> {
    for point in 0..board.size().area() {
        let cell = if region.has(point) {
            letter(board.colour_at(point))
        } else if kept.has(point) {
            b'#'
        } else {
            b'-'
        };
        text.push(cell)?;
    }
    Ok(())
}

/// The letters of the region in a state, where `more` are stones of the side that answers, which are always there.
pub(crate) fn push_state(
    text: &mut Vec<u8>,
    colour: Colour,
    game: &LocalGame,
    more: &NumberSet,
    state: State,
) -> Result<(), AllocError> {
    let own = game.points_of(state.own).or(more);
    let other = game.points_of(state.other);
    for point in game.all_points().or(more).iter() {
        let cell = if own.has(point) {
            Some(colour)
        } else if other.has(point) {
            Some(colour.opponent())
        } else {
            None
        };
        text.push(letter(cell))?;
    }
    Ok(())
}

pub(crate) fn push_line_end(text: &mut Vec<u8>) -> Result<(), AllocError> {
    text.push(b'\n')?;
    Ok(())
}
