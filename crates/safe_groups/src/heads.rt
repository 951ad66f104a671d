//! The heads of a claim: its areas, as the claim supposes them, and what they lean on.

use crate::fault::{Fault, Stop};
use crate::ground::Ground;
use crate::lines::ClaimLines;
use go_points::{Cell, Colour, Colouring, Point, Size};
use std::alloc::Global;
use std::io::Read;
use target_game::Problem;

/// The areas of a claim: for each its ground, its state as the claim supposes it, and whether it gives stones a liberty.
#[derive(Drop)]
pub(crate) struct Heads {
    pub(crate) grounds: Vec<Ground>,
    pub(crate) begins: Vec<Colouring>,
    pub(crate) gives: Vec<bool>,
}

fn fault<T>(fault: Fault) -> Result<T, Stop> {
    Err(Stop::Fault(fault))
}

/// What the point holds; nothing, if it is not on the colouring's board.
fn at(colouring: &Colouring, point: Point) -> Cell {
    if colouring.size().holds(point) {
        colouring.get(point)
    } else {
        Cell::Empty
    }
}

/// Puts a cell at the point, if it is on the colouring's board.
fn put(colouring: &mut Colouring, point: Point, cell: Cell) {
    if colouring.size().holds(point) {
        colouring.set(point, cell);
    }
}

/// The keeper that the first line names, which begins with this word.
pub fn read_keeper<R: Read>(
    lines: &mut ClaimLines<'_, R>,
    word: &[u8],
    size: Size,
) -> Result<Colour, Stop> {
    lines.next_line()?;
    if !lines.is(word, 4) {
        return fault(Fault::Malformed);
    }
    if lines.word(1) != Some(b"1".as_slice()) {
        return fault(Fault::Malformed);
    }
    let rows = lines.number_at(2)?;
    let keeper = match lines.word(3) {
        Some([b'B']) => Colour::Black,
        Some([b'W']) => Colour::White,
        _ => return fault(Fault::Malformed),
    };
    if rows != usize::from(size.rows()) {
        return fault(Fault::SizeDiffers);
    }
    Ok(keeper)
}

/// The colour of a letter of a line.
fn colour_of(letter: u8) -> Option<Colour> {
    match letter {
        b'X' => Some(Colour::Black),
        b'O' => Some(Colour::White),
        _ => None,
    }
}

/// What a letter of a state stands for.
pub(crate) fn cell_of(letter: u8) -> Option<Cell> {
    if letter == b'.' {
        return Some(Cell::Empty);
    }
    let colour = colour_of(letter)?;
    Some(Cell::Stone(colour))
}

/// What the ground, and the state that is supposed, hold at a point with this letter.
fn cells_of(letter: u8, keeper: Colour) -> Option<(Cell, Cell)> {
    match letter {
        b'#' => Some((Cell::Stone(keeper), Cell::Stone(keeper))),
        b'-' => {
            let theirs = Cell::Stone(keeper.opponent());
            Some((theirs, theirs))
        }
        _ => {
            let cell = cell_of(letter)?;
            Some((Cell::Empty, cell))
        }
    }
}

/// The ground and the state that these cells spell, of which at least one is of the region.
fn spelled(word: &[u8], size: Size, keeper: Colour) -> Option<(Ground, Colouring)> {
    if word.len() != size.area() {
        return None;
    }
    let mut cells = Colouring::empty(size);
    let mut begin = Colouring::empty(size);
    let mut inside: usize = 0;
    for number in 0..size.area() {
        let letter = word.get(number).copied().unwrap_or(b' ');
        let (ground, state) = cells_of(letter, keeper)?;
        if ground.is_empty() {
            inside = inside.saturating_add(1);
        }
        put(&mut cells, size.point_at(number), ground);
        put(&mut begin, size.point_at(number), state);
    }
    if inside == 0 {
        return None;
    }
    let none = Colouring::empty(size);
    let ground = Ground {
        cells,
        marks: none,
        held: none,
        earlier: none,
        gives: none,
        group: 0,
        keeper,
    };
    Some((ground, begin))
}

/// Whether each kept stone is the keeper's on the board.
fn keeps_what_is_there(ground: &Ground, board: &Colouring, size: Size) -> bool {
    for point in size.points() {
        let kept = at(&ground.cells, point);
        if kept.is_stone_of(ground.keeper) && at(board, point) != kept {
            return false;
        }
    }
    true
}

/// Whether the points of the region are in the problem's region, in no region before, and no kept stone is in one of these, nor the
/// other way round.
fn is_free(before: &[Ground], ground: &Ground, problem: &Problem, size: Size) -> bool {
    for point in size.points() {
        let cell = at(&ground.cells, point);
        if cell.is_empty() && !problem.region().has(point) {
            return false;
        }
        for other in before {
            let there = at(&other.cells, point);
            let both = cell.is_empty() && there.is_empty();
            let kept = there.is_stone_of(ground.keeper);
            let other_kept = there.is_empty() && cell.is_stone_of(ground.keeper);
            if both || (cell.is_empty() && kept) || other_kept {
                return false;
            }
        }
    }
    true
}

/// Whether the board fits the state that the claim supposes.
fn is_as_supposed(ground: &Ground, begin: &Colouring, board: &Colouring) -> bool {
    if board.size() != ground.size() || !ground.is_state(begin) {
        return false;
    }
    ground.fits(board, begin)
}

/// The area of the line, which begins with this word, and its state as the claim supposes it. Other areas come before it.
pub fn area_of_line<R: Read>(
    problem: &Problem,
    keeper: Colour,
    lines: &ClaimLines<'_, R>,
    word: &[u8],
    before: &[Ground],
) -> Result<(Ground, Colouring), Stop> {
    let size = problem.size();
    if !lines.is(word, 2) {
        return fault(Fault::Malformed);
    }
    let Some((ground, begin)) = lines.word(1).and_then(|word| spelled(word, size, keeper)) else {
        return fault(Fault::Malformed);
    };
    if !keeps_what_is_there(&ground, problem.colouring(), size) {
        return fault(Fault::KeptStoneMissing);
    }
    if !is_free(before, &ground, problem, size) {
        return fault(Fault::PointNotFree);
    }
    if !is_as_supposed(&ground, &begin, problem.colouring()) {
        return fault(Fault::BoardDiffers);
    }
    Ok((ground, begin))
}

/// Reads the area of the line.
fn read_area<R: Read>(
    problem: &Problem,
    keeper: Colour,
    lines: &ClaimLines<'_, R>,
    heads: &mut Heads,
) -> Result<(), Stop> {
    let before = heads.grounds.as_slice();
    let (ground, begin) = area_of_line(problem, keeper, lines, b"area", before)?;
    let is_kept = heads.grounds.push(ground).is_ok()
        && heads.begins.push(begin).is_ok()
        && heads.gives.push(false).is_ok();
    if is_kept { Ok(()) } else { Err(Stop::Memory) }
}

/// The stones that the last area gives a liberty, by the line's word.
fn given(word: &[u8], ground: &Ground, size: Size) -> Result<Colouring, Fault> {
    if word.len() != size.area() {
        return Err(Fault::Malformed);
    }
    let mut gives = Colouring::empty(size);
    let mut is_kept = true;
    let mut some = false;
    for number in 0..size.area() {
        let point = size.point_at(number);
        match word.get(number).copied().unwrap_or(b' ') {
            b'#' => {
                some = true;
                is_kept &= at(&ground.cells, point).is_stone_of(ground.keeper);
                put(&mut gives, point, Cell::Stone(ground.keeper));
            }
            b'-' => {}
            _ => return Err(Fault::Malformed),
        }
    }
    if !some {
        return Err(Fault::Malformed);
    }
    if is_kept {
        Ok(gives)
    } else {
        Err(Fault::GivesNotKept)
    }
}

/// Reads what the last area gives.
fn read_gives<R: Read>(
    lines: &ClaimLines<'_, R>,
    size: Size,
    heads: &mut Heads,
) -> Result<(), Stop> {
    let last = heads.grounds.len().saturating_sub(1);
    let (Some(ground), Some(word)) = (heads.grounds.get_mut(last), lines.word(1)) else {
        return fault(Fault::Malformed);
    };
    match given(word, ground, size) {
        Ok(gives) => ground.gives = gives,
        Err(why) => return fault(why),
    }
    if let Some(gives) = heads.gives.get_mut(last) {
        *gives = true;
    }
    Ok(())
}

/// Reads all areas, up to the line after the last.
pub(crate) fn read_heads<R: Read>(
    alloc: Global,
    problem: &Problem,
    keeper: Colour,
    lines: &mut ClaimLines<'_, R>,
) -> Result<Heads, Stop> {
    let mut heads = Heads {
        grounds: Vec::new(alloc),
        begins: Vec::new(alloc),
        gives: Vec::new(alloc),
    };
    lines.next_line()?;
    let mut is_after_area = false;
    for _ in 0..u64::MAX {
        if is_after_area && lines.is(b"gives", 2) {
            read_gives(lines, problem.size(), &mut heads)?;
            is_after_area = false;
        } else if lines.word(0) == Some(b"area".as_slice()) {
            read_area(problem, keeper, lines, &mut heads)?;
            is_after_area = true;
        } else {
            return Ok(heads);
        }
        lines.next_line()?;
    }
    fault(Fault::Limit)
}

/// Puts the areas into groups: areas in a row that give are one, each other area is one by itself.
pub(crate) fn number_groups(heads: &mut Heads) {
    let mut group: usize = 0;
    let mut before = false;
    for place in 0..heads.grounds.len() {
        let gives = heads.gives.get(place).copied().unwrap_or(false);
        if place > 0 && !(before && gives) {
            group = group.saturating_add(1);
        }
        before = gives;
        if let Some(ground) = heads.grounds.get_mut(place) {
            ground.group = group;
        }
    }
}

/// Whether an area of an earlier group keeps the stone, and whether another area of this one's group gives it a liberty.
fn leans(grounds: &[Ground], place: usize, group: usize, number: usize) -> (bool, bool) {
    let mut earlier = false;
    let mut given = false;
    for other in 0..grounds.len() {
        let ground = &grounds[other];
        if number < ground.cells.size().area() && number < ground.gives.size().area() {
            let is_kept = ground.cells.cell(number).is_stone_of(ground.keeper);
            earlier |= ground.group < group && is_kept;
            let gives = ground.gives.cell(number).is_stone_of(ground.keeper);
            given |= ground.group == group && other != place && gives;
        }
    }
    (earlier, given)
}

/// Marks the stones of the area that are kept earlier, and those that are held.
fn mark_area(grounds: &[Ground], place: usize, size: Size) -> Option<Ground> {
    let mut ground = *grounds.get(place)?;
    for number in 0..size.area() {
        let point = size.point_at(number);
        if at(&ground.cells, point).is_stone_of(ground.keeper) {
            let (earlier, given) = leans(grounds, place, ground.group, number);
            if earlier {
                put(&mut ground.earlier, point, Cell::Stone(ground.keeper));
            }
            if earlier || given {
                put(&mut ground.held, point, Cell::Stone(ground.keeper));
            }
        }
    }
    Some(ground)
}

/// Marks for all areas what they lean on.
pub(crate) fn mark_held(heads: &mut Heads, size: Size) {
    for place in 0..heads.grounds.len() {
        if let Some(marked) = mark_area(heads.grounds.as_slice(), place, size)
            && let Some(ground) = heads.grounds.get_mut(place)
        {
            *ground = marked;
        }
    }
}

/// The points that no answer may take, since an earlier position that has all kept stones could come again: the keeper's stones mark
/// them.
pub(crate) fn barred_points(problem: &Problem, stones: &Colouring, keeper: Colour) -> Colouring {
    let size = problem.size();
    let mut barred = Colouring::empty(size);
    for past in problem.history() {
        if has_all(past, stones, keeper, size) {
            for point in size.points() {
                if at(past, point).is_stone_of(keeper) {
                    put(&mut barred, point, Cell::Stone(keeper));
                }
            }
        }
    }
    barred
}

/// Whether the colouring has all of these stones.
fn has_all(past: &Colouring, stones: &Colouring, keeper: Colour, size: Size) -> bool {
    for point in size.points() {
        if at(stones, point).is_stone_of(keeper) && !at(past, point).is_stone_of(keeper) {
            return false;
        }
    }
    true
}

/// Marks the points at which each area may answer: those of its region that are not barred.
pub(crate) fn mark_answers(heads: &mut Heads, barred: &Colouring, size: Size) {
    for place in 0..heads.grounds.len() {
        if let Some(ground) = heads.grounds.get_mut(place) {
            for point in size.points() {
                if at(&ground.cells, point).is_empty() && at(barred, point).is_empty() {
                    put(&mut ground.marks, point, Cell::Stone(ground.keeper));
                }
            }
        }
    }
}

/// The stones that all areas keep, as the keeper's on a colouring.
pub(crate) fn own_stones(heads: &Heads, size: Size, keeper: Colour) -> Colouring {
    let mut stones = Colouring::empty(size);
    for begin in heads.begins.as_slice() {
        for point in size.points() {
            if at(begin, point).is_stone_of(keeper) {
                put(&mut stones, point, Cell::Stone(keeper));
            }
        }
    }
    stones
}

/// The area whose region has this point, if its state is empty there.
fn area_with(heads: &Heads, point: Point) -> Option<usize> {
    for place in 0..heads.grounds.len() {
        let ground = heads.grounds.get(place)?;
        let begin = heads.begins.get(place)?;
        if at(&ground.cells, point).is_empty() && at(begin, point).is_empty() {
            return Some(place);
        }
    }
    None
}

/// Where the keeper plays first, as the area and the number of the point, if the line says so; then the next line is read.
pub(crate) fn first_turn<R: Read>(
    problem: &Problem,
    keeper: Colour,
    heads: &Heads,
    lines: &mut ClaimLines<'_, R>,
) -> Result<Option<(usize, usize)>, Stop> {
    if heads.grounds.is_empty() || !lines.is(b"first", 2) {
        return Ok(None);
    }
    let size = problem.size();
    let turn = lines.turn_at(size, 1)?;
    if problem.mover() != keeper {
        return fault(Fault::WrongSide);
    }
    let Some(number) = turn else {
        return fault(Fault::TurnBarred);
    };
    if number >= size.area() {
        return fault(Fault::TurnBarred);
    }
    let Some(place) = area_with(heads, size.point_at(number)) else {
        return fault(Fault::TurnBarred);
    };
    lines.next_line()?;
    Ok(Some((place, number)))
}
