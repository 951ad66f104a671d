//! Chains that live by their shape, even if their owner always passes.
//!
//! This is Benson's test, with one change: all points of an eye, not only its empty ones, have to be beside the chain, since
//! suicide of several stones is legal.

use go_points::Colour;
use safety_search::{Board, NumberSet};
use std::alloc::{AllocError, Global};

/// Points that are joined and have no stone of a side.
#[derive(Clone, Copy)]
pub(crate) struct Area {
    pub(crate) points: NumberSet,
    /// The side's chains beside it.
    pub(crate) around: NumberSet,
    is_chosen: bool,
}

/// Chains that live by their shape, and the areas that are chosen for them: two for each, the smallest first.
#[derive(Clone, Copy)]
pub(crate) struct PassAlive {
    pub(crate) chains: NumberSet,
    pub(crate) region: NumberSet,
}

/// The areas between the stones of a side.
pub(crate) fn areas_of(
    alloc: Global,
    board: &Board,
    colour: Colour,
) -> Result<Vec<Area>, AllocError> {
    let open = board.all().minus(&board.stones(colour));
    let mut rest = open;
    let mut areas = Vec::new(alloc);
    for _ in 0..u64::MAX {
        let Some(first) = rest.first() else {
            break;
        };
        let points = board.joined(&NumberSet::of(first), &open);
        rest = rest.minus(&points);
        rest.remove(first);
        let beside = board.beside(&points).minus(&points);
        areas.push(Area {
            points,
            around: board.chains_at(&beside),
            is_chosen: false,
        })?;
    }
    Ok(areas)
}

/// The chains of the side that live by their shape without the areas that meet `without`.
pub(crate) fn pass_alive(
    alloc: Global,
    board: &Board,
    colour: Colour,
    without: &NumberSet,
) -> Result<PassAlive, AllocError> {
    let mut areas = Vec::new(alloc);
    let empty = board.empty();
    let all = areas_of(alloc, board, colour)?;
    for area in all.iter() {
        if !area.points.meets(without) && area.points.meets(&empty) {
            areas.push(*area)?;
        }
    }
    areas.sort_by_key(|area| area.points.len())?;
    let alive = alive_with(board, colour, areas.as_slice());
    for chain in alive.iter() {
        choose(board, chain, &alive, &mut areas);
    }
    let mut region = NumberSet::empty();
    for area in areas.iter() {
        if area.is_chosen {
            region = region.or(&area.points);
        }
    }
    Ok(PassAlive {
        chains: alive,
        region,
    })
}

/// Leaves out the chains that do not have two eyes, until all that are left have.
fn alive_with(board: &Board, colour: Colour, areas: &[Area]) -> NumberSet {
    let mut alive = board.chains_at(&board.stones(colour));
    for _ in 0..u64::MAX {
        let left = with_two_eyes(board, &alive, areas);
        if left == alive {
            break;
        }
        alive = left;
    }
    alive
}

/// Those of these chains that have two eyes which only such chains surround.
fn with_two_eyes(board: &Board, alive: &NumberSet, areas: &[Area]) -> NumberSet {
    let mut left = NumberSet::empty();
    for chain in alive.iter() {
        if eyes_of(board, chain, alive, areas) >= 2 {
            left.insert(chain);
        }
    }
    left
}

fn eyes_of(board: &Board, chain: usize, alive: &NumberSet, areas: &[Area]) -> usize {
    let mut eyes: usize = 0;
    for area in areas.iter() {
        if is_eye(board, chain, alive, area) {
            eyes = eyes.saturating_add(1);
        }
    }
    eyes
}

/// Whether the area is an eye of the chain that only these chains surround.
fn is_eye(board: &Board, chain: usize, alive: &NumberSet, area: &Area) -> bool {
    match board.chain(chain) {
        Some(chain) => area.points.is_within(&chain.near) && area.around.is_within(alive),
        None => false,
    }
}

/// Chooses areas for the chain until it has two.
fn choose(board: &Board, chain: usize, alive: &NumberSet, areas: &mut Vec<Area>) {
    let mut have: usize = 0;
    for area in areas.iter() {
        if area.is_chosen && is_eye(board, chain, alive, area) {
            have = have.saturating_add(1);
        }
    }
    for place in 0..areas.len() {
        choose_at(board, chain, alive, areas, place, &mut have);
    }
}

fn choose_at(
    board: &Board,
    chain: usize,
    alive: &NumberSet,
    areas: &mut Vec<Area>,
    place: usize,
    have: &mut usize,
) {
    if place < areas.len() && *have < 2 && !areas[place].is_chosen {
        let area = areas[place];
        if is_eye(board, chain, alive, &area) {
            areas[place].is_chosen = true;
            *have = have.saturating_add(1);
        }
    }
}

/// The part of these chains and areas that holds this chain: the chains that share areas with it, in turn.
pub(crate) fn part_with(board: &Board, whole: &PassAlive, chain: usize) -> PassAlive {
    let mut chains = NumberSet::of(chain);
    let mut region = NumberSet::empty();
    for _ in 0..u64::MAX {
        let beside = board.beside(&board.stones_of_chains(&chains));
        region = board.joined(&beside.and(&whole.region), &whole.region);
        let around = board.chains_at(&board.beside(&region)).and(&whole.chains);
        let more = chains.or(&around);
        if more == chains {
            break;
        }
        chains = more;
    }
    PassAlive { chains, region }
}
