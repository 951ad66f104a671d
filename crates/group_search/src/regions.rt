//! Regions, and the chains beside them.

use go_points::Colour;
use safety_search::{Board, NumberSet};

/// These empty points, and the chains of the other side that have no liberty elsewhere.
pub(crate) fn region_of(board: &Board, colour: Colour, empty: &NumberSet) -> NumberSet {
    with_shut_in(board, colour.opponent(), empty, empty)
}

/// The same with the chains of both sides that have no liberty elsewhere.
pub(crate) fn region_of_both(board: &Board, empty: &NumberSet) -> NumberSet {
    let one = with_shut_in(board, Colour::Black, empty, empty);
    with_shut_in(board, Colour::White, empty, &one)
}

/// The region with the chains of this colour whose liberties are all among these empty points.
fn with_shut_in(board: &Board, colour: Colour, empty: &NumberSet, region: &NumberSet) -> NumberSet {
    let mut all = *region;
    for chain in board.chains().iter() {
        if chain.colour == colour && chain.liberties.is_within(empty) {
            all = all.or(&chain.stones);
        }
    }
    all
}

/// The chains of this colour beside the region.
pub(crate) fn chains_beside(board: &Board, colour: Colour, region: &NumberSet) -> NumberSet {
    let beside = board.beside(region).minus(region);
    board.chains_at(&beside.and(&board.stones(colour)))
}

/// The number of liberties that the chain has in the region, and outside.
pub(crate) fn liberties_in(board: &Board, chain: usize, region: &NumberSet) -> (usize, usize) {
    match board.chain(chain) {
        Some(chain) => (
            chain.liberties.and(region).len(),
            chain.liberties.minus(region).len(),
        ),
        None => (0, 0),
    }
}

/// Those of these chains that have so many liberties in the region, or none elsewhere if `or_all` is set; always with this one.
pub(crate) fn with_liberties(
    board: &Board,
    chains: &NumberSet,
    region: &NumberSet,
    least: usize,
    or_all: bool,
) -> NumberSet {
    let mut some = NumberSet::empty();
    for chain in chains.iter() {
        let (inside, outside) = liberties_in(board, chain, region);
        if inside >= least || or_all && outside == 0 {
            some.insert(chain);
        }
    }
    some
}

/// The sets of chains beside the region that are worth a try, with this chain in each: all of them, those with two liberties in the
/// region, those with three or with all of theirs, and the chain alone.
pub(crate) fn choices(
    board: &Board,
    all: &NumberSet,
    region: &NumberSet,
    chain: usize,
) -> [NumberSet; 4] {
    let mut two = with_liberties(board, all, region, 2, false);
    two.insert(chain);
    let mut three = with_liberties(board, all, region, 3, true);
    three.insert(chain);
    [*all, two, three, NumberSet::of(chain)]
}

/// The chains of this colour that have three liberties outside the region.
pub(crate) fn strong_chains(board: &Board, chains: &NumberSet, region: &NumberSet) -> NumberSet {
    let mut strong = NumberSet::empty();
    for chain in chains.iter() {
        if liberties_in(board, chain, region).1 >= 3 {
            strong.insert(chain);
        }
    }
    strong
}

/// The set of these points.
pub(crate) fn set_of(points: &[usize]) -> NumberSet {
    let mut set = NumberSet::empty();
    for point in points.iter() {
        set.insert(*point);
    }
    set
}

/// The set of the first `count` of these points.
pub(crate) fn set_of_first(points: &[usize], count: usize) -> NumberSet {
    let mut set = NumberSet::empty();
    for at in 0..points.len().min(count) {
        set.insert(points[at]);
    }
    set
}
