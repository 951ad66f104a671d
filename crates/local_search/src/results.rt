//! How often turns have won.

use local_board::{Side, Step};
use std::alloc::{AllocError, Global};

/// How often a turn was tried, and how often it won.
#[derive(Clone, Copy)]
struct Tally {
    won: u32,
    tried: u32,
}

/// How often the turns of each side have won, after each last turn and in all.
#[derive(Drop)]
pub(crate) struct TurnResults {
    tallies: Vec<Tally>,
    /// How many places there are.
    places: usize,
}

/// The rows of the tallies of a side's turns after a last turn, and in all.
#[derive(Clone, Copy)]
pub(crate) struct TurnRows {
    after: usize,
    all: usize,
}

/// The greatest number of tries that a tally keeps.
const MAX_TRIED: u32 = 200;

/// The weight of a turn of which nothing is known, and the least and the greatest weight.
const EVEN: u32 = 8;

const LEAST: u32 = 4;

const GREATEST: u32 = 32;

/// The weight of a turn that was never tried.
const NEVER_TRIED: u32 = 11;

impl TurnResults {
    /// No results yet, on a board with this many places.
    pub(crate) fn of(alloc: Global, places: usize) -> Result<TurnResults, AllocError> {
        let width = places.saturating_add(2);
        let count = width.saturating_mul(width).saturating_mul(2);
        let mut tallies = Vec::with_capacity(alloc, count)?;
        for _ in 0..count {
            tallies.push(Tally { won: 0, tried: 0 })?;
        }
        Ok(TurnResults { tallies, places })
    }

    /// The place of a turn in a row.
    fn column(&self, step: Step) -> usize {
        match step {
            Step::At(place) => place as usize,
            Step::Pass => self.places,
        }
    }

    /// The index of the first tally of this row of the side's turns.
    fn row(&self, side: Side, row: usize) -> usize {
        let width = self.places.saturating_add(2);
        let first = match side {
            Side::Attacker => 0,
            Side::Defender => width,
        };
        first.saturating_add(row).saturating_mul(width)
    }

    fn at(&self, row: usize, step: Step) -> Tally {
        match self.tallies.get(row.saturating_add(self.column(step))) {
            Some(tally) => *tally,
            None => Tally { won: 0, tried: 0 },
        }
    }

    /// Where the tallies of the side's turns after the last one are.
    pub(crate) fn rows(&self, side: Side, last: Step) -> TurnRows {
        TurnRows {
            after: self.row(side, self.column(last)),
            all: self.row(side, self.places.saturating_add(1)),
        }
    }

    /// How unlikely a turn is to win, in eighths: eight times the square root of one half divided by the chance.
    pub(crate) fn weight(&self, rows: TurnRows, step: Step) -> u32 {
        let all = self.at(rows.all, step);
        if all.tried == 0 {
            return NEVER_TRIED;
        }
        let after = self.at(rows.after, step);
        let known = all.tried.saturating_add(4);
        let chance = after.tried.saturating_add(4).saturating_mul(known);
        let won = after
            .won
            .saturating_mul(known)
            .saturating_add(all.won.saturating_add(1).saturating_mul(4));
        root(chance.saturating_mul(32) / won.max(1))
    }

    /// Notes whether the side's turn after the last one has won.
    pub(crate) fn learn(&mut self, side: Side, step: Step, last: Step, won: bool) {
        let rows = self.rows(side, last);
        self.note(rows.after, step, won);
        self.note(rows.all, step, won);
    }

    fn note(&mut self, row: usize, step: Step, won: bool) {
        let at = row.saturating_add(self.column(step));
        if at < self.tallies.len() {
            let tally = self.tallies[at];
            let more = if won { 1 } else { 0 };
            let next = Tally {
                won: tally.won.saturating_add(more),
                tried: tally.tried.saturating_add(1),
            };
            self.tallies[at] = if next.tried > MAX_TRIED {
                Tally {
                    won: next.won / 2,
                    tried: next.tried / 2,
                }
            } else {
                next
            };
        }
    }
}

/// The integer square root, within the least and the greatest weight.
fn root(square: u32) -> u32 {
    for weight in LEAST..GREATEST {
        let next = weight + 1;
        if next * next > square {
            return weight;
        }
    }
    GREATEST
}

/// The weight of a turn of which nothing is known.
pub(crate) fn even_weight() -> u32 {
    EVEN
}
