//! Sets of points with a word of bits for each row, so that a question is asked at all points of a row at once.

use go_points::{MAX_SIZE, PointSet, Size};

/// The rows of the widest board, with an empty one above and below them.
const ROWS: usize = MAX_SIZE as usize + 2;

/// A set of points. The bit of a point is that of its column, in the word of its row.
#[derive(Clone, Copy)]
pub(crate) struct Rows {
    words: [u32; ROWS],
}

impl Rows {
    /// The set without points.
    pub(crate) fn none() -> Rows {
        Rows { words: [0; ROWS] }
    }

    /// The points of a set that are on the board.
    pub(crate) fn of(points: &PointSet, size: Size) -> Rows {
        let mut rows = Rows::none();
        for point in points.iter() {
            if size.holds(point) {
                let row = point.row();
                rows.set(row, rows.at(row) | 1 << point.col());
            }
        }
        rows
    }

    /// Makes these the points of the row.
    pub(crate) fn set(&mut self, row: u8, word: u32) {
        let place = row as usize + 1;
        if place < self.words.len() {
            self.words[place] = word;
        }
    }

    // The word at this place; the board's first row has the second.
    fn word(&self, place: usize) -> u32 {
        match self.words.get(place) {
            Some(word) => *word,
            None => 0,
        }
    }

    /// The points of the row.
    pub(crate) fn at(&self, row: u8) -> u32 {
        self.word(row as usize + 1)
    }

    /// The points of the row that are beside a point of the set.
    pub(crate) fn beside(&self, row: u8) -> u32 {
        let here = self.at(row);
        self.word(row as usize) | self.word(row as usize + 2) | here << 1 | here >> 1
    }

    /// The points of the row that are beside two points of the set, or more.
    pub(crate) fn beside_two(&self, row: u8) -> u32 {
        let here = self.at(row);
        let (left, right) = (here << 1, here >> 1);
        let (above, below) = (self.word(row as usize), self.word(row as usize + 2));
        left & right | above & below | (left | right) & (above | below)
    }
}
