//! Copies of the board from before moves that are costly to take back. Without them, taking back a move that joined long chains, or
//! that captured, puts the stones of those chains down again one by one.
//!
//! Nothing rests on the copies: a copy is taken over only if it holds exactly the colouring that is wanted, and otherwise the board
//! finds its own way there. So no invariant says what they hold.

ghost use Rattle.std.specs.Prelude.{◌≡◌, None};
ghost use Rattle.go_points.specs.Grid.{side_of};
ghost use Rattle.go_points.specs.Place.{IsOn};
ghost use Rattle.go_points.specs.Liberty.{first_without_liberty};

use crate::board::Board;
use go_points::{Colour, Colouring, Point};
use std::alloc::Global;

/// So many copies are kept at most. A line of play with more costly moves than this is taken back without a copy at its beginning.
const MAX_SPARES: usize = 32;

// A copy of the board, and how many steps the record had when it was made.
#[derive(Drop)]
struct Spare<B: Board> {
    board: B,
    depth: usize,
}

/// Copies of the board, the latest last. The memory of those that are forgotten is kept for later ones.
#[derive(Drop)]
pub(crate) struct Spares<B: Board> {
    spares: Vec<Spare<B>>,
    /// How many are not forgotten.
    count: usize,
}

impl<B: Board> Spares<B> {
    /// No copies.
    pub(crate) fn new(alloc: Global) -> Spares<B> {
        Spares {
            spares: Vec::new(alloc),
            count: 0,
        }
    }

    /// Forgets all copies.
    pub(crate) fn clear(&mut self) {
        self.count = 0;
    }

    /// Keeps a copy of the board if a move at the point is costly to take back. Not inlined: with the question in it a move got
    /// slower.
    #[inline(never)]
    pub(crate) fn keep_if_costly(&mut self, board: &B, colour: Colour, point: Point, depth: usize)
        requires { IsOn (side_of (B.content board.now)) point }
    {
        if board.is_costly(colour, point) {
            self.keep(board, depth);
        }
    }

    // Keeps a copy of the board.
    fn keep(&mut self, board: &B, depth: usize) {
        if self.count >= MAX_SPARES {
            self.count = 0;
        }
        let place = self.count;
        if place < self.spares.len() {
            self.spares[place].board.copy_from(board);
            self.spares[place].depth = depth;
            self.count = place + 1;
        } else {
            self.add(board, depth);
        }
    }

    // Keeps a copy of the board in new memory. If that is refused, there is no copy. Not inlined: its caller would fill the room for
    // the copy on each of its ways.
    #[inline(never)]
    fn add(&mut self, board: &B, depth: usize) {
        let board = board.copy();
        if self.spares.push(Spare { board, depth }).is_ok() {
            self.count = self.spares.len();
        }
    }

    // The latest copy, if it was made at this depth. Steps are taken back latest first, each with its copy, so if there is one of
    // this depth it is the latest.
    fn at(&self, depth: usize) -> Option<&Spare<B>> {
        match self.spares.get(self.count.checked_sub(1)?) {
            Some(spare) if spare.depth == depth => Some(spare),
            _ => None,
        }
    }

    /// Lets the board hold the colouring, by the copy that was made at this depth, if there is one. The copy is then forgotten.
    pub(crate) fn restore(&mut self, board: &mut B, wanted: &Colouring, depth: usize)
        requires size { side_of wanted.now ≡ side_of (B.content board.old) }
        requires liberties { first_without_liberty (side_of wanted.now) wanted.now ≡ None }
        ensures { B.content board.new ≡ wanted.now }
    {
        let Some(spare) = self.at(depth) else {
            board.restore(wanted);
            return;
        };
        if spare.board.colouring() == *wanted {
            board.copy_from(&spare.board);
        } else {
            board.restore(wanted);
        }
        self.count = self.count.saturating_sub(1);
    }
}
