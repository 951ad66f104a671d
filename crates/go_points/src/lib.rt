//! The board of Go: colours, points, colourings, sets of points, and their texts.
#![tactic(auto)]

ghost use Rattle.std.specs.Prelude.{◌≡◌};
ghost use Rattle.go_points.specs.declared.Cell.TheVariants.{Empty, Stone};
ghost use Rattle.go_points.specs.Grid.{opponent_of, same_cell};

/// The greatest number of rows and columns of a board: GTP 2 has no columns past it.
pub const MAX_SIZE: u8 = 25;

/// The number of points of that board.
pub const MAX_POINTS: usize = MAX_SIZE as usize * MAX_SIZE as usize;

/// One of the two sides. White stands first, so that the derived order of cells is that of their texts.
#[derive(Clone, Copy, Debug, PartialEq, Eq, PartialOrd, Ord, Hash)]
pub enum Colour {
    White,
    Black,
}

impl Colour {
    /// The other side.
    pub fn opponent(self) -> Colour
        ensures { result ≡ opponent_of self }
    {
        match self {
            Colour::Black => Colour::White,
            Colour::White => Colour::Black,
        }
    }
}

/// What a point holds.
#[derive(Clone, Copy, Debug, PartialEq, Eq, PartialOrd, Ord, Hash)]
pub enum Cell {
    Empty,
    Stone(Colour),
}

impl Cell {
    /// Whether there is no stone.
    pub fn is_empty(self) -> bool
        ensures { result ≡ same_cell self Empty }
    {
        self == Cell::Empty
    }

    /// Whether there is a stone of this colour.
    pub fn is_stone_of(self, colour: Colour) -> bool
        ensures { result ≡ same_cell self (Stone colour) }
    {
        self == Cell::Stone(colour)
    }
}

mod colouring;
mod colouring_list;
pub mod laws;
mod narrow_colouring;
mod point;
mod point_bits;
mod point_set;
mod points;
mod sgf;
mod size;
mod text;
mod vertex;

pub use colouring::Colouring;
pub use colouring_list::ColouringList;
pub use point::Point;
pub use point_set::{Members, PointSet};
pub use points::Points;
pub use sgf::{sgf_point, to_sgf};
pub use size::Size;
pub use vertex::{Vertex, gtp_vertex, to_gtp};

/// A turn of the game: a pass, or a move at a point.
#[derive(Clone, Copy, Debug, Default, PartialEq, Eq, PartialOrd, Ord, Hash)]
pub enum Turn {
    #[default]
    Pass,
    At(Point),
}
