//! The board of one problem as the search sees it: sets of the points that can change, and what their shapes say of life and death.
//!
//! Points outside the region, and stones that can never be taken, do not change. All other points have a number, their place, and a
//! position is a set of places for each side. Nothing is promised about the answers: they guide a search, and what it finds is
//! given to the checker.
#![tactic(auto)]

mod board;
mod changing;
mod eyes;
mod large_set;
mod latest;
mod life;
mod place_set;
mod position;
mod room;
mod shapes;
mod small_set;
mod taking;

pub use board::Board;
pub use changing::count_changing;
pub use eyes::Eyes;
pub use large_set::LargeSet;
pub use place_set::{PlaceSet, Places};
pub use position::{Position, Side, Step};
pub use room::Room;
pub use shapes::Shapes;
pub use small_set::{MAX_SMALL, SmallSet};
