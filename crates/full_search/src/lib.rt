//! Full search: the side that can force a win within the fewest turns, with a tree of play that shows it.
#![tactic(auto)]

mod search;

pub use search::first_win;
