//! Whether stones stand, or are taken, by answers inside one region of the board alone: the search of one such question, and its
//! proof.
//!
//! Nothing is promised about what is found: a claim is made of it, and a judge decides whether that holds.
#![tactic(auto)]

mod board;
mod death_proof;
mod expand;
mod life_proof;
mod local_game;
mod number_set;
mod numbers;
mod parts;
mod place_set;
mod search;
mod state;
mod walk;

pub use board::{Board, Chain};
pub use death_proof::{DeathProof, Entry, Reply};
pub use life_proof::{LifeProof, Line, Listed};
pub use local_game::{LocalGame, Question};
pub use number_set::{NumberSet, Numbers};
pub use place_set::{MAX_PLACES, PlaceSet};
pub use search::Search;
pub use state::State;
pub use walk::{Costs, nearest_points};
