//! Which groups of a board live, or die, on the whole board by answers in small regions: which questions are asked, how their
//! answers are put together, and the claim that each of them makes.
//!
//! Nothing is promised about what is found. Each finding has a claim, and a judge decides whether that holds.
#![tactic(auto)]

mod adding;
mod asking;
mod claim;
mod death;
mod dying;
mod finding;
mod group_search;
mod growing;
mod keeping;
mod limits;
mod pairing;
mod pass_alive;
mod past;
mod proofs;
mod regions;
mod rounds;
mod text;

pub use asking::{find_by_first_move, find_for_stone, find_taken};
pub use finding::{Answer, Finding, Kind};
pub use group_search::GroupSearch;
pub use limits::Limits;
