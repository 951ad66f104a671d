//! A table of proof numbers that forgets the least recently used ones. What it holds guides a search and proves nothing.
#![tactic(auto)]

mod key;
mod numbers;
mod table;

pub use key::Key;
pub use numbers::{INFINITY, Numbers};
pub use table::Table;
