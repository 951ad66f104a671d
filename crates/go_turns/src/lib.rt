//! Boards, the turns made on them, what has occurred, and undo.
#![tactic(auto)]

mod board;
mod chain_board;
mod clearing;
mod fault;
mod hash_seen;
pub mod laws;
mod list_seen;
mod plain_board;
mod questions;
mod record;
mod seen;
mod spares;

pub use board::{Board, NoLiberty, Occupied};
pub use clearing::cleared;
pub use fault::TurnFault;
pub use go_chains::ChainBoard;
pub use hash_seen::HashSeen;
pub use list_seen::ListSeen;
pub use plain_board::PlainBoard;
pub use record::Record;
pub use seen::Seen;

/// The board that play uses. The layers above use this name, so a faster board would be put in its place only here.
pub type PlayBoard = ChainBoard;

/// The list of colourings that play uses, named here for the same reason.
pub type PlaySeen = HashSeen;

/// The record that play uses.
pub type PlayRecord = Record<PlayBoard, PlaySeen>;
