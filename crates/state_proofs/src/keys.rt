//! The keys of the states after a turn.

use go_points::Turn;
use pn_table::Key;

/// The key of the state after a pass at this one.
pub fn key_after_pass(key: Key) -> Key {
    Key {
        position: key.position,
        mover: key.mover.opponent(),
        passes: key.passes.saturating_add(1),
    }
}

/// The key of the state after a move at this one, which leads to this position.
pub fn key_after_move(key: Key, position: u64) -> Key {
    Key {
        position,
        mover: key.mover.opponent(),
        passes: 0,
    }
}

/// The key of the state after a turn at this one. If it is a move, it leads to this position.
pub fn key_after(key: Key, turn: Turn, position: u64) -> Key {
    match turn {
        Turn::Pass => key_after_pass(key),
        Turn::At(_) => key_after_move(key, position),
    }
}
