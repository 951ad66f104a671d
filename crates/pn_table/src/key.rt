//! The key of a state in the table.

use go_points::Colour;

/// A state, by the key of its colouring, the colour to move and the passes in a row. Two states may share a key.
///
/// Its hash is that of the position alone: few states share one, and each key is hashed once or twice for each child.
#[derive(Clone, Copy, Debug, PartialEq, Eq)]
#[derive_where(Hash)]
pub struct Key {
    pub position: u64,
    #[derive_where(skip(Hash))]
    pub mover: Colour,
    #[derive_where(skip(Hash))]
    pub passes: u8,
}
