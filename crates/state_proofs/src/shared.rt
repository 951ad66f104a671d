//! Shared proofs of a problem.

use crate::proofs::Proofs;
use go_points::Colour;

/// Who wins, with shared proofs and the number of the proof of the first state.
#[derive(Drop)]
pub struct Shared {
    pub winner: Colour,
    pub proofs: Proofs,
    pub root: u32,
}
