//! Claims held in memory: who wins, with the trees that show it.

use crate::version::Version;
use go_points::{Colour, Colouring, Size, Turn};

/// A proof tree. At a state it says why the winner wins there.
#[derive(Debug, Drop)]
pub enum Node {
    /// The winner has won.
    Won,

    /// The lemma with this number, counted from 1, says so.
    Use(u32),

    /// The winner makes the turn, and then the tree below it holds.
    Play(Turn, Box<Node>),

    /// The other side moves: each of its turns, with the tree below it.
    All(Vec<(Turn, Node)>),
}

/// A position that is won whatever the past, as long as the past holds the root and the colourings of `had`, and none of those of
/// `absent`.
#[derive(Debug, Drop)]
pub struct Lemma {
    pub mover: Colour,
    pub passes: u8,
    pub root: Colouring,
    pub had: Vec<Colouring>,
    pub absent: Vec<Colouring>,
    pub body: Node,
}

/// A claim: the winner of a problem on a board of this size, with the lemmas and the tree that show it. In version 1 no lemma may
/// have colourings of `had`.
#[derive(Debug, Drop)]
pub struct Certificate {
    pub version: Version,
    pub size: Size,
    pub winner: Colour,
    pub lemmas: Vec<Lemma>,
    pub main: Node,
}
