//! What is found of chains.

use go_points::{Colour, Point, PointSet};

/// How chains live or die.
#[derive(Clone, Copy, Debug, PartialEq, Eq)]
pub enum Kind {
    /// They live by their shape, even if their owner always passes.
    PassAlive,
    /// They are kept by answers in one region.
    OneRegion,
    /// They are kept so with the help of chains that stand by themselves.
    WithFriends,
    /// They are kept by answers in two regions, each of which leaves a chain a liberty.
    TwoRegions,
    /// They are taken, whatever their owner plays.
    Dead,
    /// They are taken as long as named stones have liberties elsewhere.
    DeadWhile,
}

/// The other side's first move, and the answer (`None`: a pass).
#[derive(Clone, Copy, Debug, PartialEq, Eq)]
pub struct Answer {
    pub point: Point,
    pub answer: Option<Point>,
}

/// What is found of some chains.
#[derive(Drop)]
pub struct Finding {
    pub kind: Kind,
    /// The colour of the stones that it decides, and these stones.
    pub colour: Colour,
    pub stones: PointSet,
    /// Who has to be to move in a record that the claim is judged with. `None`: either.
    pub mover: Option<Colour>,
    /// The move that has to be played first, if any.
    pub first: Option<Point>,
    /// Whether it holds together with the other findings of which this is said.
    pub is_together: bool,
    /// The stones that stand in the course of it: those that live, or those that help to take others.
    pub kept: PointSet,
    /// The points where answers are played.
    pub region: PointSet,
    /// The stones that stand by themselves, on which it rests.
    pub friends: PointSet,
    /// The stones of which it is supposed that they have liberties elsewhere.
    pub supposed: PointSet,
    /// The answers to the other side's first moves. There are none where the owner may pass for ever.
    pub answers: Vec<Answer>,
    /// How many steps the question took.
    pub steps: u64,
    /// The text of the claim, without a record.
    pub claim: Vec<u8>,
}
