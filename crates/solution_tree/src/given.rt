//! The turns that the children of a node have.

ghost use Rattle.std.specs.Prelude.{◌≡◌, [], ◌∷◌, ◌++◌, ℕ, List};
ghost use Rattle.go_points.specs.Ply.{Ply, ply_of};
ghost use Rattle.tsumego_problem.specs.Walked.{StandsOn};
ghost use Rattle.solution_tree.specs.Private.Asked.{Tells, given_has};

use go_points::{PointSet, Turn};

/// A set of turns. No call allocates memory.
#[derive(Clone, Copy)]
pub(crate) struct Given {
    points: PointSet,
    pass: bool,
}

impl Given {
    /// The set without turns.
    pub(crate) fn new() -> Given
        ensures { (n : ℕ) → Tells n result [] }
    {
        Given {
            points: PointSet::new(),
            pass: false,
        }
    }

    /// Whether the turn is in the set.
    pub(crate) fn has(&self, turn: Turn) -> bool
        ensures { result ≡ given_has self.now turn }
    {
        match turn {
            Turn::Pass => self.pass,
            Turn::At(point) => self.points.has(point),
        }
    }

    /// Adds the turn to the set.
    pub(crate) fn insert(&mut self, turn: Turn)
        ensures { (n : ℕ) (turns : List Ply) → StandsOn n (ply_of n turn) → Tells n self.old turns
            → Tells n self.new (turns ++ ply_of n turn ∷ []) }
    {
        match turn {
            Turn::Pass => self.pass = true,
            Turn::At(point) => self.points.insert(point),
        }
    }
}
