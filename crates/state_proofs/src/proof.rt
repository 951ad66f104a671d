//! A settled state: who wins it, and the conditions on the past under which its proof holds.

use go_points::{Colour, Turn};
use pn_table::Key;

/// How a state is won.
#[derive(Clone, Copy, Debug, PartialEq, Eq)]
pub enum Form {
    /// The mover wins by one turn.
    Turn,
    /// The mover loses by every turn.
    Replies,
    /// The defender lives by the shape of his stones. Such a proof has no branches: it is a leaf of a short claim, and no other
    /// claim can be made of it.
    Alive,
    /// The defender cannot have two eyes. Such a proof has no branches yet, and no claim can be made of it.
    Dead,
}

/// What is below a turn.
#[derive(Clone, Copy, Debug, PartialEq, Eq)]
pub enum Below {
    /// The winner has won.
    Won,
    /// The state of the proof with this number.
    Proof(u32),
}

/// A number, or none, in half of the bytes that `Option` takes. There are millions of them, and the greatest number stands for none.
#[derive(Clone, Copy, PartialEq, Eq)]
pub(crate) struct OptionalNumber {
    number: u32,
}

impl OptionalNumber {
    pub(crate) fn of(number: Option<u32>) -> OptionalNumber {
        OptionalNumber {
            number: number.unwrap_or(u32::MAX),
        }
    }

    pub(crate) fn none() -> OptionalNumber {
        OptionalNumber::of(None)
    }

    pub(crate) fn get(self) -> Option<u32> {
        if self.number == u32::MAX {
            None
        } else {
            Some(self.number)
        }
    }
}

/// A turn of a proof, and what is below it.
#[derive(Clone, Copy)]
pub struct Branch {
    pub turn: Turn,
    /// The number of the proof below. If there is none, the winner has won.
    proof: OptionalNumber,
}

impl Branch {
    pub fn of(turn: Turn, below: Below) -> Branch {
        let number = match below {
            Below::Won => None,
            Below::Proof(number) => Some(number),
        };
        Branch {
            turn,
            proof: OptionalNumber::of(number),
        }
    }

    pub fn below(self) -> Below {
        match self.proof.get() {
            None => Below::Won,
            Some(number) => Below::Proof(number),
        }
    }
}

/// A part of a list that is shared with other parts.
#[derive(Clone, Copy, PartialEq, Eq)]
pub(crate) struct Span {
    pub(crate) from: u32,
    pub(crate) to: u32,
}

impl Span {
    /// A part without elements.
    pub(crate) fn none() -> Span {
        Span { from: 0, to: 0 }
    }

    pub(crate) fn len(self) -> usize {
        self.to.saturating_sub(self.from) as usize
    }
}

/// The fingerprints of results of moves, in two lists that ascend and have none in common. The first may be that of a proof below;
/// then what is not in it is little.
#[derive(Clone, Copy, PartialEq, Eq)]
pub(crate) struct Results {
    pub(crate) listed: Span,
    pub(crate) more: Span,
}

impl Results {
    pub(crate) fn none() -> Results {
        Results {
            listed: Span::none(),
            more: Span::none(),
        }
    }

    pub(crate) fn len(self) -> usize {
        self.listed.len().saturating_add(self.more.len())
    }
}

/// What the past must be like for a proof to hold.
#[derive(Clone, Copy, PartialEq, Eq)]
pub(crate) struct Conditions {
    /// The results of the winner's moves: none of them may have occurred.
    pub(crate) not: Results,
    /// The number of the list of what must have occurred: the results of moves that the proof leaves out. Few proofs have one.
    pub(crate) had: OptionalNumber,
}

impl Conditions {
    /// No conditions.
    pub(crate) fn none() -> Conditions {
        Conditions {
            not: Results::none(),
            had: OptionalNumber::none(),
        }
    }

    /// Whether any past will do.
    pub(crate) fn are_none(self) -> bool {
        self.not.len() == 0 && self.had.get().is_none()
    }
}

/// A settled state. There are up to millions of them, so each has 40 bytes.
#[derive(Clone, Copy)]
pub struct Proof {
    /// The parts of its key.
    position: u64,
    mover: Colour,
    passes: u8,
    pub winner: Colour,
    pub form: Form,
    /// Whether its state was expanded, rather than only settled by a question.
    pub is_expanded: bool,
    /// The number of turns of the longest line of play below.
    pub depth: u16,
    pub(crate) branches: Span,
    /// The number of its conditions, if there are any.
    conditions: OptionalNumber,
    /// An earlier proof that is found in the same place.
    next: OptionalNumber,
    /// The turns of the answer tree; the greatest number also stands for more.
    pub turns: u64,
}

impl Proof {
    /// The proof with these branches, under the conditions with this number. `next` is an earlier one that is found in the same
    /// place.
    pub(crate) fn of(
        settled: Settled,
        branches: Span,
        conditions: Option<u32>,
        size: TreeSize,
        next: Option<u32>,
    ) -> Proof {
        Proof {
            position: settled.key.position,
            mover: settled.key.mover,
            passes: settled.key.passes,
            winner: settled.winner,
            form: settled.form,
            is_expanded: settled.is_expanded,
            depth: size.depth,
            branches,
            conditions: OptionalNumber::of(conditions),
            next: OptionalNumber::of(next),
            turns: size.turns,
        }
    }

    /// The key of its state.
    pub fn key(self) -> Key {
        Key {
            position: self.position,
            mover: self.mover,
            passes: self.passes,
        }
    }

    /// The number of its conditions, if there are any.
    pub(crate) fn conditions(self) -> Option<u32> {
        self.conditions.get()
    }

    /// The earlier proof that is found in the same place.
    pub(crate) fn next(self) -> Option<u32> {
        self.next.get()
    }

    /// The proof with another earlier proof that is found in the same place.
    pub(crate) fn after(self, next: Option<u32>) -> Proof {
        Proof {
            next: OptionalNumber::of(next),
            ..self
        }
    }

    /// The proof with no conditions.
    pub(crate) fn without_conditions(self) -> Proof {
        Proof {
            conditions: OptionalNumber::none(),
            ..self
        }
    }

    /// The proof with its branches at another place.
    pub(crate) fn with_branches(self, branches: Span) -> Proof {
        Proof { branches, ..self }
    }

    /// What it settles, for another proof of the same state, which was expanded.
    pub fn settled(self) -> Settled {
        Settled::expanded(self.key(), self.winner, self.form)
    }
}

/// What a proof is made of, besides its branches.
#[derive(Clone, Copy)]
pub struct Settled {
    pub key: Key,
    pub winner: Colour,
    pub form: Form,
    /// Whether the state was expanded.
    pub is_expanded: bool,
}

impl Settled {
    /// A state that was expanded.
    pub fn expanded(key: Key, winner: Colour, form: Form) -> Settled {
        Settled {
            key,
            winner,
            form,
            is_expanded: true,
        }
    }
}

/// How large the tree of a proof is.
#[derive(Clone, Copy)]
pub(crate) struct TreeSize {
    pub(crate) turns: u64,
    pub(crate) depth: u16,
}
