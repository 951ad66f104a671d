//! Why a claim is rejected.

use go_points::Turn;

/// Why a line of a claim is faulty.
#[derive(Clone, Copy, Debug, PartialEq, Eq)]
pub enum Why {
    /// The line is not spelled as lines are, not ended, missing, or of a kind that is not allowed there.
    Malformed,
    /// The size is not the problem's.
    SizeDiffers,
    /// The lemma's root has a stone that does not reach empty.
    RootWithoutLiberty,
    /// The winner has not won here.
    NotWon,
    /// The game is over, or the other side is to move.
    WrongSide,
    /// The point is outside the region, or not empty.
    TurnBarred,
    /// The result is a known colouring.
    RepeatsKnown,
    /// The result is not on the lemma's list.
    NotListed,
    /// The replies are not those that are due. `due` is the one that is.
    RepliesDiffer { due: Turn },
    /// No lower lemma has this number.
    LemmaNotLower,
    /// The root, the mover or the passes of the lemma are not the present ones.
    StateDiffers,
    /// A colouring that the lemma needs is not known.
    NeededNotOccurred,
    /// A colouring on the lemma's list is known.
    ListedOccurred,
    /// A colouring on the lemma's list is not on the list of the lemma that uses it.
    ListedNotPassedOn,
    /// The colouring does not come after the one before it on the list.
    ListOrder,
    /// The claim has more lemmas, nodes or listed colourings, or a deeper node, than a claim may have.
    Limit,
    /// Something follows the claim.
    TextAfterEnd,
    /// Memory was refused.
    Memory,
    /// The lines could not be read.
    Read,
}

/// The first fault of a claim: its line, counted from 1, and why it is faulty.
#[derive(Clone, Copy, Debug, PartialEq, Eq)]
pub struct Reject {
    pub place: u64,
    pub why: Why,
}
