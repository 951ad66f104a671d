//! The numbers of a state as its mover sees them, and those at which the work at it ends.

use pn_table::Numbers;

/// The least that is left to do for the mover to win, and for the other side to win.
#[derive(Clone, Copy, Debug, PartialEq, Eq)]
pub struct MoverNumbers {
    pub own: u32,
    pub other: u32,
}

/// The numbers at which the work at a state ends.
#[derive(Clone, Copy, Debug, PartialEq, Eq)]
pub struct Thresholds {
    pub own: u64,
    pub other: u64,
}

impl MoverNumbers {
    /// The numbers of a state of which nothing is known.
    pub fn unknown() -> MoverNumbers {
        MoverNumbers { own: 1, other: 1 }
    }

    /// The numbers as the table has them, for the attacker as prover.
    pub fn from_table(numbers: Numbers, is_attacker: bool) -> MoverNumbers {
        if is_attacker {
            MoverNumbers {
                own: numbers.proof,
                other: numbers.disproof,
            }
        } else {
            MoverNumbers {
                own: numbers.disproof,
                other: numbers.proof,
            }
        }
    }

    /// The numbers as they are stored in the table.
    pub fn for_table(self, is_attacker: bool) -> Numbers {
        if is_attacker {
            Numbers {
                proof: self.own,
                disproof: self.other,
            }
        } else {
            Numbers {
                proof: self.other,
                disproof: self.own,
            }
        }
    }

    /// The numbers as the other side sees them.
    pub fn turned(self) -> MoverNumbers {
        MoverNumbers {
            own: self.other,
            other: self.own,
        }
    }
}

impl Thresholds {
    /// Thresholds that no numbers reach.
    pub fn none() -> Thresholds {
        Thresholds {
            own: u64::MAX,
            other: u64::MAX,
        }
    }

    /// Whether the work ends at these numbers.
    pub fn are_reached(self, numbers: MoverNumbers) -> bool {
        numbers.own as u64 >= self.own || numbers.other as u64 >= self.other
    }

    /// The thresholds of a child with the numbers `child`, as its mover sees them. These are those of the state with the numbers
    /// `state`, whose mover leaves the child at the number `own`.
    pub fn below(self, own: u64, state: MoverNumbers, child: MoverNumbers) -> Thresholds {
        let others = (state.other as u64).saturating_sub(child.other as u64);
        Thresholds {
            own: self.other.saturating_sub(others),
            other: own,
        }
    }
}
