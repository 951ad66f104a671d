//! Proof and disproof numbers.

/// The number of what can never be proved, or disproved.
pub(crate) const INFINITE: u32 = 1 << 30;

/// More liberties than these are expected to be as hard to take.
const MAX_LIBERTIES: u32 = 100;

/// How many states have to be proved, at least, and how many disproved.
#[derive(Clone, Copy, Debug, PartialEq, Eq)]
pub(crate) struct Numbers {
    pub(crate) proof: u32,
    pub(crate) disproof: u32,
}

impl Numbers {
    pub(crate) fn won() -> Numbers {
        Numbers {
            proof: 0,
            disproof: INFINITE,
        }
    }

    pub(crate) fn lost() -> Numbers {
        Numbers {
            proof: INFINITE,
            disproof: 0,
        }
    }

    pub(crate) fn open(proof: u32) -> Numbers {
        Numbers { proof, disproof: 1 }
    }

    /// What is expected of a state that was not searched: the owner is so many points from rest, and the other side so many liberties from
    /// taking something. Squares of liberties make the search go on where it has begun to take them, which halves the steps.
    pub(crate) fn expected(far: u32, liberties: u32) -> Numbers {
        let most = liberties.min(MAX_LIBERTIES).max(1);
        Numbers {
            proof: far.saturating_add(1),
            disproof: most.saturating_mul(most),
        }
    }

    pub(crate) fn is_settled(self) -> bool {
        self.proof == 0 || self.disproof == 0
    }
}

/// What the children of a state say together, as its mover sees it.
#[derive(Clone, Copy, Debug)]
pub(crate) struct Count {
    least: u32,
    second: u32,
    sum: u32,
    /// The place of the child with the least number.
    pub(crate) best: usize,
}

impl Count {
    /// What no children say, which would begin at this place.
    pub(crate) fn none(first: usize) -> Count {
        Count {
            least: INFINITE,
            second: INFINITE,
            sum: 0,
            best: first,
        }
    }

    /// Adds the numbers of the child at this place.
    pub(crate) fn add(&mut self, place: usize, numbers: Numbers, is_own: bool) {
        let (mine, others) = if is_own {
            (numbers.proof, numbers.disproof)
        } else {
            (numbers.disproof, numbers.proof)
        };
        if mine < self.least {
            self.second = self.least;
            self.least = mine;
            self.best = place;
        } else if mine < self.second {
            self.second = mine;
        }
        self.sum = added(self.sum, others);
    }

    /// The numbers of the state.
    pub(crate) fn numbers(&self, is_own: bool) -> Numbers {
        if is_own {
            Numbers {
                proof: self.least,
                disproof: self.sum,
            }
        } else {
            Numbers {
                proof: self.sum,
                disproof: self.least,
            }
        }
    }

    /// The limits of the best child: twice the second child's number, or what is left to those of the state.
    pub(crate) fn limits_below(
        &self,
        limits: Numbers,
        numbers: Numbers,
        child: Numbers,
        is_own: bool,
    ) -> Numbers {
        let next = self.second.saturating_mul(2).saturating_add(1);
        if is_own {
            let left = limits.disproof.saturating_sub(numbers.disproof);
            Numbers {
                proof: next.min(limits.proof),
                disproof: left.saturating_add(child.disproof).min(INFINITE),
            }
        } else {
            let left = limits.proof.saturating_sub(numbers.proof);
            Numbers {
                proof: left.saturating_add(child.proof).min(INFINITE),
                disproof: next.min(limits.disproof),
            }
        }
    }
}

/// The sum of two numbers, below what can never be proved unless one of them is that.
fn added(sum: u32, number: u32) -> u32 {
    if sum >= INFINITE || number >= INFINITE {
        return INFINITE;
    }
    sum.saturating_add(number).min(INFINITE - 1)
}
