//! What the children of a state say of it: who wins it, or its numbers.

use crate::numbers::MoverNumbers;

/// What the children say of their state.
#[derive(Clone, Copy)]
pub enum Standing {
    /// The mover wins by a child.
    Wins,
    /// The mover loses by all children.
    Loses,
    Open(Count),
}

/// The numbers of a state, gathered while its children are looked at one by one. The search gives each child a value, its number or
/// what it makes of it, and works at the child with the least.
#[derive(Clone, Copy)]
pub struct Count {
    /// The place of the first child with the least value.
    pub best: usize,
    /// That value, and the least one of the other children. The greatest number stands for none.
    first: u64,
    second: u64,
    /// The least number.
    least: u32,
    /// The sum of the other side's numbers.
    sum: u64,
}

impl Count {
    /// The count of no child.
    pub fn none() -> Count {
        Count {
            best: 0,
            first: u64::MAX,
            second: u64::MAX,
            least: u32::MAX,
            sum: 0,
        }
    }

    /// Adds the child at this place, which is not settled. Its value is not the greatest number.
    pub fn add(&mut self, place: usize, numbers: MoverNumbers, value: u64) {
        self.least = self.least.min(numbers.own);
        self.sum = self.sum.saturating_add(numbers.other as u64);
        if value < self.first {
            self.best = place;
            self.second = self.first;
            self.first = value;
        } else {
            self.second = self.second.min(value);
        }
    }

    /// What the children say if those that are not counted lose.
    pub fn standing(self) -> Standing {
        if self.first == u64::MAX {
            Standing::Loses
        } else {
            Standing::Open(self)
        }
    }

    /// The numbers of the state: the least one of its own, and the sum of the others, which stops at `most`.
    pub fn numbers(self, most: u32) -> MoverNumbers {
        MoverNumbers {
            own: self.least,
            other: self.sum.min(most as u64) as u32,
        }
    }

    /// The value at which work goes from the best child to another one: one and a half times the least value of the others and
    /// `more`. `None` if there is no other child.
    pub fn switching_value(self, more: u64) -> Option<u64> {
        if self.second == u64::MAX {
            return None;
        }
        let half = self.second / 2;
        Some(self.second.saturating_add(half).saturating_add(more))
    }
}
