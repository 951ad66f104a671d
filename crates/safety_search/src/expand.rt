//! The children of a state.

use crate::numbers::Numbers;
use crate::search::{Child, Key, Search};
use crate::state::{Outcome, State};
use std::alloc::AllocError;

impl Search {
    /// Adds the children of the state to the list.
    pub(crate) fn expand(&mut self, key: Key) -> Result<(), AllocError> {
        if key.is_own {
            self.expand_own(key.state)
        } else {
            self.expand_others(key.state)
        }
    }

    /// Adds the states after the owner's turns, unless stones fall there. One in which the owner has won stands alone.
    fn expand_own(&mut self, state: State) -> Result<(), AllocError> {
        let first = self.children.len();
        if !self.game.is_death() && self.offer(state, first)? {
            return Ok(());
        }
        let mut rest = self.game.empty(state);
        for _ in 0..u64::MAX {
            let Some(place) = rest.take() else {
                break;
            };
            if let Some(after) = self.game.own_move(state, place) {
                if self.offer(after, first)? {
                    break;
                }
            }
        }
        Ok(())
    }

    /// Adds the state, with the other side to move, unless it is lost. Returns whether it is won; then it stands alone.
    fn offer(&mut self, state: State, first: usize) -> Result<bool, AllocError> {
        let key = Key {
            state,
            is_own: false,
        };
        let numbers = match self.known_numbers(key) {
            Some(numbers) => numbers,
            None => self.first_numbers(state),
        };
        if numbers.disproof == 0 {
            return Ok(false);
        }
        let is_won = numbers.proof == 0;
        if is_won {
            self.children.truncate(first);
        }
        self.children.push(Child { state, numbers })?;
        Ok(is_won)
    }

    /// Adds the states after the other side's turns. One in which it has taken what was to stand stands alone.
    fn expand_others(&mut self, state: State) -> Result<(), AllocError> {
        let first = self.children.len();
        if self.game.is_death() {
            self.add_own(state)?;
        }
        let mut rest = self.game.empty(state);
        for _ in 0..u64::MAX {
            let Some(place) = rest.take() else {
                break;
            };
            match self.game.others_move(state, place) {
                Outcome::Lost => {
                    self.children.truncate(first);
                    let numbers = Numbers::lost();
                    self.children.push(Child { state, numbers })?;
                    break;
                }
                Outcome::Nothing => {}
                Outcome::To(after) => {
                    if !self.game.is_death() || !self.game.is_taken(after) {
                        self.add_own(after)?;
                    }
                }
            }
        }
        Ok(())
    }

    /// Adds the state, with the owner to move.
    fn add_own(&mut self, state: State) -> Result<(), AllocError> {
        let key = Key {
            state,
            is_own: true,
        };
        let numbers = match self.known_numbers(key) {
            Some(numbers) => numbers,
            None if self.game.is_death() => Numbers::open(1),
            None => self.owners_numbers(state),
        };
        self.children.push(Child { state, numbers })?;
        Ok(())
    }

    /// The numbers of the state, if it was searched, or is on the line.
    fn known_numbers(&self, key: Key) -> Option<Numbers> {
        let known = self.known.get(&key)?;
        if !known.is_on_line {
            return Some(known.numbers);
        }
        Some(if self.game.is_death() {
            Numbers::lost()
        } else {
            Numbers::won()
        })
    }
}
