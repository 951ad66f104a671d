//! Proof-number search of one question, depth first.
//!
//! The line that is searched is a stack of frames, with the children of all of them in one list. The numbers of each state that was
//! searched are kept. A state that is met again on the line is the owner's where stones are to be kept, and the other side's where
//! stones are to be taken. What is found is not promised to be true: a proof is made of it (`life_proof`, `death_proof`), in which
//! each state is asked again, and that is given to a judge.

use crate::local_game::LocalGame;
use crate::numbers::{Count, INFINITE, Numbers};
use crate::parts::{Outlook, Scratch};
use crate::place_set::PlaceSet;
use crate::state::State;
use indexmap::IndexMap;
use std::alloc::{AllocError, Global};

/// A state, with who is to move.
#[derive(Clone, Copy, Debug, PartialEq, Eq, Hash)]
pub(crate) struct Key {
    pub(crate) state: State,
    pub(crate) is_own: bool,
}

/// What is known of a state that was searched.
#[derive(Clone, Copy, Debug)]
pub(crate) struct Known {
    pub(crate) numbers: Numbers,
    /// How many states had been left before it.
    pub(crate) when: u32,
    /// Whether it is on the line that is searched.
    pub(crate) is_on_line: bool,
}

/// A state one turn further.
#[derive(Clone, Copy, Debug)]
pub(crate) struct Child {
    pub(crate) state: State,
    pub(crate) numbers: Numbers,
}

/// A state of the line. Its children come after those of the states above it.
#[derive(Clone, Copy, Debug)]
struct Frame {
    key: Key,
    /// The search comes back from it when its numbers reach these.
    limits: Numbers,
    first: usize,
    /// The child that is searched.
    current: usize,
}

/// A question that is searched, and what is known of its states.
#[derive(Drop)]
pub struct Search {
    pub(crate) game: LocalGame,
    pub(crate) known: IndexMap<Key, Known>,
    frames: Vec<Frame>,
    pub(crate) children: Vec<Child>,
    scratch: Scratch,
    clock: u32,
    /// How many states were expanded, and how many may be.
    steps: u64,
    limit: u64,
    /// How many more may be expanded for answers that are missing in a proof.
    reserve: u64,
    /// How often each named chain could be taken.
    falls: Vec<u32>,
}

impl Search {
    /// A search of the game in at most so many steps. A step expands a state.
    pub fn of(alloc: Global, game: LocalGame, limit: u64) -> Result<Search, AllocError> {
        let mut falls = Vec::new(alloc);
        for _ in 0..game.chains() {
            falls.push(0u32)?;
        }
        Ok(Search {
            game,
            known: IndexMap::new(alloc),
            frames: Vec::new(alloc),
            children: Vec::new(alloc),
            scratch: Scratch::none(),
            clock: 0,
            steps: 0,
            limit,
            reserve: limit,
            falls,
        })
    }

    pub fn game(&self) -> &LocalGame {
        &self.game
    }

    /// How many states were expanded.
    pub fn steps(&self) -> u64 {
        self.steps
    }

    /// The number of the chain to be kept that could be taken most often.
    pub fn weakest(&self) -> Option<usize> {
        let mut most: u32 = 0;
        let mut weakest = None;
        for index in 0..self.falls.len() {
            let place = self.game.len().saturating_add(index);
            if self.falls[index] >= most && !self.game.friends.has(place) {
                most = self.falls[index];
                weakest = self.game.chain(index);
            }
        }
        weakest
    }

    /// Whether the side that answers reaches its aim from the state on the board, where it or the other side moves first. `None` if
    /// the steps do not suffice.
    pub fn ask(&mut self, is_own: bool) -> Result<Option<bool>, AllocError> {
        let state = self.game.root();
        self.ask_at(Key { state, is_own })
    }

    fn ask_at(&mut self, key: Key) -> Result<Option<bool>, AllocError> {
        if !key.is_own {
            let numbers = self.first_numbers(key.state);
            if numbers.is_settled() {
                return Ok(Some(numbers.proof == 0));
            }
        }
        if self.limit == 0 {
            return Ok(None);
        }
        let numbers = self.settle(key)?;
        Ok(if numbers.is_settled() {
            Some(numbers.proof == 0)
        } else {
            None
        })
    }

    /// Searches this state, with the owner to move, once more, for an answer that is missing in a proof.
    pub(crate) fn ask_again(&mut self, state: State) -> Result<bool, AllocError> {
        if self.reserve == 0 {
            return Ok(false);
        }
        let key = Key {
            state,
            is_own: true,
        };
        let before = self.steps;
        self.limit = before.saturating_add(self.reserve);
        let numbers = self.settle(key)?;
        let spent = self.steps.saturating_sub(before);
        self.reserve = self.reserve.saturating_sub(spent.max(1));
        Ok(numbers.proof == 0)
    }

    /// The numbers of a state before any search, with the other side to move.
    pub(crate) fn first_numbers(&mut self, state: State) -> Numbers {
        if self.game.is_death() && self.game.is_taken(state) {
            return Numbers::won();
        }
        match self.scratch.outlook(&self.game, state) {
            Outlook::Falls(component) => {
                self.note_fall(component);
                Numbers::lost()
            }
            Outlook::Open(distance) => {
                if self.game.is_death() {
                    self.death_numbers(state)
                } else if distance.missing == 0 {
                    Numbers::won()
                } else {
                    // With one liberty it falls.
                    Numbers::expected(distance.far, distance.liberties.saturating_sub(1))
                }
            }
        }
    }

    /// The same where targets are to be taken: the number of their liberties.
    fn death_numbers(&self, state: State) -> Numbers {
        let (chain, near) = self.game.joined(self.game.targets, state.other);
        if chain.meets(self.game.edge) {
            return Numbers::lost();
        }
        Numbers::open(near.and(self.game.empty(state)).len())
    }

    /// Whether the owner may pass for ever.
    pub(crate) fn is_at_rest(&mut self, state: State) -> bool {
        match self.scratch.outlook(&self.game, state) {
            Outlook::Open(distance) => distance.missing == 0,
            Outlook::Falls(_) => false,
        }
    }

    /// The first numbers of a state with the owner to move, where stones are to be kept.
    pub(crate) fn owners_numbers(&mut self, state: State) -> Numbers {
        let distance = self.scratch.distance(&self.game, state);
        Numbers::expected(distance.far, distance.liberties)
    }

    /// Notes which of the named chains could be taken.
    fn note_fall(&mut self, component: PlaceSet) {
        for index in 0..self.falls.len() {
            if component.has(self.game.len().saturating_add(index)) {
                self.falls[index] = self.falls[index].saturating_add(1);
            }
        }
    }

    /// Searches the state until it is settled or the steps are spent.
    fn settle(&mut self, key: Key) -> Result<Numbers, AllocError> {
        self.frames.clear();
        self.children.clear();
        let no_limits = Numbers {
            proof: INFINITE,
            disproof: INFINITE,
        };
        self.enter(key, no_limits)?;
        for _ in 0..u64::MAX {
            let Some(frame) = self.frames.last().copied() else {
                break;
            };
            self.go_on(frame)?;
        }
        Ok(match self.known.get(&key) {
            Some(known) => known.numbers,
            None => Numbers::open(1),
        })
    }

    /// Adds the state to the line.
    fn enter(&mut self, key: Key, limits: Numbers) -> Result<(), AllocError> {
        self.steps = self.steps.saturating_add(1);
        let first = self.children.len();
        self.expand(key)?;
        self.known.insert(
            key,
            Known {
                numbers: Numbers::open(1),
                when: 0,
                is_on_line: true,
            },
        )?;
        self.frames.push(Frame {
            key,
            limits,
            first,
            current: first,
        })?;
        Ok(())
    }

    /// Goes down from the last state of the line, or leaves it.
    fn go_on(&mut self, frame: Frame) -> Result<(), AllocError> {
        let count = self.count(frame);
        let numbers = count.numbers(frame.key.is_own);
        let is_over = numbers.is_settled()
            || numbers.proof >= frame.limits.proof
            || numbers.disproof >= frame.limits.disproof
            || self.steps >= self.limit;
        match self.children.get(count.best).copied() {
            Some(child) if !is_over => self.go_down(frame, numbers, count, child),
            _ => self.leave(frame, numbers),
        }
    }

    /// What the children of the frame say together.
    fn count(&self, frame: Frame) -> Count {
        let mut count = Count::none(frame.first);
        for place in frame.first..self.children.len() {
            count.add(place, self.children[place].numbers, frame.key.is_own);
        }
        count
    }

    /// Goes down to the best child, or notes what has become known of it in the meantime.
    fn go_down(
        &mut self,
        frame: Frame,
        numbers: Numbers,
        count: Count,
        child: Child,
    ) -> Result<(), AllocError> {
        let key = Key {
            state: child.state,
            is_own: !frame.key.is_own,
        };
        if let Some(known) = self.known.get(&key).copied() {
            if !known.is_on_line && known.numbers != child.numbers {
                self.set_numbers(count.best, known.numbers);
                return Ok(());
            }
        }
        let last = self.frames.len().saturating_sub(1);
        if last < self.frames.len() {
            self.frames[last].current = count.best;
        }
        let limits = count.limits_below(frame.limits, numbers, child.numbers, frame.key.is_own);
        self.enter(key, limits)
    }

    fn set_numbers(&mut self, place: usize, numbers: Numbers) {
        if place < self.children.len() {
            self.children[place].numbers = numbers;
        }
    }

    /// Leaves the last state of the line, with these numbers.
    fn leave(&mut self, frame: Frame, numbers: Numbers) -> Result<(), AllocError> {
        self.clock = self.clock.saturating_add(1);
        self.known.insert(
            frame.key,
            Known {
                numbers,
                when: self.clock,
                is_on_line: false,
            },
        )?;
        self.frames.pop();
        self.children.truncate(frame.first);
        if let Some(above) = self.frames.last().copied() {
            self.set_numbers(above.current, numbers);
        }
        Ok(())
    }

    /// When the state was proved, with the other side to move: 0 where its shape proves it.
    pub(crate) fn proved(&mut self, state: State) -> Option<u32> {
        let numbers = self.first_numbers(state);
        if numbers.disproof == 0 {
            return None;
        }
        if numbers.proof == 0 {
            return Some(0);
        }
        let key = Key {
            state,
            is_own: false,
        };
        let known = self.known.get(&key).copied()?;
        if known.numbers.proof == 0 {
            Some(known.when)
        } else {
            None
        }
    }
}
