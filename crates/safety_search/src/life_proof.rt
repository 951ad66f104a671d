//! The proof that stones are kept: a set of states that is closed under the owner's answers.
//!
//! A state that another one of the set covers need not be in it: the same stones of the owner, no empty point more, and the other
//! side's stones that can be taken are there.

use crate::local_game::LocalGame;
use crate::place_set::PlaceSet;
use crate::search::Search;
use crate::state::{Outcome, State};
use indexmap::IndexMap;
use std::alloc::{AllocError, Global};

/// The greatest number of states: a claim may not have more.
const MAX_STATES: usize = 65_000;

/// The place before the first of a list.
const NONE: u32 = u32::MAX;

/// The other side's move at a place, the owner's answer (`None`: a pass), and the state of the proof that covers what comes of it.
#[derive(Clone, Copy, Debug)]
pub struct Line {
    pub place: usize,
    pub answer: Option<usize>,
    pub next: usize,
}

/// A state of the proof, with the places of its lines.
#[derive(Clone, Copy, Debug)]
pub struct Listed {
    pub state: State,
    /// Whether the owner may pass for ever here. Then there are no lines.
    pub is_at_rest: bool,
    pub first: usize,
    pub end: usize,
    /// The other side's stones that can be taken.
    free: PlaceSet,
    /// The state before it in the list of those with the same stones of the owner.
    previous: u32,
}

/// A set of states, of which the first is that on the board, or after the owner's first move.
#[derive(Drop)]
pub struct LifeProof {
    states: Vec<Listed>,
    lines: Vec<Line>,
    /// The last state with these stones of the owner.
    latest: IndexMap<PlaceSet, u32>,
}

/// An answer that is thought of.
#[derive(Clone, Copy)]
struct Answer {
    place: Option<usize>,
    after: State,
    rank: u32,
}

impl LifeProof {
    /// The proof that a search has found from this state on. `None` if an answer is missing.
    pub fn of(
        alloc: Global,
        search: &mut Search,
        root: State,
    ) -> Result<Option<LifeProof>, AllocError> {
        let mut proof = LifeProof {
            states: Vec::new(alloc),
            lines: Vec::new(alloc),
            latest: IndexMap::new(alloc),
        };
        proof.add(search.game(), root)?;
        for at in 0..MAX_STATES {
            let Some(listed) = proof.states.get(at).copied() else {
                return Ok(Some(proof));
            };
            if !proof.answer_all(search, at, listed.state)? {
                return Ok(None);
            }
        }
        Ok(None)
    }

    pub fn states(&self) -> &[Listed] {
        self.states.as_slice()
    }

    /// The line of this place in the list.
    pub fn line(&self, at: usize) -> Option<Line> {
        self.lines.get(at).copied()
    }

    pub fn lines(&self) -> &[Line] {
        self.lines.as_slice()
    }

    /// Adds a state, and returns its place.
    fn add(&mut self, game: &LocalGame, state: State) -> Result<usize, AllocError> {
        let place = self.states.len();
        let number = place.min(MAX_STATES) as u32;
        let previous = match self.latest.get(&state.own) {
            Some(latest) => *latest,
            None => NONE,
        };
        self.states.push(Listed {
            state,
            is_at_rest: false,
            first: 0,
            end: 0,
            free: state.other.minus(game.rooted(state.other)),
            previous,
        })?;
        self.latest.insert(state.own, number)?;
        Ok(place)
    }

    /// The place of a state that covers this one.
    fn covering(&self, state: State) -> Option<usize> {
        let mut at = match self.latest.get(&state.own) {
            Some(latest) => *latest,
            None => NONE,
        };
        for _ in 0..MAX_STATES {
            let listed = self.states.get(at as usize)?;
            if state.other.is_within(listed.state.other) && listed.free.is_within(state.other) {
                return Some(at as usize);
            }
            at = listed.previous;
        }
        None
    }

    /// Adds the lines of a state. Returns `false` if an answer is missing.
    fn answer_all(
        &mut self,
        search: &mut Search,
        at: usize,
        state: State,
    ) -> Result<bool, AllocError> {
        let first = self.lines.len();
        let is_at_rest = search.is_at_rest(state);
        if !is_at_rest {
            let mut rest = search.game.empty(state);
            for _ in 0..u64::MAX {
                let Some(place) = rest.take() else {
                    break;
                };
                match search.game.others_move(state, place) {
                    Outcome::Lost => return Ok(false),
                    Outcome::Nothing => {}
                    Outcome::To(after) => {
                        if !self.answer_one(search, place, after)? {
                            return Ok(false);
                        }
                    }
                }
            }
        }
        let end = self.lines.len();
        if at < self.states.len() {
            self.states[at].is_at_rest = is_at_rest;
            self.states[at].first = first;
            self.states[at].end = end;
        }
        Ok(true)
    }

    /// Adds the line of the other side's move, after which the state is this one. Returns `false` if there is no answer.
    fn answer_one(
        &mut self,
        search: &mut Search,
        place: usize,
        after: State,
    ) -> Result<bool, AllocError> {
        let mut found = self.best_answer(search, after);
        if found.is_none() && search.ask_again(after)? {
            found = self.best_answer(search, after);
        }
        let Some(answer) = found else {
            return Ok(false);
        };
        let next = match self.covering(answer.after) {
            Some(next) => next,
            None => self.add(search.game(), answer.after)?,
        };
        self.lines.push(Line {
            place,
            answer: answer.place,
            next,
        })?;
        Ok(true)
    }

    /// The answer that adds least to the proof: one whose state is covered or at rest, else a pass, else any that is proved.
    fn best_answer(&self, search: &mut Search, state: State) -> Option<Answer> {
        let mut best = self.rank(search, None, state);
        let mut rest = search.game.empty(state);
        for _ in 0..u64::MAX {
            if matches!(best, Some(answer) if answer.rank == 0) {
                break;
            }
            let Some(place) = rest.take() else {
                break;
            };
            if let Some(after) = search.game.own_move(state, place) {
                best = better(best, self.rank(search, Some(place), after));
            }
        }
        best
    }

    /// The answer with its rank, if the state after it is proved.
    fn rank(&self, search: &mut Search, place: Option<usize>, after: State) -> Option<Answer> {
        let when = search.proved(after)?;
        let rank = if when == 0 || self.covering(after).is_some() {
            0
        } else if place.is_none() {
            1
        } else {
            2
        };
        Some(Answer { place, after, rank })
    }
}

/// The one of lower rank, and the first of two that are alike.
fn better(one: Option<Answer>, other: Option<Answer>) -> Option<Answer> {
    match (one, other) {
        (Some(first), Some(second)) => Some(if second.rank < first.rank {
            second
        } else {
            first
        }),
        (Some(first), None) => Some(first),
        (None, found) => found,
    }
}
