//! The proof that stones are taken: states with the killer to move, each with its move, of which each leads only to earlier ones.

use crate::place_set::PlaceSet;
use crate::search::Search;
use crate::state::{Outcome, State};
use indexmap::IndexMap;
use std::alloc::{AllocError, Global};

/// The greatest number of entries: a claim may not have more.
const MAX_ENTRIES: usize = 65_000;

/// The greatest number of entries that wait for others.
const MAX_DEPTH: usize = 2_000;

/// An entry that waits for others.
const WAITING: u32 = u32::MAX;

/// The other side's turn (`None`: a pass), and the entry for the state after it.
#[derive(Clone, Copy, Debug)]
pub struct Reply {
    pub place: Option<usize>,
    pub entry: usize,
}

/// A state with the killer to move, its move and the state after it, and the places of its replies. There are none where that move
/// takes a target.
#[derive(Clone, Copy, Debug)]
pub struct Entry {
    pub state: State,
    pub place: usize,
    pub after: State,
    pub is_taken: bool,
    pub first: usize,
    pub end: usize,
}

/// The entries, and at the end the replies on the board, or the killer's first entry.
#[derive(Drop)]
pub struct DeathProof {
    entries: Vec<Entry>,
    replies: Vec<Reply>,
    /// The replies to the other side's turns on the board.
    first: usize,
    /// The entry for the board with the killer to move.
    begins: Option<usize>,
}

/// An entry that is being made: the other side's turns that are still to be answered, and its replies so far.
#[derive(Clone, Copy)]
struct Visit {
    /// The state, the move and the state after it. On the board with the other side to move there is no move.
    state: State,
    place: Option<usize>,
    after: State,
    /// The turns that are to come. The pass comes last.
    rest: PlaceSet,
    has_pass: bool,
    /// The turn that is being answered.
    turn: Option<usize>,
    /// The place of the first reply in the list of those that wait.
    first: usize,
}

/// The proof as far as it has been made.
#[derive(Drop)]
struct Making {
    entries: Vec<Entry>,
    replies: Vec<Reply>,
    waiting: Vec<Reply>,
    visits: Vec<Visit>,
    numbers: IndexMap<State, u32>,
}

impl DeathProof {
    /// The proof that a search has found. `None` if an answer is missing, or they go round.
    pub fn of(
        alloc: Global,
        search: &mut Search,
        is_own: bool,
    ) -> Result<Option<DeathProof>, AllocError> {
        let mut making = Making {
            entries: Vec::new(alloc),
            replies: Vec::new(alloc),
            waiting: Vec::new(alloc),
            visits: Vec::new(alloc),
            numbers: IndexMap::new(alloc),
        };
        let root = search.game().root();
        let has_begun = if is_own {
            making.begin(search, root)?
        } else {
            making.visits.push(board_visit(search, root))?;
            true
        };
        if !has_begun || !making.run(search)? {
            return Ok(None);
        }
        let first = making.replies.len();
        for reply in making.waiting.iter() {
            making.replies.push(*reply)?;
        }
        let begins = match making.numbers.get(&root) {
            Some(number) if *number != WAITING => Some(*number as usize),
            _ => None,
        };
        Ok(Some(DeathProof {
            entries: making.entries,
            replies: making.replies,
            first,
            begins,
        }))
    }

    pub fn entries(&self) -> &[Entry] {
        self.entries.as_slice()
    }

    /// The reply of this place in the list.
    pub fn reply(&self, at: usize) -> Option<Reply> {
        self.replies.get(at).copied()
    }

    /// The place of the first reply to a turn on the board, and the end of the list.
    pub fn last_replies(&self) -> (usize, usize) {
        (self.first, self.replies.len())
    }

    /// The entry for the board with the killer to move.
    pub fn begins(&self) -> Option<usize> {
        self.begins
    }
}

/// The visit of the board with the other side to move.
fn board_visit(search: &Search, root: State) -> Visit {
    Visit {
        state: root,
        place: None,
        after: root,
        rest: search.game.empty(root),
        has_pass: true,
        turn: None,
        first: 0,
    }
}

impl Making {
    /// Begins with the entry for a state. Returns `false` if there is no answer.
    fn begin(&mut self, search: &mut Search, state: State) -> Result<bool, AllocError> {
        let mut found = best_move(search, state);
        if found.is_none() && search.ask_again(state)? {
            found = best_move(search, state);
        }
        let Some((place, after)) = found else {
            return Ok(false);
        };
        if self.visits.len() >= MAX_DEPTH || self.entries.len() >= MAX_ENTRIES {
            return Ok(false);
        }
        let is_taken = search.game.is_taken(after);
        self.numbers.insert(state, WAITING)?;
        self.visits.push(Visit {
            state,
            place: Some(place),
            after,
            rest: if is_taken {
                PlaceSet::empty()
            } else {
                search.game.empty(after)
            },
            has_pass: !is_taken,
            turn: None,
            first: self.waiting.len(),
        })?;
        Ok(true)
    }

    /// Makes all entries. Returns `false` if that fails.
    fn run(&mut self, search: &mut Search) -> Result<bool, AllocError> {
        for _ in 0..u64::MAX {
            let Some(visit) = self.visits.last().copied() else {
                return Ok(true);
            };
            if !self.go_on(search, visit)? {
                return Ok(false);
            }
            if self.visits.len() == 1 && visit.place.is_none() && !visit.has_pass {
                return Ok(true);
            }
        }
        Ok(false)
    }

    /// Answers the next turn of the last entry, or ends it. Returns `false` if that fails.
    fn go_on(&mut self, search: &mut Search, visit: Visit) -> Result<bool, AllocError> {
        let mut next = visit;
        let state = match next.rest.take() {
            Some(place) => {
                next.turn = Some(place);
                match search.game.others_move(visit.after, place) {
                    Outcome::Lost => return Ok(false),
                    Outcome::Nothing => None,
                    Outcome::To(after) if search.game.is_taken(after) => None,
                    Outcome::To(after) => Some(after),
                }
            }
            None if next.has_pass => {
                next.turn = None;
                next.has_pass = false;
                Some(visit.after)
            }
            None => {
                self.end(search, visit)?;
                return Ok(true);
            }
        };
        self.set_last(next);
        match state {
            Some(after) => self.answer(search, next, after),
            None => Ok(true),
        }
    }

    fn set_last(&mut self, visit: Visit) {
        let last = self.visits.len().saturating_sub(1);
        if last < self.visits.len() {
            self.visits[last] = visit;
        }
    }

    /// Finds or begins the entry for the state after a turn. Returns `false` if there is none.
    fn answer(
        &mut self,
        search: &mut Search,
        visit: Visit,
        state: State,
    ) -> Result<bool, AllocError> {
        match self.numbers.get(&state).copied() {
            Some(WAITING) => Ok(false),
            Some(number) => {
                self.waiting.push(Reply {
                    place: visit.turn,
                    entry: number as usize,
                })?;
                Ok(true)
            }
            None => self.begin(search, state),
        }
    }

    /// Ends the last entry, and gives its number to the one that waits for it.
    fn end(&mut self, search: &Search, visit: Visit) -> Result<(), AllocError> {
        let Some(place) = visit.place else {
            return Ok(());
        };
        let number = self.entries.len();
        let first = self.replies.len();
        for at in visit.first..self.waiting.len() {
            if let Some(reply) = self.waiting.get(at).copied() {
                self.replies.push(reply)?;
            }
        }
        self.waiting.truncate(visit.first);
        self.entries.push(Entry {
            state: visit.state,
            place,
            after: visit.after,
            is_taken: search.game.is_taken(visit.after),
            first,
            end: self.replies.len(),
        })?;
        self.numbers
            .insert(visit.state, number.min(MAX_ENTRIES) as u32)?;
        self.visits.pop();
        if let Some(above) = self.visits.last().copied() {
            self.waiting.push(Reply {
                place: above.turn,
                entry: number,
            })?;
        }
        Ok(())
    }
}

/// The killer's move that was proved first, so that a play never comes round to the same state, and the state after it.
fn best_move(search: &mut Search, state: State) -> Option<(usize, State)> {
    let mut best = None;
    let mut least: u32 = u32::MAX;
    let mut rest = search.game.empty(state);
    for _ in 0..u64::MAX {
        let Some(place) = rest.take() else {
            break;
        };
        if let Some(after) = search.game.own_move(state, place) {
            if let Some(when) = search.proved(after) {
                if when < least {
                    least = when;
                    best = Some((place, after));
                }
            }
        }
    }
    best
}

impl Search {
    /// The owner's first move that was found on the board, and the state after it. `None` if it is a pass, or nothing was found.
    pub fn first_move(&mut self) -> Option<(usize, State)> {
        let root = self.game().root();
        best_move(self, root)
    }
}
