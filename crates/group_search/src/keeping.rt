//! One question of life: whether chains are kept by answers in a region.

use crate::past::Past;
use crate::regions::{chains_beside, region_of, set_of};
use safety_search::{Board, LifeProof, LocalGame, NumberSet, Question, Search, State};
use std::alloc::{AllocError, Global};

/// A question of life whose answer is yes, with its proof.
#[derive(Drop)]
pub(crate) struct Kept {
    pub(crate) question: Question,
    pub(crate) search: Search,
    pub(crate) proof: LifeProof,
    /// The state at which the proof begins, and the owner's first move before it, if that is asked.
    pub(crate) root: State,
    pub(crate) first: Option<usize>,
    pub(crate) steps: u64,
}

/// What a search says of a question of life.
#[derive(Drop)]
pub(crate) enum Said {
    Yes(Kept),
    /// No, and this chain could be taken most often.
    No(Option<usize>),
    /// The steps did not suffice, or there are too many points.
    Open,
}

/// Asks a question of life, where the owner or the other side moves first, in so many steps. The steps that were used are added to
/// `spent`.
pub(crate) fn keep(
    alloc: Global,
    board: &Board,
    question: &Question,
    is_own: bool,
    limit: u64,
    spent: &mut u64,
) -> Result<Said, AllocError> {
    let Some(game) = LocalGame::of(alloc, board, question)? else {
        return Ok(Said::Open);
    };
    let mut search = Search::of(alloc, game, limit)?;
    let answer = search.ask(is_own)?;
    match answer {
        Some(true) => prove(alloc, question, search, is_own, spent),
        Some(false) => {
            *spent = spent.saturating_add(search.steps());
            Ok(Said::No(search.weakest()))
        }
        None => {
            *spent = spent.saturating_add(search.steps());
            Ok(Said::Open)
        }
    }
}

/// Makes the proof of what was found.
fn prove(
    alloc: Global,
    question: &Question,
    mut search: Search,
    is_own: bool,
    spent: &mut u64,
) -> Result<Said, AllocError> {
    let mut first = None;
    let mut root = search.game().root();
    let steps = search.steps();
    if is_own {
        if let Some((place, after)) = search.first_move() {
            first = search.game().point(place);
            root = after;
        }
    }
    let made = LifeProof::of(alloc, &mut search, root)?;
    *spent = spent.saturating_add(search.steps());
    match made {
        Some(proof) => Ok(Said::Yes(Kept {
            question: *question,
            search,
            proof,
            root,
            first,
            steps,
        })),
        None => Ok(Said::No(None)),
    }
}

impl Kept {
    /// The friends that are beside its region.
    pub(crate) fn friends(&self, board: &Board) -> NumberSet {
        let question = &self.question;
        chains_beside(board, question.colour, &question.region).and(&question.friends)
    }

    /// The points where the owner answers, with its first move.
    pub(crate) fn answered(&self) -> NumberSet {
        let mut points = NumberSet::empty();
        for line in self.proof.lines().iter() {
            if let Some(place) = line.answer {
                if let Some(point) = self.search.game().point(place) {
                    points.insert(point);
                }
            }
        }
        if let Some(point) = self.first {
            points.insert(point);
        }
        points
    }

    /// Whether an earlier position could come again: it has the owner's stones at all points that are kept, and where one answers.
    pub(crate) fn is_barred(&self, board: &Board, past: &Past) -> bool {
        let question = &self.question;
        let own = board.stones(question.colour);
        let inside = question.region.and(&own);
        let stands = board.stones_of_chains(&question.kept).or(&inside);
        past.bars(question.colour, &stands, &self.answered())
    }
}

/// Leaves out points of the region that are not wanted, farthest first, as long as fewer than `most` steps are spent. `points` are
/// its empty points, nearest first.
pub(crate) fn make_smaller(
    alloc: Global,
    board: &Board,
    kept: Kept,
    points: &mut Vec<usize>,
    most: u64,
    spent: &mut u64,
) -> Result<Kept, AllocError> {
    let mut best = kept;
    // Large proofs take long to find again.
    if best.steps > 2_000 {
        return Ok(best);
    }
    let count = points.len();
    for back in 1..=count {
        let at = count - back;
        let wanted = best.steps.saturating_mul(2).saturating_add(200);
        let limit = wanted.min(most.saturating_sub(*spent));
        let mut empty = set_of(points.as_slice());
        if let Some(point) = points.get(at).copied() {
            empty.remove(point);
        }
        let mut question = best.question;
        question.region = region_of(board, question.colour, &empty);
        if let Said::Yes(smaller) = keep(alloc, board, &question, false, limit, spent)? {
            best = smaller;
            if at < points.len() {
                let _point = points.remove(at);
            }
        }
    }
    Ok(best)
}
