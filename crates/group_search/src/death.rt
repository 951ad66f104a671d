//! One question of death: whether a chain is taken by answers in a region. And the text of its answer.

use crate::past::{Earlier, Past};
use crate::regions::{chains_beside, with_liberties};
use crate::text::{
    push_cells, push_line_end, push_number, push_state, push_text, push_turn, push_vertex,
};
use go_points::Colour;
use safety_search::{
    Board, DeathProof, Entry, LocalGame, NumberSet, PlaceSet, Question, Search, State,
};
use std::alloc::{AllocError, Global};

/// A question of death whose answer is yes, with its proof.
#[derive(Drop)]
pub(crate) struct Taken {
    pub(crate) question: Question,
    pub(crate) search: Search,
    pub(crate) proof: DeathProof,
    pub(crate) steps: u64,
}

/// What is asked, and who moves first.
#[derive(Clone, Copy)]
pub(crate) struct Target {
    /// The killer, the region, and the target.
    pub(crate) colour: Colour,
    pub(crate) region: NumberSet,
    pub(crate) chain: usize,
    /// The killer's chains that stand anyway, or are supposed to.
    pub(crate) standing: NumberSet,
    /// Whether the killer moves first in the search.
    pub(crate) is_own: bool,
    /// Whether the killer is to move in the record.
    pub(crate) moves_first: bool,
}

/// Asks whether the chain is taken, in so many steps for each choice of the chains that are kept. The steps are added to `spent`.
pub(crate) fn take(
    alloc: Global,
    board: &Board,
    target: &Target,
    past: &Past,
    limit: u64,
    spent: &mut u64,
) -> Result<Option<Taken>, AllocError> {
    let Some(chain) = board.chain(target.chain) else {
        return Ok(None);
    };
    if !chain.stones.is_within(&target.region) {
        return Ok(None);
    }
    let region = target
        .region
        .minus(&board.stones_of_chains(&target.standing));
    let beside = chains_beside(board, target.colour, &region);
    let all = beside.minus(&target.standing);
    let some = with_liberties(board, &all, &region, 2, false);
    let mut question = Question {
        colour: target.colour,
        region,
        kept: all,
        friends: beside.and(&target.standing),
        giving: NumberSet::empty(),
        targets: chain.stones,
    };
    let found = take_with(alloc, board, target, &question, past, limit, spent)?;
    if found.is_some() || all == some {
        return Ok(found);
    }
    question.kept = some;
    take_with(alloc, board, target, &question, past, limit, spent)
}

/// The same for one choice of the chains that are kept.
fn take_with(
    alloc: Global,
    board: &Board,
    target: &Target,
    question: &Question,
    past: &Past,
    limit: u64,
    spent: &mut u64,
) -> Result<Option<Taken>, AllocError> {
    let Some(game) = LocalGame::of(alloc, board, question)? else {
        return Ok(None);
    };
    let mut search = Search::of(alloc, game, limit)?;
    let answer = search.ask(target.is_own)?;
    let steps = search.steps();
    let mut made = None;
    if answer == Some(true) {
        made = DeathProof::of(alloc, &mut search, target.is_own)?;
    }
    *spent = spent.saturating_add(search.steps());
    let Some(proof) = made else {
        return Ok(None);
    };
    let taken = Taken {
        question: *question,
        search,
        proof,
        steps,
    };
    if taken.is_barred(board, past, target.moves_first) {
        return Ok(None);
    }
    Ok(Some(taken))
}

impl Taken {
    /// Whether an earlier position could come again by a move of the killer. The positions are compared with what each move makes,
    /// up to the state of the board.
    fn is_barred(&self, board: &Board, past: &Past, moves_first: bool) -> bool {
        let game = self.search.game();
        let root = game.root();
        for entry in self.proof.entries().iter() {
            if !moves_first && fits(game, root, entry.after) {
                return false;
            }
            if self.is_seen(board, past, entry) {
                return true;
            }
            if moves_first && fits(game, root, entry.state) {
                return false;
            }
        }
        false
    }

    /// Whether an earlier position fits what the entry's move makes.
    fn is_seen(&self, board: &Board, past: &Past, entry: &Entry) -> bool {
        let game = self.search.game();
        let named = self.question.kept.or(&self.question.friends);
        let stands = board.stones_of_chains(&named);
        let rooted = game.points_of(rooted_of(game, entry.after));
        let own = game.points_of(entry.after.own);
        let other = game.points_of(entry.after.other);
        let region = game.all_points();
        for earlier in past.positions().iter() {
            if fits_earlier(
                self.question.colour,
                earlier,
                &stands,
                &region,
                &own,
                &other,
                &rooted,
            ) {
                return true;
            }
        }
        false
    }

    /// The text of the last part of the claim.
    pub(crate) fn push_to(
        &self,
        text: &mut Vec<u8>,
        board: &Board,
        moves_first: bool,
    ) -> Result<(), AllocError> {
        let kept = board.stones_of_chains(&self.question.kept);
        let friends = board.stones_of_chains(&self.question.friends);
        let region = self.question.region.or(&kept);
        push_text(text, "kill ")?;
        push_cells(text, board, &friends, &region)?;
        push_line_end(text)?;
        for entry in self.proof.entries().iter() {
            self.push_entry(text, board, &kept, entry)?;
        }
        if moves_first {
            push_text(text, "use ")?;
            push_number(text, self.proof.begins().unwrap_or(0).saturating_add(1))?;
            push_line_end(text)?;
        } else {
            let (first, end) = self.proof.last_replies();
            self.push_replies(text, board, first, end)?;
        }
        push_text(text, "end\n")
    }

    /// The killer's first move, on the board.
    pub(crate) fn first_point(&self) -> Option<usize> {
        let entry = self.proof.entries().get(self.proof.begins()?)?;
        self.search.game().point(entry.place)
    }

    /// The places of the replies to the owner's first moves: on the board, or after the killer's first move.
    pub(crate) fn first_replies(&self, is_own: bool) -> (usize, usize) {
        if !is_own {
            return self.proof.last_replies();
        }
        match self.proof.begins() {
            Some(begins) => match self.proof.entries().get(begins) {
                Some(entry) => (entry.first, entry.end),
                None => (0, 0),
            },
            None => (0, 0),
        }
    }

    /// The owner's turn of this reply, and the killer's move after it.
    pub(crate) fn reply_points(&self, at: usize) -> Option<(Option<usize>, Option<usize>)> {
        let reply = self.proof.reply(at)?;
        let game = self.search.game();
        let turn = match reply.place {
            Some(place) => game.point(place),
            None => None,
        };
        let entry = self.proof.entries().get(reply.entry)?;
        Some((turn, game.point(entry.place)))
    }

    fn push_entry(
        &self,
        text: &mut Vec<u8>,
        board: &Board,
        kept: &NumberSet,
        entry: &Entry,
    ) -> Result<(), AllocError> {
        let game = self.search.game();
        push_text(text, "entry ")?;
        push_state(text, self.question.colour, game, kept, entry.state)?;
        push_text(text, " ")?;
        if let Some(point) = game.point(entry.place) {
            push_vertex(text, board, point)?;
        }
        push_line_end(text)?;
        if entry.is_taken {
            return push_text(text, "taken\n");
        }
        self.push_replies(text, board, entry.first, entry.end)
    }

    fn push_replies(
        &self,
        text: &mut Vec<u8>,
        board: &Board,
        first: usize,
        end: usize,
    ) -> Result<(), AllocError> {
        push_text(text, "all ")?;
        push_number(text, end.saturating_sub(first))?;
        push_line_end(text)?;
        for at in first..end {
            if let Some(reply) = self.proof.reply(at) {
                push_text(text, "reply ")?;
                let point = match reply.place {
                    Some(place) => self.search.game().point(place),
                    None => None,
                };
                push_turn(text, board, point)?;
                push_text(text, " ")?;
                push_number(text, reply.entry.saturating_add(1))?;
                push_line_end(text)?;
            }
        }
        Ok(())
    }
}

fn rooted_of(game: &LocalGame, state: State) -> PlaceSet {
    game.rooted(state.other)
}

/// Whether the state of the board, or another one, fits what a move makes: the same stones of the killer, none of the other side's
/// where the state has an empty point, and those there that can be taken.
fn fits(game: &LocalGame, state: State, made: State) -> bool {
    let free = made.other.minus(game.rooted(made.other));
    state.own == made.own && state.other.is_within(made.other) && free.is_within(state.other)
}

/// The same for an earlier position.
fn fits_earlier(
    colour: Colour,
    earlier: &Earlier,
    stands: &NumberSet,
    region: &NumberSet,
    own: &NumberSet,
    other: &NumberSet,
    rooted: &NumberSet,
) -> bool {
    let owns = earlier.stones(colour);
    let others = earlier.stones(colour.opponent()).and(region);
    stands.is_within(owns)
        && owns.and(region) == *own
        && others.is_within(other)
        && other.minus(rooted).is_within(&others)
}
