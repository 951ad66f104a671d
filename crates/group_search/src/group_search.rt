//! A search over a board, in which each finding is known as soon as it is found.

use crate::finding::Finding;
use crate::keeping::{Kept, Said, keep, make_smaller};
use crate::limits::Limits;
use crate::past::Past;
use crate::proofs::Proofs;
use crate::regions::chains_beside;
use crate::rounds::Rounds;
use go_points::{Colour, Colouring};
use indexmap::{IndexMap, IndexSet};
use safety_search::{Board, Costs, NumberSet, Question, nearest_points};
use std::alloc::{AllocError, Global};

/// A question of life: its region, the chains that are kept, those that stand anyway, and those with a liberty in another region.
#[derive(Clone, Copy, Debug, PartialEq, Eq, Hash)]
pub(crate) struct Asked {
    pub(crate) region: NumberSet,
    pub(crate) kept: NumberSet,
    pub(crate) friends: NumberSet,
    pub(crate) giving: NumberSet,
}

/// A part of a search over a board. Each is done for Black's answers, and then for White's.
#[derive(Clone, Copy, Debug, PartialEq, Eq)]
enum Part {
    /// The chains that live by their shape.
    Shapes,
    /// Those that live by regions, together, and those that live by themselves alone.
    Together,
    Singles,
    /// The other side's chains that are taken, outright, and as long as stones stand.
    Deaths,
    DeathsWhile,
}

/// All parts, in order.
const PARTS: [Part; 5] = [
    Part::Shapes,
    Part::Together,
    Part::Deaths,
    Part::Singles,
    Part::DeathsWhile,
];

/// The share of the steps that are left which a part may use, in eighths.
const SHARE: u64 = 5;

/// A search over a board. `next_finding` gives its findings, each as it is found.
#[derive(Drop)]
pub struct GroupSearch {
    pub(crate) alloc: Global,
    pub(crate) board: Board,
    pub(crate) mover: Option<Colour>,
    pub(crate) limits: Limits,
    pub(crate) past: Past,
    pub(crate) proofs: Proofs,
    pub(crate) black_costs: Costs,
    pub(crate) white_costs: Costs,
    /// The questions of life that were not answered with yes, each with the weakest chain, or `None` where the steps did not
    /// suffice; and those of whole areas.
    pub(crate) tried: IndexMap<Asked, Option<usize>>,
    pub(crate) deep: IndexSet<Asked>,
    /// How many parts are done, of both sides; the rounds that go on, and the next chain that may die.
    parts: usize,
    rounds: Option<Rounds>,
    chain: usize,
    /// How many steps were used, and how many may be in this part.
    pub(crate) spent: u64,
    ceiling: u64,
    /// The findings that were not given yet, the last one first.
    pub(crate) found: Vec<Finding>,
}

impl GroupSearch {
    /// A search over the board, with its earlier positions, oldest first (the present one may be among them). If a colour is to
    /// move, the claims of deaths are made for that. It fails only if memory is refused.
    pub fn new(
        alloc: Global,
        board: &Colouring,
        past: &[Colouring],
        mover: Option<Colour>,
        limits: Limits,
    ) -> Result<GroupSearch, AllocError> {
        let board = Board::of(alloc, board)?;
        let chains = board.chains().len();
        let black_costs = Costs::of(&board, Colour::Black);
        let white_costs = Costs::of(&board, Colour::White);
        Ok(GroupSearch {
            alloc,
            board,
            mover,
            limits,
            past: Past::of(alloc, past)?,
            proofs: Proofs::of(alloc, chains)?,
            black_costs,
            white_costs,
            tried: IndexMap::new(alloc),
            deep: IndexSet::new(alloc),
            parts: 0,
            rounds: None,
            chain: 0,
            spent: 0,
            ceiling: limits.all_steps,
            found: Vec::new(alloc),
        })
    }

    /// The next finding. `None` if there are no more.
    pub fn next_finding(&mut self) -> Result<Option<Finding>, AllocError> {
        for _ in 0..u64::MAX {
            if let Some(finding) = self.found.pop() {
                return Ok(Some(finding));
            }
            let Some(part) = PARTS.get(self.parts / 2).copied() else {
                break;
            };
            self.go_on(part)?;
            self.found.reverse();
        }
        Ok(None)
    }

    /// How many steps were used so far.
    pub fn steps(&self) -> u64 {
        self.spent
    }

    /// Goes on with a part.
    fn go_on(&mut self, part: Part) -> Result<(), AllocError> {
        let colour = if self.parts % 2 == 0 {
            Colour::Black
        } else {
            Colour::White
        };
        match part {
            Part::Shapes => {
                self.find_shapes(colour)?;
                self.end_part();
                Ok(())
            }
            Part::Together | Part::Singles => self.go_on_with_rounds(colour, part),
            Part::Deaths | Part::DeathsWhile => self.go_on_with_deaths(colour, part),
        }
    }

    /// Begins the next part.
    fn end_part(&mut self) {
        self.parts = self.parts.saturating_add(1);
        self.chain = 0;
        self.rounds = None;
        let left = self.limits.all_steps.saturating_sub(self.spent);
        let share = if self.parts.saturating_add(1) < 2 * PARTS.len() {
            left.saturating_mul(SHARE) / 8
        } else {
            left
        };
        self.ceiling = self.spent.saturating_add(share);
    }

    /// Begins rounds over the chains of a side, or does the next one.
    fn go_on_with_rounds(&mut self, colour: Colour, part: Part) -> Result<(), AllocError> {
        let rounds = match self.rounds {
            Some(rounds) => rounds,
            None => self.first_rounds(colour, part),
        };
        if part == Part::Singles && !self.limits.has_singles {
            self.end_part();
            return Ok(());
        }
        match self.run_round(rounds)? {
            Some(next) => self.rounds = Some(next),
            None => self.end_part(),
        }
        Ok(())
    }

    fn first_rounds(&self, colour: Colour, part: Part) -> Rounds {
        let all = self.board.chains_at(&self.board.stones(colour));
        let rounds = Rounds::of(colour, self.proofs.support_of(&all), None);
        if part == Part::Singles {
            rounds.single()
        } else {
            rounds
        }
    }

    /// Asks whether the next chain dies.
    fn go_on_with_deaths(&mut self, colour: Colour, part: Part) -> Result<(), AllocError> {
        if self.chain >= self.board.chains().len() {
            self.end_part();
            return Ok(());
        }
        let chain = self.chain;
        self.chain = chain.saturating_add(1);
        self.try_death(colour, part == Part::DeathsWhile, chain)
    }

    /// Asks a question of life only once: again only for a whole area, which may take more steps. `None` if it was asked before, and
    /// the steps did not suffice.
    pub(crate) fn ask_once(
        &mut self,
        colour: Colour,
        asked: Asked,
        is_whole_area: bool,
    ) -> Result<Option<Said>, AllocError> {
        let is_deeper = is_whole_area && self.deep.insert(asked)?;
        match self.tried.get(&asked).copied() {
            Some(Some(weak)) => return Ok(Some(Said::No(Some(weak)))),
            Some(None) if !is_deeper => return Ok(None),
            _ => {}
        }
        let mut limit = self.limits.steps;
        if is_deeper {
            limit = self.limits.closed_steps.max(limit);
        }
        let said = self.ask(&asked.question(colour), limit)?;
        self.note_tried(asked, &said)?;
        Ok(Some(said))
    }

    /// Notes what was said of a question, if it is not yes, and the question had all its steps.
    fn note_tried(&mut self, asked: Asked, said: &Said) -> Result<(), AllocError> {
        let weak = match said {
            Said::Yes(_) => return Ok(()),
            Said::No(weak) => *weak,
            Said::Open => None,
        };
        if !self.is_spent() {
            self.tried.insert(asked, weak)?;
        }
        Ok(())
    }

    /// Forgets which questions were asked, before they are asked with other limits.
    pub(crate) fn forget_tried(&mut self) {
        self.tried = IndexMap::new(self.alloc);
        self.deep = IndexSet::new(self.alloc);
    }

    /// How many steps a question may use, if it wants so many.
    pub(crate) fn allowed(&self, steps: u64) -> u64 {
        steps.min(self.ceiling.saturating_sub(self.spent))
    }

    /// Whether all steps of this part are used.
    pub(crate) fn is_spent(&self) -> bool {
        self.spent >= self.ceiling
    }

    /// The first empty points in order from these points.
    pub(crate) fn nearest(
        &self,
        colour: Colour,
        from: &NumberSet,
        barred: &NumberSet,
        most: usize,
    ) -> Result<Vec<usize>, AllocError> {
        let costs = match colour {
            Colour::Black => &self.black_costs,
            Colour::White => &self.white_costs,
        };
        nearest_points(self.alloc, &self.board, costs, from, barred, most)
    }

    /// The first empty points in order from a chain, without those in use.
    pub(crate) fn nearest_to_chain(
        &self,
        chain: usize,
        used: &NumberSet,
        most: usize,
    ) -> Result<Vec<usize>, AllocError> {
        let Some(found) = self.board.chain(chain) else {
            return Ok(Vec::new(self.alloc));
        };
        let barred = used.and(&self.board.empty());
        self.nearest(found.colour, &found.stones, &barred, most)
    }

    /// The chains beside the region that stand together with all others, by regions elsewhere; and the other chains beside it.
    pub(crate) fn sides_of(&self, colour: Colour, region: &NumberSet) -> (NumberSet, NumberSet) {
        let beside = chains_beside(&self.board, colour, region);
        let friends = self.proofs.standing(&beside, region);
        (friends, beside.minus(&friends))
    }

    /// Asks a question of life with the other side to move first.
    fn ask(&mut self, question: &Question, limit: u64) -> Result<Said, AllocError> {
        let limit = self.allowed(limit);
        keep(
            self.alloc,
            &self.board,
            question,
            false,
            limit,
            &mut self.spent,
        )
    }

    /// Leaves out points that the proof does not need.
    pub(crate) fn shrink(
        &mut self,
        kept: Kept,
        points: &mut Vec<usize>,
    ) -> Result<Kept, AllocError> {
        let most = self.ceiling;
        make_smaller(self.alloc, &self.board, kept, points, most, &mut self.spent)
    }
}
