//! The shared proofs of a problem, by the search: its parts and their order.

ghost use Rattle.std.specs.Prelude.{◌≡◌, ◌≤◌, IfErr};
ghost use Rattle.state_proofs.specs.declared.stop.Stop.TheVariants.{Steps};

use crate::finish::{Finish, Goal};
use crate::frame::State;
use crate::search::Search;
use crate::smaller::Smaller;
use local_board::{LargeSet, MAX_SMALL, PlaceSet, Side, SmallSet, Step, count_changing};
use state_proofs::{Answers, Proofs, Refusal, Shared, Stop, steps_for_smaller};
use std::alloc::{AllocError, Global};
use std::mem;
use std::num::NonZeroUsize;
use target_game::Problem;

/// An answer of more turns than this is large: the search is repeated, and takes a group to live only if little is left to play.
const LARGE: u64 = 10_000;

/// How little that is. 0 means that the search does not ask at all who cannot have two eyes.
const ROOMS: [u32; 5] = [0, 15, 11, 7, 4];

/// The steps that are set aside for the last walk.
const LAST_STEPS: u64 = 500;

/// The proofs that the search finds with a table of this many states. Each state that is opened is a step. Where more points can
/// change than a small set holds, it does not ask about shapes.
pub fn prove(
    alloc: Global,
    problem: &Problem,
    table: NonZeroUsize,
    answers: Answers,
    left: &mut u64,
) -> Result<Shared, Stop>
    ensures fewer { left.new ≤ left.old }
    ensures all { IfErr result (λ stop. stop ≡ Steps → left.new ≡ 0) }
{
    match count_changing(alloc, problem) {
        Ok(count) if count <= MAX_SMALL => {
            prove_by::<SmallSet>(alloc, problem, table, true, answers, left)
        }
        Ok(_) => prove_by::<LargeSet>(alloc, problem, table, false, answers, left),
        Err(_) => Err(Stop::Refused(Refusal::Memory)),
    }
}

/// The same with sets of this kind, which have room for all points that can change, and with or without questions about shapes.
fn prove_by<S: PlaceSet>(
    alloc: Global,
    problem: &Problem,
    table: NonZeroUsize,
    asks_shapes: bool,
    answers: Answers,
    left: &mut u64,
) -> Result<Shared, Stop>
    ensures fewer { left.new ≤ left.old }
    ensures all { IfErr result (λ stop. stop ≡ Steps → left.new ≡ 0) }
{
    let Ok((search, start)) = Search::<S>::of(alloc, problem, table, asks_shapes) else {
        return Err(Stop::Refused(Refusal::Memory));
    };
    let mut proving = Proving {
        finish: Finish::of(alloc, search, *left),
        start,
        whole: Vec::new(alloc),
    };
    let found = proving.prove(alloc, answers);
    let rest = proving.finish.steps.left;
    *left = rest.min(*left);
    match found {
        Ok(shared) => Ok(shared),
        Err(Stop::Steps) => {
            // The search stops for lack of steps only when it has made them all, so this never happens.
            if *left > 0 {
                return Err(Stop::Refused(Refusal::Fault));
            }
            Err(Stop::Steps)
        }
        Err(Stop::Refused(refusal)) => Err(Stop::Refused(refusal)),
    }
}

/// The whole search.
#[derive(Drop)]
struct Proving<S> {
    finish: Finish<S>,
    start: State<S>,
    /// The proofs that were made whole, by their places in the list.
    whole: Vec<(usize, usize)>,
}

impl<S: PlaceSet> Proving<S> {
    /// The proofs that are found.
    fn prove(&mut self, alloc: Global, answers: Answers) -> Result<Shared, Stop> {
        self.finish.search.has_leaves = answers == Answers::Short;
        let before = self.finish.steps.left;
        let first = self.first(alloc)?;
        let best = match answers {
            Answers::First | Answers::Short => first,
            Answers::Small => {
                let used = before.saturating_sub(self.finish.steps.left);
                self.small(alloc, first, used)?
            }
        };
        let Some(proof) = self.finish.search.proofs.get(best) else {
            return Err(Stop::Refused(Refusal::Fault));
        };
        let winner = proof.winner;
        let mut proofs = mem::replace(&mut self.finish.search.proofs, Proofs::new(alloc));
        let root = proofs.keep_used(alloc, best)?;
        Ok(Shared {
            winner,
            proofs,
            root,
        })
    }

    /// The first whole proof. If a state that was taken for dead is not dead, everything is searched again without that question.
    fn first(&mut self, alloc: Global) -> Result<u32, Stop> {
        if let Some(number) = self.find(alloc)? {
            return Ok(number);
        }
        self.finish.search.asks_death = false;
        self.finish.search.forget();
        match self.find(alloc)? {
            Some(number) => Ok(number),
            None => Err(Stop::Refused(Refusal::Fault)),
        }
    }

    /// Searches, and makes what is found whole. `None` if that fails.
    fn find(&mut self, alloc: Global) -> Result<Option<u32>, Stop> {
        let settled = self.settle()?;
        let proofs = &mut self.finish.search.proofs;
        let found = if self.whole.is_empty() {
            // Of the search only the tree that was found is still wanted.
            proofs.keep_tree(alloc, settled)?
        } else {
            proofs.hide_all();
            settled
        };
        let from = self.finish.search.proofs.len();
        let made = self.finish.make(self.start, Goal::Whole(found))?;
        self.whole.push((from, self.finish.search.proofs.len()))?;
        Ok(made)
    }

    /// A proof of the first state, which has yet to be made whole. If that state is a leaf, nothing is searched.
    fn settle(&mut self) -> Result<u32, Stop> {
        let start = self.start;
        let search = &mut self.finish.search;
        if search.has_leaves && search.shapes.is_alive(start.position) {
            return Ok(search.proof_by_shape(start, Side::Defender)?);
        }
        search.settle(start, Step::Pass, &mut self.finish.steps)
    }

    /// A small answer, with some more steps than the first answer took. If that one is too large for a claim, it stays as it is: its
    /// tree might become smaller, but hardly the number of its states.
    fn small(&mut self, alloc: Global, first: u32, used: u64) -> Result<u32, Stop> {
        if self.finish.search.proofs.is_too_large(alloc, first)? {
            return Ok(first);
        }
        let floor = self.finish.steps.begin(steps_for_smaller(used));
        let best = self.smaller(alloc, first);
        self.finish.steps.end(floor);
        Ok(best)
    }

    fn turns_of(&self, number: u32) -> u64 {
        self.finish.search.proofs.turns_of(number)
    }

    /// A smaller proof than this one, if the steps that may be made find one.
    fn smaller(&mut self, alloc: Global, first: u32) -> u32 {
        let mut best = first;
        for room in ROOMS {
            let is_due = (room == 0) == (self.turns_of(best) <= LARGE);
            if is_due && self.finish.search.asks_shapes {
                best = self.with_room(alloc, room, best);
            }
        }
        self.finish.search.asks_life = false;
        self.finish.search.asks_death = false;
        match self.shrunk(alloc, best) {
            Ok(number) if self.turns_of(number) < self.turns_of(best) => number,
            _ => best,
        }
    }

    /// The smaller of this proof and the one that a search with this little room finds with a third of the steps that may be made.
    fn with_room(&mut self, alloc: Global, room: u32, best: u32) -> u32 {
        let third = self.finish.steps.rest() / 3;
        let floor = self.finish.steps.begin(third);
        self.finish.search.asks_death = room != 0;
        self.finish.search.room = room;
        self.finish.search.forget();
        let found = self.find(alloc);
        self.finish.search.room = 0;
        self.finish.steps.end(floor);
        match found {
            Ok(Some(number)) if self.turns_of(number) < self.turns_of(best) => number,
            _ => best,
        }
    }

    /// The proof after rounds that put smaller proofs in place of larger ones, made whole again.
    fn shrunk(&mut self, alloc: Global, root: u32) -> Result<u32, Stop> {
        self.finish.search.forget();
        self.show_whole()?;
        let floor = self.finish.steps.keep(LAST_STEPS);
        let root = Smaller::of(alloc).shrink(&mut self.finish, self.start, root);
        self.finish.steps.end(floor);
        self.finish.search.proofs.hide_all();
        match self.finish.make(self.start, Goal::Whole(root))? {
            Some(number) => Ok(number),
            None => Err(Stop::Refused(Refusal::Fault)),
        }
    }

    /// Makes all whole proofs findable, except those that short searches made on the way.
    fn show_whole(&mut self) -> Result<(), AllocError> {
        for index in 0..self.whole.len() {
            if let Some(range) = self.whole.get(index).copied() {
                self.show_range(range.0, range.1)?;
            }
        }
        Ok(())
    }

    fn show_range(&mut self, from: usize, to: usize) -> Result<(), AllocError> {
        for place in from..to {
            if !self.was_helped(place) {
                self.finish.search.proofs.show(place)?;
            }
        }
        Ok(())
    }

    /// Whether a short search made the proof at this place.
    fn was_helped(&self, place: usize) -> bool {
        for range in self.finish.helped.as_slice() {
            if range.0 <= place && place < range.1 {
                return true;
            }
        }
        false
    }
}
