//! The first procedure: for growing sizes, the natural walls and the bound that speaks against their winner.
//!
//! The attacker surely wins if it wins though weak walls fall, and the defender surely wins if it wins though it is shut in. If
//! neither is so, the natural walls decide, if they say the same at the last two sizes.

ghost use Rattle.std.specs.Prelude.{◌≡◌};
ghost use Rattle.group_words.specs.Sides.{is_won_by};
ghost use Rattle.group_status.specs.First.{sure_winner, same_winner, is_sure, is_likely, first_finding, found_by};

use crate::asker::Asker;
use group_words::{Finding, Side, Word, is_won_by};
use regions::Walls;
use std::alloc::AllocError;
use std::io::Write;

/// The sizes, in empty points.
const SIZES: [usize; 5] = [6, 9, 12, 15, 18];

/// What was found so far.
#[derive(Clone, Copy, Debug)]
struct Course {
    /// Whether an answer with these walls was unknown at one size: a larger region would take even longer. The last are those that
    /// shut the defender in.
    gave_up_on_natural: bool,
    gave_up_on_kind: bool,
    gave_up_on_hard: bool,
    /// At how many sizes something was known, and who surely won at the last two of them.
    sizes: usize,
    sure: Option<Side>,
    sure_before: Option<Side>,
    /// The last of these sizes.
    size: usize,
    /// How often the natural walls decided, how at the last two sizes, and which these are.
    naturals: usize,
    natural: Option<Side>,
    natural_before: Option<Side>,
    natural_size: usize,
    natural_size_before: usize,
}

impl Course {
    fn begin() -> Course {
        Course {
            gave_up_on_natural: false,
            gave_up_on_kind: false,
            gave_up_on_hard: false,
            sizes: 0,
            sure: None,
            sure_before: None,
            size: 0,
            naturals: 0,
            natural: None,
            natural_before: None,
            natural_size: 0,
            natural_size_before: 0,
        }
    }

    /// Whether these walls were unknown at a smaller size.
    fn gave_up_on(&self, walls: Walls) -> bool {
        match walls {
            Walls::Natural => self.gave_up_on_natural,
            Walls::Kind => self.gave_up_on_kind,
            _ => self.gave_up_on_hard,
        }
    }

    /// Notes that these walls were unknown.
    fn give_up_on(&mut self, walls: Walls) {
        match walls {
            Walls::Natural => self.gave_up_on_natural = true,
            Walls::Kind => self.gave_up_on_kind = true,
            _ => self.gave_up_on_hard = true,
        }
    }

    /// Takes the answers of this size. Returns whether any was known.
    fn note(
        &mut self,
        size: usize,
        natural: Option<Side>,
        kind: Option<Side>,
        hard: Option<Side>,
    ) -> bool {
        if natural.is_none() && kind.is_none() && hard.is_none() {
            return false;
        }
        self.sizes = self.sizes.saturating_add(1);
        self.size = size;
        self.sure_before = self.sure;
        self.sure = sure_winner(kind, hard);
        if natural.is_some() {
            self.naturals = self.naturals.saturating_add(1);
            self.natural_before = self.natural;
            self.natural = natural;
            self.natural_size_before = self.natural_size;
            self.natural_size = size;
        }
        true
    }

    /// Whether the last two sizes are sure of the same winner.
    fn is_settled(&self) -> bool {
        self.sizes > 1 && self.sure.is_some() && same_winner(self.sure, self.sure_before)
    }

    /// Whether the winner that was last sure is the one to name. One size is enough if nothing more can be reached.
    fn is_sure(&self, is_small: bool) -> bool
        ensures { result ≡ is_sure self.now is_small }
    {
        self.sure.is_some()
            && (self.naturals == 0 || same_winner(self.sure, self.natural))
            && (self.sizes > 1 || is_small)
    }

    /// Whether the winner by natural walls is the one to name.
    fn is_likely(&self, is_small: bool) -> bool
        ensures { result ≡ is_likely self.now is_small }
    {
        self.natural.is_some()
            && (self.naturals > 1 && same_winner(self.natural, self.natural_before)
                || self.naturals == 1 && is_small)
    }

    /// What is found. `is_small` says whether everything that can be reached was in the region at the first size.
    fn finding(&self, is_small: bool) -> Finding
        ensures { result ≡ first_finding self.now is_small }
    {
        if self.is_sure(is_small) {
            return found_by(self.sure, Word::Sure);
        }
        if self.is_likely(is_small) {
            return found_by(self.natural, Word::Likely);
        }
        Finding::none()
    }
}

/// Whether the winners are the same, or both `None`.
fn same_winner(one: Option<Side>, other: Option<Side>) -> bool
    ensures { result ≡ same_winner one other }
{
    match one {
        Some(side) => is_won_by(side, other),
        None => other.is_none(),
    }
}

/// The finding of this winner, or of none.
fn found_by(winner: Option<Side>, word: Word) -> Finding
    ensures { result ≡ found_by winner word }
{
    match winner {
        Some(side) => Finding::of(side, word),
        None => Finding::none(),
    }
}

/// Who wins though everything speaks for the other side.
fn sure_winner(kind: Option<Side>, hard: Option<Side>) -> Option<Side>
    ensures { result ≡ sure_winner kind hard }
{
    if is_won_by(Side::Attacker, kind) {
        return Some(Side::Attacker);
    }
    if is_won_by(Side::Defender, hard) {
        return Some(Side::Defender);
    }
    None
}

/// The answer with these walls, unless they were unknown at a smaller size.
fn answer<N: Write>(
    asker: &mut Asker<'_, N>,
    course: &mut Course,
    walls: Walls,
    count: usize,
) -> Result<Option<Side>, AllocError> {
    if course.gave_up_on(walls) {
        return Ok(None);
    }
    let winner = asker.ask(walls, count)?;
    if winner.is_none() {
        course.give_up_on(walls);
    }
    Ok(winner)
}

/// What is found about the asker's first mover. The walls that shut the defender in are the hard ones, or those with which no friend
/// helps.
pub(crate) fn first_procedure<N: Write>(
    asker: &mut Asker<'_, N>,
    hard: Walls,
) -> Result<Finding, AllocError> {
    let mut course = Course::begin();
    for i in 0..SIZES.len() {
        let count = SIZES[i];
        let natural = answer(asker, &mut course, Walls::Natural, count)?;
        let (kind, bound) = bounds(asker, &mut course, hard, count, natural)?;
        if !course.note(count, natural, kind, bound) || course.is_settled() || asker.is_all(count) {
            break;
        }
    }
    let is_small = asker.is_all(SIZES[0]);
    stand_on(asker, &course, hard, is_small)?;
    Ok(course.finding(is_small))
}

/// Notes in the table on which questions the finding stands: if it is sure, on the last one with the walls that speak against it and
/// the last one with natural walls, otherwise on the last two with natural walls.
fn stand_on<N: Write>(
    asker: &mut Asker<'_, N>,
    course: &Course,
    hard: Walls,
    is_small: bool,
) -> Result<(), AllocError> {
    if course.is_sure(is_small) {
        let bound = if is_won_by(Side::Attacker, course.sure) {
            Walls::Kind
        } else {
            hard
        };
        asker.stand_on(bound, course.size)?;
        return asker.stand_on(Walls::Natural, course.natural_size);
    }
    if course.is_likely(is_small) {
        asker.stand_on(Walls::Natural, course.natural_size)?;
        return asker.stand_on(Walls::Natural, course.natural_size_before);
    }
    Ok(())
}

/// The answers if weak walls fall, and if the defender is shut in. If the natural walls are unknown here, only the side for which
/// they spoke before can still be sure: the walls that speak against it are asked first, and the others only if it may be.
fn bounds<N: Write>(
    asker: &mut Asker<'_, N>,
    course: &mut Course,
    hard: Walls,
    count: usize,
    natural: Option<Side>,
) -> Result<(Option<Side>, Option<Side>), AllocError> {
    let before = if natural.is_some() {
        None
    } else {
        course.natural
    };
    if before == Some(Side::Defender) {
        let bound = bound_of_hard(asker, course, hard, count, natural)?;
        if !may_be_sure(Side::Defender, bound, course.sure) {
            return Ok((None, bound));
        }
        let kind = bound_of_kind(asker, course, count, natural)?;
        return Ok((kind, bound));
    }
    let kind = bound_of_kind(asker, course, count, natural)?;
    if before == Some(Side::Attacker) && !may_be_sure(Side::Attacker, kind, course.sure) {
        return Ok((kind, None));
    }
    let bound = bound_of_hard(asker, course, hard, count, natural)?;
    Ok((kind, bound))
}

/// Whether the side may surely win, if this is the answer with the walls that speak against it: then it wins there, or they are
/// unknown and it surely won at the size before.
fn may_be_sure(side: Side, bound: Option<Side>, before: Option<Side>) -> bool {
    match bound {
        Some(winner) => winner.is(side),
        None => is_won_by(side, before),
    }
}

/// The answer if weak walls fall, unless the natural walls spoke for the defender.
fn bound_of_kind<N: Write>(
    asker: &mut Asker<'_, N>,
    course: &mut Course,
    count: usize,
    natural: Option<Side>,
) -> Result<Option<Side>, AllocError> {
    if natural == Some(Side::Defender) {
        return Ok(None);
    }
    answer(asker, course, Walls::Kind, count)
}

/// The answer if the defender is shut in, unless the natural walls spoke for the attacker.
fn bound_of_hard<N: Write>(
    asker: &mut Asker<'_, N>,
    course: &mut Course,
    hard: Walls,
    count: usize,
    natural: Option<Side>,
) -> Result<Option<Side>, AllocError> {
    if natural == Some(Side::Attacker) {
        return Ok(None);
    }
    answer(asker, course, hard, count)
}
