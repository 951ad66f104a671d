//! The questions about a group, each asked once.

ghost use Rattle.std.specs.Prelude.{IfSome};
ghost use Rattle.group_status.specs.Winner.{HasWinnerAt};

use crate::asked::{Asked, ask};
use crate::group::Group;
use crate::past::{bars_a_turn, without_past};
use crate::progress::tell_row;
use go_points::{Colour, Point, PointSet, Turn};
use group_words::Side;
use pn_search::{Budget, Cause};
use regions::{Walls, out_there, suppose};
use std::alloc::{AllocError, Global};
use std::io::Write;
use target_game::Problem;

/// A question: who moves first, how many empty points are inside, and what is supposed outside; with its problem, and where stones
/// were placed.
#[derive(Drop)]
pub(crate) struct Row {
    pub(crate) first: Side,
    pub(crate) count: usize,
    pub(crate) walls: Walls,
    /// The place of the problem among those that were asked. `None` if there is no such problem.
    pub(crate) place: Option<usize>,
    /// The place of the same problem without its past, if a position of the past bars a turn of the mover.
    pub(crate) without_past: Option<usize>,
    pub(crate) inside: PointSet,
    pub(crate) shut: PointSet,
    pub(crate) given: PointSet,
    pub(crate) held: PointSet,
}

/// What has been asked so far.
#[derive(Drop)]
pub(crate) struct Table {
    pub(crate) asked: Vec<Asked>,
    pub(crate) rows: Vec<Row>,
    /// The places of the rows on which what was found last stands.
    grounds: Vec<usize>,
    pub(crate) budget: Budget,
    /// Stones that are proved to be taken, perhaps as long as others stand. A target beside them may live by taking them.
    pub(crate) lost: PointSet,
    /// Whether each row is reported when it has been asked.
    pub(crate) is_told: bool,
}

/// Whether two problems, each with the group's past or with none, have the same past, position, mover, targets and region.
fn are_same(one: &Problem, other: &Problem) -> bool {
    one.mover() == other.mover()
        && one.history().len() == other.history().len()
        && *one.colouring() == *other.colouring()
        && *one.targets() == *other.targets()
        && *one.region() == *other.region()
}

impl Table {
    pub(crate) fn new(alloc: Global, budget: Budget, is_told: bool) -> Table {
        Table {
            asked: Vec::new(alloc),
            rows: Vec::new(alloc),
            grounds: Vec::new(alloc),
            lost: PointSet::new(),
            budget,
            is_told,
        }
    }

    /// The place of the same problem among those that were asked.
    fn place_of(&self, problem: &Problem) -> Option<usize> {
        let asked = self.asked.as_slice();
        for i in 0..asked.len() {
            if are_same(&asked[i].problem, problem) {
                return Some(i);
            }
        }
        None
    }

    /// Who wins the problem at this place, if that is known.
    pub(crate) fn winner_at(&self, place: Option<usize>, defender: Colour) -> Option<Side>
        ensures { IfSome result (HasWinnerAt self.now place defender) }
    {
        let asked = self.asked.get(place?)?;
        match asked.winner {
            Some(colour) => Some(Side::of(colour, defender)),
            None => None,
        }
    }

    /// The winner's first turn in the problem at this place.
    pub(crate) fn turn_at(&self, place: Option<usize>) -> Option<Turn> {
        self.asked.get(place?)?.turn
    }

    /// Why the problem at this place has no winner, and after how many steps.
    pub(crate) fn cause_at(&self, place: Option<usize>) -> Option<(Cause, u64)> {
        let asked = self.asked.get(place?)?;
        Some((asked.cause?, asked.steps))
    }

    /// Whether the winner of the row depends on who took last: one side wins with the past, and the other without.
    pub(crate) fn is_ko(&self, row: &Row, defender: Colour) -> bool {
        let with_past = self.winner_at(row.place, defender);
        let without_past = self.winner_at(row.without_past, defender);
        with_past.is_some() && without_past.is_some() && with_past != without_past
    }

    /// Forgets on which questions findings stand, before others are made.
    pub(crate) fn clear_grounds(&mut self) {
        self.grounds.clear();
    }

    /// Notes that a finding stands on this question, if it was asked.
    pub(crate) fn stand_on(
        &mut self,
        first: Side,
        walls: Walls,
        count: usize,
    ) -> Result<(), AllocError> {
        if let Some(row) = self.row_of(first, walls, count) {
            self.grounds.push(row)?;
        }
        Ok(())
    }

    /// Whether a question that the finding for this side to move first stands on has a winner that depends on who took last.
    pub(crate) fn stands_on_ko(&self, first: Side, defender: Colour) -> bool {
        for place in self.grounds.as_slice() {
            if let Some(row) = self.rows.get(*place) {
                if row.first == first && self.is_ko(row, defender) {
                    return true;
                }
            }
        }
        false
    }

    /// Whether no problem that was asked has a winner that is known.
    pub(crate) fn is_open(&self) -> bool {
        for one in self.asked.as_slice() {
            if one.winner.is_some() {
                return false;
            }
        }
        true
    }

    /// Whether one of these stones is in no region that was asked with this side to move first.
    pub(crate) fn leaves_out(&self, first: Side, stones: &PointSet) -> bool {
        stones.iter().any(|stone| !self.has_in_region(first, stone))
    }

    /// Whether the point is in a region that was asked with this side to move first.
    fn has_in_region(&self, first: Side, point: Point) -> bool {
        for row in self.rows.as_slice() {
            if let Some(place) = row.place {
                if let Some(asked) = self.asked.get(place) {
                    if row.first == first && asked.problem.region().has(point) {
                        return true;
                    }
                }
            }
        }
        false
    }

    /// The place of the row of a question, if it was asked.
    fn row_of(&self, first: Side, walls: Walls, count: usize) -> Option<usize> {
        let rows = self.rows.as_slice();
        for i in 0..rows.len() {
            if rows[i].first == first && rows[i].walls == walls && rows[i].count == count {
                return Some(i);
            }
        }
        None
    }

    /// Who wins the question of this row.
    fn winner_of(&self, row: usize, defender: Colour) -> Option<Side> {
        let row = self.rows.get(row)?;
        self.winner_at(row.place, defender)
    }
}

/// The place of the problem. It is asked if it has not been asked yet.
fn place_asked(
    alloc: Global,
    table: &mut Table,
    problem: Option<Problem>,
) -> Result<Option<usize>, AllocError> {
    let Some(problem) = problem else {
        return Ok(None);
    };
    if let Some(place) = table.place_of(&problem) {
        return Ok(Some(place));
    }
    let asked = ask(alloc, problem, table.budget)?;
    table.asked.push(asked)?;
    Ok(table.asked.len().checked_sub(1))
}

/// Who wins if this side moves first, this many empty points are inside, and this is supposed outside.
pub(crate) fn question<N: Write>(
    alloc: Global,
    group: &Group,
    table: &mut Table,
    first: Side,
    walls: Walls,
    count: usize,
    notes: &mut N,
) -> Result<Option<Side>, AllocError> {
    if let Some(row) = table.row_of(first, walls, count) {
        return Ok(table.winner_of(row, group.defender));
    }
    let shut = shut_points(alloc, group, table, walls, count)?;
    let made = suppose(
        alloc,
        &group.position,
        group.target,
        &group.order,
        count,
        walls,
        &shut,
    )?;
    let Some(supposed) = made else {
        return Ok(None);
    };
    let problem = group.problem_of(alloc, &supposed, group.target, first)?;
    let without_past = place_without_past(alloc, table, problem.as_ref())?;
    let place = place_asked(alloc, table, problem)?;
    let winner = table.winner_at(place, group.defender);
    let row = Row {
        first,
        count,
        walls,
        place,
        without_past,
        inside: supposed.inside,
        shut,
        given: supposed.given,
        held: supposed.walls,
    };
    if table.is_told {
        tell_row(alloc, group, &row, winner, notes)?;
    }
    table.rows.push(row)?;
    Ok(winner)
}

/// The place of the same problem without its past, which is also asked if the past bars a turn.
fn place_without_past(
    alloc: Global,
    table: &mut Table,
    problem: Option<&Problem>,
) -> Result<Option<usize>, AllocError> {
    let Some(problem) = problem else {
        return Ok(None);
    };
    if !bars_a_turn(alloc, problem)? {
        return Ok(None);
    }
    let same = without_past(alloc, problem)?;
    place_asked(alloc, table, same)
}

/// The ways out that are shut: if no friend helps, those at which a stone of the defender would be taken, with the attacker moving
/// first there.
fn shut_points(
    alloc: Global,
    group: &Group,
    table: &mut Table,
    walls: Walls,
    count: usize,
) -> Result<PointSet, AllocError> {
    let mut shut = PointSet::new();
    if walls != Walls::Alone {
        return Ok(shut);
    }
    for point in ways_out(alloc, group, count)?.iter() {
        if is_taken(alloc, group, table, count, point)? {
            shut.insert(point);
        }
    }
    Ok(shut)
}

/// The ways out of a region of this many empty points, if no friend helps.
fn ways_out(alloc: Global, group: &Group, count: usize) -> Result<PointSet, AllocError> {
    let none = PointSet::new();
    let made = suppose(
        alloc,
        &group.position,
        group.target,
        &group.order,
        count,
        Walls::Alone,
        &none,
    )?;
    match made {
        Some(supposed) => Ok(supposed.ways_out),
        None => Ok(none),
    }
}

/// Whether a stone of the defender that gets out to the point is taken there.
fn is_taken(
    alloc: Global,
    group: &Group,
    table: &mut Table,
    count: usize,
    point: Point,
) -> Result<bool, AllocError> {
    let inside = group.order.first(count);
    let made = out_there(
        alloc,
        group.position.colouring(),
        group.defender,
        &inside,
        point,
    )?;
    let Some(supposed) = made else {
        return Ok(true);
    };
    let problem = group.problem_of(alloc, &supposed, point, Side::Attacker)?;
    let place = place_asked(alloc, table, problem)?;
    Ok(table.winner_at(place, group.defender) == Some(Side::Attacker))
}
