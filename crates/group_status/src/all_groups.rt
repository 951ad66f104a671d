//! The groups of a position: first those that a search over the whole board proves to be alive or dead, and then the others, one after
//! another. Each is written as soon as it is known.

use crate::group::Group;
use crate::group_line::said_and_line;
use crate::past::without_past;
use crate::progress::tell_stones;
use crate::proof::{Proof, proved_line};
use crate::proof_json::proof_object;
use crate::totals::{Said, Totals};
use go_points::{Cell, Colouring, Point, PointSet};
use group_words::{Form, Request};
use pn_search::Budget;
use proved_groups::{Proven, judged, search_of};
use sgf_text::write_bytes;
use std::alloc::{AllocError, Global};
use std::io::Write;
use target_game::Problem;

/// Why a run over all groups ends early.
#[derive(Clone, Copy, Debug, PartialEq, Eq)]
pub(crate) enum Stop {
    Memory,
    Write,
}

impl From<AllocError> for Stop {
    fn from(_: AllocError) -> Stop {
        Stop::Memory
    }
}

/// The stones whose group was said: which of them live, die, are unsettled or open, and how many these are.
#[derive(Clone, Copy, Debug)]
pub(crate) struct Course {
    stones: PointSet,
    pub(crate) alive: PointSet,
    pub(crate) dead: PointSet,
    pub(crate) unsettled: PointSet,
    pub(crate) open: PointSet,
    /// The stones that are proved to be taken, perhaps as long as others stand.
    lost: PointSet,
    totals: Totals,
    /// How many stones the board has.
    all: usize,
}

impl Course {
    /// Nothing was said of a board with so many stones.
    fn of(all: usize) -> Course {
        Course {
            stones: PointSet::new(),
            alive: PointSet::new(),
            dead: PointSet::new(),
            unsettled: PointSet::new(),
            open: PointSet::new(),
            lost: PointSet::new(),
            totals: Totals::none(),
            all,
        }
    }

    /// Notes this stone, of which this was said.
    fn insert(&mut self, said: Said, stone: Point) {
        self.stones.insert(stone);
        match said {
            Said::Proved => self.alive.insert(stone),
            Said::Alive => self.alive.insert(stone),
            Said::Dead => self.dead.insert(stone),
            Said::Unsettled => self.unsettled.insert(stone),
            Said::Open => self.open.insert(stone),
        }
    }
}

/// Writes what is said about every group of the problem's position. Returns of which stones what was said.
pub(crate) fn all_groups<W: Write, N: Write>(
    alloc: Global,
    problem: &Problem,
    request: &Request,
    budget: Budget,
    writer: &mut W,
    notes: &mut N,
) -> Result<Course, Stop> {
    if request.is_position_only {
        return match without_past(alloc, problem)? {
            Some(same) => each_group(alloc, &same, request, budget, writer, notes),
            None => Ok(Course::of(0)),
        };
    }
    each_group(alloc, problem, request, budget, writer, notes)
}

/// Writes what is said about every group of the problem's position, with the past that the problem has.
fn each_group<W: Write, N: Write>(
    alloc: Global,
    problem: &Problem,
    request: &Request,
    budget: Budget,
    writer: &mut W,
    notes: &mut N,
) -> Result<Course, Stop> {
    let mut course = Course::of(stone_count(problem.colouring()));
    let conditional = say_proved(alloc, problem, request, &mut course, writer, notes)?;
    course.lost = lost_stones(&course.dead, conditional.as_slice());
    say_others(
        alloc,
        problem,
        request,
        budget,
        conditional.as_slice(),
        &mut course,
        writer,
        notes,
    )?;
    if request.form == Form::Json {
        return Ok(course);
    }
    let line = course.totals.line(alloc)?;
    say(line.as_str(), writer)?;
    Ok(course)
}

/// Writes a whole line.
fn say<W: Write>(line: &str, writer: &mut W) -> Result<(), Stop> {
    match write_bytes(line.as_bytes(), writer) {
        Ok(()) => Ok(()),
        Err(_) => Err(Stop::Write),
    }
}

/// How many stones are on the board.
fn stone_count(colouring: &Colouring) -> usize {
    let size = colouring.size();
    let mut count: usize = 0;
    for number in 0..size.area() {
        if is_stone(colouring, number) {
            count = count.saturating_add(1);
        }
    }
    count
}

/// Whether a stone is at the point of this number.
fn is_stone(colouring: &Colouring, number: usize) -> bool {
    number < colouring.size().area() && matches!(colouring.cell(number), Cell::Stone(_))
}

/// Notes these stones of a group of which this was said.
fn note(course: &mut Course, stones: &PointSet, said: Said) {
    course.totals.add(said, stones.len());
    for stone in stones.iter() {
        course.insert(said, stone);
    }
}

/// Says of each finding that a judge accepts, as soon as it is found, that its stones live or die. Returns those that depend on stones
/// that are only supposed to stand: of these nothing is said yet.
fn say_proved<W: Write, N: Write>(
    alloc: Global,
    problem: &Problem,
    request: &Request,
    course: &mut Course,
    writer: &mut W,
    notes: &mut N,
) -> Result<Vec<Proof>, Stop> {
    let mut search = search_of(alloc, problem, request.steps)?;
    let mut conditional = Vec::new(alloc);
    for _ in 0..u64::MAX {
        let Some(finding) = search.next_finding()? else {
            break;
        };
        if let Some(proven) = judged(alloc, problem, finding)? {
            if proven.supposed().is_empty() {
                say_finding(alloc, problem, request, proven, course, writer, notes)?;
            } else {
                keep(&mut conditional, Proof::Answers(proven))?;
            }
        }
    }
    Ok(conditional)
}

fn keep(proofs: &mut Vec<Proof>, proof: Proof) -> Result<(), AllocError> {
    proofs.push(proof)?;
    Ok(())
}

/// Says that the stones of a finding live, or die. They are named by the first of them.
fn say_finding<W: Write, N: Write>(
    alloc: Global,
    problem: &Problem,
    request: &Request,
    proven: Proven,
    course: &mut Course,
    writer: &mut W,
    notes: &mut N,
) -> Result<(), Stop> {
    let stones = proven.finding().stones;
    let Some(target) = stones.first() else {
        return Ok(());
    };
    if course.stones.has(target) {
        return Ok(());
    }
    let (size, owner) = (problem.size(), proven.problem().defender());
    let proof = Proof::Answers(proven);
    let line = if request.form == Form::Json {
        proof_object(alloc, size, target, owner, None, &stones, &proof)?
    } else {
        proved_line(alloc, size, target, &proof)?
    };
    note(course, &stones, proof.said());
    say(line.as_str(), writer)?;
    if request.is_told {
        tell_stones(alloc, size, target, course.stones.len(), course.all, notes)?;
    }
    Ok(())
}

/// Says of each other group, by row and column of its first stone, what the procedures find, or one of these proofs.
fn say_others<W: Write, N: Write>(
    alloc: Global,
    problem: &Problem,
    request: &Request,
    budget: Budget,
    conditional: &[Proof],
    course: &mut Course,
    writer: &mut W,
    notes: &mut N,
) -> Result<(), Stop> {
    let size = problem.size();
    for number in 0..size.area() {
        let point = size.point_at(number);
        if is_stone(problem.colouring(), number) && !course.stones.has(point) {
            let proof = proof_at(conditional, point);
            say_other(
                alloc, problem, point, request, budget, proof, course, writer, notes,
            )?;
        }
    }
    Ok(())
}

/// These dead stones, and those of the proofs.
fn lost_stones(dead: &PointSet, proofs: &[Proof]) -> PointSet {
    let mut stones = *dead;
    for proof in proofs {
        if let Some(proven) = proof.proven() {
            for stone in proven.finding().stones.iter() {
                stones.insert(stone);
            }
        }
    }
    stones
}

/// The first of these proofs that is about the stone at the point.
fn proof_at(proofs: &[Proof], point: Point) -> Option<&Proof> {
    for proof in proofs {
        if let Some(proven) = proof.proven() {
            if proven.finding().stones.has(point) {
                return Some(proof);
            }
        }
    }
    None
}

/// Says of the group of this stone what the procedures find, or this proof.
fn say_other<W: Write, N: Write>(
    alloc: Global,
    problem: &Problem,
    point: Point,
    request: &Request,
    budget: Budget,
    proof: Option<&Proof>,
    course: &mut Course,
    writer: &mut W,
    notes: &mut N,
) -> Result<(), Stop> {
    let Some(asked) = problem_at(alloc, problem, point)? else {
        return Ok(());
    };
    let Some(mut group) = Group::new(alloc, asked)? else {
        return Ok(());
    };
    group.lost = course.lost;
    let (said, line) = said_and_line(alloc, &group, request, budget, proof)?;
    note(course, &group.position.stones(group.target), said);
    say(line.as_str(), writer)?;
    if request.is_told {
        let size = problem.size();
        tell_stones(alloc, size, point, course.stones.len(), course.all, notes)?;
    }
    Ok(())
}

/// The problem of the stone at the point in the same position, with the same past. `None` if there is no stone.
fn problem_at(
    alloc: Global,
    problem: &Problem,
    point: Point,
) -> Result<Option<Problem>, AllocError> {
    let history = problem.history().to_vec(alloc)?;
    let mut targets = PointSet::new();
    targets.insert(point);
    let place = problem.place();
    let mover = problem.mover();
    let region = *problem.region();
    match Problem::new(history, place, mover, 0, targets, region) {
        Ok(made) => Ok(Some(made)),
        Err(_) => Ok(None),
    }
}
