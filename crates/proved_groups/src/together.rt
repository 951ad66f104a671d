//! All stones of one side that live together: the claims of several findings as one claim, which is judged as a whole.

use crate::proven::is_life;
use crate::safe::{Safe, safe_stones};
use go_points::{Colour, PointSet};
use group_search::Finding;
use std::alloc::{AllocError, Global};
use target_game::Problem;

/// The areas of a claim: what each has at the head of the claim, and what it has after all heads.
#[derive(Drop)]
struct Areas {
    heads: Vec<Vec<u8>>,
    bodies: Vec<Vec<u8>>,
}

/// What is found of one side: the first line of its claim, all areas, and the stones.
#[derive(Drop)]
struct Together {
    title: Vec<u8>,
    areas: Areas,
    stones: PointSet,
}

impl Areas {
    fn none(alloc: Global) -> Areas {
        Areas {
            heads: Vec::new(alloc),
            bodies: Vec::new(alloc),
        }
    }
}

impl Together {
    fn none(alloc: Global) -> Together {
        Together {
            title: Vec::new(alloc),
            areas: Areas::none(alloc),
            stones: PointSet::new(),
        }
    }

    /// Adds a finding.
    fn add(&mut self, alloc: Global, finding: &Finding) -> Result<(), AllocError> {
        let claim = finding.claim.as_slice();
        if self.title.is_empty() {
            let end = line_end(claim, 0);
            self.title
                .extend_from_slice(claim.get(..end).unwrap_or(b""))?;
        }
        let more = areas_of(alloc, claim)?;
        join(alloc, &mut self.areas, &more)?;
        for stone in finding.stones.iter() {
            self.stones.insert(stone);
        }
        Ok(())
    }

    /// The same with one more finding.
    fn with(&self, alloc: Global, finding: &Finding) -> Result<Together, AllocError> {
        let mut made = Together {
            title: self.title.as_slice().to_vec(alloc)?,
            areas: Areas::none(alloc),
            stones: self.stones,
        };
        join(alloc, &mut made.areas, &self.areas)?;
        made.add(alloc, finding)?;
        Ok(made)
    }

    /// The stones in the position of the problem, if a judge accepts the claim that they live together.
    fn judged(&self, alloc: Global, problem: &Problem) -> Result<Option<Safe>, AllocError> {
        let mut claim = self.title.as_slice().to_vec(alloc)?;
        push_all(&mut claim, self.areas.heads.as_slice())?;
        push_all(&mut claim, self.areas.bodies.as_slice())?;
        safe_stones(alloc, problem, self.stones, claim.as_slice())
    }
}

/// Appends all texts.
fn push_all(text: &mut Vec<u8>, parts: &[Vec<u8>]) -> Result<(), AllocError> {
    for part in parts {
        text.extend_from_slice(part.as_slice())?;
    }
    Ok(())
}

/// Whether the finding counts for this side, whoever is to move.
fn counts(finding: &Finding, colour: Colour) -> bool {
    finding.colour == colour && finding.first.is_none() && is_life(finding)
}

/// The stones of this side that live together, in a problem for which a judge has accepted their claim: those of all findings, or
/// else of each that goes together with those before it.
pub fn safe_together(
    alloc: Global,
    problem: &Problem,
    colour: Colour,
    findings: &[Finding],
) -> Result<Option<Safe>, AllocError> {
    let mut all = Together::none(alloc);
    for finding in findings {
        if counts(finding, colour) {
            all.add(alloc, finding)?;
        }
    }
    match all.judged(alloc, problem)? {
        Some(safe) => Ok(Some(safe)),
        None => one_by_one(alloc, problem, colour, findings),
    }
}

/// The same of each finding that goes together with those before it.
fn one_by_one(
    alloc: Global,
    problem: &Problem,
    colour: Colour,
    findings: &[Finding],
) -> Result<Option<Safe>, AllocError> {
    let mut side = Together::none(alloc);
    let mut found = None;
    for finding in findings {
        if counts(finding, colour) {
            let more = side.with(alloc, finding)?;
            if let Some(safe) = more.judged(alloc, problem)? {
                side = more;
                found = Some(safe);
            }
        }
    }
    Ok(found)
}

/// Whether the line is the first one of an area at the head of a claim.
fn is_head(line: &[u8]) -> bool {
    line.starts_with(b"area ")
}

/// Where the line ends that begins at this place: after its line feed.
fn line_end(text: &[u8], from: usize) -> usize {
    for at in from..text.len() {
        if text[at] == b'\n' {
            return at.saturating_add(1);
        }
    }
    text.len()
}

/// The areas of the claim, whose first line is its title.
fn areas_of(alloc: Global, claim: &[u8]) -> Result<Areas, AllocError> {
    let mut areas = Areas::none(alloc);
    let mut at = line_end(claim, 0);
    for _ in 0..claim.len() {
        if at >= claim.len() {
            break;
        }
        let end = line_end(claim, at);
        push_line(alloc, &mut areas, claim.get(at..end).unwrap_or(b""))?;
        at = end;
    }
    Ok(areas)
}

/// Adds a line of a claim: to a new area or a new body, or to the last one.
fn push_line(alloc: Global, areas: &mut Areas, line: &[u8]) -> Result<(), AllocError> {
    let is_body = line == b"body\n".as_slice();
    if is_head(line) {
        areas.heads.push(line.to_vec(alloc)?)?;
        return Ok(());
    }
    if is_body {
        areas.bodies.push(line.to_vec(alloc)?)?;
        return Ok(());
    }
    if areas.bodies.is_empty() {
        return push_last(&mut areas.heads, line);
    }
    push_last(&mut areas.bodies, line)
}

/// Appends the line to the last of the texts, if there is one.
fn push_last(parts: &mut Vec<Vec<u8>>, line: &[u8]) -> Result<(), AllocError> {
    if let Some(mut part) = parts.pop() {
        part.extend_from_slice(line)?;
        parts.push(part)?;
    }
    Ok(())
}

/// Adds those of the other areas that are not there yet. A friend stands before what leans on it in each claim, and so in all.
fn join(alloc: Global, areas: &mut Areas, more: &Areas) -> Result<(), AllocError> {
    for i in 0..more.heads.len() {
        let head = more.heads[i].as_slice();
        let is_there = areas.heads.iter().any(|it| it.as_slice() == head);
        if let (false, Some(body)) = (is_there, more.bodies.get(i)) {
            areas.heads.push(head.to_vec(alloc)?)?;
            areas.bodies.push(body.as_slice().to_vec(alloc)?)?;
        }
    }
    Ok(())
}
