//! Findings of whole boards, and the texts of their claims.

use crate::asked::{all_of, asked, board, point};
use go_points::{Colour, Colouring, Size};
use group_search::{Finding, Kind, Limits, find_for_stone};
use std::alloc::{AllocError, Global};
use std::process::Abort;
use std::test::Fail;

/// White's corner with two eyes, inside a wall of Black.
const TWO_EYES: [&str; 3] = [".O.OX", "OOOOX", "XXXXX"];

#[test]
fn a_group_with_two_eyes_lives_by_its_shape_without_a_step(rt: HostRuntime) -> Result<(), Fail> {
    let alloc = rt.alloc();
    let colouring = board(&rt, alloc, &TWO_EYES)?;
    let limits = Limits {
        all_steps: 0,
        ..Limits::default()
    };
    let findings = all_of(alloc, &colouring, limits)?;
    assert_eq!(rt; findings.len(), 1);
    let finding = &findings[0];
    assert_eq!(rt; finding.kind, Kind::PassAlive);
    assert_eq!(rt; finding.colour, Colour::White);
    assert_eq!(rt; finding.stones.len(), 6);
    assert_eq!(rt; finding.steps, 0);
    let head = "tsureply 1 9 W\narea .#.#-----####";
    assert!(rt; finding.claim.as_slice().starts_with(head.as_bytes()));
    assert!(rt; finding.claim.as_slice().ends_with(b"\nbody\nrest\nend\n"));
    Ok(())
}

#[test]
fn an_empty_board_has_no_finding(rt: HostRuntime) -> Result<(), Fail> {
    let alloc = rt.alloc();
    let colouring = board(&rt, alloc, &[])?;
    assert!(rt; all_of(alloc, &colouring, Limits::default())?.is_empty());
    assert!(rt; asked(alloc, &colouring, point(&rt, 0, 0), None)?.is_none());
    Ok(())
}

#[test]
fn stones_that_hold_on_to_nothing_are_not_decided(rt: HostRuntime) -> Result<(), Fail> {
    let alloc = rt.alloc();
    let colouring = board(&rt, alloc, &["", "", "", "", "....X"])?;
    assert!(rt; asked(alloc, &colouring, point(&rt, 4, 4), Some(Colour::White))?.is_none());
    Ok(())
}

/// Black's three stones in a row share two liberties with White, who has no eye: who plays there first loses his stones or gives
/// the other side a living shape, so neither does.
const SEKI: [&str; 3] = ["XO.XXX.OX", "XOOOOOOOX", "XXXXXXXXX"];

#[test]
fn neither_side_of_a_seki_is_called_dead(rt: HostRuntime) -> Result<(), Fail> {
    let alloc = rt.alloc();
    let colouring = board(&rt, alloc, &SEKI)?;
    for mover in [None, Some(Colour::White), Some(Colour::Black)] {
        for column in [1, 3] {
            let found = asked(alloc, &colouring, point(&rt, column, 0), mover)?;
            let is_dead =
                matches!(&found, Some(finding) if matches!(finding.kind, Kind::Dead | Kind::DeadWhile));
            assert!(rt; !is_dead);
        }
    }
    Ok(())
}

/// White's corner on three rows: Black's move at the left end of the second row is suicide of four stones, after which White plays
/// there.
#[test]
fn a_claim_answers_a_suicide_at_its_point(rt: HostRuntime) -> Result<(), Fail> {
    let alloc = rt.alloc();
    let colouring = small_board(&rt, "O.O.OOXXX");
    let found = small_asked(alloc, &colouring, &[], 0)?.expect(&rt, "a finding");
    assert_eq!(rt; found.kind, Kind::OneRegion);
    assert_eq!(rt; found.answers.len(), 1);
    let lines =
        "tsureply 1 3 W\narea #.#.##XXX\nbody\nstate .O...\nall 1\nreply ab ab 2\nrest\nend\n";
    assert!(rt; found.claim.as_slice() == lines.as_bytes());
    Ok(())
}

/// Black takes White's stones at the left end of the second row and of the third.
const TAKEN: &str = "XX.OXXO.X";

#[test]
fn a_claim_of_a_death_begins_with_what_is_taken_last(rt: HostRuntime) -> Result<(), Fail> {
    let alloc = rt.alloc();
    let colouring = small_board(&rt, TAKEN);
    let found = small_asked(alloc, &colouring, &[], 3)?.expect(&rt, "a finding");
    assert_eq!(rt; found.kind, Kind::Dead);
    assert_eq!(rt; found.colour, Colour::White);
    assert_eq!(rt; found.mover, Some(Colour::White));
    let lines =
        "tsudeath 1 3 B\nkill XX.OXXO.X\nentry XX.OXXO.X bc\ntaken\nall 1\nreply pass 1\nend\n";
    assert!(rt; found.claim.as_slice() == lines.as_bytes());
    Ok(())
}

#[test]
fn no_death_is_found_where_the_taking_would_repeat_a_position(rt: HostRuntime) -> Result<(), Fail> {
    let colouring = small_board(&rt, TAKEN);
    let earlier = small_board(&rt, "XX..XX.XX");
    assert!(rt; small_asked(rt.alloc(), &colouring, &[earlier], 3)?.is_none());
    Ok(())
}

fn small_board(rt: &impl Abort, cells: &str) -> Colouring {
    let size = Size::new(3).expect(rt, "a size");
    Colouring::from_text(size, cells.as_bytes()).expect(rt, "a colouring")
}

/// What is found of the stone at the point of this number on three rows, with White to move.
fn small_asked(
    alloc: Global,
    board: &Colouring,
    past: &[Colouring],
    number: usize,
) -> Result<Option<Finding>, AllocError> {
    if number >= board.size().area() {
        return Ok(None);
    }
    let stone = board.size().point_at(number);
    let mover = Some(Colour::White);
    find_for_stone(alloc, board, past, mover, Limits::default(), stone)
}
