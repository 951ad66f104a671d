//! Moves that join long chains or take many stones, and what a record holds when they are taken back. The record over the plain
//! board, which keeps no copies, says what that is.

use crate::expect::{expect_colouring, expect_that};
use crate::turns::{board, expect_done, painted};
use go_points::{Colour, Colouring, MAX_SIZE, Size, Turn};
use go_turns::*;
use std::alloc::Global;
use std::process::Abort;

type PlainRecord = Record<PlainBoard, ListSeen>;

/// More costly moves than the copies that a record keeps.
const MANY_COSTLY: u32 = 40;

// The next number of a linear congruential generator (Knuth's MMIX).
fn next(number: u64) -> u64 {
    number
        .wrapping_mul(6_364_136_223_846_793_005)
        .wrapping_add(1_442_695_040_888_963_407)
}

// The colour of a random move at this point. Most moves make stripes of two rows, so that there are long chains.
fn colour_at(size: Size, number: usize, random: u64) -> Colour {
    let is_black = number / size.rows() as usize % 4 < 2;
    if is_black == (random >> 20 & 7 == 0) {
        Colour::White
    } else {
        Colour::Black
    }
}

// Whether a random move has the same outcome on both records. Counts the moves that are costly to take back.
fn move_alike(
    plain: &mut PlainRecord,
    chained: &mut PlayRecord,
    random: u64,
    costly: &mut u32,
) -> bool {
    let size = chained.size();
    let number = (random >> 40) as usize % size.area();
    let point = size.point_at(number);
    let colour = colour_at(size, number, random);
    let is_costly = chained.board().is_costly(colour, point);
    let is_made = chained.play(colour, Turn::At(point)).is_ok();
    if is_costly {
        *costly = costly.saturating_add(1);
    }
    is_made == plain.play(colour, Turn::At(point)).is_ok() && are_alike(plain, chained)
}

// Whether both records hold the same colouring, with the same key and the same number of colourings before it.
fn are_alike(plain: &PlainRecord, chained: &PlayRecord) -> bool {
    plain.colouring() == chained.colouring()
        && plain.key() == chained.key()
        && plain.seen().len() == chained.seen().len()
}

// Whether both records go back alike.
fn go_back_alike(plain: &mut PlainRecord, chained: &mut PlayRecord) -> bool {
    plain.undo().is_ok() == chained.undo().is_ok() && are_alike(plain, chained)
}

// Whether both records begin anew alike, with this colouring.
fn begin_alike(
    alloc: Global,
    plain: &mut PlainRecord,
    chained: &mut PlayRecord,
    colouring: &Colouring,
) -> bool {
    if colouring.size() != plain.size() || colouring.size() != chained.size() {
        return false;
    }
    plain.reopen(alloc, colouring, 0).is_ok()
        && chained.reopen(alloc, colouring, 0).is_ok()
        && are_alike(plain, chained)
}

// Whether both records go back alike as often as this.
fn unwind_alike(plain: &mut PlainRecord, chained: &mut PlayRecord, steps: u32) -> bool {
    for _ in 0..steps {
        if !go_back_alike(plain, chained) {
            return false;
        }
    }
    true
}

// Whether both records make this many random moves alike, one after the other.
fn play_alike(
    plain: &mut PlainRecord,
    chained: &mut PlayRecord,
    turns: u32,
    start: u64,
    costly: &mut u32,
) -> bool {
    let mut random = start;
    for _ in 0..turns {
        random = next(random);
        if !move_alike(plain, chained, random, costly) {
            return false;
        }
    }
    true
}

// Whether both records play and go back alike for this many turns: moves, and after some of them a few steps back. Now and then
// they begin anew.
fn wander_alike(
    alloc: Global,
    plain: &mut PlainRecord,
    chained: &mut PlayRecord,
    turns: u32,
    start: u64,
    costly: &mut u32,
) -> bool {
    let mut random = start;
    for turn in 0..turns {
        random = next(random);
        if !move_alike(plain, chained, random, costly) {
            return false;
        }
        if random >> 30 & 7 == 0 && !unwind_alike(plain, chained, (random >> 25 & 7) as u32) {
            return false;
        }
        if turn % 500 == 499 {
            let present = plain.colouring();
            if !begin_alike(alloc, plain, chained, &present) {
                return false;
            }
        }
    }
    true
}

// Whether both records agree through these turns on an empty board: first moves alone, more of them costly than copies are kept,
// back to the beginning, and then moves with going back in between, of which this many have to be costly.
fn agree(alloc: Global, rows: u8, straight: u32, turns: u32, start: u64, least: u32) -> bool {
    let Some(size) = Size::new(rows) else {
        return false;
    };
    let Ok(mut plain) = PlainRecord::new(alloc, &Colouring::empty(size)) else {
        return false;
    };
    let Ok(mut chained) = PlayRecord::new(alloc, &Colouring::empty(size)) else {
        return false;
    };
    let mut deep = 0;
    let mut costly = 0;
    play_alike(&mut plain, &mut chained, straight, start, &mut deep)
        && deep >= MANY_COSTLY
        && unwind_alike(&mut plain, &mut chained, straight)
        && wander_alike(alloc, &mut plain, &mut chained, turns, start, &mut costly)
        && costly >= least
        && unwind_alike(&mut plain, &mut chained, turns)
}

// A record of nine rows without steps, at the last of these colourings.
fn record_of(rt: &impl Abort, alloc: Global, earlier: &str, present: &str) -> PlayRecord {
    let size = board(rt, 9);
    let earlier = painted(size, earlier);
    let present = painted(size, present);
    expect_that(rt, earlier.size() == present.size());
    expect_that(rt, earlier != present);
    PlayRecord::with_history(alloc, &[earlier, present], 1, 0).expect(rt, "memory")
}

// Expects the move of this colour in this column and row to have this outcome, and the record to be at these cells after it.
fn expect_move(
    rt: &impl Abort,
    record: &mut PlayRecord,
    colour: Colour,
    place: (u8, u8),
    wanted: Result<(), TurnFault>,
    text: &str,
) {
    let turn = match record.size().point(place.0, place.1) {
        Some(point) => Turn::At(point),
        None => Turn::Pass,
    };
    expect_done(rt, record.play(colour, turn), wanted);
    expect_colouring(rt, record.colouring(), painted(record.size(), text));
}

// Takes the last step back, and expects the record to be at these cells.
fn expect_back(rt: &impl Abort, record: &mut PlayRecord, text: &str) {
    expect_done(rt, record.undo(), Ok(()));
    expect_colouring(rt, record.colouring(), painted(record.size(), text));
}

#[test]
fn a_join_that_repeats_leaves_the_board(rt: HostRuntime) {
    let joined = "XXXXXXXXX";
    let apart = "XXXX.XXXX";
    let mut record = record_of(&rt, rt.alloc(), joined, apart);
    expect_move(
        &rt,
        &mut record,
        Colour::Black,
        (4, 0),
        Err(TurnFault::Repeats { earlier: 0 }),
        apart,
    );
    expect_move(
        &rt,
        &mut record,
        Colour::White,
        (4, 1),
        Ok(()),
        "XXXX.XXXX....O....",
    );
    expect_move(
        &rt,
        &mut record,
        Colour::Black,
        (4, 0),
        Ok(()),
        "XXXXXXXXX....O....",
    );
    expect_back(&rt, &mut record, "XXXX.XXXX....O....");
    expect_back(&rt, &mut record, apart);
}

#[test]
fn a_capture_that_repeats_leaves_the_board(rt: HostRuntime) {
    let taken = "........XXXXXXXXX";
    let whole = "OOOOOOOO.XXXXXXXX";
    let mut record = record_of(&rt, rt.alloc(), taken, whole);
    expect_move(
        &rt,
        &mut record,
        Colour::Black,
        (8, 0),
        Err(TurnFault::Repeats { earlier: 0 }),
        whole,
    );
    expect_move(
        &rt,
        &mut record,
        Colour::White,
        (8, 1),
        Ok(()),
        "OOOOOOOO.XXXXXXXXO",
    );
    expect_move(
        &rt,
        &mut record,
        Colour::Black,
        (8, 0),
        Ok(()),
        "........XXXXXXXXXO",
    );
    expect_back(&rt, &mut record, "OOOOOOOO.XXXXXXXXO");
    expect_back(&rt, &mut record, whole);
}

#[test]
fn both_records_go_back_alike_on_small_boards(rt: HostRuntime) {
    expect_that(&rt, agree(rt.alloc(), 4, 4_000, 3_000, 1, 100));
    expect_that(&rt, agree(rt.alloc(), 5, 4_000, 3_000, 2, 50));
}

#[test]
fn both_records_go_back_alike_on_nine_rows(rt: HostRuntime) {
    expect_that(&rt, agree(rt.alloc(), 9, 4_000, 6_000, 3, 200));
}

#[test]
fn both_records_go_back_alike_on_the_widest_board(rt: HostRuntime) {
    expect_that(&rt, agree(rt.alloc(), MAX_SIZE, 1_500, 400, 4, 0));
}
