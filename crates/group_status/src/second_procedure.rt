//! The second procedure: for growing sizes, race walls and the bound that speaks most against their winner.
//!
//! The bound against the attacker is that walls with few liberties outside fall; the bound against the defender is that no friend
//! helps.

use crate::asker::Asker;
use group_words::{Finding, Side, Word};
use regions::Walls;
use std::alloc::AllocError;
use std::io::Write;

/// The sizes, in empty points.
const SIZES: [usize; 7] = [6, 8, 10, 12, 14, 16, 18];

/// From this size on, three sizes in a row that are all sure end the questions.
const ENOUGH: usize = 12;

/// More than any size.
const ALL: usize = 1_000_000;

/// A size that was decided: by race walls, and by the bound against that winner.
#[derive(Clone, Copy, Debug)]
struct Done {
    count: usize,
    winner: Side,
    bound: Option<Side>,
}

/// The walls that speak most against this winner.
fn bound_of(winner: Side) -> Walls {
    match winner {
        Side::Attacker => Walls::Given,
        Side::Defender => Walls::Alone,
    }
}

/// At how many sizes those walls have to say the same.
fn bounds_wanted(winner: Side) -> usize {
    match winner {
        Side::Attacker => 3,
        Side::Defender => 2,
    }
}

/// Whether this side won at the last three sizes by both walls.
fn are_three_sure(done: &[Done], winner: Side) -> bool {
    let len = done.len();
    if len < 3 {
        return false;
    }
    for i in len - 3..len {
        if done[i].winner != winner || done[i].bound != Some(winner) {
            return false;
        }
    }
    true
}

/// Whether the last sizes at which this side won are sure: at as many as are needed of the last sizes at which the bound is known,
/// it says the same.
fn is_sure(done: &[Done], winner: Side, is_ended: bool) -> bool {
    let wanted = bounds_wanted(winner);
    let mut same: usize = 0;
    let mut known: usize = 0;
    let mut agree: usize = 0;
    for back in 1..done.len().saturating_add(1) {
        if let Some(one) = done.get(done.len().saturating_sub(back)) {
            if one.winner == winner {
                same = same.saturating_add(1);
                if one.bound.is_some() && known < wanted {
                    known = known.saturating_add(1);
                    if one.bound == Some(winner) {
                        agree = agree.saturating_add(1);
                    }
                }
            }
        }
    }
    let due = if is_ended { wanted.min(same) } else { wanted };
    agree == known && known == due
}

/// The least size from which on this side wins.
fn since(done: &[Done], winner: Side) -> usize {
    let mut least: usize = 0;
    for back in 1..done.len().saturating_add(1) {
        if let Some(one) = done.get(done.len().saturating_sub(back)) {
            if one.winner != winner {
                return least;
            }
            least = one.count;
        }
    }
    least
}

/// What the sizes that were decided say.
fn finding(done: &[Done], is_stopped: bool, is_ended: bool) -> Finding {
    let Some(last) = done.last() else {
        return Finding::none();
    };
    let winner = last.winner;
    let before = done.get(done.len().saturating_sub(2));
    let is_same = match before {
        Some(one) => done.len() > 1 && one.winner == winner,
        None => false,
    };
    let word = if is_stopped || is_sure(done, winner, is_ended) {
        Word::Sure
    } else if is_ended || is_same {
        Word::Likely
    } else {
        Word::Leaning
    };
    Finding {
        winner: Some(winner),
        word,
        since: since(done, winner),
        largest: if is_stopped || is_ended {
            ALL
        } else {
            last.count
        },
        is_split: false,
    }
}

/// What is found about the asker's first mover.
pub(crate) fn second_procedure<N: Write>(asker: &mut Asker<'_, N>) -> Result<Finding, AllocError> {
    let mut done = Vec::new(asker.alloc);
    let mut is_stopped = false;
    let mut is_ended = false;
    for i in 0..SIZES.len() {
        let count = SIZES[i];
        let Some(winner) = asker.ask(Walls::Race, count)? else {
            break;
        };
        let bound = asker.ask(bound_of(winner), count)?;
        done.push(Done {
            count,
            winner,
            bound,
        })?;
        is_ended = asker.is_all(count);
        is_stopped = count >= ENOUGH && are_three_sure(done.as_slice(), winner);
        if is_stopped || is_ended {
            break;
        }
    }
    let found = finding(done.as_slice(), is_stopped, is_ended);
    stand_on(asker, done.as_slice(), &found)?;
    Ok(found)
}

/// Notes in the table on which questions the finding stands: if it is sure, on those with race walls and with the bound at the last
/// sizes at which its winner won, as many as are needed; otherwise on those with race walls at the last two sizes.
fn stand_on<N: Write>(
    asker: &mut Asker<'_, N>,
    done: &[Done],
    found: &Finding,
) -> Result<(), AllocError> {
    let Some(winner) = found.winner else {
        return Ok(());
    };
    let is_sure = found.word == Word::Sure;
    let mut left = bounds_wanted(winner);
    for back in 1..done.len().saturating_add(1) {
        if let Some(one) = done.get(done.len().saturating_sub(back)) {
            let counts = if is_sure {
                one.bound.is_some()
            } else {
                back <= 2
            };
            if left > 0 && counts && one.winner == winner {
                left = left.saturating_sub(1);
                stand_on_size(asker, one, is_sure)?;
            }
        }
    }
    Ok(())
}

/// Notes that a finding stands on the question of this size with race walls, and on that with the bound too if it is sure.
fn stand_on_size<N: Write>(
    asker: &mut Asker<'_, N>,
    done: &Done,
    is_sure: bool,
) -> Result<(), AllocError> {
    asker.stand_on(Walls::Race, done.count)?;
    if is_sure {
        asker.stand_on(bound_of(done.winner), done.count)?;
    }
    Ok(())
}
