//! What the procedures find, and what that says about the group.

ghost use Rattle.std.specs.Prelude.{IfOk};
ghost use Rattle.group_words.specs.Rule.{IsByRule};

use crate::asker::Asker;
use crate::first_procedure::first_procedure;
use crate::group::Group;
use crate::second_procedure::second_procedure;
use crate::table::Table;
use group_words::{Fate, Finding, Judgement, Side, Word, is_won_by, judged_by, together};
use proved_groups::{FirstMoves, taken_stones};
use regions::Walls;
use std::alloc::{AllocError, Global};
use std::io::Write;

/// Which procedures an answer stands on.
#[derive(Clone, Copy, Debug, PartialEq, Eq)]
pub(crate) enum Procedures {
    /// The first one alone, with its own choice of walls.
    First,
    Both,
}

/// What these procedures find if this side moves first.
fn found_by<N: Write>(
    alloc: Global,
    group: &Group,
    table: &mut Table,
    first: Side,
    procedures: Procedures,
    notes: &mut N,
) -> Result<Finding, AllocError> {
    let mut asker = Asker {
        alloc,
        group,
        table,
        first,
        notes,
    };
    match procedures {
        Procedures::First => first_procedure(&mut asker, Walls::Alone),
        Procedures::Both => {
            let one = first_procedure(&mut asker, Walls::Hard)?;
            let other = second_procedure(&mut asker)?;
            Ok(together(&one, &other))
        }
    }
}

/// How many steps a question may take that asks whether stones beside the target are taken: as many as where all groups are asked about.
const LOST_STEPS: u64 = 20_000;

/// What is found if this side moves first, and by which procedures: by the first one alone if that is sure, or nothing else is wanted.
pub(crate) fn found<N: Write>(
    alloc: Global,
    group: &Group,
    table: &mut Table,
    first: Side,
    is_quick: bool,
    notes: &mut N,
) -> Result<(Finding, Procedures), AllocError> {
    table.clear_grounds();
    let quick = asked_for(alloc, group, table, first, Procedures::First, notes)?;
    if is_quick || quick.word == Word::Sure {
        return Ok((quick, Procedures::First));
    }
    table.clear_grounds();
    let both = asked_for(alloc, group, table, first, Procedures::Both, notes)?;
    Ok((both, Procedures::Both))
}

/// The same. Where the attacker wins, it is first asked which stones beside the target are taken: nothing else is asked again, since the
/// table has it.
pub(crate) fn found_alone<N: Write>(
    alloc: Global,
    group: &Group,
    table: &mut Table,
    first: Side,
    is_quick: bool,
    notes: &mut N,
) -> Result<(Finding, Procedures), AllocError> {
    let (told, procedures) = found(alloc, group, table, first, is_quick, notes)?;
    if !is_won_by(Side::Attacker, told.winner) || !ask_for_lost(alloc, group, table)? {
        return Ok((told, procedures));
    }
    found(alloc, group, table, first, is_quick, notes)
}

/// Asks which of the attacker's stones beside the target are taken, and says whether there are such stones that no region has.
fn ask_for_lost(alloc: Global, group: &Group, table: &mut Table) -> Result<bool, AllocError> {
    let beside = group.beside(&group.attackers());
    table.lost = taken_stones(alloc, &group.problem, group.defender, &beside, LOST_STEPS)?;
    let lost = group.beside(&table.lost);
    Ok(table.leaves_out(Side::Attacker, &lost) || table.leaves_out(Side::Defender, &lost))
}

/// The same, where a win of the attacker's is only a leaning if the target may live by taking stones that no region has: stones beside
/// it that are proved to be taken.
fn asked_for<N: Write>(
    alloc: Global,
    group: &Group,
    table: &mut Table,
    first: Side,
    procedures: Procedures,
    notes: &mut N,
) -> Result<Finding, AllocError> {
    let mut found = found_by(alloc, group, table, first, procedures, notes)?;
    let lost = group.beside(&table.lost);
    if is_won_by(Side::Attacker, found.winner) && table.leaves_out(first, &lost) {
        found.word = Word::Leaning;
    }
    Ok(found)
}

/// What the procedures need not be asked where this side moves first, since it is proved to win.
fn proved_finding(group: &Group, first_moves: &FirstMoves, side: Side) -> Option<Finding> {
    match first_moves.outright(side.colour(group.defender)) {
        Some(_) => Some(Finding {
            winner: Some(side),
            word: Word::Sure,
            since: 0,
            largest: usize::MAX,
            is_split: false,
        }),
        None => None,
    }
}

/// What becomes of the group by these procedures. Where a side's first move is proved to win, they are not asked about it.
pub(crate) fn judge_by<N: Write>(
    alloc: Global,
    group: &Group,
    table: &mut Table,
    procedures: Procedures,
    first_moves: &FirstMoves,
    notes: &mut N,
) -> Result<Judgement, AllocError>
    ensures { IfOk result (λ j. IsByRule j) }
{
    table.clear_grounds();
    let attacker_first = match proved_finding(group, first_moves, Side::Attacker) {
        Some(proved) => proved,
        None => asked_for(alloc, group, table, Side::Attacker, procedures, notes)?,
    };
    if attacker_first.is_sure_of(Side::Defender) {
        // It also lives if it moves first: it passes.
        return Ok(Judgement {
            fate: Fate::Alive,
            word: Word::Sure,
            attacker_first,
            defender_first: None,
        });
    }
    let asked = match proved_finding(group, first_moves, Side::Defender) {
        Some(proved) => proved,
        None => asked_for(alloc, group, table, Side::Defender, procedures, notes)?,
    };
    Ok(judged_by(attacker_first, &asked))
}

/// What becomes of the group, and by which procedures, chosen as `found` does.
pub(crate) fn judge<N: Write>(
    alloc: Global,
    group: &Group,
    table: &mut Table,
    is_quick: bool,
    first_moves: &FirstMoves,
    notes: &mut N,
) -> Result<(Judgement, Procedures), AllocError>
    ensures { IfOk result (λ j. IsByRule j.0) }
{
    let quick = judge_by(alloc, group, table, Procedures::First, first_moves, notes)?;
    if is_quick || quick.word == Word::Sure {
        return Ok((quick, Procedures::First));
    }
    let both = judge_by(alloc, group, table, Procedures::Both, first_moves, notes)?;
    Ok((both, Procedures::Both))
}

/// The same of a group that alone is asked about. Where the attacker wins, it is first asked which stones beside the target are taken:
/// nothing else is asked again, since the table has it.
pub(crate) fn judge_alone<N: Write>(
    alloc: Global,
    group: &Group,
    table: &mut Table,
    is_quick: bool,
    first_moves: &FirstMoves,
    notes: &mut N,
) -> Result<(Judgement, Procedures), AllocError>
    ensures { IfOk result (λ j. IsByRule j.0) }
{
    let (judged, procedures) = judge(alloc, group, table, is_quick, first_moves, notes)?;
    if !is_won_by_attacker(&judged) || !ask_for_lost(alloc, group, table)? {
        return Ok((judged, procedures));
    }
    judge(alloc, group, table, is_quick, first_moves, notes)
}

/// Whether the attacker wins if it moves first, or if the defender does.
fn is_won_by_attacker(judged: &Judgement) -> bool {
    let last = match &judged.defender_first {
        Some(found) => is_won_by(Side::Attacker, found.winner),
        None => false,
    };
    last || is_won_by(Side::Attacker, judged.attacker_first.winner)
}
