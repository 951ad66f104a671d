//! What is found, as lines for a reader.

ghost use Rattle.std.specs.Prelude.{◌≡◌};
ghost use Rattle.group_words.specs.Sides.{end_text};

use crate::group::Group;
use crate::move_proof::move_lines;
use crate::question_lines::{push_all_walls, push_ko};
use crate::table::Table;
use crate::verdict::Procedures;
use go_points::{Colour, Point, Size, Turn, to_gtp};
use group_words::{Fate, Finding, Judgement, Side, Word};
use proved_groups::FirstMoves;
use std::alloc::{AllocError, Global};
use tool_parts::colour_name;

/// Appends the name of the point, as in diagrams.
pub(crate) fn push_point(text: &mut String, size: Size, point: Point) -> Result<(), AllocError> {
    if size.holds(point) {
        let name = to_gtp(size, point);
        for byte in name.as_slice() {
            text.push(char::from(*byte))?;
        }
    }
    Ok(())
}

/// What happens to the target if this side wins.
pub(crate) fn end_name(winner: Option<Side>) -> &'static str
    ensures { result.now ≡ end_text winner }
{
    match winner {
        Some(Side::Attacker) => "dies",
        Some(Side::Defender) => "lives",
        None => "unknown",
    }
}

/// What is told of a group.
#[derive(Clone, Copy)]
pub(crate) struct Report<'a> {
    pub(crate) group: &'a Group,
    pub(crate) table: &'a Table,
    pub(crate) first_moves: &'a FirstMoves,
    /// By which procedures the status is named.
    pub(crate) procedures: Procedures,
    /// Whether what happens at each size is told, with what was supposed.
    pub(crate) is_why: bool,
}

impl<'a> Report<'a> {
    pub(crate) fn of(
        group: &'a Group,
        table: &'a Table,
        first_moves: &'a FirstMoves,
        procedures: Procedures,
        is_why: bool,
    ) -> Report<'a> {
        Report {
            group,
            table,
            first_moves,
            procedures,
            is_why,
        }
    }
}

/// The lines of a group: its fate, and for each side to move first who wins, or why that is proved.
pub(crate) fn judged_lines(
    alloc: Global,
    report: Report<'_>,
    judged: &Judgement,
) -> Result<String, AllocError> {
    let mut text = first_line(alloc, report, judged)?;
    push_side(
        alloc,
        &mut text,
        report,
        Side::Attacker,
        &judged.attacker_first,
    )?;
    if let Some(finding) = judged.defender_first {
        push_side(alloc, &mut text, report, Side::Defender, &finding)?;
    }
    text.push_str(trust_text(judged.word, report.procedures))?;
    Ok(text)
}

/// Appends the lines for one first mover, by what is proved if that is something.
fn push_side(
    alloc: Global,
    text: &mut String,
    report: Report<'_>,
    first: Side,
    finding: &Finding,
) -> Result<(), AllocError> {
    match report
        .first_moves
        .outright(first.colour(report.group.defender))
    {
        Some(proven) => {
            let lines = move_lines(alloc, report.group.problem.size(), proven)?;
            text.push_str(lines.as_str())
        }
        None => push_finding(text, report, first, finding),
    }
}

/// How far a word may be trusted, and what is proved, as a line; empty if no status is named.
pub(crate) fn trust_text(word: Word, procedures: Procedures) -> &'static str {
    match (word, procedures) {
        (Word::Sure, Procedures::Both) => {
            "  sure: more than 9 of 10 agree with people's answers; what is proved is each question's winner, with the stones put up\n"
        }
        (Word::Likely, Procedures::Both) => {
            "  likely: more than 8 of 10 agree with people's answers; what is proved is each question's winner, with the stones put up\n"
        }
        (Word::Sure, Procedures::First) => {
            "  sure, by one procedure: 9 of 10 agree with people's answers; what is proved is each question's winner, with the stones put up\n"
        }
        (Word::Likely, Procedures::First) => {
            "  likely, by one procedure: 7 of 10 agree with people's answers; what is proved is each question's winner, with the stones put up\n"
        }
        _ => "",
    }
}

/// The line of a group with only its fate and, if that is not decided, which way it leans.
pub(crate) fn first_line(
    alloc: Global,
    report: Report<'_>,
    judged: &Judgement,
) -> Result<String, AllocError> {
    let group = report.group;
    let mut text = String::new(alloc);
    push_point(&mut text, group.position.colouring().size(), group.target)?;
    match judged.word {
        Word::Sure => push_fate(&mut text, report, judged)?,
        Word::Likely => push_fate(&mut text, report, judged)?,
        Word::Hint => {
            let leans = leans_text(judged.fate);
            write!(
                text,
                ": unknown\n  a hint: {leans} (7 of 10 hints are right)\n"
            )?;
        }
        Word::Leaning => {
            let leans = leans_text(judged.fate);
            write!(text, ": unknown\n  leaning: {leans} (6 of 10 are right)\n")?;
        }
        Word::Unknown => push_unknown(&mut text, judged)?,
    }
    Ok(text)
}

/// Appends the fate, whether it depends on a ko, and the word.
fn push_fate(text: &mut String, report: Report<'_>, judged: &Judgement) -> Result<(), AllocError> {
    let fate = judged.fate.name();
    write!(text, ": {fate}")?;
    if is_by_ko(report, judged.fate) {
        match ko_winner(report.group.defender, judged.fate) {
            Some(winner) => {
                let name = colour_name(winner);
                write!(text, ", if {name} wins the ko")?;
            }
            None => text.push_str(", by a ko")?,
        }
    }
    let word = judged.word.name();
    write!(text, " ({word})\n")
}

/// Whether a question that this fate stands on is won by who took last in a ko.
pub(crate) fn is_by_ko(report: Report<'_>, fate: Fate) -> bool {
    let table = report.table;
    let defender = report.group.defender;
    match fate {
        Fate::Alive => table.stands_on_ko(Side::Attacker, defender),
        Fate::Dead => table.stands_on_ko(Side::Defender, defender),
        Fate::Unsettled => {
            table.stands_on_ko(Side::Attacker, defender)
                || table.stands_on_ko(Side::Defender, defender)
        }
        Fate::Unknown => false,
    }
}

/// The side that has to win the ko.
fn ko_winner(defender: Colour, fate: Fate) -> Option<Colour> {
    match fate {
        Fate::Alive => Some(defender),
        Fate::Dead => Some(defender.opponent()),
        Fate::Unsettled => None,
        Fate::Unknown => None,
    }
}

/// Appends what is said if nothing is decided: it may depend on the walls.
fn push_unknown(text: &mut String, judged: &Judgement) -> Result<(), AllocError> {
    let is_split = match judged.defender_first {
        Some(finding) => finding.is_split || judged.attacker_first.is_split,
        None => judged.attacker_first.is_split,
    };
    if is_split {
        text.push_str(": unknown, it depends on the walls\n")
    } else {
        text.push_str(": unknown\n")
    }
}

/// The line of a group about which nothing was decided.
pub(crate) fn open_line(alloc: Global, group: &Group) -> Result<String, AllocError> {
    let mut text = String::new(alloc);
    push_point(&mut text, group.position.colouring().size(), group.target)?;
    text.push_str(": open\n")?;
    Ok(text)
}

/// Which way a group whose fate is not decided leans.
pub(crate) fn leans_text(fate: Fate) -> &'static str {
    match fate {
        Fate::Alive => "it lives",
        Fate::Dead => "it dies",
        Fate::Unsettled => "it lives or dies by who moves first",
        Fate::Unknown => "nothing",
    }
}

/// The lines if only one side was asked about: the winner, if it is decided, and the suppositions.
pub(crate) fn found_lines(
    alloc: Global,
    report: Report<'_>,
    first: Side,
    finding: &Finding,
) -> Result<String, AllocError> {
    let group = report.group;
    let mut text = String::new(alloc);
    push_point(&mut text, group.position.colouring().size(), group.target)?;
    let word = finding.word.name();
    match finding.winner {
        Some(winner) if finding.word.rank() <= Word::Likely.rank() => {
            let name = colour_name(winner.colour(group.defender));
            write!(text, ": {name} wins ({word})\n")?;
        }
        _ => write!(text, ": unknown\n")?,
    }
    push_finding(&mut text, report, first, finding)?;
    text.push_str(trust_text(finding.word, report.procedures))?;
    Ok(text)
}

/// Appends the lines for one first mover.
fn push_finding(
    text: &mut String,
    report: Report<'_>,
    first: Side,
    finding: &Finding,
) -> Result<(), AllocError> {
    let (group, table) = (report.group, report.table);
    text.push_str("  ")?;
    push_end(text, group, table, first, finding)?;
    text.push('\n')?;
    if report.is_why {
        push_all_walls(text, table, group.defender, first)?;
    }
    push_ko(text, table, group.defender, first)
}

/// Appends who moves first, what happens then and by which move, and the word.
pub(crate) fn push_end(
    text: &mut String,
    group: &Group,
    table: &Table,
    first: Side,
    finding: &Finding,
) -> Result<(), AllocError> {
    let mover = colour_name(first.colour(group.defender));
    if finding.is_split {
        return write!(text, "{mover} first: it depends on the walls");
    }
    let end = end_name(finding.winner);
    write!(text, "{mover} first: {end}")?;
    if finding.winner == Some(first) {
        push_turn(text, group, table, first)?;
    }
    if finding.winner.is_some() {
        let word = finding.word.name();
        write!(text, " ({word})")?;
    }
    Ok(())
}

/// Appends the first move of the largest size at which the mover wins.
fn push_turn(
    text: &mut String,
    group: &Group,
    table: &Table,
    first: Side,
) -> Result<(), AllocError> {
    let Some(turn) = turn_of(table, group.defender, first) else {
        return Ok(());
    };
    text.push_str(", by ")?;
    push_turn_name(text, group.position.colouring().size(), turn)
}

/// Appends the name of a turn.
pub(crate) fn push_turn_name(text: &mut String, size: Size, turn: Turn) -> Result<(), AllocError> {
    match turn {
        Turn::Pass => text.push_str("pass"),
        Turn::At(point) => push_point(text, size, point),
    }
}

/// The first move of the largest size at which the mover wins.
fn turn_of(table: &Table, defender: Colour, first: Side) -> Option<Turn> {
    let mut largest: usize = 0;
    let mut found = None;
    for row in table.rows.as_slice() {
        if row.first == first
            && row.count > largest
            && table.winner_at(row.place, defender) == Some(first)
        {
            largest = row.count;
            found = table.turn_at(row.place);
        }
    }
    found
}
