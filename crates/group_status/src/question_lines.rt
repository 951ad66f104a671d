//! The questions of the procedures, as lines for a reader: what happens at which size, and what was supposed.

use crate::lines::end_name;
use crate::table::{Row, Table};
use go_points::Colour;
use group_words::Side;
use regions::Walls;
use std::alloc::AllocError;

/// All walls that are asked about, in the order in which they are reported.
const WALLS: [Walls; 6] = [
    Walls::Natural,
    Walls::Kind,
    Walls::Hard,
    Walls::Race,
    Walls::Given,
    Walls::Alone,
];

/// What is supposed with these walls.
pub(crate) fn walls_text(walls: Walls) -> &'static str {
    match walls {
        Walls::Open => "nothing is supposed",
        Walls::Kind => "walls with few liberties outside fall",
        Walls::Natural => "walls stand where the attacker is nearer",
        Walls::Hard => "it is shut in and cut off from every friend",
        Walls::Race => "walls stand where the attacker gets there first",
        Walls::Given => "such walls stand, and those with one or two liberties outside fall",
        Walls::Alone => "such walls stand, no friend helps, and unsafe ways out are shut",
    }
}

/// Appends the lines of all walls for one first mover.
pub(crate) fn push_all_walls(
    text: &mut String,
    table: &Table,
    defender: Colour,
    first: Side,
) -> Result<(), AllocError> {
    for walls in WALLS {
        push_walls(text, table, defender, first, walls)?;
    }
    Ok(())
}

/// Appends a line if a winner depends on who took last, with what happens at which sizes without the past.
pub(crate) fn push_ko(
    text: &mut String,
    table: &Table,
    defender: Colour,
    first: Side,
) -> Result<(), AllocError> {
    let mut is_first = true;
    for row in table.rows.as_slice() {
        if row.first == first && table.is_ko(row, defender) {
            text.push_str(if is_first {
                "    ko: it depends on who took last; without the past "
            } else {
                ", "
            })?;
            is_first = false;
            let end = end_name(table.winner_at(row.without_past, defender));
            let count = row.count;
            let walls = row.walls.name();
            write!(text, "{end} at {count} ({walls})")?;
        }
    }
    if is_first {
        return Ok(());
    }
    text.push('\n')
}

/// Appends a line for each end that came about with these walls, with its sizes.
fn push_walls(
    text: &mut String,
    table: &Table,
    defender: Colour,
    first: Side,
    walls: Walls,
) -> Result<(), AllocError> {
    for end in [Some(Side::Attacker), Some(Side::Defender), None] {
        let mut count: usize = 0;
        for row in table.rows.as_slice() {
            if is_told(table, row, defender, first, walls, end) {
                push_size(text, end, count, row.count)?;
                count = count.saturating_add(1);
            }
        }
        if count > 0 {
            let name = walls.name();
            let supposed = walls_text(walls);
            write!(text, " points, {name}: {supposed}\n")?;
        }
    }
    Ok(())
}

/// Whether the row is one of these.
fn is_told(
    table: &Table,
    row: &Row,
    defender: Colour,
    first: Side,
    walls: Walls,
    end: Option<Side>,
) -> bool {
    row.first == first && row.walls == walls && table.winner_at(row.place, defender) == end
}

/// Appends a size. Before the first of them is what happens there.
fn push_size(
    text: &mut String,
    end: Option<Side>,
    before: usize,
    size: usize,
) -> Result<(), AllocError> {
    if before == 0 {
        let name = end_name(end);
        write!(text, "    {name} at {size}")
    } else {
        write!(text, ", {size}")
    }
}
