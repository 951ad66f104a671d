//! The star points of a board.

use go_points::{PointSet, Size};

/// The star points: those near the corners on boards of nine rows or more, the middle on odd boards, and those between on boards of
/// 17 rows or more.
pub(crate) fn star_points(size: Size) -> PointSet {
    let rows = size.rows();
    let mut set = PointSet::new();
    if rows < 9 {
        return set;
    }
    let edge: u8 = if rows < 13 { 2 } else { 3 };
    let last = rows.saturating_sub(1).saturating_sub(edge);
    let middle = rows / 2;
    let is_odd = rows % 2 == 1;
    for column in [edge, middle, last] {
        for row in [edge, middle, last] {
            let between = (column == middle) != (row == middle);
            let is_middle = column == middle || row == middle;
            if !is_middle || is_odd && (!between || rows >= 17) {
                if let Some(point) = size.point(column, row) {
                    set.insert(point);
                }
            }
        }
    }
    set
}
