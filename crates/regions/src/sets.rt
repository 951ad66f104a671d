//! Operations on two sets of points.

use go_points::PointSet;

/// Adds all points of the second set to the first.
pub(crate) fn add_all(into: &mut PointSet, more: &PointSet) {
    for point in more.iter() {
        into.insert(point);
    }
}

/// The points of the first set that are not in the second.
pub(crate) fn without(set: &PointSet, other: &PointSet) -> PointSet {
    let mut rest = PointSet::new();
    for point in set.iter() {
        if !other.has(point) {
            rest.insert(point);
        }
    }
    rest
}

/// The points that are in both sets.
pub(crate) fn common(set: &PointSet, other: &PointSet) -> PointSet {
    let mut both = PointSet::new();
    for point in set.iter() {
        if other.has(point) {
            both.insert(point);
        }
    }
    both
}

/// Whether a point is in both sets.
pub(crate) fn meet(set: &PointSet, other: &PointSet) -> bool {
    !common(set, other).is_empty()
}

/// Whether all points of the first set are in the second.
pub(crate) fn is_within(set: &PointSet, other: &PointSet) -> bool {
    without(set, other).is_empty()
}
