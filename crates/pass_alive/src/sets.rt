//! Sets of points of which one is within the other, or beside it. Only the points that a set holds are looked at.

ghost use Rattle.std.specs.Prelude.{◌≡◌, ◌↔◌, IsTrue};
ghost use Rattle.std.specs.List.{list_all};
ghost use Rattle.go_points.specs.Place.{IsOn, number_of};
ghost use Rattle.go_points.specs.Points.{holds_place};
ghost use Rattle.pass_alive.specs.Sets.{these, IsNear, IsWith};
ghost use Rattle.pass_alive.specs.Private.Areas.{IsWithout};

use go_points::{Point, PointSet, Size};

/// Whether all points of the first set are in the second.
pub fn are_members(points: &PointSet, set: &PointSet) -> bool
    ensures { result ≡ list_all (holds_place set.now) points.now }
{
    for point in points.iter() {
        if !set.has(point) {
            return false;
        }
    }
    true
}

/// Whether the point is adjacent to one of the set.
pub fn is_near(size: Size, point: Point, set: &PointSet) -> bool
    requires { IsOn size point }
    ensures { IsTrue result ↔ IsNear size (these size set.now) (number_of size point) }
{
    let neighbours = point.neighbours(size);
    for neighbour in neighbours.as_slice() {
        if set.has(*neighbour) {
            return true;
        }
    }
    false
}

/// Takes the points of the second set out of the first.
pub(crate) fn take_out(set: &mut PointSet, other: &PointSet)
    ensures { IsWithout other.now set.old set.new }
{
    for point in other.iter() {
        set.remove(point);
    }
}

/// Puts the points of the second set into the first.
pub fn put_in(set: &mut PointSet, other: &PointSet)
    ensures { IsWith other.now set.old set.new }
{
    for point in other.iter() {
        set.insert(point);
    }
}
