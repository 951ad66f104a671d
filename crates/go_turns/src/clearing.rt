//! Clearing with marks on the points that are empty or reach empty. Sweeps over the board mark each stone that touches a mark,
//! until a sweep marks none.

ghost use Rattle.std.specs.Prelude.{◌≡◌, ◌+◌, ◌*◌, ◌<◌, length, false, IsTrue, IfSome, IfNone, Some, None};
ghost use Rattle.std.specs.List.{list_any};
ghost use Rattle.go_points.specs.declared.Colour.TheVariants.{Black, White};
ghost use Rattle.go_points.specs.declared.Cell.TheVariants.{Stone};
ghost use Rattle.go_points.specs.Grid.{side_of, same_cell, neighbours as neighbours_of};
ghost use Rattle.go_points.specs.Place.{IsOn, number_of};
ghost use Rattle.go_points.specs.Clear.{clear};
ghost use Rattle.go_points.specs.Liberty.{first_without_liberty};
ghost use Rattle.go_turns.specs.Private.Marks.{AreFree, is_marked, mark_count, IsSound, HasSeeds, IsClosedBelow};
ghost use Rattle.go_points.specs.Private.Stones.{stone_count};

use go_points::{Cell, Colour, Colouring, MAX_POINTS, Point, Size};

/// Whether two points hold the same.
pub(crate) fn are_same(cell: Cell, other: Cell) -> bool
    ensures { result ≡ same_cell cell other }
{
    cell == other
}

// Whether a point adjacent to this one is marked.
fn touches(point: Point, size: Size, marks: &[bool]) -> bool
    requires on_board { IsOn size point }
    requires board { length marks.now ≡ size * size }
    ensures { result ≡ list_any (is_marked marks.now) (neighbours_of size (number_of size point)) }
{
    let neighbours = point.neighbours(size);
    for neighbour in neighbours.as_slice() {
        if marks[neighbour.number(size)] {
            return true;
        }
    }
    false
}

// Marks each unmarked stone of the colour that touches a mark, in one sweep over the board. Returns whether there was one.
fn spread(colouring: &Colouring, colour: Colour, marks: &mut [bool]) -> bool
    requires board { length marks.old ≡ side_of colouring.now * side_of colouring.now }
    requires sound { IsSound (side_of colouring.now) colouring.now colour marks.old }
    requires seeds { HasSeeds (side_of colouring.now) colouring.now marks.old }
    ensures sound { IsSound (side_of colouring.now) colouring.now colour marks.new }
    ensures seeds { HasSeeds (side_of colouring.now) colouring.now marks.new }
    ensures grown { IsTrue result → mark_count marks.old < mark_count marks.new }
    ensures closed { result ≡ false
        → IsClosedBelow (side_of colouring.now) colouring.now colour marks.new
        (side_of colouring.now * side_of colouring.now) }
{
    let size = colouring.size();
    let mut has_spread = false;
    for number in 0..size.area() {
        let point = size.point_at(number);
        if !marks[number]
            && are_same(colouring.get(point), Cell::Stone(colour))
            && touches(point, size, marks)
        {
            marks[number] = true;
            has_spread = true;
        }
    }
    has_spread
}

// Marks the points that are empty, or hold a stone of the colour that reaches empty.
fn mark_free(colouring: &Colouring, colour: Colour, marks: &mut [bool])
    requires board { length marks.old ≡ side_of colouring.now * side_of colouring.now }
    ensures { AreFree (side_of colouring.now) colouring.now colour marks.new }
{
    let size = colouring.size();
    for number in 0..size.area() {
        marks[number] = are_same(colouring.get(size.point_at(number)), Cell::Empty);
    }
    'sweeps: while spread(colouring, colour, marks) {}
}

// Empties the points of the colour that are not marked. Returns how many there were.
fn remove_unmarked(colouring: &mut Colouring, colour: Colour, marks: &[bool]) -> u16
    requires board { length marks.now ≡ side_of colouring.old * side_of colouring.old }
    requires free { AreFree (side_of colouring.old) colouring.old colour marks.now }
    ensures cleared { colouring.new ≡ clear (side_of colouring.old) colouring.old colour }
    ensures size { side_of colouring.new ≡ side_of colouring.old }
    ensures count { result + stone_count colouring.new ≡ stone_count colouring.old }
{
    let size = colouring.size();
    let mut removed = 0;
    for number in 0..size.area() {
        let point = size.point_at(number);
        if !marks[number] && are_same(colouring.get(point), Cell::Stone(colour)) {
            colouring.set(point, Cell::Empty);
            removed += 1;
        }
    }
    removed
}

/// Empties each point of the colour that does not reach empty. Returns how many there were.
pub(crate) fn clear_colour(colouring: &mut Colouring, colour: Colour) -> u16
    ensures cleared { colouring.new ≡ clear (side_of colouring.old) colouring.old colour }
    ensures size { side_of colouring.new ≡ side_of colouring.old }
    ensures count { result + stone_count colouring.new ≡ stone_count colouring.old }
{
    let mut marks = [false; MAX_POINTS];
    let marks = &mut marks[..colouring.size().area()];
    mark_free(colouring, colour, marks);
    remove_unmarked(colouring, colour, marks)
}

/// The colouring without the stones of this colour that do not reach an empty point. It takes a few sweeps over the board, and as
/// many as there are points where a chain winds most.
pub fn cleared(colouring: &Colouring, colour: Colour) -> Colouring
    ensures value { result ≡ clear (side_of colouring.now) colouring.now colour }
    ensures size { side_of result ≡ side_of colouring.now }
{
    let mut left = *colouring;
    let _removed = clear_colour(&mut left, colour);
    left
}

// The least point whose stone is not marked, in the marks of its colour.
fn first_unmarked(colouring: &Colouring, black: &[bool], white: &[bool]) -> Option<Point>
    requires black_board { length black.now ≡ side_of colouring.now * side_of colouring.now }
    requires white_board { length white.now ≡ side_of colouring.now * side_of colouring.now }
    requires black_free { AreFree (side_of colouring.now) colouring.now Black black.now }
    requires white_free { AreFree (side_of colouring.now) colouring.now White white.now }
    ensures found { IfSome result
        (λ p. first_without_liberty (side_of colouring.now) colouring.now
        ≡ Some (number_of (side_of colouring.now) p)) }
    ensures on_board { IfSome result (λ p. IsOn (side_of colouring.now) p) }
    ensures none { IfNone result
        (first_without_liberty (side_of colouring.now) colouring.now ≡ None) }
{
    let size = colouring.size();
    for number in 0..size.area() {
        let point = size.point_at(number);
        let is_free = match colouring.get(point) {
            Cell::Empty => true,
            Cell::Stone(Colour::Black) => black[number],
            Cell::Stone(Colour::White) => white[number],
        };
        if !is_free {
            return Some(point);
        }
    }
    None
}

/// The least point whose stone does not reach empty.
pub(crate) fn find_without_liberty(colouring: &Colouring) -> Option<Point>
    ensures found { IfSome result
        (λ p. first_without_liberty (side_of colouring.now) colouring.now
        ≡ Some (number_of (side_of colouring.now) p)) }
    ensures on_board { IfSome result (λ p. IsOn (side_of colouring.now) p) }
    ensures none { IfNone result
        (first_without_liberty (side_of colouring.now) colouring.now ≡ None) }
{
    let area = colouring.size().area();
    let mut black = [false; MAX_POINTS];
    let black = &mut black[..area];
    mark_free(colouring, Colour::Black, black);
    let mut white = [false; MAX_POINTS];
    let white = &mut white[..area];
    mark_free(colouring, Colour::White, white);
    first_unmarked(colouring, black, white)
}
