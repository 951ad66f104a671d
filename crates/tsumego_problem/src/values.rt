//! What the values of a record stand for.

ghost use Rattle.std.specs.Prelude.{◌≡◌, ◌≤◌, length, reverse, option_map};
ghost use Rattle.go_points.specs.Ply.{ply_of};
ghost use Rattle.tsumego_problem.specs.Values.{skip_white, trim, turn_in, colour_in};

use go_points::{Colour, Size, Turn, sgf_point};
use sgf_text::token::is_white;

/// The text from its first byte that is not white space.
pub fn skip_white(text: &[u8]) -> &[u8]
    ensures value { result.now ≡ skip_white text.now }
    ensures shorter { length result.now ≤ length text.now }
{
    for start in 0..text.len() {
        if !is_white(text[start]) {
            return &text[start..];
        }
    }
    &[]
}

/// The text up to its last byte that is not white space.
fn cut_white(text: &[u8]) -> &[u8]
    ensures { result.now ≡ reverse (skip_white (reverse text.now)) }
{
    let mut end = text.len();
    while end > 0 && is_white(text[end - 1]) {
        end -= 1;
    }
    &text[..end]
}

/// The value without the white space at both its ends.
pub(crate) fn trim(value: &[u8]) -> &[u8]
    ensures { result.now ≡ trim value.now }
{
    cut_white(skip_white(value))
}

/// The turn that a value of B or W stands for (SGF FF[4], Go, "Move"): the point that two letters name; or a pass, which is an
/// empty value, or `tt` if that is not a point of the board. White space at its ends is ignored. `None` for any other value.
pub fn read_turn(size: Size, value: &[u8]) -> Option<Turn>
    ensures { option_map (ply_of size) result ≡ turn_in size value.now }
{
    let value = trim(value);
    if value.is_empty() {
        return Some(Turn::Pass);
    }
    if let Some(point) = sgf_point(size, value) {
        return Some(Turn::At(point));
    }
    if value == b"tt".as_slice() {
        Some(Turn::Pass)
    } else {
        None
    }
}

/// The colour that a value of PL stands for (SGF FF[4], "Color"): its letter or its English word, in any letter case. White space
/// at its ends is ignored.
pub(crate) fn read_colour(value: &[u8]) -> Option<Colour>
    ensures { result ≡ colour_in value.now }
{
    let word = trim(value);
    if word.eq_ignore_ascii_case(b"b") || word.eq_ignore_ascii_case(b"black") {
        Some(Colour::Black)
    } else if word.eq_ignore_ascii_case(b"w") || word.eq_ignore_ascii_case(b"white") {
        Some(Colour::White)
    } else {
        None
    }
}
