//! Sizes of boards as values.

ghost use Rattle.std.specs.Prelude.{◌≡◌, ◌≤◌, ◌+◌, ◌-◌, ◌*◌, ◌&&◌, nat_le, Some, None, option_and_then, position, if◌then◌else◌};
ghost use Rattle.go_points.specs.declared.TheConstants.{MAX_SIZE};
ghost use Rattle.tsumego_problem.specs.Values.{digits_value, number_named, size_in, is_digit, is_colon, equal};
ghost use Rattle.tsumego_problem.specs.Walk.{board_of};

use crate::values::trim;
use go_points::{MAX_SIZE, Size};

/// The number with one more digit, if that is a digit and the number does not pass `MAX_SIZE`.
fn with_digit(number: u8, digit: u8) -> Option<u8>
    requires { number ≤ MAX_SIZE }
    ensures { result ≡ if is_digit digit && nat_le (10 * number + (digit - 48)) MAX_SIZE then Some
        (10 * number + (digit - 48)) else None }
{
    if !digit.is_ascii_digit() {
        return None;
    }
    let next = 10 * number as u16 + (digit - b'0') as u16;
    if next <= MAX_SIZE as u16 {
        Some(next as u8)
    } else {
        None
    }
}

/// The size with as many rows as these digits say.
fn read_digits(digits: &[u8]) -> Option<Size>
    ensures { result ≡ option_and_then board_of (digits_value digits.now) }
{
    if digits.is_empty() {
        return None;
    }
    let mut number: u8 = 0;
    for digit in digits {
        let Some(next) = with_digit(number, *digit) else {
            return None;
        };
        number = next;
    }
    Size::new(number)
}

/// The size with as many rows as this number says.
fn read_number(number: &[u8]) -> Option<Size>
    ensures { result ≡ option_and_then board_of (number_named number.now) }
{
    match number {
        [b'+', digits @ ..] => read_digits(digits),
        _ => read_digits(number),
    }
}

/// The first colon.
fn colon_in(value: &[u8]) -> Option<usize>
    ensures { result ≡ position is_colon value.now }
{
    value.iter().position(|byte| *byte == b':')
}

/// The size with as many rows as both numbers say.
fn read_square(first: &[u8], second: &[u8]) -> Option<Size>
    ensures { result ≡ option_and_then board_of
        (equal (number_named first.now) (number_named second.now)) }
{
    let Some(columns) = read_number(first) else {
        return None;
    };
    let Some(rows) = read_number(second) else {
        return None;
    };
    if columns.rows() == rows.rows() {
        Some(columns)
    } else {
        None
    }
}

/// The size that a value of SZ stands for (SGF FF[4], "Root properties"): a number of rows, or a square's `n:n`. White space at its
/// ends is ignored.
pub(crate) fn read_size(value: &[u8]) -> Option<Size>
    ensures { result ≡ option_and_then board_of (size_in value.now) }
{
    let value = trim(value);
    match colon_in(value) {
        Some(colon) => read_square(&value[..colon], &value[colon + 1..]),
        None => read_number(value),
    }
}
