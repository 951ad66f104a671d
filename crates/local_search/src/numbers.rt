//! The numbers of a state and of the child that is worked on, where the numbers of children are weighed.

use pn_table::INFINITY;
use state_proofs::{Count, MoverNumbers, Thresholds};

/// The upper bound of weighed numbers.
const MAX_WEIGHED: u64 = 1 << 60;

/// A child's number, weighed.
pub(crate) fn weighed(numbers: MoverNumbers, weight: u32) -> u64 {
    (numbers.own as u64)
        .saturating_mul(weight as u64)
        .min(MAX_WEIGHED)
}

/// The quotient, rounded up.
fn rounded_up(number: u64, by: u64) -> u64 {
    let by = by.max(1);
    if number % by == 0 {
        number / by
    } else {
        (number / by).saturating_add(1)
    }
}

/// The numbers of a state: the sum of the other side's stops below `INFINITY`.
pub(crate) fn numbers_of(count: Count) -> MoverNumbers {
    count.numbers(INFINITY - 1)
}

/// The thresholds of the best child, which has these numbers and this weight, from those of the state. Work stays at the child
/// until its weighed number is one and a half times that of the next one.
pub(crate) fn thresholds_below(
    thresholds: Thresholds,
    count: Count,
    child: MoverNumbers,
    weight: u32,
) -> Thresholds {
    let own = match count.switching_value(8) {
        None => thresholds.own,
        Some(value) => thresholds
            .own
            .min(rounded_up(value, weight as u64))
            .max(child.own as u64 + 1),
    };
    thresholds.below(own, numbers_of(count), child)
}
