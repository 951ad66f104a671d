//! Claims that a caller gives as lines of its own, not as a text.

use crate::small_problems::{expect_judged, problem, refused};
use cert_check::{Why, check, check_short};
use go_points::{Colour, Size};
use proof_cert::{Line, NodeSource, SourceFault, Version};

// Gives these lines.
#[derive(Drop)]
struct Given<'a> {
    size: Size,
    left: &'a [Line],
    number: u32,
}

impl<'a> Given<'a> {
    fn of(size: Size, left: &'a [Line]) -> Given<'a> {
        Given {
            size,
            left,
            number: 0,
        }
    }
}

impl<'a> NodeSource for Given<'a> {
    ghost use Rattle.std.specs.Prelude.{None};

    ghost size = { λ s. s.size };

    ghost number = { λ s. s.number };

    ghost fault = { λ s. None };

    ghost gives = { λ s r t. Unit {0} };

    fn next(&mut self) -> Result<Option<Line>, SourceFault> {
        let Some((line, rest)) = self.left.split_first() else {
            return Ok(None);
        };
        if self.number == u32::MAX {
            return Ok(None);
        }
        self.left = rest;
        self.number += 1;
        Ok(Some(*line))
    }

    fn size(&self) -> Size {
        self.size
    }

    fn line_number(&self) -> u64 {
        u64::from(self.number)
    }
}

// Black has an eye at the top and one at the bottom. That its group lives by its shape is said by a use of lemma 0, which no text
// can name: in a short claim it is the line `alive`, and in other claims it is refused as a lemma that there is not.
#[test]
fn only_short_claims_have_a_leaf_that_lives_by_its_shape(rt: HostRuntime) {
    let problem = problem(
        rt.alloc(),
        &rt,
        3,
        &["X.XXXX..."],
        Colour::Black,
        &[(1, 0), (0, 2), (1, 2), (2, 2)],
    );
    let header = Line::Header {
        version: Version::One,
        size: 3,
        winner: Colour::Black,
    };
    let lines = [header, Line::Main, Line::Use(0), Line::End];
    let short = check_short(rt.alloc(), &problem, &mut Given::of(problem.size(), &lines));
    expect_judged(&rt, short, Ok(Colour::Black));
    let other = check(rt.alloc(), &problem, &mut Given::of(problem.size(), &lines));
    expect_judged(&rt, other, refused(3, Why::LemmaNotLower));
}
