//! How much is asked.

/// The limits of a search over a board. A step expands one state of one question; 1,000 steps take some 3 ms.
#[derive(Clone, Copy, Debug, PartialEq, Eq)]
pub struct Limits {
    /// The steps of one question.
    pub steps: u64,
    /// The same where the region is a whole area of one side, all of whose stones beside it are kept or stand anyway.
    pub closed_steps: u64,
    /// The steps of all questions together, rarely a few more. With 0 only chains that live by their shape are found.
    pub all_steps: u64,
    /// The most empty points of a region that is taken by the order of the points.
    pub points: usize,
    /// The most empty points of a region that grows where it is weak. With 0 none is grown.
    pub grown_points: usize,
    /// Whether two regions are asked that each leave a chain a liberty.
    pub has_pairs: bool,
    /// Whether chains are asked by themselves that do not live together with the others.
    pub has_singles: bool,
}

impl Default for Limits {
    fn default() -> Limits {
        Limits {
            steps: 10_000,
            closed_steps: 100_000,
            all_steps: 2_000_000,
            points: 16,
            grown_points: 20,
            has_pairs: true,
            has_singles: true,
        }
    }
}

impl Limits {
    /// The limits of a first look at all chains of one side: little is asked of each.
    pub(crate) fn quick(self) -> Limits {
        Limits {
            steps: self.steps.min(1_000),
            closed_steps: 0,
            all_steps: self.all_steps,
            points: self.points,
            grown_points: 0,
            has_pairs: false,
            has_singles: false,
        }
    }
}

/// The numbers of empty points of the regions that are asked, smallest first.
pub(crate) const SIZES: [usize; 9] = [2, 3, 4, 6, 8, 10, 12, 14, 16];
