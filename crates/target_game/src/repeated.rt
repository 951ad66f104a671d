//! Whether a colouring occurs twice in a history. The time is linear in the length of the history if the keys spread well: each
//! colouring is compared with those before it whose keys fall into the same bucket. No memory is allocated.

ghost use Rattle.std.specs.Prelude.{◌≡◌, ◌-◌, ◌<◌, ◌≤◌, ℕ, true, false, [], length, replicate, slice_index, slice_index_or};
ghost use Rattle.go_points.specs.Grid.{same_cells};
ghost use Rattle.go_turns.specs.History.{repeats};
ghost use Rattle.target_game.specs.Private.Buckets.{bucket_at, bucket_count, history_most};

use crate::MAX_HISTORY;
use go_points::Colouring;
use stone_key::key_of;

/// The number of buckets.
const BUCKETS: usize = 1024;

// Whether the colouring is one of those in its bucket, going back from the one before this place. Each names the one before it, by
// its place plus one.
fn stands_before(
    history: &[Colouring],
    before: &[u16],
    from: u16,
    bucket: usize,
    colouring: &Colouring,
) -> bool
    requires few { length history.now ≤ history_most }
    requires full { length before.now ≡ history_most }
    requires within { from ≤ length history.now }
    requires down { (j : ℕ) → j < from → slice_index before.now j ≤ j }
    requires met { (j k : ℕ) → k < j → j < from → bucket_at history.now k ≡ bucket_at history.now j
        → k < slice_index before.now j }
    requires kind { (j : ℕ) → j < from → 0 < slice_index before.now j
        → bucket_at history.now (slice_index before.now j - 1) ≡ bucket_at history.now j }
    requires first { 0 < from → bucket_at history.now (from - 1) ≡ bucket }
    ensures yes { result ≡ true → (k : ℕ) × (k < from)
        × (same_cells colouring.now (slice_index_or history.now k []) ≡ true) }
    ensures no { result ≡ false → (k : ℕ) → k < from → bucket_at history.now k ≡ bucket
        → same_cells colouring.now (slice_index_or history.now k []) ≡ false }
{
    let mut at = from;
    'chain: while at > 0 {
        let earlier = at as usize - 1;
        if *colouring == history[earlier] {
            return true;
        }
        at = before[earlier];
    }
    false
}

/// Whether a colouring occurs twice in the list, which has at most as many colourings as a problem may have.
pub(crate) fn stand_twice(history: &[Colouring]) -> bool
    requires { length history.now ≤ history_most }
    ensures { result ≡ repeats history.now }
{
    let mut latest = no_latest();
    let mut before = no_before();
    for place in 0..history.len() {
        let bucket = (key_of(&history[place]) % BUCKETS as u64) as usize;
        if stands_before(history, &before, latest[bucket], bucket, &history[place]) {
            return true;
        }
        before[place] = latest[bucket];
        latest[bucket] = place as u16 + 1;
    }
    false
}

fn no_latest() -> [u16; BUCKETS]
    ensures { result ≡ replicate bucket_count 0 }
{
    [0; BUCKETS]
}

fn no_before() -> [u16; MAX_HISTORY]
    ensures { result ≡ replicate history_most 0 }
{
    [0; MAX_HISTORY]
}
