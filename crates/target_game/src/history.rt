//! Histories of states that are not the start of a problem.

ghost use Rattle.std.specs.Prelude.{◌≡◌, ◌∷◌, IfOk, filter, not};
ghost use Rattle.go_points.specs.Grid.{same_cells};

use go_points::Colouring;
use std::alloc::{AllocError, Global};

/// The first colouring, followed by those of the others that differ from it.
pub(crate) fn with_others(
    alloc: Global,
    first: &Colouring,
    others: &[Colouring],
) -> Result<Vec<Colouring>, AllocError>
    ensures { IfOk result
        (λ h. h.items ≡ first.now ∷ filter (λ c. not (same_cells first.now c)) others.now) }
{
    let mut history = Vec::new(alloc);
    history.push(*first)?;
    for other in others {
        if first == other {
            continue;
        }
        history.push(*other)?;
    }
    Ok(history)
}
