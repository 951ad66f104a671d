//! Lists of colourings put in order.

ghost use Rattle.std.specs.Prelude.{◌≡◌, List};
ghost use Rattle.go_points.specs.declared.Cell.{Cell};
ghost use Rattle.go_turns.specs.History.{has_occurred};
ghost use Rattle.cert_check.specs.Private.Ascending.{Ascends};

use go_points::Colouring;

/// Puts the colourings in the order of their texts, each once.
pub(crate) fn put_in_order(list: &mut Vec<Colouring>)
    ensures order { Ascends list.new.items }
    ensures same { (c : List Cell) → has_occurred list.new.items c ≡ has_occurred list.old.items c }
{
    list.sort_unstable();
    list.dedup();
}
