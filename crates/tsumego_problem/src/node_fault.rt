//! The refusals that depend only on the contents of a node.

ghost use Rattle.std.specs.Prelude.{◌≡◌, ◌&&◌, ◌||◌, ◌∷◌, [], ℕ, codes, is_none, option_map};
ghost use Rattle.std.specs.List.{list_any};
ghost use Rattle.tsumego_problem.specs.Values.{turn_in};
ghost use Rattle.tsumego_problem.specs.Walk.{has, has_many, is_bad, is_bad_turn, share_point, node_fault, first_fault, when};
ghost use Rattle.tsumego_problem.specs.declared.fault.ProblemFault.TheVariants as faults;
ghost use Rattle.tsumego_problem.specs.declared.fault.SingleProperty.TheVariants as single;

use crate::fault::{ProblemFault, SingleProperty};
use crate::main_line::{has, has_setup, has_turn, values_at};
use crate::named_points::{points_at, read_points};
use crate::values::read_turn;
use go_points::Size;
use sgf_text::{Bytes, SgfNode};

/// Whether the property has several values.
fn has_many(name: &[u8], node: &SgfNode) -> bool
    ensures { result ≡ has_many name.now node.now }
{
    values_at(name, node).len() > 1
}

/// The first of B, W and PL that has several values.
fn many_values(node: &SgfNode) -> Option<SingleProperty>
    ensures { (k : ℕ) → option_map (λ p. faults.ManyValues p k) result
        ≡ first_fault (when (has_many (codes "B") node.now) (faults.ManyValues single.B k)
        ∷ when (has_many (codes "W") node.now) (faults.ManyValues single.W k)
        ∷ when (has_many (codes "PL") node.now) (faults.ManyValues single.PL k) ∷ []) }
{
    if has_many(b"B", node) {
        Some(SingleProperty::B)
    } else if has_many(b"W", node) {
        Some(SingleProperty::W)
    } else if has_many(b"PL", node) {
        Some(SingleProperty::PL)
    } else {
        None
    }
}

/// Whether a value of the property names no points.
fn is_bad(size: Size, name: &[u8], node: &SgfNode) -> bool
    ensures { result ≡ is_bad size name.now node.now }
{
    read_points(size, values_at(name, node)).is_none()
}

/// Whether a value of AB, AW, AE, TR or SQ names no points.
fn has_bad_points(size: Size, node: &SgfNode) -> bool
    ensures { result ≡ list_any (λ name. is_bad size name node.now)
        (codes "AB" ∷ codes "AW" ∷ codes "AE" ∷ codes "TR" ∷ codes "SQ" ∷ []) }
{
    is_bad(size, b"AB", node)
        || is_bad(size, b"AW", node)
        || is_bad(size, b"AE", node)
        || is_bad(size, b"TR", node)
        || is_bad(size, b"SQ", node)
}

/// Whether the value is not a turn.
fn is_no_turn(size: Size, value: &Bytes) -> bool
    ensures { result ≡ is_none (turn_in size value.now) }
{
    read_turn(size, value.as_slice()).is_none()
}

/// Whether a value of the property is not a turn.
fn is_bad_turn(size: Size, name: &[u8], node: &SgfNode) -> bool
    ensures { result ≡ is_bad_turn size name.now node.now }
{
    for value in values_at(name, node) {
        if is_no_turn(size, value) {
            return true;
        }
    }
    false
}

/// Whether the node has both properties.
fn has_both(first: &[u8], second: &[u8], node: &SgfNode) -> bool
    ensures { result ≡ (has first.now node.now && has second.now node.now) }
{
    has(first, node) && has(second, node)
}

/// Whether two properties share a point.
fn share_point(size: Size, first: &[u8], second: &[u8], node: &SgfNode) -> bool
    ensures { result ≡ share_point size first.now second.now node.now }
{
    has_both(first, second, node) && name_one_point(size, first, second, node)
}

/// Whether two properties share a point, if the node has both.
fn name_one_point(size: Size, first: &[u8], second: &[u8], node: &SgfNode) -> bool
    ensures { result ≡ share_point size first.now second.now node.now }
{
    let held = points_at(size, first, node);
    for point in points_at(size, second, node).iter() {
        if held.has(point) {
            return true;
        }
    }
    false
}

/// Whether two of AB, AW and AE share a point.
fn setup_overlaps(size: Size, node: &SgfNode) -> bool
    ensures { result ≡ (share_point size (codes "AB") (codes "AW") node.now || share_point size
        (codes "AB") (codes "AE") node.now || share_point size (codes "AW")
        (codes "AE") node.now) }
{
    share_point(size, b"AB", b"AW", node)
        || share_point(size, b"AB", b"AE", node)
        || share_point(size, b"AW", b"AE", node)
}

/// The first of the refusals of this node that do not depend on what comes before it.
pub(crate) fn node_fault(size: Size, number: usize, node: &SgfNode) -> Option<ProblemFault>
    ensures { result ≡ node_fault size number node.now }
{
    if let Some(property) = many_values(node) {
        return Some(ProblemFault::ManyValues {
            property,
            node: number,
        });
    }
    if has_bad_points(size, node)
        || is_bad_turn(size, b"B", node)
        || is_bad_turn(size, b"W", node)
    {
        return Some(ProblemFault::BadPoint { node: number });
    }
    if setup_overlaps(size, node) {
        return Some(ProblemFault::SharedPoint { node: number });
    }
    if has_turn(node) && has_setup(node) {
        return Some(ProblemFault::MixedNode { node: number });
    }
    if has(b"B", node) && has(b"W", node) {
        return Some(ProblemFault::BothColours { node: number });
    }
    None
}
