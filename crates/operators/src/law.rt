//! What holds of the list of every operator over any two sources.
ghost use Rattle.std.specs.Prelude.{◌≡◌, ◌+◌, ◌*◌, ◌≤◌, List, length};
ghost use Rattle.extents.specs.declared.extent.Extent.{Extent};
ghost use Rattle.extents.specs.Expressions.{over, set_of};
ghost use Rattle.extents.specs.Regions.{Lists};
ghost use Rattle.operators.specs.Listing.{Cheap, listing_calls};
ghost use Rattle.operators.specs.Operators.{operator_list};

use extents::{Operator, Source};

/// The list has exactly the operator's set, in rising order, and no other does; it is no longer than the operands' lists
/// together; and over operands whose accesses take one call each, to list it takes at most four calls for each of their
/// extents and four more.
pub fn laws<A: Source, B: Source>(operator: Operator, a: &A, b: &B)
    ensures listed { Lists (set_of (over operator (A.expression a.now) (B.expression b.now))) (operator_list operator (A.extents a.now) (B.extents b.now)) }
    ensures only { (xs : List Extent) → Lists (set_of (over operator (A.expression a.now) (B.expression b.now))) xs
        → xs ≡ operator_list operator (A.extents a.now) (B.extents b.now) }
    ensures short { length (operator_list operator (A.extents a.now) (B.extents b.now)) ≤ length (A.extents a.now) + length (B.extents b.now) }
    ensures few { Cheap (A.calls a.now) → Cheap (B.calls b.now)
        → listing_calls operator (A.extents a.now) (A.calls a.now) (B.extents b.now) (B.calls b.now)
        ≤ 4 * (length (A.extents a.now) + length (B.extents b.now) + 1) }
{}
