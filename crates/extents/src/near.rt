//! Searches that begin where the last one ended.
ghost use Rattle.std.specs.Prelude.{◌≡◌, ◌≤◌, Bool, true, false, length};
ghost use Rattle.std.specs.Fn.{ComputesKey};
ghost use Rattle.std.specs.List.Sorted.{IsPartitionedBy, IsPartitionPoint};

use std::cell::Cell;

// Where the test ends to hold, as `partition_point` tells it, looked for outward from a hint, in steps that double.
// The hint is where the last search ended. No proof knows anything of it: with any number the answer is the same.
//
// That the test may always be called is asked as `partition_point` asks it: a closure's own clauses say when it may be called, and
// only its maker sees them. A closure that asks for nothing meets it.
pub(crate) fn partition_near<T, P: FnMut(&T) -> bool>(
    items: &[T],
    hint: &Cell<usize>,
    mut test: P,
) -> usize
    requires { P.IsAlwaysCallable test }
    ensures bound { result ≤ length items.now }
    ensures partitioned { (p : T → Bool) → ComputesKey P.FnMut p test → IsPartitionedBy p items.now
        → IsPartitionPoint (λ y. p y ≡ true) (λ y. p y ≡ false) items.now result }
{
    let mut low = 0;
    let mut high = items.len();
    let mut at = hint.get();
    let mut step: usize = 1;
    while low <= at && at < high {
        if test(&items[at]) {
            low = at + 1;
            at = at.wrapping_add(step);
        } else {
            high = at;
            at = at.wrapping_sub(step);
        }
        step = step.wrapping_mul(2);
    }
    let end = low + items[low..high].partition_point(test);
    hint.set(end);
    end
}
