//! Slots that are written down in some way, and a search among them by their numbers.
ghost use Rattle.std.specs.Prelude.{◌≡◌, ℕ, ◌<◌, ◌≤◌, length};
ghost use Rattle.std.specs.List.Sorted.{IsNonDecreasingBy, IsPartitionPoint};

use super::near::partition_near;
use std::cell::Cell;

/// What keeps slots: how one is written down.
pub trait Slots {
    /// How a slot is written down.
    type Slot;

    // The number of a slot.
    ghost number_of: { Self.Slot → ℕ };

    /// The number of the slot.
    fn number(slot: &Self::Slot) -> u32
        ensures { result ≡ number_of slot.now };
}

/// How many slots are below `k`, of slots that do not fall: where those below end, looked for outward from where the last search ended.
/// The hint is that place. No proof knows anything of it: with any number the answer is the same.
#[inline]
pub fn slots_below<S: Slots>(slots: &[S::Slot], hint: &Cell<usize>, k: u32) -> usize
    ensures bound { result ≤ length slots.now }
    ensures partitioned { IsNonDecreasingBy S.number_of slots.now → IsPartitionPoint (λ x. S.number_of x < k) (λ x. k ≤ S.number_of x) slots.now result }
{
    partition_near(slots, hint, |slot| S::number(slot) < k)
}
