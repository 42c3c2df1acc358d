//! What is said of a candidate, and where a walk over candidates goes on.

/// A key that a walk goes on from, on the way forward at or past the slot, and on the way back at or before it.
#[derive(Clone, Copy, Debug, PartialEq, Eq)]
pub enum Key {
    /// The next that starts there.
    Start(u32),
    /// The next that ends there.
    End(u32),
}

/// What is said of a candidate.
#[derive(Clone, Copy, Debug, PartialEq, Eq)]
pub enum Verdict {
    /// The candidate is kept.
    Keep,
    /// Neither it nor any after it is kept.
    Stop,
    /// It is not kept, and no other before the key is.
    GoOn(Key),
}
