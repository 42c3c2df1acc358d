//! Calls, added up while extents are asked for.
ghost use Rattle.std.specs.Prelude.{◌≡◌, ◌+◌};
ghost use Rattle.extents.specs.Counts.{capped};

use super::extent::{Extent, Found};

/// How many calls were made so far.
#[derive(Clone, Copy, Debug, PartialEq, Eq)]
pub struct Tally {
    /// The calls; their sum stops at 2^64 - 1.
    pub calls: u64,
}

impl Tally {
    /// No call yet.
    pub fn new() -> Tally
        ensures { result ≡ record { calls = 0 } }
    {
        Tally { calls: 0 }
    }

    /// What an access found, with its calls added to those so far.
    pub fn take(&mut self, found: Found) -> Option<Extent>
        ensures extent { result ≡ found.extent }
        ensures count { self.new ≡ record { calls = capped (self.old.calls + found.calls) } }
    {
        self.calls = self.calls.saturating_add(found.calls);
        found.extent
    }

    /// Adds the calls that a listing took to those so far.
    pub fn add(&mut self, calls: u64)
        ensures { self.new ≡ record { calls = capped (self.old.calls + calls) } }
    {
        self.calls = self.calls.saturating_add(calls);
    }

    /// What was found in the end, in the calls so far.
    pub fn found(self, extent: Option<Extent>) -> Found
        ensures { result ≡ record { extent = extent; calls = self.calls } }
    {
        Found {
            extent,
            calls: self.calls,
        }
    }
}
