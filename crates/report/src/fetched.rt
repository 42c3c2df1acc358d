//! The slots of the four names, fetched one behind the other.
ghost use Rattle.std.specs.Prelude.{◌≡◌, ◌+◌, ◌<◌, ◌≤◌, length, OnOk, MatchResult};
ghost use Rattle.extents.specs.Counts.{capped};
ghost use Rattle.report.specs.declared.fault.ReportFault.TheVariants.{StackOver};
ghost use Rattle.report.specs.Quiet.{points};
ghost use Rattle.report.specs.Law.{fetched_count, next_calls};
ghost use Rattle.report.specs.Stored.{IsBehind, IsFetched};

use super::fault::ReportFault;
use extents::{Extent, Tally};
use postings::Postings;
use search::fetch;

/// How many slots each of the four names has, and the calls that fetched them all.
#[derive(Clone, Copy)]
pub(crate) struct Fetched {
    pub(crate) begins: usize,
    pub(crate) ends: usize,
    pub(crate) alarms: usize,
    pub(crate) cuts: usize,
    pub(crate) tally: Tally,
}

// Stays: the area is lent, and stays a parameter of its own beside the store, a rule of the project.
// Writes the slots of a name behind those fetched so far, adds its calls to theirs, and tells how many slots it has.
fn fetch_behind<P: Postings>(
    postings: &P,
    name: &[u8],
    used: usize,
    tally: &mut Tally,
    stack: &mut [Extent],
) -> Result<usize, ReportFault>
    requires { used ≤ length stack.old }
    ensures behind { let xs = points (P.lists postings.now) name.now in
        MatchResult result (IsBehind xs used stack.old stack.new) (λ f. (f ≡ StackOver) × (length stack.old < used + length xs)) }
    ensures counted { OnOk result (tally.new.calls ≡ capped (tally.old.calls + next_calls (P.lists postings.now) name.now)) }
{
    let fetched = fetch(postings, name, &mut stack[used..]);
    let listing = fetched.map_err(|_| ReportFault::StackOver)?;
    tally.add(listing.calls);
    Ok(listing.n)
}

// Fetches the four names into the area.
pub(crate) fn fetch_names<P: Postings>(
    postings: &P,
    stack: &mut [Extent],
) -> Result<Fetched, ReportFault>
    ensures { let lists = P.lists postings.now in
        MatchResult result (IsFetched lists stack.new) (λ f. (f ≡ StackOver) × (length stack.old < fetched_count lists)) }
{
    let mut tally = Tally::new();
    let begins = fetch_behind(postings, b"[rev", 0, &mut tally, stack)?;
    let ends = fetch_behind(postings, b"rev]", begins, &mut tally, stack)?;
    let alarms = fetch_behind(postings, b"alarm", begins + ends, &mut tally, stack)?;
    let cuts = fetch_behind(postings, b"cut", begins + ends + alarms, &mut tally, stack)?;
    Ok(Fetched {
        begins,
        ends,
        alarms,
        cuts,
        tally,
    })
}
