//! The report in two areas that the caller lends.
ghost use Rattle.std.specs.Prelude.{◌≡◌, ◌+◌, ◌≤◌, length};
ghost use Rattle.extents.specs.Regions.{Lists};
ghost use Rattle.postings.specs.Lists.{PostingLists, Lawful};
ghost use Rattle.refusals.specs.Refusals.{refusal_in};
ghost use Rattle.search.specs.Law.{areas, room_of};
ghost use Rattle.search.specs.Told.{Told};
ghost use Rattle.report.specs.Faults.{refusal_of};
ghost use Rattle.report.specs.Quiet.{QuietReversal, quiet_reversals};
ghost use Rattle.report.specs.Law.{report_calls, report_fault, report_refusal};
ghost use Rattle.report.specs.Reports.{Reported};
ghost use Rattle.report.specs.Sample.{SampleHolds};
ghost use Rattle.report.specs.Stored.{IsFetched, ListsQuiet};

use super::fault::ReportFault;
use super::fetched::{Fetched, fetch_names};
use super::listing::list_quiet;
use extents::{Extent, StoredList};
use operators::{Listing, Overfull};
use postings::Postings;
use search::clear_behind;

// Lists the quiet reversals of what was fetched to the front of an area, as far as they fit.
fn list_fetched(
    fetched: &Fetched,
    stack: &[Extent],
    scratch: &mut [Extent],
) -> Result<Listing, Overfull>
    requires { fetched.now.begins + fetched.now.ends + fetched.now.alarms + fetched.now.cuts ≤ length stack.now }
    ensures { (p : PostingLists) → Lawful p → IsFetched p stack.now fetched.now → ListsQuiet p scratch.old scratch.new result }
{
    let (begins, rest) = stack.split_at(fetched.begins);
    let (ends, rest) = rest.split_at(fetched.ends);
    let (alarms, rest) = rest.split_at(fetched.alarms);
    let cuts = &rest[..fetched.cuts];
    list_quiet(
        StoredList::or_empty(begins),
        StoredList::or_empty(ends),
        StoredList::or_empty(alarms),
        StoredList::or_empty(cuts),
        scratch,
    )
}

// Fetches the four names and lists the quiet reversals; the areas keep what that left in them.
fn answer<P: Postings>(
    postings: &P,
    stack: &mut [Extent],
    scratch: &mut [Extent],
) -> Result<Listing, ReportFault>
    ensures { let lists = P.lists postings.now in let fault = report_fault lists (room_of (areas stack.old scratch.old)) in
        Told (quiet_reversals lists) (report_calls lists) fault result stack.new }
{
    let fetched = fetch_names(postings, stack)?;
    let listed = list_fetched(&fetched, stack, scratch);
    let listing = listed.map_err(|_| ReportFault::ListingOver)?;
    let n = listing.n;
    stack[0..n].copy_from_slice(&scratch[0..n]);
    let mut tally = fetched.tally;
    tally.add(listing.calls);
    Ok(Listing {
        n,
        calls: tally.calls,
    })
}

/// Lists the reversals in which neither an alarm nor a cut lies. They stand at the front of the stack area; both areas are otherwise
/// left at (0,0).
///
/// # Errors
/// 22 where the slots of the four names are more than the stack area holds, and 21 where the list is longer than the scratch area; both
/// areas are then left at (0,0).
pub fn report<P: Postings>(
    postings: &P,
    stack: &mut [Extent],
    scratch: &mut [Extent],
) -> Result<Listing, ReportFault>
    ensures answers { Reported (P.lists postings.now) (room_of (areas stack.old scratch.old)) result (areas stack.new scratch.new) }
    ensures told { refusal_in refusal_of result ≡ report_refusal (P.lists postings.now) (room_of (areas stack.old scratch.old)) }
    ensures exact { Lists (QuietReversal (P.lists postings.now)) (quiet_reversals (P.lists postings.now)) }
    ensures sample { SampleHolds (P.lists postings.now) (room_of (areas stack.old scratch.old)) result stack.new }
{
    let answered = answer(postings, stack, scratch);
    clear_behind(&answered, stack, scratch);
    answered
}
