//! A whole search in two areas that the caller lends.
ghost use Rattle.query.specs.Queries.{said};
ghost use Rattle.search.specs.Law.{areas, room_of, search_fault, query_calls};
ghost use Rattle.search.specs.Meaning.{over, listed};
ghost use Rattle.search.specs.Searches.{IsBlankFrom, Queried, Searched};
ghost use Rattle.search.specs.Told.{Told, Spares};

use super::area::{clear_from, kept};
use super::fault::SearchFault;
use super::run::{Log, run};
use super::stack::OperandStack;
use extents::Extent;
use operators::Listing;
use postings::Postings;
use query::{Query, read};

/// What a query is answered, and the places from which on neither area was written.
#[derive(Drop)]
pub(crate) struct Outcome {
    pub(crate) answered: Result<Listing, SearchFault>,
    pub(crate) stored: usize,
    pub(crate) listed: usize,
}

/// Runs the query; the areas keep what the run left in them.
pub(crate) fn answer<P: Postings>(
    postings: &P,
    trace: &[i32],
    query: &Query<'_>,
    stack: &mut [Extent],
    scratch: &mut [Extent],
) -> Outcome
    ensures told { let log = over (P.lists postings.now) trace.now in let e = said query.now in
        Told (listed log e) (query_calls log e) (search_fault log (room_of (areas stack.old scratch.old)) e) result.answered stack.new }
    ensures spares { Spares result (areas stack.old scratch.old) (areas stack.new scratch.new) }
{
    let span = postings.length();
    let mut waiting = OperandStack::new();
    let answered = if trace.len() > span as usize {
        Err(SearchFault::TraceOver)
    } else {
        match run(
            postings,
            query,
            Log { span, trace },
            &mut waiting,
            stack,
            scratch,
        ) {
            Ok(()) => Ok(Listing {
                n: waiting.used,
                calls: waiting.calls,
            }),
            Err(fault) => Err(fault),
        }
    };
    Outcome {
        answered,
        stored: waiting.stored,
        listed: waiting.listed,
    }
}

/// Runs the query in two areas that are (0,0) from two places on, and clears them behind what was found.
// Stays: the two areas are parameters of their own wherever they are lent, a rule of the project; so is the place that goes with each.
pub(crate) fn answer_from<P: Postings>(
    postings: &P,
    trace: &[i32],
    query: &Query<'_>,
    stack: &mut [Extent],
    scratch: &mut [Extent],
    stored: usize,
    listed: usize,
) -> Result<Listing, SearchFault>
    ensures { let room = room_of (areas stack.old scratch.old) in IsBlankFrom stored stack.old → IsBlankFrom listed scratch.old
        → Queried (over (P.lists postings.now) trace.now) room (said query.now) result (areas stack.new scratch.new) }
{
    let outcome = answer(postings, trace, query, stack, scratch);
    clear_from(stack, kept(&outcome.answered), stored.max(outcome.stored));
    clear_from(scratch, 0, listed.max(outcome.listed));
    outcome.answered
}

/// Runs the query that the text writes in two areas that are (0,0) from two places on, and clears them behind what was found.
pub(crate) fn search_from<P: Postings>(
    postings: &P,
    trace: &[i32],
    text: &[u8],
    stack: &mut [Extent],
    scratch: &mut [Extent],
    stored: usize,
    listed: usize,
) -> Result<Listing, SearchFault>
    ensures { let room = room_of (areas stack.old scratch.old) in IsBlankFrom stored stack.old → IsBlankFrom listed scratch.old
        → Searched (over (P.lists postings.now) trace.now) room text.now result (areas stack.new scratch.new) }
{
    match read(text) {
        Ok(query) => answer_from(postings, trace, &query, stack, scratch, stored, listed),
        Err(fault) => {
            clear_from(stack, 0, stored);
            clear_from(scratch, 0, listed);
            Err(SearchFault::Read(fault))
        }
    }
}

/// Searches the postings and the trace for a query. The extents found stand at the front of the stack area; both areas are otherwise
/// left at (0,0).
///
/// # Errors
/// The trace is longer than the store's span, or a list has no room in an area.
pub fn search_query<P: Postings>(
    postings: &P,
    trace: &[i32],
    query: &Query<'_>,
    stack: &mut [Extent],
    scratch: &mut [Extent],
) -> Result<Listing, SearchFault>
    ensures { Queried (over (P.lists postings.now) trace.now) (room_of (areas stack.old scratch.old)) (said query.now) result (areas stack.new scratch.new) }
{
    let stored = stack.len();
    let listed = scratch.len();
    answer_from(postings, trace, query, stack, scratch, stored, listed)
}

/// Searches the postings and the trace for the query that the text writes. The extents found stand at the front of the stack area;
/// both areas are otherwise left at (0,0).
///
/// # Errors
/// The text is no query, the trace is longer than the store's span, or a list has no room in an area.
pub fn search<P: Postings>(
    postings: &P,
    trace: &[i32],
    text: &[u8],
    stack: &mut [Extent],
    scratch: &mut [Extent],
) -> Result<Listing, SearchFault>
    ensures { Searched (over (P.lists postings.now) trace.now) (room_of (areas stack.old scratch.old)) text.now result (areas stack.new scratch.new) }
{
    let stored = stack.len();
    let listed = scratch.len();
    search_from(postings, trace, text, stack, scratch, stored, listed)
}
