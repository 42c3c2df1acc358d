//! What the search promises, whole, on the contract of one call.
ghost use Rattle.std.specs.Prelude.{◌≡◌, min, List, [], map, length, take, drop};
ghost use Rattle.extents.specs.declared.extent.Extent.{Extent};
ghost use Rattle.extents.specs.declared.operator.Operator.{Operator};
ghost use Rattle.extents.specs.Accesses.{Answer as Nearest};
ghost use Rattle.extents.specs.Expressions.{Expression, over as composed, set_of};
ghost use Rattle.extents.specs.Regions.{Lists};
ghost use Rattle.operators.specs.Operators.{operator_list, operator_calls};
ghost use Rattle.refusals.specs.Refusals.{refusal_in};
ghost use Rattle.search.specs.Faults.{refusal_of as fault_refusal};
ghost use Rattle.search.specs.Law.{Areas, areas, room_of};
ghost use Rattle.search.specs.Meaning.{over};
ghost use Rattle.search.specs.Searches.{Searched};
ghost use Rattle.shift_logbook.specs.declared.book.Logbook.{Logbook as Book};
ghost use Rattle.shift_logbook.specs.Books.{Means, HasLedger};
ghost use Rattle.shift_logbook.specs.Ledger.{Entry};
ghost use Rattle.history.specs.Histories.{request_of, IsReplayed};

use super::call::{Call, Reply};
use super::turn::{replay, resume};
use extents::{Access, Extent, Found, Operator, Source};
use operators::{Listing, evaluate};
use postings::Postings;
use refusals::Refusal;
use search::{SearchFault, search};
use shift_logbook::Logbook;

/// What each of the three groups of calls was answered.
#[derive(Clone, Copy, Debug, PartialEq, Eq)]
pub struct Outcome {
    /// What the access found.
    pub found: Found,
    /// What the search answered.
    pub answer: Result<Listing, SearchFault>,
    /// The number and the place of its refusal.
    pub refusal: Option<Refusal>,
    /// How many of the calls on a new logbook were made.
    pub made: usize,
    /// How many of the same calls on a logbook that was lent were made.
    pub lent_made: usize,
}

/// Asks an operator over any two sources for an extent, searches any postings, and puts a list of enters and searches to a new logbook,
/// which it gives back, and to one that is lent.
///
/// It exists for what it promises.
// Stays: each of the calls has its own parameters here, so that each clause speaks of them as the call's own contract does.
pub fn search_theorem<A: Source, B: Source, P: Postings>(
    // An access to an operator over two sources.
    operator: Operator,
    a: &A,
    b: &B,
    access: Access,
    key: u32,
    // A search of a store of postings.
    postings: &P,
    trace: &[i32],
    text: &[u8],
    // The calls on a new logbook, and a place for the reply to each.
    calls: &[Call<'_>],
    replies: &mut [Reply],
    // A logbook on which the same calls are made, and a place for the reply to each.
    lent: &mut Logbook,
    lent_replies: &mut [Reply],
    // Lent to every search, those on the new logbook first, then those on the lent one.
    stack: &mut [Extent],
    scratch: &mut [Extent],
) -> (Outcome, Logbook)
    // ACCESSES. The extent found is the one that the access names in the set that the definitions make of the operator over what the
    // two sources are made of, down to their lists, windows and runs; none exactly when that set has no such extent.
    ensures accesses { Nearest access key (set_of (composed operator (A.expression a.now) (B.expression b.now))) result.0.found.extent }
    // It takes the calls that the operator's accesses to its operands add up to.
    ensures counted { result.0.found.calls ≡ operator_calls operator (A.extents a.now) (A.calls a.now) (B.extents b.now) (B.calls b.now) access key }
    // An operator over two sources is a source again: its list has exactly the set of the whole expression, rising.
    ensures composed { (op : Operator) (x y : Expression) (xs ys : List Extent) → Lists (set_of x) xs → Lists (set_of y) ys
        → Lists (set_of (composed op x y)) (operator_list op xs ys) }
    // SEARCHES. A text is read or refused at its leftmost fault; a query is refused exactly where the law says, with the areas cleared,
    // or answered with the list that has exactly its set, in the calls of the law, at most so many for each term and operator.
    ensures searches { let log = over (P.lists postings.now) trace.now in
        Searched log (room_of (areas stack.old scratch.old)) text.now result.0.answer (areas stack.new scratch.new) }
    // A refusal is told by its number and its place.
    ensures told { result.0.refusal ≡ refusal_in fault_refusal result.0.answer }
    // HISTORIES. As many calls are made on the new logbook as there are places for replies.
    ensures made { result.0.made ≡ min (length calls.now) (length replies.old) }
    // Each is answered, and told, as over the ledger of the entries accepted before it, which is empty at first, a search as above;
    // the logbook then stands for exactly the accepted entries.
    ensures history { let requests = take result.0.made (map request_of calls.now) in
        (left : Areas) × IsReplayed [] (areas stack.old scratch.old) requests (take result.0.made replies.new) left result.1 }
    ensures rest { drop result.0.made replies.new ≡ drop result.0.made replies.old }
    // So it is with the lent logbook, over every ledger that it stands for.
    ensures lent_made { result.0.lent_made ≡ min (length calls.now) (length lent_replies.old) }
    ensures lent_history { (l : List Entry) → Means lent.old l
        → let requests = take result.0.lent_made (map request_of calls.now) in
        (left : Areas) × IsReplayed l (areas stack.old scratch.old) requests (take result.0.lent_made lent_replies.new) left lent.new }
    ensures lent_rest { drop result.0.lent_made lent_replies.new ≡ drop result.0.lent_made lent_replies.old }
    // Every logbook stands for a ledger of entries that were all accepted in turn, beginning with none.
    ensures ledger { (b : Book) → HasLedger b }
{
    let found = evaluate(operator, a, b, access, key);
    let replayed = replay(calls, replies, stack, scratch);
    let lent_made = resume(lent, calls, lent_replies, stack, scratch);
    let answer = search(postings, trace, text, stack, scratch);
    let refusal = answer.as_ref().err().map(|fault| fault.refusal());
    let outcome = Outcome {
        found,
        answer,
        refusal,
        made: replayed.made,
        lent_made,
    };
    (outcome, replayed.book)
}
