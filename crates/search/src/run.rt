//! The steps of a query, one after the other.
ghost use Rattle.std.specs.Prelude.{◌≡◌, ℕ, ◌+◌, ◌<◌, ◌≤◌, List, [], length, IfOk, ℤ};
ghost use Rattle.arrayvec.specs.ArrayVec.{array_vec_len};
ghost use Rattle.extents.specs.declared.extent.Extent.{Extent};
ghost use Rattle.extents.specs.Extents.{ExtentList};
ghost use Rattle.operators.specs.Listing.{ListsTo};
ghost use Rattle.query.specs.Leaves.{name as named};
ghost use Rattle.query.specs.Expressions.{take_leaf};
ghost use Rattle.query.specs.Queries.{steps};
ghost use Rattle.query.specs.Steps.{shown};
ghost use Rattle.search.specs.declared.run.Log.{Log as LogCode};
ghost use Rattle.search.specs.declared.stack.TheConstants.{OPERANDS};
ghost use Rattle.search.specs.Law.{areas, room_of};
ghost use Rattle.search.specs.Run.{log_of, step as stepped, operate_on, settle as settled, run as outcome, after, first_place};
ghost use Rattle.search.specs.Sides.{side_list};
ghost use Rattle.search.specs.Stacks.{SomeStacked, TakesOff, Does, Stores, Gives, Untouched};

use super::fault::SearchFault;
use super::fetching::fetch;
use super::operand::{Operand, Side, list_side, list_sides};
use super::stack::OperandStack;
use extents::{Extent, Operator, TraceRuns, Windows};
use operators::{Listing, Overfull};
use postings::Postings;
use query::{Action, Leaf, Query, Step};

/// How many slots a log spans, and its temperatures.
#[derive(Clone, Copy)]
pub(crate) struct Log<'a> {
    pub(crate) span: u32,
    pub(crate) trace: &'a [i32],
}

/// Stores the slots of a name.
// Stays: a struct of what waits and both areas would be taken apart at each step: one area is read while the other is written.
fn put_name<P: Postings>(
    postings: &P,
    name: &[u8],
    place: usize,
    waiting: &mut OperandStack<'_>,
    stack: &mut [Extent],
) -> Result<(), SearchFault>
    requires stacked { SomeStacked waiting.old stack.old }
    requires fits { array_vec_len waiting.old.operands < OPERANDS }
    ensures does { (scratch : ℕ) (log : LogCode)
        → Does (stepped (log_of (P.lists postings.now).slots log) (record { stack = length stack.old; scratch = scratch }) (take_leaf (named name.now)) place)
        waiting.old stack.old result waiting.new stack.new }
    ensures untouched { (scratch : List Extent) → Untouched waiting.old waiting.new (areas stack.old scratch) (areas stack.new scratch) }
{
    let used = waiting.used;
    let Ok(listing) = fetch(postings, name, &mut stack[used..]) else {
        waiting.stored = waiting.stored.max(stack.len());
        return Err(SearchFault::StackOver(place));
    };
    waiting.push(Operand::Stored(listing.n), listing.calls);
    Ok(())
}

/// The operand on top as a source, which waits no more.
fn take_off<'s, 'l: 's>(waiting: &mut OperandStack<'l>, stack: &'s [Extent]) -> Side<'s>
    requires stacked { SomeStacked waiting.old stack.now }
    requires waits { 1 ≤ array_vec_len waiting.old.operands }
    ensures top { TakesOff waiting.old stack.now (side_list result) waiting.new }
    ensures rest { SomeStacked waiting.new stack.now }
    ensures less { array_vec_len waiting.new.operands + 1 ≡ array_vec_len waiting.old.operands }
    ensures stored { waiting.new.stored ≡ waiting.old.stored }
    ensures listed { waiting.new.listed ≡ waiting.old.listed }
{
    let end = waiting.used;
    let operand = waiting.pop();
    operand.side(&stack[waiting.used..end])
}

/// Stores the list that was written to the scratch area.
fn store(
    listed: Result<Listing, Overfull>,
    place: usize,
    waiting: &mut OperandStack<'_>,
    stack: &mut [Extent],
    scratch: &[Extent],
) -> Result<(), SearchFault>
    requires stacked { SomeStacked waiting.old stack.old }
    requires fits { array_vec_len waiting.old.operands < OPERANDS }
    requires whole { IfOk listed (λ l. l.n ≤ length scratch.now) }
    ensures { (xs : List Extent) (calls : ℕ → ℕ) (was : List Extent) → ExtentList xs → ListsTo xs calls was scratch.now listed
        → Stores xs calls place was scratch.now waiting.old stack.old result waiting.new stack.new }
{
    let Ok(listing) = listed else {
        waiting.listed = waiting.listed.max(scratch.len());
        return Err(SearchFault::ListingOver(place));
    };
    let n = listing.n;
    waiting.listed = waiting.listed.max(n);
    let base = waiting.used;
    if stack.len() - base < n {
        return Err(SearchFault::StackOver(place));
    }
    stack[base..base + n].copy_from_slice(&scratch[0..n]);
    waiting.push(Operand::Stored(n), listing.calls);
    Ok(())
}

/// Lists an operator over the two operands on top, and stores its list in their place.
fn put_operator(
    operator: Operator,
    place: usize,
    waiting: &mut OperandStack<'_>,
    stack: &mut [Extent],
    scratch: &mut [Extent],
) -> Result<(), SearchFault>
    requires stacked { SomeStacked waiting.old stack.old }
    ensures does { Does (operate_on (room_of (areas stack.old scratch.old)) operator place) waiting.old stack.old result waiting.new stack.new }
    ensures untouched { Untouched waiting.old waiting.new (areas stack.old scratch.old) (areas stack.new scratch.new) }
{
    // No query has an operator without its two operands.
    if waiting.operands.len() < 2 {
        return Ok(());
    }
    let right = take_off(waiting, stack);
    let left = take_off(waiting, stack);
    let listed = list_sides(operator, left, right, scratch);
    store(listed, place, waiting, stack, scratch)
}

/// Does a step: a name is stored, another leaf waits as a source, an operator takes its operands' place.
fn put<'l, P: Postings>(
    postings: &P,
    step: Step<'_>,
    log: Log<'l>,
    waiting: &mut OperandStack<'l>,
    stack: &mut [Extent],
    scratch: &mut [Extent],
) -> Result<(), SearchFault>
    requires stacked { SomeStacked waiting.old stack.old }
    requires fits { array_vec_len waiting.old.operands < OPERANDS }
    ensures does { let log = log_of (P.lists postings.now).slots log.entry in let step = shown step.entry in
        Does (stepped log (room_of (areas stack.old scratch.old)) step.0 step.1) waiting.old stack.old result waiting.new stack.new }
    ensures untouched { Untouched waiting.old waiting.new (areas stack.old scratch.old) (areas stack.new scratch.new) }
{
    // Stays: a match on an enum is today's form, and each arm does another thing.
    let source = match step.action {
        Action::Leaf(Leaf::Name(name)) => {
            return put_name(postings, name, step.place, waiting, stack);
        }
        Action::Leaf(Leaf::Windows(width)) => Side::Windows(Windows::new(width, log.span)),
        Action::Leaf(Leaf::Runs(degrees)) => Side::Runs(TraceRuns::new(log.trace, degrees)),
        Action::Apply(operator) => {
            return put_operator(operator, step.place, waiting, stack, scratch);
        }
    };
    waiting.push(Operand::Unstored(source), 0);
    Ok(())
}

/// Stores the operand on top, if it is not stored.
fn settle(
    place: usize,
    waiting: &mut OperandStack<'_>,
    stack: &mut [Extent],
    scratch: &mut [Extent],
) -> Result<(), SearchFault>
    requires stacked { SomeStacked waiting.old stack.old }
    ensures does { Does (settled (room_of (areas stack.old scratch.old)) place) waiting.old stack.old result waiting.new stack.new }
    ensures untouched { Untouched waiting.old waiting.new (areas stack.old scratch.old) (areas stack.new scratch.new) }
{
    if let Some(Operand::Unstored(_)) = waiting.operands.last() {
        let side = take_off(waiting, stack);
        let listed = list_side(side, scratch);
        return store(listed, place, waiting, stack, scratch);
    }
    Ok(())
}

/// Where the first token of a query begins.
fn first_place(query: &Query<'_>) -> usize
    ensures { result ≡ first_place (steps query.now) }
{
    query.steps().first().map_or(0, |step| step.place)
}

/// Does every step in turn; what waits at the end is the query's, and is stored.
pub(crate) fn run<'l, P: Postings>(
    postings: &P,
    query: &Query<'_>,
    log: Log<'l>,
    waiting: &mut OperandStack<'l>,
    stack: &mut [Extent],
    scratch: &mut [Extent],
) -> Result<(), SearchFault>
    requires none { waiting.old.operands.items ≡ [] }
    requires uncalled { waiting.old.calls ≡ 0 }
    ensures told { let log = log_of (P.lists postings.now).slots log.entry in let room = room_of (areas stack.old scratch.old) in
        Gives (after (outcome log room (steps query.now) [] 0) (settled room (first_place (steps query.now)))) result waiting.new stack.new }
    ensures untouched { Untouched waiting.old waiting.new (areas stack.old scratch.old) (areas stack.new scratch.new) }
{
    for step in query.steps() {
        put(postings, *step, log, waiting, stack, scratch)?;
    }
    settle(first_place(query), waiting, stack, scratch)
}
