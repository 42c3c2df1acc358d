//! The two areas in which a search works.
ghost use Rattle.std.specs.Prelude.{◌≡◌, ◌-◌, ◌++◌, length, take, replicate, IfOk};
ghost use Rattle.search.specs.Searches.{blank, kept_of, IsBlankFrom};

use super::fault::SearchFault;
use super::searching::{answer_from, search_from};
use extents::Extent;
use operators::Listing;
use postings::Postings;
use query::Query;
use std::alloc::{AllocError, Global};

/// What each place of a cleared area holds.
pub const BLANK: Extent = Extent { start: 0, end: 0 };

/// Clears an area from a place on, where it is cleared from another place on already.
pub(crate) fn clear_from(area: &mut [Extent], kept: usize, blank_from: usize)
    ensures { IsBlankFrom blank_from area.old → area.new ≡ take kept area.old ++ replicate (length area.old - kept) blank }
{
    let end = blank_from.min(area.len());
    if kept < end {
        area[kept..end].fill(BLANK);
    }
}

/// How many extents an answer leaves in the stack area.
pub(crate) fn kept<E>(answered: &Result<Listing, E>) -> usize
    ensures { result ≡ kept_of answered.now }
{
    answered.as_ref().map_or(0, |listing| listing.n)
}

/// Leaves the extents that an answer counts at the front of the stack area, none after a refusal, and clears the rest of both areas.
// Stays: the two areas are parameters of their own wherever they are lent, a rule of the project.
pub fn clear_behind<E>(answered: &Result<Listing, E>, stack: &mut [Extent], scratch: &mut [Extent])
    ensures stack { stack.new ≡ take (kept_of answered.now) stack.old ++ replicate (length stack.old - kept_of answered.now) blank }
    ensures scratch { scratch.new ≡ replicate (length scratch.old) blank }
{
    let stored = stack.len();
    let listed = scratch.len();
    clear_from(stack, kept(answered), stored);
    clear_from(scratch, 0, listed);
}

/// Two areas for one search after another. Each is (0,0) from a place on that is kept with it, so that a search clears no more than
/// was written. Who changes them from outside shows that this still holds.
#[derive(Debug, Drop)]
pub struct WorkAreas {
    /// The stack area.
    pub stack: Vec<Extent>,
    /// The scratch area.
    pub scratch: Vec<Extent>,
    /// From here on the stack area is (0,0).
    pub stored: usize,
    /// From here on the scratch area is (0,0).
    pub listed: usize,
    ghost stack_blank: { IsBlankFrom stored stack.items },
    ghost scratch_blank: { IsBlankFrom listed scratch.items },
}

impl WorkAreas {
    ghost use Rattle.search.specs.WorkAreas.{areas_of, blank_areas};
    ghost use Rattle.query.specs.Queries.{said};
    ghost use Rattle.search.specs.Law.{room_of};
    ghost use Rattle.search.specs.Meaning.{over};
    ghost use Rattle.search.specs.Searches.{Queried, Searched};

    /// Two areas of `size` extents each, all (0,0).
    ///
    /// # Errors
    /// There is no memory for them.
    pub fn new(heap: Global, size: usize) -> Result<WorkAreas, AllocError>
        ensures { IfOk result (λ w. areas_of w ≡ blank_areas size) }
    {
        Ok(WorkAreas {
            stack: vec![in heap; BLANK; size]?,
            scratch: vec![in heap; BLANK; size]?,
            stored: 0,
            listed: 0,
        })
    }

    /// As `search::search_query` in two areas of this size.
    ///
    /// # Errors
    /// The trace is longer than the store's span, or a list has no room in an area.
    pub fn search_query<P: Postings>(
        &mut self,
        postings: &P,
        trace: &[i32],
        query: &Query<'_>,
    ) -> Result<Listing, SearchFault>
        ensures answered { Queried (over (P.lists postings.now) trace.now) (room_of (areas_of self.old)) (said query.now) result (areas_of self.new) }
        ensures size { room_of (areas_of self.new) ≡ room_of (areas_of self.old) }
    {
        let (stored, listed) = (self.stored, self.listed);
        let stack = self.stack.as_mut_slice();
        let scratch = self.scratch.as_mut_slice();
        let answered = answer_from(postings, trace, query, stack, scratch, stored, listed);
        self.stored = kept(&answered);
        self.listed = 0;
        answered
    }

    /// As `search::search` in two areas of this size.
    ///
    /// # Errors
    /// The text is no query, the trace is longer than the store's span, or a list has no room in an area.
    pub fn search<P: Postings>(
        &mut self,
        postings: &P,
        trace: &[i32],
        text: &[u8],
    ) -> Result<Listing, SearchFault>
        ensures answered { Searched (over (P.lists postings.now) trace.now) (room_of (areas_of self.old)) text.now result (areas_of self.new) }
        ensures size { room_of (areas_of self.new) ≡ room_of (areas_of self.old) }
    {
        let (stored, listed) = (self.stored, self.listed);
        let stack = self.stack.as_mut_slice();
        let scratch = self.scratch.as_mut_slice();
        let answered = search_from(postings, trace, text, stack, scratch, stored, listed);
        self.stored = kept(&answered);
        self.listed = 0;
        answered
    }
}
