//! The two work areas of a search, and the answers that are worked out in them.
ghost use Rattle.std.specs.Prelude.{◌≡◌, ℕ, List, [], ◌++◌, length, OnOk, string_bytes};
ghost use Rattle.search.specs.Law.{room_of};
ghost use Rattle.search.specs.Meaning.{over};
ghost use Rattle.search.specs.WorkAreas.{areas_of};
ghost use Rattle.answering.specs.Asking.{areas, Says, report_text};

use super::spelling::put_answer;
use postings::Postings;
use report::report;
use search::WorkAreas;
use std::alloc::{AllocError, Global};

/// How many extents each work area holds.
const AREA: usize = 8_192;

/// Two areas of 8,192 extents each, in which one question after another is answered.
#[derive(Debug, Drop)]
pub struct Areas {
    work: WorkAreas,
    ghost size: { room_of (areas_of work) ≡ areas },
}

impl Areas {
    /// Both areas, all (0,0).
    ///
    /// # Errors
    /// There is no memory for them.
    pub fn new(heap: Global) -> Result<Areas, AllocError> {
        Ok(Areas {
            work: WorkAreas::new(heap, AREA)?,
        })
    }

    /// Answers a query over any postings, with no trace: adds the answer's lines to `out`.
    ///
    /// # Errors
    /// There is no memory for the text.
    pub fn query<P: Postings>(
        &mut self,
        store: &P,
        text: &[u8],
        out: &mut String,
    ) -> Result<(), AllocError>
        ensures { OnOk result ((said : List ℕ) × (string_bytes out.new ≡ string_bytes out.old ++ said)
            × Says (over (P.lists store.now) []) areas text.now said) }
    {
        let answered = self.work.search(store, &[], text);
        put_answer(out, answered, self.work.stack.as_slice())
    }

    /// Answers with the shift report over any postings: adds its lines to `out`.
    ///
    /// # Errors
    /// There is no memory for the text.
    pub fn report<P: Postings>(&mut self, store: &P, out: &mut String) -> Result<(), AllocError>
        ensures { OnOk result ((said : List ℕ) × (string_bytes out.new ≡ string_bytes out.old ++ said)
            × (said ≡ report_text (P.lists store.now) areas)) }
    {
        // A report may write both areas to their ends.
        self.work.stored = self.work.stack.len();
        self.work.listed = self.work.scratch.len();
        let stack = self.work.stack.as_mut_slice();
        let answered = report(store, stack, self.work.scratch.as_mut_slice());
        put_answer(out, answered, stack)
    }
}
