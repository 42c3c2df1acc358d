//! The opened index: bytes that obey the layout, as a store of postings.
ghost use Rattle.std.specs.Prelude.{◌≡◌, ◌↔◌, true, is_ok, IsOk, MatchResult, OnOk};
ghost use Rattle.refusals.specs.Refusals.{refusal_in};
ghost use Rattle.index.specs.Refusals.{open_refusal_of};
ghost use Rattle.index.specs.Layout.{IsJudged, IsTold};
ghost use Rattle.index.specs.Meaning.{meaning, nothing};
ghost use Rattle.index.specs.Obeyed.{obeys_from_verdict};
ghost use Rattle.index.specs.Cuts.{bytes_in};
ghost use Rattle.index.specs.Posted.{meaning_lawful};
ghost use Rattle.index.specs.Spelling.{IsSpelled};
ghost use Rattle.index.specs.Verdict.{verdict};

use super::check::judge;
use super::fields::{HEAD_SIZE, MARK, VERSION};
use super::parts::{Head, Parts};
use super::refusal::OpenRefusal;
use postings::{Postings, first_from};
use std::alloc::AllocError;
use std::cell::Cell;

/// The index of no names: its mark, its version, and zeros.
const EMPTY: [u8; HEAD_SIZE] = [
    MARK[0],
    MARK[1],
    MARK[2],
    VERSION as u8,
    0,
    0,
    0,
    0,
    0,
    0,
    0,
    0,
    0,
    0,
    0,
];

/// Bytes that were judged to obey the layout.
#[derive(Debug, Drop)]
pub struct SealedIndex<'a> {
    pub(crate) parts: Parts<'a>,
    // The row of the name asked for last, and where the search of its slots ended: hints, of which no proof knows anything.
    last: Cell<usize>,
    near: Cell<usize>,
    ghost stands: { is_ok (verdict (bytes_in parts)) ≡ true },
}

/// The same index, with hints of its own; it allocates nothing and always succeeds.
// By hand, since a struct with a law has no derived clone.
impl<'a> Clone for SealedIndex<'a> {
    ghost use Rattle.std.specs.Prelude.{⊤};
    ghost use Rattle.index.specs.Opened.{bytes_of};

    ghost is_clone = { λ s copy. bytes_of copy ≡ bytes_of s };

    ghost is_infallible = { λ _. ⊤ };

    fn clone(&self) -> Result<SealedIndex<'a>, AllocError> {
        Ok(SealedIndex {
            parts: self.parts,
            last: self.last.clone()?,
            near: self.near.clone()?,
        })
    }
}

impl<'a> SealedIndex<'a> {
    ghost use Rattle.index.specs.Opened.{bytes_of};

    /// An index of no names.
    pub fn new() -> SealedIndex<'a>
        ensures { ⟦<Self as Postings>⟧.lists result ≡ nothing }
    {
        SealedIndex {
            parts: parts(&EMPTY),
            last: Cell::new(0),
            near: Cell::new(0),
        }
    }

    /// Takes the bytes for its own if they obey the layout.
    ///
    /// # Errors
    /// The first rule that they break, in the order of the numbers; the index then stays as it was.
    pub fn open(&mut self, bytes: &'a [u8]) -> Result<(), OpenRefusal>
        // what it answers, by tests, by the rules of the layout, by numbers, and by how an index is written
        ensures says { result ≡ verdict bytes.now }
        ensures judges { IsJudged bytes.now result }
        ensures told { IsTold bytes.now (refusal_in open_refusal_of result) }
        ensures spelled { IsOk result ↔ IsSpelled bytes.now }
        // what it then is
        ensures holds { MatchResult result (λ _. bytes_of self.new ≡ bytes.now) (λ _. self.new ≡ self.old) }
        ensures means { OnOk result (⟦<Self as Postings>⟧.lists self.new ≡ meaning bytes.now) }
    {
        judge(bytes)?;
        self.parts = parts(bytes);
        Ok(())
    }
}

/// The bytes, cut into their parts.
fn parts(bytes: &[u8]) -> Parts<'_>
    requires { is_ok (verdict bytes.now) ≡ true }
    ensures { bytes_in result ≡ bytes.now }
{
    Head { bytes }.cut()
}

impl Postings for SealedIndex<'_> {
    ghost lists = { λ s. meaning (bytes_in s.parts) };

    ghost lawful = { λ s. meaning_lawful (bytes_in s.parts) (obeys_from_verdict (bytes_in s.parts) s.stands) };

    fn next(&self, name: &[u8], k: u32) -> Option<u32> {
        first_from::<Parts>(self.parts.slots_of(name, &self.last), &self.near, k)
    }

    fn length(&self) -> u32 {
        self.parts.head.span()
    }
}
