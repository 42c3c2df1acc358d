//! Why a search is refused.
ghost use Rattle.std.specs.Prelude.{◌≡◌, Some};
ghost use Rattle.refusals.specs.Refusals.{text_of};
ghost use Rattle.search.specs.declared.fault.SearchFault.TheVariants.{Read as of_reading};
ghost use Rattle.search.specs.Faults.{number_of, place_of, refusal_of};

use query::ReadFault;
use refusals::Refusal;
use std::error::Error;
use std::fmt;

/// Why a search is refused; places are bytes from the text's start.
#[derive(Clone, Copy, Debug, PartialEq, Eq)]
pub enum SearchFault {
    /// The text is no query.
    Read(ReadFault),
    /// The trace is longer than the log.
    TraceOver,
    /// The list of the token at this place is longer than the scratch area.
    ListingOver(usize),
    /// With the list of the token at this place more extents are stored than the stack area holds.
    StackOver(usize),
}

impl From<ReadFault> for SearchFault {
    ghost from_gives = { λ f r. r ≡ of_reading f };

    fn from(f: ReadFault) -> SearchFault {
        SearchFault::Read(f)
    }
}

impl SearchFault {
    /// The fault's number, as docs/refusals.md lists it.
    // Stays: one match for all cases, as their one definition has it; cases with a place have no discriminant.
    pub fn number(&self) -> u8
        ensures { result ≡ number_of self.now }
    {
        match self {
            SearchFault::Read(fault) => fault.number(),
            SearchFault::TraceOver => 20,
            SearchFault::ListingOver(_) => 21,
            SearchFault::StackOver(_) => 22,
        }
    }

    /// Where the token at fault begins, in bytes.
    pub fn place(&self) -> usize
        ensures { result ≡ place_of self.now }
    {
        match self {
            SearchFault::Read(fault) => fault.place(),
            SearchFault::TraceOver => 0,
            SearchFault::ListingOver(place) => *place,
            SearchFault::StackOver(place) => *place,
        }
    }

    /// What the fault is told by, and what `Display` writes.
    pub fn refusal(&self) -> Refusal
        ensures told { result ≡ refusal_of self.now }
        ensures printed { ⟦<Self as fmt::Display>⟧.output self.now ≡ Some (text_of (refusal_of self.now)) }
    {
        Refusal::at(self.number(), self.place())
    }
}

// Stays: thiserror derives it without a contract, and no trait of refusals can give it to them all.
impl fmt::Display for SearchFault {
    ghost output = { λ f. Some (text_of (refusal_of f)) };

    fn fmt<W: fmt::Write>(&self, f: &mut fmt::Formatter<W>) -> fmt::Result {
        write!(f, "{}", self.refusal())
    }
}

impl Error for SearchFault {}
