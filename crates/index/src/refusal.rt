//! Why bytes are no sealed index, and why a store is not sealed.
ghost use Rattle.std.specs.Prelude.{◌≡◌, Some};
ghost use Rattle.refusals.specs.Refusals.{text_of};
ghost use Rattle.index.specs.Refusals.{open_number_of, open_refusal_of, seal_number_of, seal_refusal_of};

use refusals::Refusal;
use std::error::Error;
use std::fmt;

/// Why bytes are no sealed index, in the order in which they are judged.
#[derive(Clone, Copy, Debug, PartialEq, Eq)]
pub enum OpenRefusal {
    /// Fewer bytes than a head has.
    Short = 8,
    /// Bytes that do not begin with the mark.
    Mark = 9,
    /// A version that is not read here.
    Version = 10,
    /// More bytes or fewer than head, rows and slots have.
    Size = 11,
    /// A row that breaks a rule, or counts that do not add up to the number of slots.
    Row = 12,
    /// A slot that does not rise in its row, or is above the last slot.
    Slot = 13,
    /// A length that is not one past the largest slot, or not 0 where there is none.
    Span = 14,
}

impl OpenRefusal {
    /// The number by which it is told.
    pub fn number(self) -> u8
        ensures { result ≡ open_number_of self }
    {
        self as u8
    }

    /// What it is told by.
    pub fn refusal(self) -> Refusal
        ensures told { result ≡ open_refusal_of self }
        ensures printed { ⟦<Self as fmt::Display>⟧.output self ≡ Some (text_of (open_refusal_of self)) }
    {
        Refusal::plain(self.number())
    }
}

// Stays: thiserror derives it without a contract, and no trait of refusals can give it to them all.
impl fmt::Display for OpenRefusal {
    ghost output = { λ e. Some (text_of (open_refusal_of e)) };

    fn fmt<W: fmt::Write>(&self, f: &mut fmt::Formatter<W>) -> fmt::Result {
        write!(f, "{}", self.refusal())
    }
}

impl Error for OpenRefusal {}

/// Why a store is not sealed.
#[derive(Clone, Copy, Debug, PartialEq, Eq)]
pub enum SealRefusal {
    /// A buffer with fewer bytes than the index.
    BufferTooShort = 7,
}

impl SealRefusal {
    /// The number by which it is told.
    pub fn number(self) -> u8
        ensures { result ≡ seal_number_of self }
    {
        self as u8
    }

    /// What it is told by.
    pub fn refusal(self) -> Refusal
        ensures told { result ≡ seal_refusal_of self }
        ensures printed { ⟦<Self as fmt::Display>⟧.output self ≡ Some (text_of (seal_refusal_of self)) }
    {
        Refusal::plain(self.number())
    }
}

// Stays: thiserror derives it without a contract, and no trait of refusals can give it to them all.
impl fmt::Display for SealRefusal {
    ghost output = { λ e. Some (text_of (seal_refusal_of e)) };

    fn fmt<W: fmt::Write>(&self, f: &mut fmt::Formatter<W>) -> fmt::Result {
        write!(f, "{}", self.refusal())
    }
}

impl Error for SealRefusal {}
