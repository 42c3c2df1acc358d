//! Why a text is no query, with the place of the token at fault.
ghost use Rattle.std.specs.Prelude.{◌≡◌, Some};
ghost use Rattle.refusals.specs.Refusals.{text_of};
ghost use Rattle.query.specs.declared.fault.ReadFault.TheVariants.{Token as of_token};
ghost use Rattle.query.specs.Faults.{number_of, place_of, refusal_of};

use refusals::Refusal;
use std::error::Error;
use std::fmt;

/// Why no token begins at a place, in bytes from the text's start.
#[derive(Clone, Copy, Debug, PartialEq, Eq)]
pub enum TokenFault {
    /// A byte that begins no token.
    Unknown(usize),
    /// A name that is too long, or a number that is too large.
    Over(usize),
}

/// Why a text is no query: the leftmost fault, with the place of its token in bytes from the text's start.
#[derive(Clone, Copy, Debug, PartialEq, Eq)]
pub enum ReadFault {
    Token(TokenFault),
    /// A token, or the end, that the grammar does not allow there.
    Unexpected(usize),
    /// A bracket opened while `OPEN_MAX` stand open.
    TooDeep(usize),
    /// A name, `#` or `@` past the first `LEAF_MAX`.
    TooMany(usize),
}

impl From<TokenFault> for ReadFault {
    ghost from_gives = { λ f r. r ≡ of_token f };

    fn from(f: TokenFault) -> ReadFault {
        ReadFault::Token(f)
    }
}

impl TokenFault {
    /// The fault's number, as docs/refusals.md lists it.
    // Stays: one match for all cases, as their one definition has it; cases with a place have no discriminant.
    pub fn number(&self) -> u8
        ensures { result ≡ number_of (of_token self.now) }
    {
        match self {
            TokenFault::Unknown(_) => 15,
            TokenFault::Over(_) => 16,
        }
    }

    /// Where the token at fault begins, in bytes.
    pub fn place(&self) -> usize
        ensures { result ≡ place_of (of_token self.now) }
    {
        match self {
            TokenFault::Unknown(place) | TokenFault::Over(place) => *place,
        }
    }

    /// What the fault is told by, and what `Display` writes.
    pub fn refusal(&self) -> Refusal
        ensures told { result ≡ refusal_of (of_token self.now) }
        ensures printed { ⟦<Self as fmt::Display>⟧.output self.now ≡ Some (text_of (refusal_of (of_token self.now))) }
    {
        ReadFault::from(*self).refusal()
    }
}

impl fmt::Display for TokenFault {
    ghost output = { λ f. Some (text_of (refusal_of (of_token f))) };

    fn fmt<W: fmt::Write>(&self, f: &mut fmt::Formatter<W>) -> fmt::Result {
        write!(f, "{}", ReadFault::from(*self))
    }
}

impl Error for TokenFault {}

impl ReadFault {
    /// The fault's number, as docs/refusals.md lists it.
    // Stays: one match for all cases, as their one definition has it; cases with a place have no discriminant.
    pub fn number(&self) -> u8
        ensures { result ≡ number_of self.now }
    {
        match self {
            ReadFault::Token(fault) => fault.number(),
            ReadFault::Unexpected(_) => 17,
            ReadFault::TooDeep(_) => 18,
            ReadFault::TooMany(_) => 19,
        }
    }

    /// Where the token at fault begins, in bytes, or the text's length for its end.
    pub fn place(&self) -> usize
        ensures { result ≡ place_of self.now }
    {
        match self {
            ReadFault::Token(fault) => fault.place(),
            ReadFault::Unexpected(place) | ReadFault::TooDeep(place) | ReadFault::TooMany(place) =>
                *place,
        }
    }

    /// What the fault is told by, and what `Display` writes.
    pub fn refusal(&self) -> Refusal
        ensures told { result ≡ refusal_of self.now }
        ensures printed { ⟦<Self as fmt::Display>⟧.output self.now ≡ Some (text_of (refusal_of self.now)) }
    {
        Refusal::at(self.number(), self.place())
    }
}

// Stays: thiserror derives it without a contract, and no trait of refusals can give it to them all.
impl fmt::Display for ReadFault {
    ghost output = { λ f. Some (text_of (refusal_of f)) };

    fn fmt<W: fmt::Write>(&self, f: &mut fmt::Formatter<W>) -> fmt::Result {
        write!(f, "{}", self.refusal())
    }
}

impl Error for ReadFault {}
