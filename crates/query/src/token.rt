//! The tokens of a query's text.
ghost use Rattle.std.specs.Prelude.{◌≡◌, MatchOption};
ghost use Rattle.query.specs.Leaves.{leaf_of};
ghost use Rattle.query.specs.Terminals.{operand};
ghost use Rattle.query.specs.Reading.{terminal, IsNoOperand};

use crate::leaf::Leaf;
use extents::Operator;

/// A token of a text; a name is a part of the text.
#[derive(Clone, Copy, Debug, PartialEq, Eq)]
pub enum Token<'a> {
    Name(&'a [u8]),
    /// `#` with its number.
    Windows(u32),
    /// `@` with its number.
    Runs(u32),
    Operator(Operator),
    Open,
    Close,
    End,
}

impl<'a> Token<'a> {
    // The leaf that the token is, if it is one.
    pub(crate) fn leaf(self) -> Option<Leaf<'a>>
        ensures { MatchOption result (IsNoOperand (terminal self.entry)) (λ l. terminal self.entry ≡ operand (leaf_of l)) }
    {
        match self {
            Token::Name(name) => Some(Leaf::Name(name)),
            Token::Windows(width) => Some(Leaf::Windows(width)),
            Token::Runs(degrees) => Some(Leaf::Runs(degrees)),
            _ => None,
        }
    }
}

/// A token, where it begins, and where the text goes on after it, both in bytes from the text's start.
#[derive(Clone, Copy, Debug, PartialEq, Eq)]
pub struct Located<'a> {
    pub token: Token<'a>,
    pub place: usize,
    pub after: usize,
}
