//! Stores that can show their rows whole, as sealing asks of one.
ghost use Rattle.std.specs.Prelude.{◌≡◌, ℕ, List};
ghost use Rattle.postings.specs.Shown.{named_slots, Shows, FitsIndex};

use super::Postings;
use super::rows::Rows;

/// A store that can show its rows whole: each name with how many slots it has, and the slots of all, row after row.
pub trait RowStore: Rows + Postings {
    // How many slots a row has.
    ghost count_of: { Self.Row → ℕ };

    // The slots of all rows, those of one after those of the other.
    ghost slots_of: { Self → List ℕ };

    /// How many slots the row has.
    fn count(row: &Self::Row) -> u32
        ensures { result ≡ count_of row.now };

    /// The slots of all rows, those of one after those of the other.
    fn slots(&self) -> &[u32]
        ensures { result.now ≡ slots_of self.now };

    // They are all that the store means.
    ghost shows: { (s : Self) → Shows (named_slots Self.name_of count_of (Self.rows_of s) (slots_of s)) (Self.lists s) };

    // They are no more than an index has numbers for.
    ghost fits: { (s : Self) → FitsIndex count_of (Self.rows_of s) (slots_of s) };
}
