//! A list of extents, written one after the other into a caller's area.
ghost use Rattle.std.specs.Prelude.{◌≡◌, ℕ, List};
ghost use Rattle.extents.specs.declared.extent.Extent.{Extent};
ghost use Rattle.extents.specs.Extents.{ExtentList, first_start};
ghost use Rattle.operators.specs.Listing.{ListsOperator, ListsTo};

use super::question::{Question, ask_operator};
use extents::{Extent, Found, Operator, Source, Tally};

/// How many extents were listed, and how many calls that took.
#[derive(Clone, Copy, Debug, PartialEq, Eq)]
pub struct Listing {
    /// The extents that were listed.
    pub n: usize,
    /// The calls.
    pub calls: u64,
}

/// A list that is longer than its area.
#[derive(Clone, Copy, Debug, PartialEq, Eq)]
pub struct Overfull;

/// What gives the first starts of one extent list: every source, and what has no other access.
pub trait FirstStarts {
    /// The list.
    ghost list: { Self → List Extent };

    /// The calls of a first start at a key.
    ghost start_calls: { Self → ℕ → ℕ };

    /// The list is in rising order.
    ghost rising: { (s : Self) → ExtentList (list s) };

    /// The first extent that starts at or after k.
    fn start_from(&self, k: u32) -> Found
        ensures extent { result.extent ≡ first_start (list self.now) k }
        ensures count { result.calls ≡ start_calls self.now k };
}

impl<S: Source> FirstStarts for S {
    ghost use Rattle.extents.specs.declared.access.Access.TheVariants.{FirstStart};

    ghost list = { S.extents };

    ghost start_calls = { λ s. S.calls s FirstStart };

    ghost rising = { λ s. (S.means s).0 };

    fn start_from(&self, k: u32) -> Found {
        self.first_start(k)
    }
}

/// Writes a list to the front of an area: asks for the extent at 0, and then at one past the start of each one given, until none
/// is or the next one does not fit.
///
/// # Errors
/// The list is longer than the area, which then holds as much of it as fits.
pub fn list_into<F: FirstStarts>(starts: &F, out: &mut [Extent]) -> Result<Listing, Overfull>
    ensures { ListsTo (F.list starts.now) (F.start_calls starts.now) out.old out.new result }
{
    let mut tally = Tally::new();
    let mut n = 0;
    let mut at = 0;
    // Stays: the next key hangs on what was given, and the last ask counts too; `successors` has no count of it.
    while let Some(x) = tally.take(starts.start_from(at)) {
        if n == out.len() {
            return Err(Overfull);
        }
        out[n] = x;
        n += 1;
        at = x.start + 1;
    }
    Ok(Listing {
        n,
        calls: tally.calls,
    })
}

/// The whole list of a source.
#[derive(Clone, Copy, Debug, PartialEq, Eq)]
struct Whole;

impl Question for Whole {
    ghost use Rattle.extents.specs.declared.access.Access.TheVariants.{FirstStart};

    type Answer = Result<Listing, Overfull>;

    ghost right = { λ asked made xs calls was area listed. ListsTo xs (calls FirstStart) was area listed };

    fn ask<S: Source>(&self, source: &S, area: &mut [Extent]) -> Result<Listing, Overfull> {
        list_into(source, area)
    }
}

/// Writes the extents of an operator over two sources to the front of an area, as far as they fit.
///
/// # Errors
/// The list is longer than the area, which then holds as much of it as fits.
pub fn list_operator<A: Source, B: Source>(
    operator: Operator,
    a: &A,
    b: &B,
    out: &mut [Extent],
) -> Result<Listing, Overfull>
    ensures { ListsOperator operator (A.extents a.now) (A.calls a.now) (B.extents b.now) (B.calls b.now) out.old out.new result }
{
    ask_operator(&Whole, operator, a, b, out)
}
