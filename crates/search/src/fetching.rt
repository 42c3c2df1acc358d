//! The slots of a name, written out as extents.
ghost use Rattle.std.specs.Prelude.{◌≡◌, map};
ghost use Rattle.extents.specs.Extents.{ExtentList};
ghost use Rattle.extents.specs.Rising.{ExtentList-prop};
ghost use Rattle.operators.specs.Listing.{ListsTo};
ghost use Rattle.search.specs.Meaning.{point};

use extents::{Extent, Found};
use operators::{FirstStarts, Listing, Overfull, list_into};
use postings::Postings;

// The slot as an extent.
fn point(slot: u32) -> Extent
    ensures { result ≡ point slot }
{
    Extent {
        start: slot,
        end: slot,
    }
}

// The slots of a name as extents of one slot: no source yet, since only first starts are asked for.
#[derive(Drop)]
struct NamePoints<'a, P: Postings> {
    postings: &'a P,
    name: &'a [u8],
    ghost rising: { ExtentList (map point ((P.lists postings.now).slots name.now)) } by { ExtentList-prop (map point ((P.lists postings.now).slots name.now)) },
}

impl<P: Postings> FirstStarts for NamePoints<'_, P> {
    ghost list = { λ s. map point ((P.lists s.postings.now).slots s.name.now) };

    ghost start_calls = { λ s k. 1 };

    ghost rising = { λ s. s.rising };

    fn start_from(&self, k: u32) -> Found {
        Found::once(self.postings.next(self.name, k).map(point))
    }
}

/// Writes each slot of the name to the front of an area as an extent of one slot, as far as they fit.
///
/// # Errors
/// The slots are more than fit; the area then holds as many as fit.
pub fn fetch<P: Postings>(
    postings: &P,
    name: &[u8],
    out: &mut [Extent],
) -> Result<Listing, Overfull>
    ensures { ListsTo (map point ((P.lists postings.now).slots name.now)) (λ k. 1) out.old out.new result }
{
    list_into(&NamePoints { postings, name }, out)
}
