//! `[rev ; rev] !> (alarm | cut)` over four stored lists, as one composed source.
ghost use Rattle.operators.specs.Listing.{ListsTo};
ghost use Rattle.report.specs.Quiet.{quiet_of};
ghost use Rattle.report.specs.Law.{quiet_calls};

use combination::{FollowedBy, OneOf};
use containment::NotContaining;
use extents::{Extent, StoredList};
use operators::{Listing, Overfull, list_into};

// Lists the quiet reversals to the front of an area, as far as they fit.
pub(crate) fn list_quiet(
    begins: StoredList<'_>,
    ends: StoredList<'_>,
    alarms: StoredList<'_>,
    cuts: StoredList<'_>,
    out: &mut [Extent],
) -> Result<Listing, Overfull>
    ensures { let bs = begins.entry.items.now in let es = ends.entry.items.now in
        let xs = alarms.entry.items.now in let ys = cuts.entry.items.now in
        ListsTo (quiet_of bs es xs ys) (quiet_calls bs es xs ys) out.old out.new result }
{
    // Stays: the operators hold their operands by value, one in the other, a rule of the project.
    let quiet = NotContaining::new(FollowedBy::new(begins, ends), OneOf::new(alarms, cuts));
    list_into(&quiet, out)
}
