//! How answers are spelled.
ghost use Rattle.std.specs.Prelude.{◌≡◌, ◌≤◌, ◌++◌, length, take, IfOk, OnOk, MatchResult, string_bytes};
ghost use Rattle.refusals.specs.declared.Refusal.{Refusal};
ghost use Rattle.refusals.specs.Refusals.{text_of};
ghost use Rattle.console.specs.Cuts.{line_end};
ghost use Rattle.answering.specs.Spelling.{found_text};

use extents::Extent;
use operators::Listing;
use refusals::Refusal;
use report::ReportFault;
use search::SearchFault;
use std::alloc::AllocError;

/// A fault as the refusal that a person sees.
pub trait Told {
    // The number and the place by which each is told.
    ghost refusal_of: { Self → Refusal };

    /// The fault's number and place.
    fn refusal(&self) -> Refusal
        ensures { result ≡ refusal_of self.now };
}

impl Told for SearchFault {
    ghost use Rattle.search.specs.Faults.{refusal_of as search_refusal_of};

    ghost refusal_of = { search_refusal_of };

    fn refusal(&self) -> Refusal {
        SearchFault::refusal(self)
    }
}

impl Told for ReportFault {
    ghost use Rattle.report.specs.Faults.{refusal_of as report_refusal_of};

    ghost refusal_of = { report_refusal_of };

    fn refusal(&self) -> Refusal {
        ReportFault::refusal(*self)
    }
}

// The count of extents and of calls on a line, and a line for each extent.
fn put_found(out: &mut String, calls: u64, extents: &[Extent]) -> Result<(), AllocError>
    ensures { OnOk result (string_bytes out.new ≡ string_bytes out.old ++ found_text calls extents.now) }
{
    let count = extents.len();
    write!(out, "found {count} calls {calls}\n")?;
    for extent in extents {
        let start = extent.start;
        let end = extent.end;
        write!(out, "{start} {end}\n")?;
    }
    Ok(())
}

// The listing's counts and the extents at the front of its area; or the refusal.
pub(crate) fn put_answer<E: Told + Drop>(
    out: &mut String,
    answered: Result<Listing, E>,
    area: &[Extent],
) -> Result<(), AllocError>
    requires { IfOk answered (λ l. l.n ≤ length area.now) }
    ensures { OnOk result (MatchResult answered
        (λ l. string_bytes out.new ≡ string_bytes out.old ++ found_text l.calls (take l.n area.now))
        (λ why. string_bytes out.new ≡ string_bytes out.old ++ (text_of (E.refusal_of why) ++ line_end))) }
{
    match answered {
        Ok(Listing { n, calls }) => put_found(out, calls, &area[..n]),
        Err(why) => {
            why.refusal().put(out)?;
            write!(out, "\n")
        }
    }
}
