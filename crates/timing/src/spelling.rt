//! How counts and times are spelled.
ghost use Rattle.std.specs.Prelude.{◌≡◌, ◌++◌, None, OnOk, string_bytes};
ghost use Rattle.timing.specs.Spelling.{told_count};

use operators::Listing;
use search::SearchFault;
use std::alloc::AllocError;

/// The least and the median of some samples, in ns.
#[derive(Clone, Copy, Debug, PartialEq, Eq)]
pub struct Times {
    pub least: u64,
    pub median: u64,
}

/// How many extents were found in how many calls, or the refusal.
pub fn put_count(out: &mut String, answered: Result<Listing, SearchFault>) -> Result<(), AllocError>
    ensures { OnOk result (string_bytes out.new ≡ string_bytes out.old ++ told_count answered) }
{
    match answered {
        Ok(Listing { n, calls }) => write!(out, "found {n} calls {calls}"),
        Err(why) => write!(out, "{why}"),
    }
}

/// What was timed, and its times; nothing where it was not.
pub fn put_times(out: &mut String, what: &str, times: Option<Times>) -> Result<(), AllocError>
    ensures { times ≡ None → OnOk result (string_bytes out.new ≡ string_bytes out.old) }
{
    match times {
        Some(Times { least, median }) => write!(out, " {what} {least} {median}"),
        None => Ok(()),
    }
}
