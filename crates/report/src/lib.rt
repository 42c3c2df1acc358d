//! The shift report: the reversals of a log in which neither an alarm nor a cut lies.
#![tactic(auto)]

mod fault;
mod fetched;
mod listing;
mod reporting;

pub use fault::ReportFault;
pub use reporting::report;
