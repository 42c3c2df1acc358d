//! A typed query, run over any postings and a trace of temperatures, in two areas that the caller lends.
#![tactic(auto)]

mod area;
mod fault;
mod fetching;
mod operand;
mod run;
mod searching;
mod stack;

pub use area::{BLANK, WorkAreas, clear_behind};
pub use fault::SearchFault;
pub use fetching::fetch;
pub use searching::{search, search_query};
