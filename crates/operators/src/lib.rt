//! The seven operators in one call, the listing of a source, and the laws of both.
#![tactic(auto)]

mod access;
mod law;
mod listing;
mod question;

pub use access::evaluate;
pub use law::laws;
pub use listing::{FirstStarts, Listing, Overfull, list_into, list_operator};
pub use question::{Question, ask_operator};
