//! The sealed index: bytes that hold the postings of a shift. Sealing writes them; opening checks them once and then reads them where they lie.
#![tactic(auto)]

mod check;
mod fields;
mod laws;
mod opening;
mod parts;
mod refusal;
mod sealing;
mod writer;

pub use check::judge;
pub use fields::{HEAD_SIZE, MARK, NAME_SIZE, ROW_SIZE, SLOT_SIZE, VERSION};
pub use laws::{constants, one_spelling, reopen, seal_both};
pub use opening::SealedIndex;
pub use refusal::{OpenRefusal, SealRefusal};
pub use sealing::{index_size, seal};
