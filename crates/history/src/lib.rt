//! Lists of enters and searches on a logbook, and what every access, every search and every such list promises.
#![tactic(auto)]

mod call;
mod theorem;
mod turn;

pub use call::{Call, Reply};
pub use theorem::{Outcome, search_theorem};
pub use turn::{Replayed, replay, resume};
