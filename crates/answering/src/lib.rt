//! Answers to queries and reports, in bytes.
#![tactic(auto)]

mod areas;
mod spelling;

pub use areas::Areas;
pub use spelling::Told;
