//! What the programs share: lines of bounded length, the commands that lines hold, and a run that answers every line of an input.
#![tactic(auto)]

mod command;
mod ending;
mod law;
mod lines;
mod running;
mod session;
mod stop;
mod transit;
mod writing;

pub use command::{Command, parse};
pub use ending::end;
pub use law::limits;
pub use lines::{LINE_MAX, LineBuffer};
pub use running::run;
pub use session::Session;
pub use stop::{Stop, no_memory};
pub use writing::write_out;
