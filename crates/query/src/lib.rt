//! Reading a query: bytes to tokens, tokens to a query in running order, or the leftmost fault. The rules stand in docs/queries.md.
#![tactic(auto)]

mod fault;
mod leaf;
mod lexer;
mod limits;
mod query;
mod reader;
mod token;

pub use fault::{ReadFault, TokenFault};
pub use leaf::Leaf;
pub use limits::{LEAF_MAX, OPEN_MAX, RUNS_MAX, STEPS_MAX, WINDOWS_MAX, query_limits};
pub use query::{Action, Query, Step};
pub use reader::read;
