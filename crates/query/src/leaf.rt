//! The leaves of a query: what stands between its operators.

/// A leaf; a name is a part of the query's text.
#[derive(Clone, Copy, Debug, PartialEq, Eq)]
pub enum Leaf<'a> {
    Name(&'a [u8]),
    /// Windows of so many slots.
    Windows(u32),
    /// Runs of samples at or above so many degrees.
    Runs(u32),
}
