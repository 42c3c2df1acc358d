//! What the program is asked for by its arguments.

use std::alloc::Global;

/// What is done with the queries.
#[derive(Clone, Copy, Debug, PartialEq, Eq)]
pub enum Mode {
    /// Each is counted, and timed if that is wanted.
    Count,
    /// Each is answered with its extents, and not timed.
    Answer,
    /// Each is a name, and the slots of all are fetched in order by `next`.
    Next,
}

/// How many samples are taken, and of what.
#[derive(Clone, Copy, Debug, PartialEq, Eq)]
pub struct Options {
    /// With 0 nothing is timed, and what is written is a function of what is read.
    pub times: u32,
    pub mode: Mode,
}

impl Options {
    /// The options, and the path of the index if one is given; none where the arguments are others.
    pub fn read(args: &[String<Global>]) -> Option<(Options, Option<&str>)> {
        let (times, args) = match args {
            [flag, number, rest @ ..] if flag.as_str() == "--times" => {
                (decimal::parse(number.as_bytes())?, rest)
            }
            _ => (0, args),
        };
        let (mode, args) = match args {
            [flag, rest @ ..] if flag.as_str() == "--answers" => (Mode::Answer, rest),
            [flag, rest @ ..] if flag.as_str() == "--next" => (Mode::Next, rest),
            _ => (Mode::Count, args),
        };
        let path = match args {
            [] => None,
            [path] => Some(path.as_str()),
            _ => return None,
        };
        Some((Options { times, mode }, path))
    }
}
