//! A run of a session over any reader and any writer.
ghost use Rattle.std.specs.Prelude.{ℕ, List, Option};
ghost use Rattle.console.specs.Runs.{SessionRan};
ghost use Rattle.console.specs.UnderWay.{UnderWay};

use super::session::Session;
use super::stop::Stop;
use super::transit::Transit;
use std::alloc::Global;
use std::io;
use std::io::{ErrorKind, Read, Write};

/// How many bytes are read at a time.
const PART: usize = 4_096;

// Reads and answers part after part, from wherever a run is.
fn run_parts<S: Session, R: Read, W: Write>(
    transit: &mut Transit,
    session: &mut S,
    reader: &mut R,
    writer: &mut W,
) -> Result<(), Stop>
    ensures { (first : S) (unread before : Option (List ℕ)) →
        UnderWay S.answers first session.old transit.old unread (R.remaining reader.old) before (W.contents writer.old) →
        SessionRan S.answers first session.new result unread (R.remaining reader.new) before (W.contents writer.new) }
{
    let mut part = [0u8; PART];
    for _ in 0..u64::MAX {
        if transit.next_part(session, reader, writer, &mut part)? == 0 {
            return match transit.finish(session, writer) {
                Ok(()) => Ok(()),
                Err(why) => Err(Stop::Output(why)),
            };
        }
    }
    Err(Stop::Input(io::Error::from(ErrorKind::Other)))
}

/// Answers every line of the input. The answers to the lines that end in one part of the input are written and
/// flushed before the next part is read, so a person at a terminal sees each answer.
///
/// # Errors
/// [`Stop::Input`] where the input could not be read on: every whole line that was read is answered.
/// [`Stop::Output`] where an answer could not be made or written: a front of the answers is written.
pub fn run<S: Session, R: Read, W: Write>(
    alloc: Global,
    session: &mut S,
    reader: &mut R,
    writer: &mut W,
) -> Result<(), Stop>
    // What was read and what was written, by how the run ended.
    ensures { SessionRan S.answers session.old session.new result
        (R.remaining reader.old) (R.remaining reader.new) (W.contents writer.old) (W.contents writer.new) }
{
    let mut transit = Transit::new(alloc);
    run_parts(&mut transit, session, reader, writer)
}
