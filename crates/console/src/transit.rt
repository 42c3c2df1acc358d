//! What is under way between reader and writer: the line that is gathered, and the answers that wait to be written.
ghost use Rattle.std.specs.Prelude.{◌≡◌, ℕ, ◌<◌, List, [], ◌∷◌, take, length, Option, IfOk, IfErr, OnOk, OnErr, Err, string_bytes};
ghost use Rattle.std.specs.Io.KnownBytes.{Appends, IsAtEnd};
ghost use Rattle.console.specs.Lines.{Gathers};
ghost use Rattle.console.specs.Cuts.{lines_of};
ghost use Rattle.console.specs.Replies.{Replies, RepliesOn};
ghost use Rattle.console.specs.Runs.{Begins, Writes, SessionRan};
ghost use Rattle.console.specs.UnderWay.{Answered, SoFar, Further, Breaks, UnderWay};

use super::command::parse;
use super::lines::LineBuffer;
use super::session::Session;
use super::stop::Stop;
use super::writing::write_out;
use std::alloc::{AllocError, Global};
use std::io;
use std::io::{Read, Write};

/// How many bytes of answers may wait.
const FULL: usize = 65_536;

/// The bytes that were read and not yet answered, and the answers not yet written.
#[derive(Drop)]
pub(crate) struct Transit {
    pub(crate) line: LineBuffer,
    pub(crate) out: String,
}

impl Transit {
    /// Nothing is under way.
    pub(crate) fn new(alloc: Global) -> Transit
        ensures line { Gathers result.line [] }
        ensures out { string_bytes result.out ≡ [] }
    {
        Transit {
            line: LineBuffer::new(),
            out: String::new(alloc),
        }
    }

    /// Hands the gathered line over.
    pub(crate) fn end_line<S: Session>(&mut self, session: &mut S) -> Result<(), AllocError>
        ensures line { self.new.line ≡ self.old.line }
        ensures answered { OnOk result (Answered S.answers session.old self.old session.new self.new) }
    {
        session.command(self.line.line().and_then(parse), &mut self.out)
    }

    /// Writes the answers that wait.
    pub(crate) fn flush<W: Write>(&mut self, writer: &mut W) -> io::Result<()>
        ensures ok { OnOk result (Appends (W.contents writer.old) (W.contents writer.new) (string_bytes self.old.out)) }
        ensures empty { OnOk result (string_bytes self.new.out ≡ []) }
        ensures line { self.new.line ≡ self.old.line }
        ensures front { (n : ℕ) × Appends (W.contents writer.old) (W.contents writer.new) (take n (string_bytes self.old.out)) }
    {
        write_out(writer, self.out.as_bytes())?;
        self.out.clear();
        Ok(())
    }

    /// Takes one byte more of the input, and writes if much waits.
    pub(crate) fn take_byte<S: Session, W: Write>(
        &mut self,
        session: &mut S,
        writer: &mut W,
        b: u8,
    ) -> io::Result<()>
        ensures ok { OnOk result
            (Further S.answers session.old self.old (W.contents writer.old) session.new self.new (W.contents writer.new) (b ∷ [])) }
        ensures err { OnErr result
            (Breaks S.answers session.old self.old (W.contents writer.old) (W.contents writer.new) (b ∷ [])) }
    {
        if b == b'\n' {
            self.end_line(session)?;
            self.line.clear();
        } else {
            self.line.push(b);
            return Ok(());
        }
        if self.out.len() >= FULL {
            return self.flush(writer);
        }
        Ok(())
    }

    /// Takes one part more of the input, with one write, or more if the answers are long.
    pub(crate) fn take_part<S: Session, W: Write>(
        &mut self,
        session: &mut S,
        writer: &mut W,
        part: &[u8],
    ) -> io::Result<()>
        ensures ok { OnOk result
            (Further S.answers session.old self.old (W.contents writer.old) session.new self.new (W.contents writer.new) part.now) }
        ensures empty { OnOk result (string_bytes self.new.out ≡ []) }
        ensures err { OnErr result
            (Breaks S.answers session.old self.old (W.contents writer.old) (W.contents writer.new) part.now) }
    {
        for b in part {
            self.take_byte(session, writer, *b)?;
        }
        self.flush(writer)
    }

    /// Reads a part and takes it; 0 at the end of the input.
    pub(crate) fn next_part<S: Session, R: Read, W: Write>(
        &mut self,
        session: &mut S,
        reader: &mut R,
        writer: &mut W,
        part: &mut [u8],
    ) -> Result<usize, Stop>
        requires { 0 < length part.old }
        ensures ok { OnOk result ((first : S) (unread before : Option (List ℕ)) →
            UnderWay S.answers first session.old self.old unread (R.remaining reader.old) before (W.contents writer.old) →
            UnderWay S.answers first session.new self.new unread (R.remaining reader.new) before (W.contents writer.new)) }
        ensures end { IfOk result (λ n. n ≡ 0 → IsAtEnd (R.remaining reader.new)) }
        ensures err { IfErr result (λ why. (first : S) (unread before : Option (List ℕ)) →
            UnderWay S.answers first session.old self.old unread (R.remaining reader.old) before (W.contents writer.old) →
            SessionRan S.answers first session.new (Err why) unread (R.remaining reader.new) before (W.contents writer.new)) }
    {
        match reader.read(part) {
            Ok(n) => match self.take_part(session, writer, &part[0..n]) {
                Ok(()) => Ok(n),
                Err(why) => Err(Stop::Output(why)),
            },
            Err(why) => Err(Stop::Input(why)),
        }
    }

    /// Answers the last line, at the end of the input.
    pub(crate) fn finish<S: Session, W: Write>(
        &mut self,
        session: &mut S,
        writer: &mut W,
    ) -> io::Result<()>
        ensures ok { OnOk result ((first : S) (before : Option (List ℕ)) (read : List ℕ) →
            SoFar S.answers first session.old self.old before (W.contents writer.old) read →
            Writes (Replies S.answers first session.new) before (W.contents writer.new) (lines_of read)) }
        ensures err { OnErr result ((first : S) (before : Option (List ℕ)) (read : List ℕ) →
            SoFar S.answers first session.old self.old before (W.contents writer.old) read →
            Writes (Begins (RepliesOn S.answers first)) before (W.contents writer.new) (lines_of read)) }
    {
        self.end_line(session)?;
        write_out(writer, self.out.as_bytes())
    }
}
