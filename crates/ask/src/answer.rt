//! Answers over the bytes of an index: what is written is what their postings say of the lines that are read.
ghost use Rattle.std.specs.Prelude.{◌≡◌, ℕ, ◌++◌, take, IfOk, OnOk, Ok, Err};
ghost use Rattle.std.specs.Io.KnownBytes.{Appends};
ghost use Rattle.index.specs.Meaning.{meaning};
ghost use Rattle.index.specs.Opened.{bytes_of};
ghost use Rattle.index.specs.Verdict.{verdict};
ghost use Rattle.index.specs.declared.refusal.OpenRefusal.{OpenRefusal};
ghost use Rattle.ask.specs.Asked.{AskedRun, RefusedRun, refused_text};

use super::reading::Reading;
use answering::Areas;
use console::{Stop, no_memory, run, write_out};
use index::{OpenRefusal, SealedIndex};
use std::alloc::Global;
use std::io;
use std::io::{Read, Write};

// Answers over an opened index.
fn answer_over<R: Read, W: Write>(
    heap: Global,
    index: SealedIndex<'_>,
    reader: &mut R,
    writer: &mut W,
) -> Result<(), Stop>
    ensures { AskedRun (meaning (bytes_of index.entry)) result
        (R.remaining reader.old) (R.remaining reader.new) (W.contents writer.old) (W.contents writer.new) }
{
    let areas = match Areas::new(heap) {
        Ok(areas) => areas,
        Err(_) => return Err(Stop::Output(no_memory())),
    };
    let mut reading = Reading { index, areas };
    run(heap, &mut reading, reader, writer)
}

// Tells why the bytes are no index.
fn refuse<W: Write>(heap: Global, why: OpenRefusal, writer: &mut W) -> io::Result<()>
    ensures whole { OnOk result (Appends (W.contents writer.old) (W.contents writer.new) (refused_text why)) }
    ensures front { (n : ℕ) × Appends (W.contents writer.old) (W.contents writer.new) (take n (refused_text why)) }
{
    let mut text = String::new(heap);
    why.refusal().put(&mut text)?;
    text.push('\n')?;
    write_out(writer, text.as_bytes())
}

/// Answers the lines of the reader over the bytes of an index, or tells the first rule that they break.
///
/// # Errors
/// [`Stop::Input`] where the input could not be read on: every whole line that was read is answered.
/// [`Stop::Output`] where an answer could not be made or written: a front of the answers is written.
pub fn answer<R: Read, W: Write>(
    heap: Global,
    bytes: &[u8],
    reader: &mut R,
    writer: &mut W,
) -> Result<Result<(), OpenRefusal>, Stop>
    ensures opened { IfOk result (λ opened. opened ≡ verdict bytes.now) }
    // Over an index, each line of the input is answered.
    ensures answered { verdict bytes.now ≡ Ok tt → AskedRun (meaning bytes.now) result
        (R.remaining reader.old) (R.remaining reader.new) (W.contents writer.old) (W.contents writer.new) }
    // Over other bytes a refusal is all that is written, and nothing is read.
    ensures refused { (why : OpenRefusal) → verdict bytes.now ≡ Err why → RefusedRun why result
        (R.remaining reader.old) (R.remaining reader.new) (W.contents writer.old) (W.contents writer.new) }
{
    let mut index = SealedIndex::new();
    if let Err(why) = index.open(bytes) {
        return match refuse(heap, why, writer) {
            Ok(()) => Ok(Err(why)),
            Err(stopped) => Err(Stop::Output(stopped)),
        };
    }
    answer_over(heap, index, reader, writer)?;
    Ok(Ok(()))
}

#[cfg(test)]
mod tests {
    use super::answer;
    use index::OpenRefusal;
    use std::process::Abort;
    use std::test::Fail;

    // `[rev` and `alarm` at each of 5,000 slots, more than the stack area holds together.
    #[test]
    fn a_refused_report(rt: HostRuntime) -> Result<(), Fail> {
        let mut index = Vec::new(rt.alloc());
        index.extend_from_slice(b"SLX\x01\0\x02\0\x88\x13\0\0\x10\x27\0\0")?;
        index.extend_from_slice(b"[rev\0\0\0\0\0\0\0\0\0\0\0\0\0\0\0\0\x88\x13\0\0")?;
        index.extend_from_slice(b"alarm\0\0\0\0\0\0\0\0\0\0\0\x88\x13\0\0\x88\x13\0\0")?;
        for _ in 0..2 {
            for slot in 0..5000u32 {
                index.extend_from_slice(&slot.to_le_bytes())?;
            }
        }
        let mut lines = b"r\ne alarm 5000\nr".as_slice();
        let mut output = Vec::new(rt.alloc());
        let answered = answer(rt.alloc(), index.as_slice(), &mut lines, &mut output);
        assert!(rt; matches!(answered, Ok(Ok(()))));
        assert!(rt; output.as_slice() == b"refused 22\nrefused 22\n".as_slice());
        Ok(())
    }

    #[test]
    fn no_index(rt: HostRuntime) -> Result<(), Fail> {
        let mut lines = b"r\n".as_slice();
        let mut output = Vec::new(rt.alloc());
        let answered = answer(rt.alloc(), b"SLX", &mut lines, &mut output);
        assert!(rt; matches!(answered, Ok(Err(OpenRefusal::Short))));
        assert!(rt; output.as_slice() == b"refused 8\n".as_slice());
        assert!(rt; lines == b"r\n".as_slice());
        Ok(())
    }
}
