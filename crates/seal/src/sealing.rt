//! A whole shift, sealed: the messages that are written, and the bytes of the index.
ghost use Rattle.std.specs.Prelude.{◌≡◌, ℕ, take, IfOk, OnOk};
ghost use Rattle.std.specs.Io.KnownBytes.{Appends};
ghost use Rattle.shift_logbook.specs.Books.{lists_of};
ghost use Rattle.index.specs.Sealing.{Bytes};
ghost use Rattle.seal.specs.Shifts.{IsIndexOf, sealed_text, SealedRun, Stays};

use super::place::Place;
use super::shift::Shift;
use console::{Stop, no_memory, run, write_out};
use index::{index_size, seal};
use shift_logbook::Logbook;
use std::alloc::{AllocError, Global};
use std::io;
use std::io::{Read, Write};

// The index of a logbook. That its numbers are bytes is known only of a slice: `tell_sealed` says it.
fn index_of(heap: Global, book: &Logbook) -> Result<Vec<u8>, AllocError>
    ensures { IfOk result (λ index. Bytes index.items → IsIndexOf (lists_of book.now) index.items) }
{
    let mut bytes = vec![in heap; 0u8; index_size(book)]?;
    let _ = seal(book, bytes.as_mut_slice());
    Ok(bytes)
}

// Tells that an index of so many bytes was written.
fn tell_sealed<W: Write>(heap: Global, index: &[u8], writer: &mut W) -> io::Result<()>
    ensures whole { OnOk result (Appends (W.contents writer.old) (W.contents writer.new) (sealed_text index.now)) }
    ensures front { (n : ℕ) × Appends (W.contents writer.old) (W.contents writer.new) (take n (sealed_text index.now)) }
    ensures bytes { Bytes index.now }
{
    let length = index.len();
    let text = format!(in heap; "sealed {length}\n")?;
    write_out(writer, text.as_bytes())
}

/// Keeps a new shift's log, each entry of the input answered over those before it, puts its index in the place and tells so.
/// The inner result is the place's.
///
/// # Errors
/// [`Stop::Input`] where the input could not be read on: every whole line that was read is answered, and the place is as it was.
/// [`Stop::Output`] where a message or the index could not be made, or a message not be written: a front of the messages is written, and the
/// place is as it was, or, where it is the last message, the index of the whole input stands there.
pub fn seal_shift<R: Read, W: Write, P: Place>(
    heap: Global,
    reader: &mut R,
    writer: &mut W,
    place: &mut P,
) -> Result<io::Result<()>, Stop>
    // What was read and what was written and put, by how it ended; of a whole run and of every run, where the input is known.
    ensures run { SealedRun (P.bytes place.new) result
        (R.remaining reader.old) (R.remaining reader.new) (W.contents writer.old) (W.contents writer.new) }
    // The place is as it was, in every case but that the index of all entries was put there.
    ensures stays { Stays result (P.bytes place.old) (P.bytes place.new)
        (R.remaining reader.old) (R.remaining reader.new) (W.contents writer.old) (W.contents writer.new) }
{
    let mut shift = Shift::new();
    run(heap, &mut shift, reader, writer)?;
    let index = match index_of(heap, &shift.book) {
        Ok(index) => index,
        Err(_) => return Err(Stop::Output(no_memory())),
    };
    let bytes = index.as_slice();
    match place.put(bytes) {
        Ok(()) => {}
        Err(why) => return Ok(Err(why)),
    }
    match tell_sealed(heap, bytes, writer) {
        Ok(()) => Ok(Ok(())),
        Err(why) => Err(Stop::Output(why)),
    }
}

#[cfg(test)]
mod tests {
    use super::{no_memory, seal_shift};
    use crate::place::Place;
    use std::io;
    use std::io::ErrorKind;
    use std::process::Abort;
    use std::test::Fail;

    // Keeps the bytes, or takes none.
    #[derive(Drop)]
    struct Shelf {
        kept: Vec<u8>,
        full: bool,
    }

    impl Place for Shelf {
        fn put(&mut self, index: &[u8]) -> io::Result<()> {
            if self.full {
                return Err(io::Error::from(ErrorKind::StorageFull));
            }
            self.kept.extend_from_slice(index)?;
            Ok(())
        }
    }

    #[test]
    fn an_index_is_put(rt: HostRuntime) -> Result<(), Fail> {
        let mut shelf = Shelf {
            kept: Vec::new(rt.alloc()),
            full: false,
        };
        let mut lines = b"e cut 5\ne cut 5".as_slice();
        let mut output = Vec::new(rt.alloc());
        let put = seal_shift(rt.alloc(), &mut lines, &mut output, &mut shelf);
        assert!(rt; matches!(put, Ok(Ok(()))));
        assert!(rt; output.as_slice() == b"ok\nrefused 4\nsealed 43\n".as_slice());
        assert!(rt;
            shelf.kept.as_slice()
                == b"SLX\x01\0\x01\0\x06\0\0\0\x01\0\0\0cut\0\0\0\0\0\0\0\0\0\0\0\0\0\0\0\0\0\x01\0\0\0\x05\0\0\0".as_slice()
        );
        Ok(())
    }

    #[test]
    fn a_place_that_is_full(rt: HostRuntime) -> Result<(), Fail> {
        let mut shelf = Shelf {
            kept: Vec::new(rt.alloc()),
            full: true,
        };
        let mut lines = b"e cut 5\n".as_slice();
        let mut output = Vec::new(rt.alloc());
        let put = seal_shift(rt.alloc(), &mut lines, &mut output, &mut shelf);
        assert!(rt; matches!(put, Ok(Err(_))));
        assert!(rt; output.as_slice() == b"ok\n".as_slice());
        Ok(())
    }

    #[test]
    fn a_want_of_memory_is_told(rt: HostRuntime) -> Result<(), Fail> {
        let why = no_memory();
        let text = format!(in rt.alloc(); "{why}")?;
        assert_eq!(rt; text.as_str(), "memory allocation failed");
        Ok(())
    }
}
