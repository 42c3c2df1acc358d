//! Writing all of some bytes, with what is known where it fails.
ghost use Rattle.std.specs.Prelude.{ℕ, take, OnOk};
ghost use Rattle.std.specs.Io.KnownBytes.{Appends};

use std::io;
use std::io::{ErrorKind, Write};

// Writes the bytes, in as few calls as the writer takes. At an error it wrote some front of them.
fn write_whole<W: Write>(writer: &mut W, bytes: &[u8]) -> io::Result<()>
    ensures ok { OnOk result (Appends (W.contents writer.old) (W.contents writer.new) bytes.now) }
    ensures front { (n : ℕ) × Appends (W.contents writer.old) (W.contents writer.new) (take n bytes.now) }
{
    let mut done = 0;
    for _ in 0..u64::MAX {
        if done == bytes.len() {
            return Ok(());
        }
        match writer.write(&bytes[done..]) {
            Ok(0) => return Err(io::Error::from(ErrorKind::WriteZero)),
            Ok(n) => done += n,
            Err(why) => {
                if why.kind() != ErrorKind::Interrupted {
                    return Err(why);
                }
            }
        }
    }
    Err(io::Error::from(ErrorKind::WriteZero))
}

/// Writes the bytes and has the writer pass them on, so that they are seen before more is read.
///
/// # Errors
/// The writer's own; some front of the bytes is then written.
pub fn write_out<W: Write>(writer: &mut W, bytes: &[u8]) -> io::Result<()>
    ensures ok { OnOk result (Appends (W.contents writer.old) (W.contents writer.new) bytes.now) }
    ensures front { (n : ℕ) × Appends (W.contents writer.old) (W.contents writer.new) (take n bytes.now) }
{
    write_whole(writer, bytes)?;
    writer.flush()
}
