//! Where an index is put.
ghost use Rattle.std.specs.Prelude.{ℕ, List, Option, None, OnOk, OnErr};
ghost use Rattle.std.specs.Io.KnownBytes.{Keeps};
ghost use Rattle.seal.specs.Shifts.{Holds};

use std::io;

/// A place for the bytes of one index.
pub trait Place {
    // The bytes that stand there, where they are known.
    ghost bytes: { Self → Option (List ℕ) } = { λ _. None };

    /// Puts the bytes there, all of them or none.
    ///
    /// # Errors
    /// The place refuses them, or they cannot be written; what stood there before stands there still.
    fn put(&mut self, index: &[u8]) -> io::Result<()>
        ensures ok { OnOk result (Holds (bytes self.new) index.now) }
        ensures err { OnErr result (Keeps (bytes self.old) (bytes self.new)) };
}
