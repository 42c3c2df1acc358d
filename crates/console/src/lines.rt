//! Gathering the bytes of a line, and telling whether it is short enough to be read.
ghost use Rattle.std.specs.Prelude.{◌≤◌, length};

/// The most bytes of a line that is read, its newline not counted.
pub const LINE_MAX: usize = 1_024;

/// The bytes of a line, and whether it has more than [`LINE_MAX`].
#[derive(Clone, Copy, Debug)]
pub struct LineBuffer {
    bytes: [u8; LINE_MAX],
    len: usize,
    over: bool,
    ghost fits: { len ≤ length bytes },
}

impl LineBuffer {
    ghost use Rattle.std.specs.Prelude.{◌≡◌, ℕ, List, [], ◌∷◌, ◌++◌};
    ghost use Rattle.std.specs.Option.{option_map};
    ghost use Rattle.console.specs.Lines.{Gathers, short_line};

    /// A line without a byte.
    pub fn new() -> LineBuffer
        ensures { Gathers result [] }
    {
        LineBuffer {
            bytes: [0; LINE_MAX],
            len: 0,
            over: false,
        }
    }

    /// One more byte of the line; past the room it is only known that there are too many.
    pub fn push(&mut self, b: u8)
        ensures { (bs : List ℕ) → Gathers self.old bs → Gathers self.new (bs ++ b ∷ []) }
    {
        if self.len == LINE_MAX {
            self.over = true;
        } else {
            self.bytes[self.len] = b;
            self.len += 1;
        }
    }

    /// The line, unless it has too many bytes.
    pub fn line(&self) -> Option<&[u8]>
        ensures { (bs : List ℕ) → Gathers self.now bs → option_map (λ x. x.now) result ≡ short_line bs }
    {
        if self.over {
            None
        } else {
            Some(&self.bytes[0..self.len])
        }
    }

    /// A new line, without a byte.
    pub fn clear(&mut self)
        ensures { Gathers self.new [] }
    {
        self.len = 0;
        self.over = false;
    }
}
