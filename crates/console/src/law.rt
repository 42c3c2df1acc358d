//! What the limit is.
ghost use Rattle.std.specs.Prelude.{◌≡◌};
ghost use Rattle.console.specs.Lines.{line_max};

/// What the limit is: so many bytes of a line are read, its newline not counted.
pub fn limits()
    ensures { line_max ≡ 1024 }
{}
