//! The limits of a query, each once.
ghost use Rattle.std.specs.Prelude.{◌≡◌};
ghost use Rattle.query.specs.Limits.{name_max, windows_max, runs_max, open_max, leaf_max, steps_max};

/// The widest windows that a `#` may name, in slots.
pub const WINDOWS_MAX: u32 = 1_073_741_824;

/// The highest limit of runs that an `@` may name, in degrees.
pub const RUNS_MAX: u32 = 3_000;

/// How many brackets may stand open at once.
pub const OPEN_MAX: u8 = 16;

/// How many leaves a query may have: names, `#` and `@`.
pub const LEAF_MAX: u8 = 32;

/// How many steps a query can have: its leaves, and an operator between each two.
pub const STEPS_MAX: usize = 2 * LEAF_MAX as usize - 1;

/// What the limits of a query are, each by its number. It exists for what it promises.
pub fn query_limits()
    ensures names { name_max ≡ 16 }
    ensures windows { windows_max ≡ 1073741824 }
    ensures runs { runs_max ≡ 3000 }
    ensures open { open_max ≡ 16 }
    ensures leaves { leaf_max ≡ 32 }
    ensures steps { steps_max ≡ 63 }
{}
