//! The answer to an input is one.
ghost use Rattle.std.specs.Prelude.{◌≡◌, ℕ, List};
ghost use Rattle.slots.specs.Checks.{Placed};

/// No two texts tell the places of the same lines.
pub fn one_answer()
    ensures { (lines : List (List ℕ)) (a b : List ℕ) → Placed lines a → Placed lines b → a ≡ b }
{}
