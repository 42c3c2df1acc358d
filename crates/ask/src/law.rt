//! The answer to an input is one.
ghost use Rattle.std.specs.Prelude.{◌≡◌, ℕ, List};
ghost use Rattle.ask.specs.Asked.{Answers};

/// Over the same bytes of a file, no two texts answer the same lines.
pub fn one_answer()
    ensures { (bytes : List ℕ) (lines : List (List ℕ)) (a b : List ℕ) → Answers bytes lines a → Answers bytes lines b → a ≡ b }
{}
