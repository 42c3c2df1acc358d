//! What sealing gives is one.
ghost use Rattle.std.specs.Prelude.{◌≡◌, ℕ, List, Option};
ghost use Rattle.postings.specs.Lists.{PostingLists};
ghost use Rattle.seal.specs.Shifts.{Messages, IsIndexOf, Sealed};

/// No two texts answer the same lines, no two files are the index of the same lists, and no two texts are all that a shift that is sealed is told,
/// wherever its index stands.
pub fn one_answer()
    ensures messages { (lines : List (List ℕ)) (a b : List ℕ) → Messages lines a → Messages lines b → a ≡ b }
    ensures index { (p : PostingLists) (a b : List ℕ) → IsIndexOf p a → IsIndexOf p b → a ≡ b }
    ensures whole { (p q : Option (List ℕ)) (lines : List (List ℕ)) (a b : List ℕ) → Sealed p lines a → Sealed q lines b → a ≡ b }
{}
