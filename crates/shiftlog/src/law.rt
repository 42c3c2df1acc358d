//! The answer to an input is one.
ghost use Rattle.std.specs.Prelude.{◌≡◌, ℕ, List};
ghost use Rattle.shift_logbook.specs.Ledger.{Entry};
ghost use Rattle.shiftlog.specs.Shifts.{Logged};

/// From a ledger on, no two texts answer the same lines: what is written is a function of what is read.
pub fn one_answer()
    ensures { (l : List Entry) (lines : List (List ℕ)) (a b : List ℕ) → Logged l lines a → Logged l lines b → a ≡ b }
{}
