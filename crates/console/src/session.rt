//! What a program does with each line's command.
ghost use Rattle.std.specs.Prelude.{◌≡◌, ℕ, List, ◌++◌, OnOk, string_bytes};
ghost use Rattle.console.specs.Commands.{Order, order_from};

use super::command::Command;
use std::alloc::AllocError;

/// A program's answer to each line's command; a line that is too long counts as one that holds no command.
pub trait Session {
    // A session may answer an order with these bytes, and then be another.
    ghost answers: { Self → Order → List ℕ → Self → Type 0 };

    /// Does what the command asks, and adds the answer to the text.
    ///
    /// # Errors
    /// There is no memory for the answer; the run then ends.
    fn command(&mut self, command: Option<Command<'_>>, out: &mut String) -> Result<(), AllocError>
        ensures { OnOk result ((text : List ℕ) × (string_bytes out.new ≡ string_bytes out.old ++ text)
            × answers self.old (order_from command.entry) text self.new) };
}
