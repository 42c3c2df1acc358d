//! A session that enters the entries of the input, and remembers its queries.

use console::{Command, Session};
use shift_logbook::Logbook;
use std::alloc::{AllocError, Global};

/// A logbook, the texts of the queries so far, and where memory for them comes from.
#[derive(Drop)]
pub struct Input {
    pub(crate) book: Logbook,
    pub(crate) queries: Vec<Vec<u8>>,
    heap: Global,
}

impl Input {
    /// Before the first line.
    pub fn new(heap: Global) -> Input {
        Input {
            book: Logbook::new(),
            queries: Vec::new(heap),
            heap,
        }
    }

    /// Remembers the text of a query.
    fn remember(&mut self, text: &[u8]) -> Result<(), AllocError> {
        let mut query = Vec::new(self.heap);
        query.extend_from_slice(text)?;
        self.queries.push(query)?;
        Ok(())
    }
}

impl Session for Input {
    ghost use Rattle.timing.specs.Inputs.{input_answers};

    ghost answers = { input_answers };

    fn command(
        &mut self,
        command: Option<Command<'_>>,
        _out: &mut String,
    ) -> Result<(), AllocError> {
        match command {
            Some(Command::Enter(name, slot)) => {
                let _ = self.book.enter(name, slot);
                Ok(())
            }
            Some(Command::Query(text)) => self.remember(text),
            Some(Command::Report) | None => Ok(()),
        }
    }
}
