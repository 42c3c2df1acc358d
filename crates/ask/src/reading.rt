//! An opened index as a session: its postings determine the answers.
use answering::Areas;
use console::{Command, Session};
use index::SealedIndex;
use std::alloc::AllocError;

/// An index, and the work areas of its searches.
#[derive(Drop)]
pub struct Reading<'a> {
    pub(crate) index: SealedIndex<'a>,
    pub(crate) areas: Areas,
}

impl<'a> Session for Reading<'a> {
    ghost use Rattle.ask.specs.Asked.{ReadingAnswers};

    ghost answers = { ReadingAnswers };

    fn command(
        &mut self,
        command: Option<Command<'_>>,
        out: &mut String,
    ) -> Result<(), AllocError> {
        match command {
            Some(Command::Query(text)) => self.areas.query(&self.index, text, out),
            Some(Command::Report) => self.areas.report(&self.index, out),
            Some(Command::Enter(_, _)) | None => Ok(()),
        }
    }
}
