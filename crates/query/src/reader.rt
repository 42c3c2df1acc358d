//! The reader: a recursive descent over the tokens, which stops at the leftmost fault.
ghost use Rattle.std.specs.Prelude.{◌≤◌, length, IfOk, IfErr, MatchResult};
ghost use Rattle.refusals.specs.Refusals.{refusal_in};
ghost use Rattle.query.specs.Answers.{Answered, Complete, Leftmost, Unambiguous, ToldAs};
ghost use Rattle.query.specs.Faults.{refusal_of};
ghost use Rattle.query.specs.Limits.{open_max};
ghost use Rattle.query.specs.Outcomes.{Refuses};
ghost use Rattle.query.specs.Reading.{bytes, Sound, Taken, Faulty, Stopped, ReadTerm, ReadQuestion};

use crate::fault::ReadFault;
use crate::lexer::next_token;
use crate::limits::{LEAF_MAX, OPEN_MAX};
use crate::query::{Action, Query, Steps};
use crate::token::{Located, Token};

// The steps so far, where the text goes on, and how many leaves have been read.
#[derive(Drop)]
struct Reader<'a> {
    text: &'a [u8],
    steps: Steps<'a>,
    at: usize,
    terms: u8,
}

impl<'a> Reader<'a> {
    // The next token.
    fn take(&mut self) -> Result<Located<'a>, ReadFault>
        requires { self.old.at ≤ length (bytes self.old) }
        ensures taken { IfOk result (λ f. Taken self.old self.new f) }
        ensures faulty { IfErr result (λ e. Faulty self.old e) }
    {
        let found = next_token(self.text, self.at)?;
        self.at = found.after;
        Ok(found)
    }

    // A term, then operators each with a term; answers the token after them.
    #[cycle(operand_question_term)]
    fn question(&mut self, depth: u8) -> Result<Located<'a>, ReadFault>
        requires sound { Sound self.old }
        requires shallow { depth ≤ open_max }
        ensures { MatchResult result (λ f. ReadQuestion self.old self.new depth f) (λ e. Stopped self.old depth e) }
    {
        self.term(depth)?;
        // Stays: tokens are taken until one is no operator; no index is counted.
        loop {
            let found = self.take()?;
            let Token::Operator(operator) = found.token else {
                return Ok(found);
            };
            // One term alone: operators group from the left.
            self.operand(depth)?;
            self.steps.push(Action::Apply(operator), found.place);
        }
    }

    // An operator's right operand.
    #[cycle(operand_question_term)]
    fn operand(&mut self, level: u8) -> Result<(), ReadFault>
        requires sound { Sound self.old }
        requires shallow { level ≤ open_max }
        ensures { MatchResult result (λ _. ReadTerm self.old self.new level) (λ e. Stopped self.old level e) }
    {
        self.term(level)
    }

    // A leaf, or a question in brackets.
    #[cycle(operand_question_term)]
    #[tactic(auto, using(crate::proofs::Walk::unclosed))]
    fn term(&mut self, depth: u8) -> Result<(), ReadFault>
        requires sound { Sound self.old }
        requires shallow { depth ≤ open_max }
        ensures { MatchResult result (λ _. ReadTerm self.old self.new depth) (λ e. Stopped self.old depth e) }
    {
        let found = self.take()?;
        if let Token::Open = found.token {
            if depth == OPEN_MAX {
                return Err(ReadFault::TooDeep(found.place));
            }
            let last = self.question(depth + 1)?;
            return match last.token {
                Token::Close => Ok(()),
                _ => Err(ReadFault::Unexpected(last.place)),
            };
        }
        let Some(leaf) = found.token.leaf() else {
            return Err(ReadFault::Unexpected(found.place));
        };
        if self.terms == LEAF_MAX {
            return Err(ReadFault::TooMany(found.place));
        }
        self.terms += 1;
        self.steps.push(Action::Leaf(leaf), found.place);
        Ok(())
    }
}

/// The query that a text writes. It allocates nothing.
///
/// # Errors
/// The text's leftmost fault; of two faults at one token, that with the lower number (docs/queries.md).
#[tactic(auto, using(crate::proofs::Order::whole_ordered, crate::proofs::Order::whole_few))]
pub fn read<'a>(text: &'a [u8]) -> Result<Query<'a>, ReadFault>
    ensures outcome { MatchResult result (λ q. Answered text.now q) (λ f. Refuses text.now f) }
    ensures told { ToldAs text.now (refusal_in refusal_of result) }
    ensures complete { Complete text.now result }
    ensures leftmost { Leftmost text.now result }
    ensures unambiguous { Unambiguous text.now }
{
    let mut reader = Reader {
        text,
        steps: Steps::new(),
        at: 0,
        terms: 0,
    };
    let last = reader.question(0)?;
    match last.token {
        Token::End => Ok(Query::new(reader.steps)),
        _ => Err(ReadFault::Unexpected(last.place)),
    }
}
