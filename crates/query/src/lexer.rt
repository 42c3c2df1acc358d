//! The lexer: the token that begins at a place of a text, by longest match.
ghost use Rattle.std.specs.Prelude.{◌≡◌, ◌<◌, ◌≤◌, length, IfOk};
ghost use Rattle.std.specs.List.{prefix_len};
ghost use Rattle.names.specs.Names.{name_byte};
ghost use Rattle.query.specs.Scanning.{space, digit, name_at, amount_at, negation, scan_at, scan_from};
ghost use Rattle.query.specs.Reading.{terminal, weight, scan_of, scan_of_token, Ahead};

use crate::fault::TokenFault;
use crate::limits::{RUNS_MAX, WINDOWS_MAX};
use crate::token::{Located, Token};
use extents::Operator;
use names::{NAME_MAX, is_name_byte};

// Stays: three functions of one library call each; a helper that takes the test would be that call again.
// How many spaces the text begins with.
fn spaces_len(text: &[u8]) -> usize
    ensures within { result ≤ length text.now }
    ensures run { result ≡ prefix_len space text.now }
{
    text.iter().take_while(|b| **b == b' ').count()
}

// How many name bytes the text begins with.
fn name_len(text: &[u8]) -> usize
    ensures within { result ≤ length text.now }
    ensures run { result ≡ prefix_len name_byte text.now }
{
    text.iter().take_while(|b| is_name_byte(**b)).count()
}

// How many digits the text begins with.
fn digits_len(text: &[u8]) -> usize
    ensures within { result ≤ length text.now }
    ensures run { result ≡ prefix_len digit text.now }
{
    text.iter().take_while(|b| b.is_ascii_digit()).count()
}

// In the scanners below, `rest` is the text from `place` on. Each answers its token with the token's length, or the fault at `place`.

// The number after the mark that `rest` begins with.
fn amount(rest: &[u8], place: usize, limit: u32) -> Result<(u32, usize), TokenFault>
    requires { 0 < length rest.now }
    ensures within { IfOk result (λ t. t.1 ≤ length rest.now) }
    ensures is { result ≡ amount_at limit rest.now place }
{
    let len = digits_len(&rest[1..]);
    if len == 0 {
        return Err(TokenFault::Unknown(place));
    }
    match decimal::parse(&rest[1..][..len]) {
        Some(n) if n <= limit => Ok((n, 1 + len)),
        _ => Err(TokenFault::Over(place)),
    }
}

// The name that `rest` begins with.
fn name<'a>(rest: &'a [u8], place: usize) -> Result<(Token<'a>, usize), TokenFault>
    ensures within { IfOk result (λ t. t.1 ≤ length rest.now) }
    ensures word { IfOk result (λ t. weight (terminal t.0) ≡ 0) }
    ensures sees { scan_of_token place result ≡ name_at rest.now place }
{
    let len = name_len(rest);
    if len > NAME_MAX {
        return Err(TokenFault::Over(place));
    }
    Ok((Token::Name(&rest[..len]), len))
}

// The operator that `rest` begins with after its `!`.
fn negated(rest: &[u8]) -> Option<Operator>
    ensures { result ≡ negation rest.now }
{
    match char::from(*rest.get(1)?) {
        '<' => Some(Operator::NotContainedIn),
        '>' => Some(Operator::NotContaining),
        _ => None,
    }
}

// The token that `rest` begins with, or the end.
fn token_at<'a>(rest: &'a [u8], place: usize) -> Result<(Token<'a>, usize), TokenFault>
    ensures within { IfOk result (λ t. t.1 ≤ length rest.now) }
    ensures weighs { IfOk result (λ t. weight (terminal t.0) ≤ t.1) }
    ensures sees { scan_of_token place result ≡ scan_at rest.now place }
{
    if rest.is_empty() {
        return Ok((Token::End, 0));
    }
    let first = rest[0];
    let found = match char::from(first) {
        '(' => (Token::Open, 1),
        ')' => (Token::Close, 1),
        '<' => (Token::Operator(Operator::ContainedIn), 1),
        '>' => (Token::Operator(Operator::Containing), 1),
        '&' => (Token::Operator(Operator::BothOf), 1),
        '|' => (Token::Operator(Operator::OneOf), 1),
        ';' => (Token::Operator(Operator::FollowedBy), 1),
        '!' => match negated(rest) {
            Some(operator) => (Token::Operator(operator), 2),
            None => return Err(TokenFault::Unknown(place)),
        },
        '#' => {
            let (width, len) = amount(rest, place, WINDOWS_MAX)?;
            (Token::Windows(width), len)
        }
        '@' => {
            let (degrees, len) = amount(rest, place, RUNS_MAX)?;
            (Token::Runs(degrees), len)
        }
        _ if is_name_byte(first) => name(rest, place)?,
        _ => return Err(TokenFault::Unknown(place)),
    };
    Ok(found)
}

// The token that follows the place `from`, spaces passed over.
pub(crate) fn next_token<'a>(text: &'a [u8], from: usize) -> Result<Located<'a>, TokenFault>
    requires { from ≤ length text.now }
    ensures ahead { IfOk result (λ f. Ahead from (length text.now) f) }
    ensures sees { scan_of result ≡ scan_from text.now from }
{
    let place = from + spaces_len(&text[from..]);
    let (token, len) = token_at(&text[place..], place)?;
    Ok(Located {
        token,
        place,
        after: place + len,
    })
}
