//! The tokens of a text, one after another.

ghost use Rattle.std.specs.Prelude.{◌≡◌, ◌+◌, ◌<◌, ◌≤◌, ◌^◌, length, IfOk, IfSome};
ghost use Rattle.pst_lex.specs.Lexing.{Scans, GivesNoFault, GivesFault};

use crate::faults::LexFault;
use crate::gaps::gap_length;
use crate::pieces::first_token;
use crate::types::{Span, Token, TokenKind};

/// A text whose first tokens were taken: the bytes behind them, and their place and line. It keeps no token.
#[derive(Drop)]
pub struct Lexer<'a> {
    rest: &'a [u8],
    at: usize,
    line: u32,
    ghost short: { at + length rest.now + 1 < 2 ^ 32 },
    ghost lines: { line ≤ at + 1 },
}

/// A token with its bytes, from one place of the text up to another.
fn token<'a>(kind: TokenKind<'a>, from: usize, to: usize, line: u32) -> Token<'a>
    requires { (from < 2 ^ 32) × (to < 2 ^ 32) }
    ensures { result ≡ record { kind = kind.entry; span = record { from = from; to = to }; line = line } }
{
    Token {
        kind,
        span: Span {
            from: from as u32,
            to: to as u32,
        },
        line,
    }
}

impl<'a> Lexer<'a> {
    ghost use Rattle.pst_lex.specs.Taking.{BeginsAt, TakesNext, TakesFromLeft, bytes_left, EndsThere, IsAtEnd, line_reached};

    /// At the front of a text of fewer than 4,294,967,295 bytes.
    pub fn new(text: &'a [u8]) -> Lexer<'a>
        requires { length text.now + 1 < 2 ^ 32 }
        ensures { BeginsAt result text.now }
    {
        Lexer {
            rest: text,
            at: 0,
            line: 1,
        }
    }

    /// Takes the next token, or finds the end of the text.
    ///
    /// # Errors
    /// The fault that stands in the next token's place. The text is left as it was.
    pub fn next_token(&mut self) -> Result<Option<Token<'a>>, LexFault>
        ensures exact { TakesNext result self.old self.new }
        ensures left { TakesFromLeft result self.old self.new }
        ensures fewer { IfOk result (λ next. IfSome next (λ _. bytes_left self.new < bytes_left self.old)) }
    {
        let (blank, line) = gap_length(self.rest, self.line)?;
        let from = self.at + blank;
        let (_, bytes) = self.rest.split_at(blank);
        if bytes.is_empty() {
            *self = Lexer {
                rest: bytes,
                at: from,
                line,
            };
            return Ok(None);
        }
        let (kind, length) = first_token(bytes, line)?;
        let to = from + length;
        let (_, rest) = bytes.split_at(length);
        *self = Lexer { rest, at: to, line };
        Ok(Some(token(kind, from, to, line)))
    }

    /// Whether no byte is left.
    pub fn is_at_end(&self) -> bool
        ensures exact { IsAtEnd result self.now }
        ensures none_left { EndsThere result self.now }
    {
        self.rest.is_empty()
    }

    /// The line behind the bytes that were taken, from 1.
    pub fn line(&self) -> u32
        ensures { result ≡ line_reached self.now }
    {
        self.line
    }
}

/// Looks at the whole of a text of fewer than 4,294,967,295 bytes, and keeps nothing: answers whether it has tokens.
///
/// # Errors
/// The first fault in the text.
pub fn find_fault(text: &[u8]) -> Result<(), LexFault>
    requires { length text.now + 1 < 2 ^ 32 }
    ensures exact { Scans result text.now }
    ensures tokens { GivesNoFault result text.now }
    ensures fault { GivesFault result text.now }
{
    let mut lexer = Lexer::new(text);
    while let Some(token) = lexer.next_token()? {
        drop(token);
    }
    Ok(())
}
