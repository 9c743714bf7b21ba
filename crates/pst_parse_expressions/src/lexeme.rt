//! Tokens as the parser has them at hand, and as it sees them.

ghost use Rattle.std.specs.Prelude.{◌≡◌, ◌<◌, length, MatchOption, [], ◌∷◌};
ghost use Rattle.pst_grammar.specs.Lexemes.{marked};
ghost use Rattle.pst_parse_expressions.specs.View.{as_read, atom_line, atom_of, lexeme_of as lexeme, lexemes_of};

use pst_base::Op;
use pst_grammar::{Lead, Sign};
use pst_lex::{Mark, Name, Token, TokenKind};

/// A token as the parser has it at hand, in 32 bytes: what it is, and its line, from 1.
#[derive(Drop)]
pub enum Atom<'a> {
    Name(Name<'a>, u32),
    Number(i64, u32),
    Mark(Mark, u32),
}

impl<'a> Atom<'a> {
    /// What is kept of a token.
    pub fn from_token(token: Token<'a>) -> Atom<'a>
        ensures { result ≡ atom_of token.entry }
    {
        let line = token.line;
        match token.kind {
            TokenKind::Name(name) => Atom::Name(name, line),
            TokenKind::Number(value) => Atom::Number(value, line),
            TokenKind::Mark(mark) => Atom::Mark(mark, line),
        }
    }

    /// Its line.
    pub fn line(&self) -> u32
        ensures { result ≡ atom_line self.now }
    {
        match self {
            Atom::Name(_, line) | Atom::Number(_, line) | Atom::Mark(_, line) => *line,
        }
    }
}

/// A token as the parser sees it: with its line where it may begin something whose line a tree keeps.
#[derive(Drop)]
pub enum Lexeme<'a> {
    Name(u32, &'a [u8]),
    Number(i64),
    Operator(Op),
    Plain(Sign),
    Leading(Lead, u32),
}

/// A keyword or symbol on a line.
#[inline(always)]
fn mark_lexeme<'a>(mark: Mark, line: u32) -> Lexeme<'a>
    ensures { as_read result ≡ marked line mark }
{
    match mark {
        Mark::Record => Lexeme::Leading(Lead::Record, line),
        Mark::Val => Lexeme::Leading(Lead::Val, line),
        Mark::Ptr => Lexeme::Leading(Lead::Ptr, line),
        Mark::Root => Lexeme::Leading(Lead::Root, line),
        Mark::Proc => Lexeme::Leading(Lead::Proc, line),
        Mark::Query => Lexeme::Leading(Lead::Query, line),
        Mark::Var => Lexeme::Leading(Lead::Var, line),
        Mark::Call => Lexeme::Leading(Lead::Call, line),
        Mark::Print => Lexeme::Leading(Lead::Print, line),
        Mark::If => Lexeme::Leading(Lead::If, line),
        Mark::While => Lexeme::Leading(Lead::While, line),
        Mark::Return => Lexeme::Leading(Lead::Return, line),
        Mark::New => Lexeme::Plain(Sign::New),
        Mark::Else => Lexeme::Plain(Sign::Else),
        Mark::Null => Lexeme::Plain(Sign::Null),
        Mark::Not => Lexeme::Plain(Sign::Not),
        Mark::Int => Lexeme::Plain(Sign::Int),
        Mark::OpenBrace => Lexeme::Plain(Sign::OpenBrace),
        Mark::CloseBrace => Lexeme::Plain(Sign::CloseBrace),
        Mark::OpenParen => Lexeme::Plain(Sign::OpenParen),
        Mark::CloseParen => Lexeme::Plain(Sign::CloseParen),
        Mark::Semicolon => Lexeme::Plain(Sign::Semicolon),
        Mark::Colon => Lexeme::Plain(Sign::Colon),
        Mark::Comma => Lexeme::Plain(Sign::Comma),
        Mark::Dot => Lexeme::Plain(Sign::Dot),
        Mark::Assign => Lexeme::Plain(Sign::Assign),
        Mark::And => Lexeme::Operator(Op::And),
        Mark::Or => Lexeme::Operator(Op::Or),
        Mark::Equal => Lexeme::Operator(Op::Equal),
        Mark::NotEqual => Lexeme::Operator(Op::NotEqual),
        Mark::Less => Lexeme::Operator(Op::Less),
        Mark::LessEqual => Lexeme::Operator(Op::LessEqual),
        Mark::Greater => Lexeme::Operator(Op::Greater),
        Mark::GreaterEqual => Lexeme::Operator(Op::GreaterEqual),
        Mark::Plus => Lexeme::Operator(Op::Add),
        Mark::Minus => Lexeme::Operator(Op::Sub),
        Mark::Star => Lexeme::Operator(Op::Mul),
        Mark::Slash => Lexeme::Operator(Op::Div),
        Mark::Percent => Lexeme::Operator(Op::Rem),
    }
}

/// What a token is to the parser.
#[inline(always)]
fn lexeme_of<'t>(atom: &Atom<'t>) -> Lexeme<'t>
    ensures { as_read result ≡ lexeme atom.now }
{
    match atom {
        Atom::Name(name, line) => Lexeme::Name(*line, name.bytes()),
        Atom::Number(value, _) => Lexeme::Number(*value),
        Atom::Mark(mark, line) => mark_lexeme(*mark, *line),
    }
}

/// The first token, and the tokens after it.
#[inline(always)]
pub fn peek<'a, 't>(tokens: &'a [Atom<'t>]) -> Option<(Lexeme<'t>, &'a [Atom<'t>])>
    ensures seen { MatchOption result (lexemes_of tokens.now ≡ []) (λ x. lexemes_of tokens.now ≡ as_read x.0 ∷ lexemes_of x.1.now) }
    ensures shorter { MatchOption result (tokens.now ≡ []) (λ x. length x.1.now < length tokens.now) }
{
    match tokens.split_first() {
        Some((first, rest)) => Some((lexeme_of(first), rest)),
        None => None,
    }
}
