//! Tokens, where they stand, and the list of them.

use crate::words::Mark;
use pst_base::Items;
use std::marker::Model;

/// The bytes from `from` up to the one before `to`, counted from 0 at the front of the text.
#[derive(Clone, Copy, PartialEq, Eq)]
pub struct Span {
    pub from: u32,
    pub to: u32,
}

/// A name, 1 to 32 bytes, where it stands in the text. Contracts see its bytes.
#[derive(Drop)]
pub struct Name<'a> {
    bytes: &'a [u8],
}

impl<'a> Model for Name<'a> {
    ghost use Rattle.std.specs.Prelude.{ℕ, List};

    ghost Value = { List ℕ };

    ghost view = { λ name. name.bytes.now };
}

impl<'a> Name<'a> {
    ghost use Rattle.std.specs.Prelude.{◌≡◌};

    /// The name that these bytes of the text are.
    pub fn new(bytes: &'a [u8]) -> Name<'a>
        ensures { result ≡ bytes.now }
    {
        Name { bytes }
    }

    /// Its bytes.
    pub fn bytes(&self) -> &'a [u8]
        ensures { result.now ≡ self.now }
    {
        self.bytes
    }
}

/// What a token is.
#[derive(Drop)]
pub enum TokenKind<'a> {
    /// A name.
    Name(Name<'a>),
    /// A number: from 0 to 9,223,372,036,854,775,807.
    Number(i64),
    /// A keyword or symbol.
    Mark(Mark),
}

/// A token: what it is, its bytes, and its line, from 1.
#[derive(Drop)]
pub struct Token<'a> {
    pub kind: TokenKind<'a>,
    pub span: Span,
    pub line: u32,
}

/// A list of tokens.
pub type TokenList<'a> = Items<Token<'a>>;

/// The tokens of a text in order, and the line of its end, from 1.
#[derive(Drop)]
pub struct Tokens<'a> {
    pub list: TokenList<'a>,
    pub end: u32,
}
