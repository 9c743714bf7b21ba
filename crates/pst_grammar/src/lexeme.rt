//! What the grammar's tokens are made of.

use crate::Identifier;

/// A name as it stands in the text, with its line.
#[derive(Drop)]
pub struct Label {
    pub line: u32,
    pub name: Identifier,
}

/// A keyword or symbol that begins nothing whose line a tree keeps, and is no operator.
#[derive(Clone, Copy, PartialEq, Eq)]
pub enum Sign {
    Null,
    Not,
    Int,
    New,
    Else,
    OpenBrace,
    CloseBrace,
    OpenParen,
    CloseParen,
    Semicolon,
    Colon,
    Comma,
    Dot,
    Assign,
}

/// A keyword that begins a declaration, a field, a local or a statement.
#[derive(Clone, Copy, PartialEq, Eq)]
pub enum Lead {
    Record,
    Val,
    Ptr,
    Root,
    Proc,
    Query,
    Var,
    Call,
    Print,
    If,
    While,
    Return,
}
