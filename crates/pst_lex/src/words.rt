//! Keywords and symbols.

ghost use Rattle.pst_lex.specs.Words.{IsKeyword};

/// A token that is always spelled alike: a keyword or a symbol.
#[derive(Clone, Copy, Debug, PartialEq, Eq)]
pub enum Mark {
    Record,
    Val,
    Ptr,
    Root,
    Proc,
    Query,
    Var,
    New,
    Call,
    Print,
    If,
    Else,
    While,
    Return,
    Null,
    And,
    Or,
    Not,
    Int,
    OpenBrace,
    CloseBrace,
    OpenParen,
    CloseParen,
    Semicolon,
    Colon,
    Comma,
    Dot,
    Assign,
    Equal,
    NotEqual,
    Less,
    LessEqual,
    Greater,
    GreaterEqual,
    Plus,
    Minus,
    Star,
    Slash,
    Percent,
}

/// The keyword that is spelled so, or None where the word is none.
pub fn keyword(word: &[u8]) -> Option<Mark>
    ensures { IsKeyword result word.now }
{
    match word {
        b"record" => Some(Mark::Record),
        b"val" => Some(Mark::Val),
        b"ptr" => Some(Mark::Ptr),
        b"root" => Some(Mark::Root),
        b"proc" => Some(Mark::Proc),
        b"query" => Some(Mark::Query),
        b"var" => Some(Mark::Var),
        b"new" => Some(Mark::New),
        b"call" => Some(Mark::Call),
        b"print" => Some(Mark::Print),
        b"if" => Some(Mark::If),
        b"else" => Some(Mark::Else),
        b"while" => Some(Mark::While),
        b"return" => Some(Mark::Return),
        b"null" => Some(Mark::Null),
        b"and" => Some(Mark::And),
        b"or" => Some(Mark::Or),
        b"not" => Some(Mark::Not),
        b"int" => Some(Mark::Int),
        _ => None,
    }
}
