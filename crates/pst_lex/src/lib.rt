//! The tokens of a program text: names, numbers, keywords and symbols, each with its place and its line.
//!
//! The model is a relation between a text and a list of tokens: each token is as long as it can be, blanks and comments
//! stand between tokens, and its line is 1 and the line feeds before it. A [`Lexer`] gives the tokens of a text one after
//! another, and keeps none; [`find_fault`] answers whether a text has tokens up to its end, and else its first fault. Neither
//! takes memory: a name borrows from the text. Laws say that a text has one of the two, and only one.
//!
//! ```text
//! find_fault(b"x = 7;")?;
//! let mut lexer = Lexer::new(b"x = 7;");
//! while let Some(token) = lexer.next_token()? { .. }      // four tokens, all on line 1
//! find_fault(b"x = 07;")                                  // Err(LexFault::Number { line: 1 })
//! ```
#![tactic(auto)]

mod bytes;
mod faults;
mod gaps;
mod laws;
mod lexer;
mod pieces;
mod types;
mod words;

pub use faults::LexFault;
pub use laws::{
    keywords_are_those_of_the_language, text_is_read_in_one_way, tokens_and_faults_stand_in_place,
    words_are_those_of_the_text,
};
pub use lexer::{Lexer, find_fault};
pub use types::{Name, Span, Token, TokenKind, TokenList, Tokens};
pub use words::Mark;
