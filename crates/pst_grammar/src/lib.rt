//! A program's text as a tree, and the grammar: which tokens are a program, of which tree, and where their first fault stands.
//!
//! The types of the tree are what the parser gives: declarations, statements and expressions as they were written, parentheses
//! kept, with the line of each. The definitions beside them are the same tree without boxes, names as lists of bytes, and how deep a
//! tree is: the height of an expression and the nesting of blocks are said here, once, for the parser and typing.
//!
//! Model: the grammar is a spelling. A program has lines for its names and for the words that begin something, and one list of
//! tokens; the tree that is kept has fewer lines. Which trees are of the grammar, and within limits of depth, is said of each
//! form (`IsProgram`, `IsShallow`); a fault stands at the first token with which no program begins (`IsUnexpected`), or only
//! programs beyond the limits (`IsTooDeep`). A text has a tree where its tokens are those of a program with it (`HasTree`).
//! Beside the grammar stands a reading of tokens from the front by precedence climbing, which a parser carries out.
//!
//! Contract: laws. Tokens are those of at most one program, whatever its depth; reading gives exactly the programs
//! within the limits, and else the first fault where it stands; and what is read of a declaration from some tokens stays so
//! whatever follows them.
//!
//! For example `(a + 1)` is `Parens` of a `Binary`, of height 2 and so of depth 3. `1 - 2 - 3` is spelled by the difference of `1 - 2`
//! and 3 alone, since an operator's right side binds more tightly than the operator; and in `print 1 == 2 == 3;` the second `==` is
//! unexpected, since comparisons form no chain.
//!
//!     tokens_have_one_tree(&tokens);
//!     reading_answers_as_the_grammar();
//!     reading_needs_no_more_tokens();
#![tactic(auto)]

mod declaration;
mod expression;
mod identifier;
mod laws;
mod lexeme;
mod statement;
mod worked;

pub use declaration::{Declaration, Declarations, Field, Fields, Local, Locals, Tree, TypeName};
pub use expression::{Expression, Expressions};
pub use identifier::Identifier;
pub use laws::{
    reading_answers_as_the_grammar, reading_needs_no_more_tokens, tokens_have_one_tree,
};
pub use lexeme::{Label, Lead, Sign};
pub use statement::{Block, Form, Statement};
pub use worked::{depths_by_hand, limits_of_depth_by_hand};
