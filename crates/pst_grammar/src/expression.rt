//! Expressions of a program's text.

use crate::identifier::Identifier;
use pst_base::{Items, Op};

/// An expression as it was written. Parentheses are a form of their own.
#[derive(Drop)]
pub enum Expression {
    Number(i64),
    Null,
    Name(Identifier),
    Parens(Box<Expression>),
    Field {
        object: Box<Expression>,
        name: Identifier,
    },
    Indexed {
        object: Box<Expression>,
        name: Identifier,
        index: Box<Expression>,
    },
    Negate(Box<Expression>),
    Not(Box<Expression>),
    Binary {
        op: Op,
        left: Box<Expression>,
        right: Box<Expression>,
    },
}

/// The arguments of a call.
pub type Expressions = Items<Expression>;
