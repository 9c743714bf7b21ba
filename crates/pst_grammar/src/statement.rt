//! Statements of a program's text.

use crate::expression::{Expression, Expressions};
use crate::identifier::Identifier;

/// A statement, with the line of its first token, from 1.
#[cycle(tree)]
#[derive(Drop)]
pub struct Statement {
    pub line: u32,
    pub form: Form,
}

/// What a statement says.
#[cycle(tree)]
#[derive(Drop)]
pub enum Form {
    New {
        name: Identifier,
        ty: Identifier,
    },
    Call {
        result: Option<Identifier>,
        procedure: Identifier,
        arguments: Expressions,
    },
    Write {
        place: Expression,
        value: Expression,
    },
    Print(Expression),
    If {
        condition: Expression,
        yes: Block,
        no: Option<Block>,
    },
    While {
        condition: Expression,
        body: Block,
    },
    Return(Option<Expression>),
}

/// Statements one after another.
#[cycle(tree)]
#[derive(Drop)]
pub struct Block {
    pub items: Vec<Statement>,
}
