//! Declarations of a program's text.

use crate::identifier::Identifier;
use crate::statement::Block;
use pst_base::Items;

/// A type as it was written: `int`, or the name of a record type.
#[derive(Drop)]
pub enum TypeName {
    Int,
    Named(Identifier),
}

/// A field of a record type, with the line of its first token, and the number of its elements where one is written.
#[derive(Drop)]
pub enum Field {
    Val {
        line: u32,
        name: Identifier,
        elements: Option<i64>,
    },
    Ptr {
        line: u32,
        name: Identifier,
        target: Identifier,
        elements: Option<i64>,
    },
}

/// A parameter or a local, with the line of its first token.
#[derive(Drop)]
pub struct Local {
    pub line: u32,
    pub name: Identifier,
    pub kind: TypeName,
}

/// A declaration, with the line of its first token.
#[derive(Drop)]
pub enum Declaration {
    Record {
        line: u32,
        name: Identifier,
        limit: i64,
        fields: Fields,
    },
    Root {
        line: u32,
        name: Identifier,
        kind: TypeName,
    },
    Procedure {
        line: u32,
        query: bool,
        name: Identifier,
        parameters: Locals,
        result: Option<TypeName>,
        locals: Locals,
        body: Block,
    },
}

/// The fields of a record type, in the order of declaration.
pub type Fields = Items<Field>;

/// The parameters of a procedure, or its locals.
pub type Locals = Items<Local>;

/// The declarations of a program, in order.
#[derive(Drop)]
pub struct Declarations {
    pub items: Vec<Declaration>,
}

/// A program's text, read: its language, 1 or 2, and what it declares. In language 1 no field has a number of elements,
/// and no expression is indexed.
#[derive(Drop)]
pub struct Tree {
    pub language: u8,
    pub declarations: Declarations,
}
