//! Trees with their canonical texts.

use pst_base::NoMemory;
use pst_grammar::{
    Block, Declaration, Declarations, Expression, Form, Identifier, Locals, Statement, Tree,
    TypeName,
};
use pst_notation::{
    canonical_text_keeps_what_was_read, canonical_text_reads_as_its_tree, print_program,
};
use pst_parse::parse;
use pst_parse_expressions::Atom;
use std::alloc::Global;
use std::test::Fail;

#[test]
fn text_that_was_read_keeps_its_tokens(rt: HostRuntime) -> Result<(), Fail> {
    let text = b"language # of arrays\n 2";
    let tree = parse(rt.alloc(), text)?;
    canonical_text_keeps_what_was_read(text, &tree);
    let canonical = print_program(rt.alloc(), &tree)?;
    assert_eq!(rt; canonical.as_slice(), b"language 2\n".as_slice());
    Ok(())
}

/// A procedure `p` without locals, which gives a number.
fn procedure_of(alloc: Global, statement: Statement) -> Result<Tree, NoMemory> {
    let procedure = Declaration::Procedure {
        line: 1,
        query: false,
        name: Identifier::from_slice(alloc, b"p")?,
        parameters: Locals::from_vec(Vec::new(alloc)),
        result: Some(TypeName::Int),
        locals: Locals::from_vec(Vec::new(alloc)),
        body: Block {
            items: vec![in alloc; statement]?,
        },
    };
    Ok(Tree {
        language: 1,
        declarations: Declarations {
            items: vec![in alloc; procedure]?,
        },
    })
}

#[test]
fn tree_that_was_not_read_prints_too(rt: HostRuntime) -> Result<(), Fail> {
    let statement = Statement {
        line: 0,
        form: Form::Return(Some(Expression::Number(i64::MIN))),
    };
    let tree = procedure_of(rt.alloc(), statement)?;
    canonical_text_reads_as_its_tree(&tree);
    let text = print_program(rt.alloc(), &tree)?;
    assert_eq!(rt;
        text.as_slice(),
        b"proc p(): int {\n  return -9223372036854775808;\n}\n".as_slice()
    );
    Ok(())
}

#[test]
fn name_gives_its_bytes_back_at_each_length(rt: HostRuntime) -> Result<(), Fail> {
    let bytes = b"names_of_up_to_thirty_three_bytes".as_slice();
    for length in 0..=bytes.len() {
        let name = Identifier::from_slice(rt.alloc(), &bytes[..length])?;
        assert_eq!(rt; name.as_slice(), &bytes[..length]);
    }
    Ok(())
}

#[test]
fn name_takes_16_bytes_and_an_expression_40(rt: HostRuntime) {
    assert_eq!(rt; size_of::<Identifier>(), 16);
    assert_eq!(rt; size_of::<Expression>(), 40);
}

#[test]
fn token_that_the_parser_has_at_hand_takes_32_bytes(rt: HostRuntime) {
    assert_eq!(rt; size_of::<Atom>(), 32);
}
