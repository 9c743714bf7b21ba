//! The text of statements.

ghost use Rattle.std.specs.Prelude.{◌≡◌, ◌++◌, ◌+◌, OnOk, IfOk, replicate, map, codes};
ghost use Rattle.std.specs.List.{flat_map};
ghost use Rattle.std.specs.Option.{option_map};
ghost use Rattle.pst_grammar.specs.Syntax as tree;
ghost use Rattle.pst_grammar.specs.View.{expr_of, phrase_of, phrases_of};
ghost use Rattle.pst_notation.specs.Texts.{line, result_text, expr_text, phrase_text, phrases_text, guarded_text, listed, behind_comma};

use crate::expressions::put_expression;
use pst_base::NoMemory;
use pst_grammar::{Block, Expression, Form, Identifier, Statement};

/// How many spaces a block stands further from the left than its statement.
const STEP: usize = 2;

/// Puts so many spaces.
///
/// # Errors
/// Where there was no memory.
pub fn put_indent(out: &mut Vec<u8>, indent: usize) -> Result<(), NoMemory>
    ensures { OnOk result (out.new.items ≡ out.old.items ++ replicate indent 32) }
{
    for _ in 0..indent {
        out.push(b' ')?;
    }
    Ok(())
}

/// Puts a line that is one text, so many spaces from the left.
///
/// # Errors
/// Where there was no memory.
pub fn put_line(out: &mut Vec<u8>, indent: usize, text: &[u8]) -> Result<(), NoMemory>
    ensures { OnOk result (out.new.items ≡ out.old.items ++ line indent text.now) }
{
    put_indent(out, indent)?;
    out.extend_from_slice(text)?;
    out.extend_from_slice(b"\n")
}

/// Puts expressions with commas between them.
fn put_arguments(out: &mut Vec<u8>, list: &[Expression]) -> Result<(), NoMemory>
    ensures { OnOk result (out.new.items ≡ out.old.items ++ listed expr_text (map expr_of list.now)) }
{
    match list {
        [] => Ok(()),
        [first, rest @ ..] => {
            put_expression(out, first)?;
            put_more_arguments(out, rest)
        }
    }
}

/// Puts expressions, each behind a comma.
fn put_more_arguments(out: &mut Vec<u8>, list: &[Expression]) -> Result<(), NoMemory>
    ensures { OnOk result (out.new.items ≡ out.old.items ++ flat_map (behind_comma expr_text) (map expr_of list.now)) }
{
    for e in list {
        out.extend_from_slice(b", ")?;
        put_expression(out, e)?;
    }
    Ok(())
}

/// The indent of a block in a statement. Where a `usize` can't hold it, no memory holds the text either.
fn deeper(indent: usize) -> Result<usize, NoMemory>
    ensures { IfOk result (λ deep. deep ≡ indent + 2) }
{
    match indent.checked_add(STEP) {
        Some(deep) => Ok(deep),
        None => Err(NoMemory),
    }
}

/// Puts the line of a new record.
fn put_new(
    out: &mut Vec<u8>,
    indent: usize,
    name: &Identifier,
    ty: &Identifier,
) -> Result<(), NoMemory>
    ensures { OnOk result (out.new.items ≡ out.old.items ++ phrase_text indent (tree.New name.now ty.now)) }
{
    put_indent(out, indent)?;
    out.extend_from_slice(name.as_slice())?;
    out.extend_from_slice(b" = new ")?;
    out.extend_from_slice(ty.as_slice())?;
    out.extend_from_slice(b";\n")
}

/// Puts the local that takes the result of a call, if one does.
fn put_result(out: &mut Vec<u8>, local: &Option<Identifier>) -> Result<(), NoMemory>
    ensures { OnOk result (out.new.items ≡ out.old.items ++ result_text local.now) }
{
    match local {
        None => Ok(()),
        Some(x) => {
            out.extend_from_slice(x.as_slice())?;
            out.extend_from_slice(b" = ")
        }
    }
}

/// Puts the line of a call.
fn put_call(
    out: &mut Vec<u8>,
    indent: usize,
    local: &Option<Identifier>,
    procedure: &Identifier,
    list: &[Expression],
) -> Result<(), NoMemory>
    ensures { OnOk result (out.new.items ≡ out.old.items ++ phrase_text indent (tree.Call local.now procedure.now (map expr_of list.now))) }
{
    put_indent(out, indent)?;
    put_result(out, local)?;
    out.extend_from_slice(b"call ")?;
    out.extend_from_slice(procedure.as_slice())?;
    out.extend_from_slice(b"(")?;
    put_arguments(out, list)?;
    out.extend_from_slice(b");\n")
}

/// Puts the line of a write.
fn put_write(
    out: &mut Vec<u8>,
    indent: usize,
    place: &Expression,
    value: &Expression,
) -> Result<(), NoMemory>
    ensures { OnOk result (out.new.items ≡ out.old.items ++ phrase_text indent (tree.Write (expr_of place.now) (expr_of value.now))) }
{
    put_indent(out, indent)?;
    put_expression(out, place)?;
    out.extend_from_slice(b" = ")?;
    put_expression(out, value)?;
    out.extend_from_slice(b";\n")
}

/// Puts the line of a print.
fn put_print(out: &mut Vec<u8>, indent: usize, e: &Expression) -> Result<(), NoMemory>
    ensures { OnOk result (out.new.items ≡ out.old.items ++ phrase_text indent (tree.Print (expr_of e.now))) }
{
    put_indent(out, indent)?;
    out.extend_from_slice(b"print ")?;
    put_expression(out, e)?;
    out.extend_from_slice(b";\n")
}

/// Puts the line of a return.
fn put_return(out: &mut Vec<u8>, indent: usize, e: &Option<Expression>) -> Result<(), NoMemory>
    ensures { OnOk result (out.new.items ≡ out.old.items ++ phrase_text indent (tree.Return (option_map expr_of e.now))) }
{
    match e {
        None => put_line(out, indent, b"return;"),
        Some(e) => {
            put_indent(out, indent)?;
            out.extend_from_slice(b"return ")?;
            put_expression(out, e)?;
            out.extend_from_slice(b";\n")
        }
    }
}

/// Puts a line with a word, an expression and an opening brace.
fn put_head(out: &mut Vec<u8>, indent: usize, word: &[u8], e: &Expression) -> Result<(), NoMemory>
    ensures { OnOk result (out.new.items ≡ out.old.items ++ line indent (word.now ++ expr_text (expr_of e.now) ++ codes " {")) }
{
    put_indent(out, indent)?;
    out.extend_from_slice(word)?;
    put_expression(out, e)?;
    out.extend_from_slice(b" {\n")
}

/// Puts a block, so many spaces from the left.
///
/// # Errors
/// Where there was no memory.
#[cycle(statements)]
pub fn put_block(out: &mut Vec<u8>, indent: usize, block: &Block) -> Result<(), NoMemory>
    ensures { OnOk result (out.new.items ≡ out.old.items ++ phrases_text indent (phrases_of block.now)) }
{
    for statement in &block.items {
        put_statement(out, indent, statement)?;
    }
    Ok(())
}

/// Puts a statement, so many spaces from the left.
#[cycle(statements)]
fn put_statement(out: &mut Vec<u8>, indent: usize, statement: &Statement) -> Result<(), NoMemory>
    ensures { OnOk result (out.new.items ≡ out.old.items ++ phrase_text indent (phrase_of statement.now.form)) }
{
    match &statement.form {
        Form::New { name, ty } => put_new(out, indent, name, ty),
        Form::Call {
            result,
            procedure,
            arguments,
        } => put_call(out, indent, result, procedure, arguments.as_slice()),
        Form::Write { place, value } => put_write(out, indent, place, value),
        Form::Print(e) => put_print(out, indent, e),
        Form::If { condition, yes, no } => {
            put_guarded(out, indent, b"if ", condition, yes)?;
            if let Some(no) = no {
                put_else(out, indent, no)?;
            }
            put_line(out, indent, b"}")
        }
        Form::While { condition, body } => {
            put_guarded(out, indent, b"while ", condition, body)?;
            put_line(out, indent, b"}")
        }
        Form::Return(e) => put_return(out, indent, e),
    }
}

/// Puts a word with a condition and the block that it guards, up to the closing brace.
#[cycle(statements)]
fn put_guarded(
    out: &mut Vec<u8>,
    indent: usize,
    word: &[u8],
    condition: &Expression,
    block: &Block,
) -> Result<(), NoMemory>
    ensures { OnOk result (out.new.items ≡ out.old.items ++ guarded_text indent word.now (expr_of condition.now) (phrases_of block.now)) }
{
    put_head(out, indent, word, condition)?;
    put_block(out, deeper(indent)?, block)
}

/// Puts what stands between the two blocks of a choice, and the second one, up to the closing brace.
#[cycle(statements)]
fn put_else(out: &mut Vec<u8>, indent: usize, block: &Block) -> Result<(), NoMemory>
    ensures { OnOk result (out.new.items ≡ out.old.items ++ (line indent (codes "} else {") ++ phrases_text (indent + 2) (phrases_of block.now))) }
{
    put_line(out, indent, b"} else {")?;
    put_block(out, deeper(indent)?, block)
}
