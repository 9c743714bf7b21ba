//! The text of expressions.

ghost use Rattle.std.specs.Prelude.{◌≡◌, ◌++◌, OnOk, codes};
ghost use Rattle.std.specs.Fmt.{signed_decimal};
ghost use Rattle.pst_grammar.specs.Syntax as tree;
ghost use Rattle.pst_grammar.specs.View.{expr_of};
ghost use Rattle.pst_notation.specs.Texts.{op_text, expr_text};

use itoa::Buffer;
use pst_base::{NoMemory, Op};
use pst_grammar::{Expression, Identifier};

/// Puts a number.
///
/// # Errors
/// Where there was no memory.
pub fn put_number(out: &mut Vec<u8>, number: i64) -> Result<(), NoMemory>
    ensures { OnOk result (out.new.items ≡ out.old.items ++ signed_decimal number) }
{
    let mut digits = Buffer::new();
    out.extend_from_slice(digits.format(number).as_bytes())
}

/// An operator as it is written.
fn op_text(op: Op) -> &'static [u8]
    ensures { result.now ≡ op_text op }
{
    match op {
        Op::Add => b"+",
        Op::Sub => b"-",
        Op::Mul => b"*",
        Op::Div => b"/",
        Op::Rem => b"%",
        Op::Equal => b"==",
        Op::NotEqual => b"!=",
        Op::Less => b"<",
        Op::LessEqual => b"<=",
        Op::Greater => b">",
        Op::GreaterEqual => b">=",
        Op::And => b"and",
        Op::Or => b"or",
    }
}

/// Puts an operator between blanks.
fn put_op(out: &mut Vec<u8>, op: Op) -> Result<(), NoMemory>
    ensures { OnOk result (out.new.items ≡ out.old.items ++ codes " " ++ op_text op ++ codes " ") }
{
    out.extend_from_slice(b" ")?;
    out.extend_from_slice(op_text(op))?;
    out.extend_from_slice(b" ")
}

/// Puts a dot and the name of a field.
fn put_field_name(out: &mut Vec<u8>, name: &Identifier) -> Result<(), NoMemory>
    ensures { OnOk result (out.new.items ≡ out.old.items ++ codes "." ++ name.now) }
{
    out.extend_from_slice(b".")?;
    out.extend_from_slice(name.as_slice())
}

/// Puts an expression.
///
/// # Errors
/// Where there was no memory.
#[cycle(expressions)]
pub fn put_expression(out: &mut Vec<u8>, e: &Expression) -> Result<(), NoMemory>
    ensures { OnOk result (out.new.items ≡ out.old.items ++ expr_text (expr_of e.now)) }
{
    match e {
        Expression::Number(n) => put_number(out, *n),
        Expression::Null => out.extend_from_slice(b"null"),
        Expression::Name(x) => out.extend_from_slice(x.as_slice()),
        Expression::Parens(inner) => put_enclosed(out, inner),
        Expression::Field { object, name } => put_field(out, object, name),
        Expression::Indexed {
            object,
            name,
            index,
        } => put_element(out, object, name, index),
        Expression::Negate(operand) => put_behind(out, b"-", operand),
        Expression::Not(operand) => put_behind(out, b"not ", operand),
        Expression::Binary { op, left, right } => put_binary(out, *op, left, right),
    }
}

/// Puts an expression in parentheses.
#[cycle(expressions)]
fn put_enclosed(out: &mut Vec<u8>, e: &Expression) -> Result<(), NoMemory>
    ensures { OnOk result (out.new.items ≡ out.old.items ++ expr_text (tree.Parens (expr_of e.now))) }
{
    out.extend_from_slice(b"(")?;
    put_expression(out, e)?;
    out.extend_from_slice(b")")
}

/// Puts a field of an object.
#[cycle(expressions)]
fn put_field(out: &mut Vec<u8>, object: &Expression, name: &Identifier) -> Result<(), NoMemory>
    ensures { OnOk result (out.new.items ≡ out.old.items ++ expr_text (tree.Field (expr_of object.now) name.now)) }
{
    put_expression(out, object)?;
    put_field_name(out, name)
}

/// Puts an element of an array, which is a field of an object.
#[cycle(expressions)]
fn put_element(
    out: &mut Vec<u8>,
    object: &Expression,
    name: &Identifier,
    index: &Expression,
) -> Result<(), NoMemory>
    ensures { OnOk result (out.new.items ≡ out.old.items ++ expr_text (tree.Indexed (expr_of object.now) name.now (expr_of index.now))) }
{
    put_field(out, object, name)?;
    put_enclosed(out, index)
}

/// Puts an expression behind a sign or a word.
#[cycle(expressions)]
fn put_behind(out: &mut Vec<u8>, sign: &[u8], operand: &Expression) -> Result<(), NoMemory>
    ensures { OnOk result (out.new.items ≡ out.old.items ++ (sign.now ++ expr_text (expr_of operand.now))) }
{
    out.extend_from_slice(sign)?;
    put_expression(out, operand)
}

/// Puts an operator with its two operands.
#[cycle(expressions)]
fn put_binary(
    out: &mut Vec<u8>,
    op: Op,
    left: &Expression,
    right: &Expression,
) -> Result<(), NoMemory>
    ensures { OnOk result (out.new.items ≡ out.old.items ++ expr_text (tree.Binary op (expr_of left.now) (expr_of right.now))) }
{
    put_expression(out, left)?;
    put_op(out, op)?;
    put_expression(out, right)
}
