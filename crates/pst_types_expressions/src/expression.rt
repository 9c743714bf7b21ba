//! The types of expressions.

ghost use Rattle.std.specs.Prelude.{◌≡◌, Ok};
ghost use Rattle.pst_grammar.specs.Syntax as tree;
ghost use Rattle.pst_grammar.specs.View.{expr_of};
ghost use Rattle.pst_program.specs.View as typed_view;
ghost use Rattle.pst_program.specs.Syntax as program;
ghost use Rattle.pst_typing.specs.declared.fault.TypeFault.TheVariants as fault;
ghost use Rattle.pst_typing.specs.Answers.{found};
ghost use Rattle.pst_typing.specs.Names.{variable};
ghost use Rattle.pst_typing.specs.Expressions.{same_sort, sort_of, null_of, in_parens, operand, object, plain_field, array_field, field_loaded, element_loaded, named_value, null_beside, operation, judged, fits, fitted, of_sort};
ghost use Rattle.pst_typing.specs.View.{Answers};
ghost use Rattle.pst_types_scope.specs.View.{kind_word, slot_seen, setting_of};
ghost use Rattle.pst_types_expressions.specs.View.{sort_seen, judged_of, object_of, array_of, binary_of, negated, inverted, equality_of, operator_of};

use pst_base::{Op, SlotNo, TypeNo};
use pst_grammar::Expression;
use pst_program::Typed;
use pst_types_scope::{Setting, Slot, Target, Word};
use pst_typing::TypeFault;
use std::alloc::Global;

/// What an expression gives: a number, a truth, or a pointer to records of the type with a name.
#[derive(Clone, Copy)]
pub enum Sort<'t> {
    Int,
    Truth,
    Pointer(&'t [u8]),
}

impl<'t> Sort<'t> {
    /// The sort of what a type holds.
    pub fn of(kind: Word<'t>) -> Sort<'t>
        ensures { sort_seen result ≡ sort_of (kind_word kind.entry) }
    {
        match kind {
            Word::Int => Sort::Int,
            Word::Named(name) => Sort::Pointer(name),
        }
    }

    /// Whether two sorts are one.
    pub fn same(&self, other: &Sort<'t>) -> bool
        ensures { result ≡ same_sort (sort_seen self.now) (sort_seen other.now) }
    {
        match (self, other) {
            (Sort::Int, Sort::Int) | (Sort::Truth, Sort::Truth) => true,
            (Sort::Pointer(this), Sort::Pointer(that)) => *this == *that,
            _ => false,
        }
    }
}

/// An expression judged: a null that waits for its type, or a typed expression with its sort.
#[derive(Drop)]
pub enum Judged<'t> {
    Bare,
    Known(Typed, Sort<'t>),
}

/// A pointer, and the name of the type of its records.
#[derive(Drop)]
pub struct Object<'t> {
    pub pointer: Typed,
    pub ty: &'t [u8],
}

/// A null with its type, in the parentheses that stand round it.
fn null(alloc: Global, ty: TypeNo, expression: &Expression) -> Result<Typed, TypeFault>
    ensures { Answers typed_view.expr_of result (Ok (null_of ty (expr_of expression.now))) }
{
    match expression {
        Expression::Parens(inner) => Ok(Typed::Parens(Box::new(alloc, null(alloc, ty, inner)?)?)),
        Expression::Number(_)
        | Expression::Null
        | Expression::Name(_)
        | Expression::Field { .. }
        | Expression::Indexed { .. }
        | Expression::Negate(_)
        | Expression::Not(_)
        | Expression::Binary { .. } => Ok(Typed::Null(ty)),
    }
}

/// The same in parentheses.
fn in_parens<'t>(alloc: Global, judged: Judged<'t>) -> Result<Judged<'t>, TypeFault>
    ensures { Answers judged_of result (Ok (in_parens (judged_of judged.entry))) }
{
    match judged {
        Judged::Bare => Ok(Judged::Bare),
        Judged::Known(value, sort) => Ok(Judged::Known(
            Typed::Parens(Box::new(alloc, value)?),
            sort,
        )),
    }
}

/// An operand that has to be of a sort.
#[inline(always)]
fn operand<'t>(line: u32, sort: Sort<'t>, judged: Judged<'t>) -> Result<Typed, TypeFault>
    ensures { Answers typed_view.expr_of result (operand line (sort_seen sort.entry) (judged_of judged.entry)) }
{
    match judged {
        Judged::Known(value, other) if other.same(&sort) => Ok(value),
        _ => Err(TypeFault::Mismatch { line }),
    }
}

/// An operand that has to be a pointer.
///
/// # Errors
/// The first fault of typing, or that there was no memory.
pub fn as_object<'t>(line: u32, judged: Judged<'t>) -> Result<Object<'t>, TypeFault>
    ensures { Answers object_of result (object line (judged_of judged.entry)) }
{
    match judged {
        Judged::Bare => Err(TypeFault::Mismatch { line }),
        Judged::Known(pointer, sort) => match sort {
            Sort::Pointer(ty) => Ok(Object { pointer, ty }),
            _ => Err(TypeFault::Mismatch { line }),
        },
    }
}

/// A name that stands in an expression.
fn judge_name<'t>(
    setting: &Setting<'_, 't>,
    line: u32,
    name: &[u8],
) -> Result<Judged<'t>, TypeFault>
    ensures { Answers judged_of result (found (variable (setting_of setting.now) name.now) (fault.Unknown line) (λ v. Ok (named_value v))) }
{
    match setting.variable(name) {
        None => Err(TypeFault::Unknown { line }),
        Some(Target::Local(local)) => Ok(Judged::Known(
            Typed::Local(local.number),
            Sort::of(local.kind),
        )),
        Some(Target::Root(root)) => {
            Ok(Judged::Known(Typed::Root(root.slot), Sort::of(root.kind)))
        }
    }
}

/// A field of the records of a type that is no array, by its name.
///
/// # Errors
/// The first fault of typing, or that there was no memory.
pub fn plain_field<'t>(
    setting: &Setting<'_, 't>,
    line: u32,
    ty: &[u8],
    name: &[u8],
) -> Result<Slot<'t>, TypeFault>
    ensures { Answers slot_seen result (plain_field (setting_of setting.now) line ty.now name.now) }
{
    match setting.scope.field(ty, name) {
        None => Err(TypeFault::Unknown { line }),
        Some(field) => match field.elements {
            None => Ok(field),
            Some(_) => Err(TypeFault::Mismatch { line }),
        },
    }
}

/// An array: the slot of its first element, how many elements it has, and their type.
#[derive(Clone, Copy)]
pub struct Array<'t> {
    pub slot: SlotNo,
    pub elements: u8,
    pub kind: Word<'t>,
}

/// A field of the records of a type that is an array, by its name.
///
/// # Errors
/// The first fault of typing, or that there was no memory.
pub fn array_field<'t>(
    setting: &Setting<'_, 't>,
    line: u32,
    ty: &[u8],
    name: &[u8],
) -> Result<Array<'t>, TypeFault>
    ensures { Answers array_of result (array_field (setting_of setting.now) line ty.now name.now) }
{
    match setting.scope.field(ty, name) {
        None => Err(TypeFault::Unknown { line }),
        Some(field) => match field.elements {
            None => Err(TypeFault::Mismatch { line }),
            Some(elements) => Ok(Array {
                slot: field.slot,
                elements,
                kind: field.kind,
            }),
        },
    }
}

/// A field of an object.
fn load<'t>(
    alloc: Global,
    setting: &Setting<'_, 't>,
    line: u32,
    object: Object<'t>,
    name: &[u8],
) -> Result<Judged<'t>, TypeFault>
    ensures { Answers judged_of result (field_loaded (setting_of setting.now) line (object_of object.entry) name.now) }
{
    let field = plain_field(setting, line, object.ty, name)?;
    Ok(Judged::Known(
        Typed::Load {
            object: Box::new(alloc, object.pointer)?,
            field: field.slot,
            kind: setting.scope.kind_of(field.kind),
        },
        Sort::of(field.kind),
    ))
}

/// An element of an array of an object.
fn load_element<'t>(
    alloc: Global,
    setting: &Setting<'_, 't>,
    line: u32,
    object: Object<'t>,
    array: Array<'t>,
    index: Judged<'t>,
) -> Result<Judged<'t>, TypeFault>
    ensures { Answers judged_of result (element_loaded (setting_of setting.now) line (object_of object.entry) (array_of array.entry) (judged_of index.entry)) }
{
    let index = operand(line, Sort::Int, index)?;
    Ok(Judged::Known(
        Typed::LoadIndexed {
            object: Box::new(alloc, object.pointer)?,
            field: array.slot,
            elements: array.elements,
            index: Box::new(alloc, index)?,
            kind: setting.scope.kind_of(array.kind),
        },
        Sort::of(array.kind),
    ))
}

/// A number with its sign turned.
fn negate<'t>(alloc: Global, line: u32, judged: Judged<'t>) -> Result<Judged<'t>, TypeFault>
    ensures { Answers judged_of result (negated line (judged_of judged.entry)) }
{
    let value = operand(line, Sort::Int, judged)?;
    Ok(Judged::Known(Typed::Negate(Box::new(alloc, value)?), Sort::Int))
}

/// The other truth.
fn invert<'t>(alloc: Global, line: u32, judged: Judged<'t>) -> Result<Judged<'t>, TypeFault>
    ensures { Answers judged_of result (inverted line (judged_of judged.entry)) }
{
    let value = operand(line, Sort::Truth, judged)?;
    Ok(Judged::Known(Typed::Not(Box::new(alloc, value)?), Sort::Truth))
}

/// Two operands of one sort.
#[inline(always)]
fn operation<'t>(
    alloc: Global,
    line: u32,
    op: Op,
    sorts: (Sort<'t>, Sort<'t>),
    left: Judged<'t>,
    right: Judged<'t>,
) -> Result<Judged<'t>, TypeFault>
    ensures { Answers judged_of result (operation line op (sort_seen sorts.entry.0) (sort_seen sorts.entry.1) (judged_of left.entry) (judged_of right.entry)) }
{
    let left = operand(line, sorts.0, left)?;
    let right = operand(line, sorts.0, right)?;
    Ok(Judged::Known(binary(alloc, op, left, right)?, sorts.1))
}

/// An operator with its operands.
#[inline(always)]
fn binary(alloc: Global, op: Op, left: Typed, right: Typed) -> Result<Typed, TypeFault>
    ensures { Answers typed_view.expr_of result (Ok (program.Binary op (typed_view.expr_of left) (typed_view.expr_of right))) }
{
    Ok(Typed::Binary {
        op,
        left: Box::new(alloc, left)?,
        right: Box::new(alloc, right)?,
    })
}

/// A bare null beside an operand of a sort.
fn null_beside<'t>(
    alloc: Global,
    setting: &Setting<'_, 't>,
    line: u32,
    expression: &Expression,
    sort: Sort<'t>,
) -> Result<Typed, TypeFault>
    ensures { Answers typed_view.expr_of result (null_beside (setting_of setting.now) line (expr_of expression.now) (sort_seen sort.entry)) }
{
    match sort {
        Sort::Pointer(ty) => null(alloc, setting.scope.number_of(ty), expression),
        _ => Err(TypeFault::Mismatch { line }),
    }
}

/// An operator with two operands, as it stands in the text.
#[derive(Clone, Copy)]
struct Written<'e> {
    op: Op,
    left: &'e Expression,
    right: &'e Expression,
}

/// An equality of two operands.
fn equality<'t>(
    alloc: Global,
    setting: &Setting<'_, 't>,
    line: u32,
    written: Written,
    left: Judged<'t>,
    right: Judged<'t>,
) -> Result<Judged<'t>, TypeFault>
    ensures { Answers judged_of result (equality_of (setting_of setting.now) line written.entry (judged_of left.entry) (judged_of right.entry)) }
{
    match left {
        Judged::Bare => match right {
            Judged::Bare => Err(TypeFault::Mismatch { line }),
            Judged::Known(right, sort) => {
                let left = null_beside(alloc, setting, line, written.left, sort)?;
                Ok(Judged::Known(binary(alloc, written.op, left, right)?, Sort::Truth))
            }
        },
        Judged::Known(left, sort) => match right {
            Judged::Bare => {
                let right = null_beside(alloc, setting, line, written.right, sort)?;
                Ok(Judged::Known(binary(alloc, written.op, left, right)?, Sort::Truth))
            }
            Judged::Known(right, other) => {
                if sort.same(&Sort::Truth) || !sort.same(&other) {
                    return Err(TypeFault::Mismatch { line });
                }
                Ok(Judged::Known(binary(alloc, written.op, left, right)?, Sort::Truth))
            }
        },
    }
}

/// An operator with its operands.
fn combine<'t>(
    alloc: Global,
    setting: &Setting<'_, 't>,
    line: u32,
    written: Written,
    left: Judged<'t>,
    right: Judged<'t>,
) -> Result<Judged<'t>, TypeFault>
    ensures { Answers judged_of result (operator_of (setting_of setting.now) line written.entry (judged_of left.entry) (judged_of right.entry)) }
{
    let sorts = match written.op {
        Op::Add | Op::Sub | Op::Mul | Op::Div | Op::Rem => (Sort::Int, Sort::Int),
        Op::Less | Op::LessEqual | Op::Greater | Op::GreaterEqual => (Sort::Int, Sort::Truth),
        Op::And | Op::Or => (Sort::Truth, Sort::Truth),
        Op::Equal | Op::NotEqual => return equality(alloc, setting, line, written, left, right),
    };
    operation(alloc, line, written.op, sorts, left, right)
}

/// A field of an object, by its name.
#[cycle(judging)]
fn judge_field<'t>(
    alloc: Global,
    setting: &Setting<'_, 't>,
    line: u32,
    object: &Expression,
    name: &[u8],
) -> Result<Judged<'t>, TypeFault>
    ensures { Answers judged_of result (judged (setting_of setting.now) line (tree.Field (expr_of object.now) name.now)) }
{
    let object = as_object(line, judge(alloc, setting, line, object)?)?;
    load(alloc, setting, line, object, name)
}

/// An element of an array of an object. The array is found before the index is judged.
#[cycle(judging)]
fn judge_element<'t>(
    alloc: Global,
    setting: &Setting<'_, 't>,
    line: u32,
    object: &Expression,
    name: &[u8],
    index: &Expression,
) -> Result<Judged<'t>, TypeFault>
    ensures { Answers judged_of result (judged (setting_of setting.now) line (tree.Indexed (expr_of object.now) name.now (expr_of index.now))) }
{
    let object = as_object(line, judge(alloc, setting, line, object)?)?;
    let array = array_field(setting, line, object.ty, name)?;
    let index = judge(alloc, setting, line, index)?;
    load_element(alloc, setting, line, object, array, index)
}

/// An operator with its operands, from left to right.
#[cycle(judging)]
fn judge_operator<'t>(
    alloc: Global,
    setting: &Setting<'_, 't>,
    line: u32,
    written: Written,
) -> Result<Judged<'t>, TypeFault>
    ensures { Answers judged_of result (judged (setting_of setting.now) line (binary_of written.entry)) }
{
    let left = judge(alloc, setting, line, written.left)?;
    let right = judge(alloc, setting, line, written.right)?;
    combine(alloc, setting, line, written, left, right)
}

/// Judges an expression of a statement that begins on the line.
///
/// # Errors
/// The first fault of typing, or that there was no memory.
#[cycle(judging)]
pub fn judge<'t>(
    alloc: Global,
    setting: &Setting<'_, 't>,
    line: u32,
    expression: &Expression,
) -> Result<Judged<'t>, TypeFault>
    ensures { Answers judged_of result (judged (setting_of setting.now) line (expr_of expression.now)) }
{
    match expression {
        Expression::Number(n) => Ok(Judged::Known(Typed::Number(*n), Sort::Int)),
        Expression::Null => Ok(Judged::Bare),
        Expression::Name(name) => judge_name(setting, line, name.as_slice()),
        Expression::Parens(inner) => in_parens(alloc, judge(alloc, setting, line, inner)?),
        Expression::Field { object, name } => {
            judge_field(alloc, setting, line, object, name.as_slice())
        }
        Expression::Indexed {
            object,
            name,
            index,
        } => judge_element(alloc, setting, line, object, name.as_slice(), index),
        Expression::Negate(inner) => negate(alloc, line, judge(alloc, setting, line, inner)?),
        Expression::Not(inner) => invert(alloc, line, judge(alloc, setting, line, inner)?),
        Expression::Binary { op, left, right } => {
            let written = Written {
                op: *op,
                left,
                right,
            };
            judge_operator(alloc, setting, line, written)
        }
    }
}

/// An expression that has to fit a type.
///
/// # Errors
/// The first fault of typing, or that there was no memory.
pub fn fit<'t>(
    alloc: Global,
    setting: &Setting<'_, 't>,
    line: u32,
    kind: Word<'t>,
    expression: &Expression,
) -> Result<Typed, TypeFault>
    ensures { Answers typed_view.expr_of result (fitted (setting_of setting.now) line (kind_word kind.entry) (expr_of expression.now)) }
{
    match judge(alloc, setting, line, expression)? {
        Judged::Bare => match kind {
            Word::Int => Err(TypeFault::Mismatch { line }),
            Word::Named(ty) => null(alloc, setting.scope.number_of(ty), expression),
        },
        Judged::Known(value, sort) if sort.same(&Sort::of(kind)) => Ok(value),
        Judged::Known(_, _) => Err(TypeFault::Mismatch { line }),
    }
}

/// An expression that has to be a number, or a truth.
///
/// # Errors
/// The first fault of typing, or that there was no memory.
pub fn of_sort<'t>(
    alloc: Global,
    setting: &Setting<'_, 't>,
    line: u32,
    sort: Sort<'t>,
    expression: &Expression,
) -> Result<Typed, TypeFault>
    ensures { Answers typed_view.expr_of result (of_sort (setting_of setting.now) line (sort_seen sort.entry) (expr_of expression.now)) }
{
    operand(line, sort, judge(alloc, setting, line, expression)?)
}
