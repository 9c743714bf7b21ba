//! The types of statements.

ghost use Rattle.std.specs.Prelude.{◌≡◌, length, map};
ghost use Rattle.std.specs.Option.{option_map};
ghost use Rattle.pst_grammar.specs.Syntax as tree;
ghost use Rattle.pst_grammar.specs.View.{expr_of, local_of, phrase_of, phrases_of};
ghost use Rattle.pst_program.specs.View as typed_view;
ghost use Rattle.pst_program.specs.View.{action_of, actions_of};
ghost use Rattle.pst_typing.specs.Statements.{assigned, stored, element_stored, written, made, arguments, received, called, statement, block};
ghost use Rattle.pst_typing.specs.View.{Answers, Approves};
ghost use Rattle.pst_types_scope.specs.View.{kind_word, setting_of, variable_of, signature_of};

use pst_grammar::{Block, Expression, Form, Identifier, Local};
use pst_program::{TypedBlock, TypedForm, TypedList, TypedStatement};
use pst_types_expressions::{Sort, array_field, as_object, fit, judge, of_sort, plain_field};
use pst_types_scope::{Setting, Signature, Target, Word};
use pst_typing::TypeFault;
use std::alloc::Global;

/// An assignment to a variable.
fn assign<'t>(
    alloc: Global,
    setting: &Setting<'_, 't>,
    line: u32,
    target: Target<'t>,
    value: &Expression,
) -> Result<TypedForm, TypeFault>
    ensures { Answers action_of result (assigned (setting_of setting.now) line (variable_of target.entry) (expr_of value.now)) }
{
    match target {
        Target::Local(local) => Ok(TypedForm::Set {
            local: local.number,
            value: fit(alloc, setting, line, local.kind, value)?,
        }),
        Target::Root(root) => {
            if setting.query {
                return Err(TypeFault::QueryWrites { line });
            }
            Ok(TypedForm::SetRoot {
                field: root.slot,
                value: fit(alloc, setting, line, root.kind, value)?,
            })
        }
    }
}

/// An assignment to a field that is no array.
fn store(
    alloc: Global,
    setting: &Setting,
    line: u32,
    object: &Expression,
    name: &[u8],
    value: &Expression,
) -> Result<TypedForm, TypeFault>
    ensures { Answers action_of result (stored (setting_of setting.now) line (expr_of object.now) name.now (expr_of value.now)) }
{
    let object = as_object(line, judge(alloc, setting, line, object)?)?;
    let field = plain_field(setting, line, object.ty, name)?;
    if setting.query {
        return Err(TypeFault::QueryWrites { line });
    }
    Ok(TypedForm::Store {
        object: object.pointer,
        field: field.slot,
        value: fit(alloc, setting, line, field.kind, value)?,
    })
}

/// An assignment to an element of an array.
fn store_element(
    alloc: Global,
    setting: &Setting,
    line: u32,
    object: &Expression,
    name: &[u8],
    index: &Expression,
    value: &Expression,
) -> Result<TypedForm, TypeFault>
    ensures { Answers action_of result (element_stored (setting_of setting.now) line (expr_of object.now) name.now (expr_of index.now) (expr_of value.now)) }
{
    let object = as_object(line, judge(alloc, setting, line, object)?)?;
    let array = array_field(setting, line, object.ty, name)?;
    if setting.query {
        return Err(TypeFault::QueryWrites { line });
    }
    let index = of_sort(alloc, setting, line, Sort::Int, index)?;
    Ok(TypedForm::StoreIndexed {
        object: object.pointer,
        field: array.slot,
        elements: array.elements,
        index,
        value: fit(alloc, setting, line, array.kind, value)?,
    })
}

/// An assignment to a place.
fn write(
    alloc: Global,
    setting: &Setting,
    line: u32,
    to: &Expression,
    value: &Expression,
) -> Result<TypedForm, TypeFault>
    ensures { Answers action_of result (written (setting_of setting.now) line (expr_of to.now) (expr_of value.now)) }
{
    match to {
        Expression::Name(name) => match setting.variable(name.as_slice()) {
            None => Err(TypeFault::Unknown { line }),
            Some(target) => assign(alloc, setting, line, target, value),
        },
        Expression::Field { object, name } => {
            store(alloc, setting, line, object, name.as_slice(), value)
        }
        Expression::Indexed {
            object,
            name,
            index,
        } => store_element(alloc, setting, line, object, name.as_slice(), index, value),
        Expression::Number(_)
        | Expression::Null
        | Expression::Parens(_)
        | Expression::Negate(_)
        | Expression::Not(_)
        | Expression::Binary { .. } => Err(TypeFault::Mismatch { line }),
    }
}

/// A new record.
fn make(setting: &Setting, line: u32, name: &[u8], ty: &[u8]) -> Result<TypedForm, TypeFault>
    ensures { Answers action_of result (made (setting_of setting.now) line name.now ty.now) }
{
    let local = match setting.local(name) {
        None => return Err(TypeFault::Unknown { line }),
        Some(local) => local,
    };
    let number = match setting.scope.record(ty) {
        None => return Err(TypeFault::Unknown { line }),
        Some(number) => number,
    };
    if setting.query {
        return Err(TypeFault::QueryWrites { line });
    }
    if !Sort::of(local.kind).same(&Sort::Pointer(ty)) {
        return Err(TypeFault::Mismatch { line });
    }
    Ok(TypedForm::New {
        local: local.number,
        ty: number,
    })
}

/// The arguments of a call, as many as there are parameters.
fn pass(
    alloc: Global,
    setting: &Setting,
    line: u32,
    parameters: &[Local],
    values: &[Expression],
) -> Result<TypedList, TypeFault>
    requires { length values.now ≡ length parameters.now }
    ensures { Answers (map typed_view.expr_of) result (arguments (setting_of setting.now) line (map local_of parameters.now) (map expr_of values.now)) }
{
    let mut items = Vec::with_capacity(alloc, values.len())?;
    for (index, value) in values.iter().enumerate() {
        let kind = Word::of_type(&parameters[index].kind);
        items.push(fit(alloc, setting, line, kind, value)?)?;
    }
    Ok(TypedList::from_vec(items))
}

/// Where the result of a call goes.
fn receive(
    setting: &Setting,
    line: u32,
    result_kind: Option<Word>,
    name: &Option<Identifier>,
) -> Result<Option<u16>, TypeFault>
    ensures { Answers (λ to. to) result (received (setting_of setting.now) line (option_map kind_word result_kind.entry) name.now) }
{
    let local = match name {
        None => return Ok(None),
        Some(name) => match setting.local(name.as_slice()) {
            None => return Err(TypeFault::Unknown { line }),
            Some(local) => local,
        },
    };
    match result_kind {
        Some(kind) if Sort::of(kind).same(&Sort::of(local.kind)) => Ok(Some(local.number)),
        _ => Err(TypeFault::Mismatch { line }),
    }
}

/// A call of a procedure.
fn call<'t>(
    alloc: Global,
    setting: &Setting<'_, 't>,
    line: u32,
    signature: Signature<'t>,
    name: &Option<Identifier>,
    values: &[Expression],
) -> Result<TypedForm, TypeFault>
    ensures { Answers action_of result (called (setting_of setting.now) line (signature_of signature.entry) name.now (map expr_of values.now)) }
{
    if setting.query && !signature.query {
        return Err(TypeFault::QueryWrites { line });
    }
    if values.len() != signature.parameters.len() {
        return Err(TypeFault::Mismatch { line });
    }
    let arguments = pass(alloc, setting, line, signature.parameters, values)?;
    let into = receive(setting, line, signature.result, name)?;
    Ok(TypedForm::Call {
        result: into,
        procedure: signature.number,
        arguments,
    })
}

/// A return, with a result exactly where the procedure has one.
fn give_back(
    alloc: Global,
    setting: &Setting,
    line: u32,
    value: &Option<Expression>,
) -> Result<TypedForm, TypeFault>
    ensures { Answers action_of result (statement (setting_of setting.now) line (tree.Return (option_map expr_of value.now))) }
{
    match value {
        None => match setting.result {
            None => Ok(TypedForm::Return(None)),
            Some(_) => Err(TypeFault::Mismatch { line }),
        },
        Some(value) => match setting.result {
            None => Err(TypeFault::Mismatch { line }),
            Some(kind) => Ok(TypedForm::Return(Some(fit(alloc, setting, line, kind, value)?))),
        },
    }
}

/// A number that is printed.
fn print(
    alloc: Global,
    setting: &Setting,
    line: u32,
    value: &Expression,
) -> Result<TypedForm, TypeFault>
    ensures { Answers action_of result (statement (setting_of setting.now) line (tree.Print (expr_of value.now))) }
{
    let value = of_sort(alloc, setting, line, Sort::Int, value)?;
    Ok(TypedForm::Print(value))
}

/// A statement that begins on the line.
#[cycle(block)]
fn judge_form(
    alloc: Global,
    setting: &Setting,
    line: u32,
    form: &Form,
) -> Result<TypedForm, TypeFault>
    ensures { Answers action_of result (statement (setting_of setting.now) line (phrase_of form.now)) }
{
    match form {
        Form::New { name, ty } => make(setting, line, name.as_slice(), ty.as_slice()),
        Form::Call {
            result: name,
            procedure,
            arguments,
        } => match setting.scope.signature(procedure.as_slice()) {
            None => Err(TypeFault::Unknown { line }),
            Some(signature) => call(alloc, setting, line, signature, name, arguments.as_slice()),
        },
        Form::Write { place: to, value } => write(alloc, setting, line, to, value),
        Form::Print(value) => print(alloc, setting, line, value),
        Form::If { condition, yes, no } => {
            let condition = of_sort(alloc, setting, line, Sort::Truth, condition)?;
            let yes = judge_block(alloc, setting, yes)?;
            let no = match no {
                None => None,
                Some(no) => Some(judge_block(alloc, setting, no)?),
            };
            Ok(TypedForm::If { condition, yes, no })
        }
        Form::While { condition, body } => {
            let condition = of_sort(alloc, setting, line, Sort::Truth, condition)?;
            let body = judge_block(alloc, setting, body)?;
            Ok(TypedForm::While { condition, body })
        }
        Form::Return(value) => give_back(alloc, setting, line, value),
    }
}

/// Judges the statements of a block in order, each with the blocks inside it: the first fault with its line, or the typed
/// block. Recursion is as deep as blocks stand in one another.
///
/// # Errors
/// The first fault of typing, or that there was no memory.
#[cycle(block)]
pub fn judge_block(
    alloc: Global,
    setting: &Setting,
    statements: &Block,
) -> Result<TypedBlock, TypeFault>
    ensures { Answers actions_of result (block (setting_of setting.now) (phrases_of statements.now)) }
{
    let mut items = Vec::with_capacity(alloc, statements.items.len())?;
    for statement in &statements.items {
        let form = judge_form(alloc, setting, statement.line, &statement.form)?;
        items.push(TypedStatement {
            line: statement.line,
            form,
        })?;
    }
    Ok(TypedBlock { items })
}

/// Judges a statement for the verdict alone. It is let go as soon as it is typed.
fn approve_form(alloc: Global, setting: &Setting, line: u32, form: &Form) -> Result<(), TypeFault>
    ensures { Approves result (statement (setting_of setting.now) line (phrase_of form.now)) }
{
    let _typed = judge_form(alloc, setting, line, form)?;
    Ok(())
}

/// Judges the statements of a block in order for the verdict alone: the first fault with its line, or none. No more than one typed
/// statement is kept at a time.
///
/// # Errors
/// The first fault of typing, or that there was no memory.
pub fn approve_block(alloc: Global, setting: &Setting, statements: &Block) -> Result<(), TypeFault>
    ensures { Approves result (block (setting_of setting.now) (phrases_of statements.now)) }
{
    for statement in &statements.items {
        approve_form(alloc, setting, statement.line, &statement.form)?;
    }
    Ok(())
}
