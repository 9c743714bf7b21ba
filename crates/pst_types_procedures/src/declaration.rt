//! What a declaration adds to the declared names, in the first walk.

ghost use Rattle.std.specs.Prelude.{ℤ, map};
ghost use Rattle.pst_grammar.specs.Syntax as tree;
ghost use Rattle.pst_grammar.specs.View as tree_view;
ghost use Rattle.pst_types_procedures.specs.View.{procedure_text_of, Notes};

use crate::procedure::{ProcedureHead, as_procedure};
use pst_base::{MOST_ROOTS, ProcNo, TypeNo};
use pst_grammar::{Declaration, Fields, Identifier, TypeName};
use pst_types_scope::{RecordType, Scope, Signature, Word, lay_out};
use pst_typing::TypeFault;
use std::alloc::Global;

/// Notes a record type.
fn note_record<'t>(
    alloc: Global,
    scope: &mut Scope<'t>,
    line: u32,
    name: &'t Identifier,
    fields: &'t Fields,
) -> Result<(), TypeFault>
    ensures { (limit : ℤ) → Notes scope.old scope.new result (tree.Record line name.now limit (map tree_view.field_of fields.now)) }
{
    let count = scope.types.len();
    if count >= 64 {
        return Err(TypeFault::TooMany { line });
    }
    let name = name.as_slice();
    if !scope.is_free(name) {
        return Err(TypeFault::Duplicate { line });
    }
    let number = TypeNo(count as u8 + 1);
    let members = lay_out(alloc, fields.as_slice())?;
    scope.types.insert(name, RecordType { number, members })?;
    Ok(())
}

/// Notes a root.
fn note_root<'t>(
    scope: &mut Scope<'t>,
    line: u32,
    name: &'t Identifier,
    kind: &'t TypeName,
) -> Result<(), TypeFault>
    ensures { Notes scope.old scope.new result (tree.Root line name.now (tree_view.type_word_of kind.now)) }
{
    if scope.roots.list.len() >= MOST_ROOTS {
        return Err(TypeFault::TooMany { line });
    }
    let name = name.as_slice();
    if !scope.is_free(name) {
        return Err(TypeFault::Duplicate { line });
    }
    scope.roots.add(name, Word::of_type(kind), None)?;
    Ok(())
}

/// Notes a procedure, whatever its body is.
fn note_procedure<'t>(scope: &mut Scope<'t>, head: &ProcedureHead<'t>) -> Result<(), TypeFault>
    ensures { (body : tree.Phrases) → Notes scope.old scope.new result (tree.Procedure (procedure_text_of head.now body)) }
{
    let count = scope.procedures.len();
    if count >= 256 {
        return Err(TypeFault::TooMany { line: head.line });
    }
    let name = head.name.as_slice();
    if !scope.is_free(name) {
        return Err(TypeFault::Duplicate { line: head.line });
    }
    let signature = Signature {
        number: ProcNo(count as u16),
        query: head.query,
        parameters: head.parameters,
        result: Word::of_result(head.result),
    };
    scope.procedures.insert(name, signature)?;
    Ok(())
}

/// Notes a declaration, judged against those before it: adds its name, with what the name stands for, to the declared
/// names. The body of a procedure is not looked at.
///
/// # Errors
///
/// `TooMany` where there are already as many of its kind as there may be, `Duplicate` where its name is not free, each with
/// the line of the declaration, and `Memory` where memory runs out.
pub fn note<'t>(
    alloc: Global,
    scope: &mut Scope<'t>,
    declaration: &'t Declaration,
) -> Result<(), TypeFault>
    ensures { Notes scope.old scope.new result (tree_view.item_of declaration.now) }
{
    match declaration {
        Declaration::Record {
            line,
            name,
            fields,
            ..
        } => note_record(alloc, scope, *line, name, fields),
        Declaration::Root { line, name, kind } => note_root(scope, *line, name, kind),
        Declaration::Procedure { .. } => match as_procedure(declaration) {
            None => unreachable!(),
            Some((head, _)) => note_procedure(scope, &head),
        },
    }
}
