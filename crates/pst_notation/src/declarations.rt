//! The text of declarations.

ghost use Rattle.std.specs.Prelude.{◌≡◌, ◌++◌, OnOk, IfOk, map, codes};
ghost use Rattle.std.specs.Option.{option_map};
ghost use Rattle.std.specs.List.{flat_map};
ghost use Rattle.pst_grammar.specs.View.{type_word_of, field_of, local_of, item_of, text_of, phrases_of};
ghost use Rattle.pst_notation.specs.Texts.{line, listed, behind_comma};
ghost use Rattle.pst_notation.specs.Canonical.{type_text, typed_text, elements_text, field_text, parameter_text, local_text, gives_text, sort_text, head_text, body_text, record_text, item_text, language_text, canonical};

use crate::expressions::put_number;
use crate::statements::{put_block, put_line};
use pst_base::{NoMemory, Text};
use pst_grammar::{Block, Declaration, Field, Identifier, Local, Tree, TypeName};
use std::alloc::Global;

/// Puts a type.
fn put_type(out: &mut Vec<u8>, kind: &TypeName) -> Result<(), NoMemory>
    ensures { OnOk result (out.new.items ≡ out.old.items ++ type_text (type_word_of kind.now)) }
{
    match kind {
        TypeName::Int => out.extend_from_slice(b"int"),
        TypeName::Named(name) => out.extend_from_slice(name.as_slice()),
    }
}

/// Puts a name with its type.
fn put_typed(out: &mut Vec<u8>, name: &Identifier, kind: &TypeName) -> Result<(), NoMemory>
    ensures { OnOk result (out.new.items ≡ out.old.items ++ typed_text name.now (type_word_of kind.now)) }
{
    out.extend_from_slice(name.as_slice())?;
    out.extend_from_slice(b": ")?;
    put_type(out, kind)
}

/// Puts what stands behind the type of a field: the number of elements of an array, and the end of the field.
fn put_field_end(out: &mut Vec<u8>, elements: Option<i64>) -> Result<(), NoMemory>
    ensures { OnOk result (out.new.items ≡ out.old.items ++ (elements_text elements ++ codes "; ")) }
{
    if let Some(number) = elements {
        out.extend_from_slice(b" * ")?;
        put_number(out, number)?;
    }
    out.extend_from_slice(b"; ")
}

/// Puts a field.
fn put_field(out: &mut Vec<u8>, field: &Field) -> Result<(), NoMemory>
    ensures { OnOk result (out.new.items ≡ out.old.items ++ field_text (field_of field.now)) }
{
    match field {
        Field::Val {
            line: _,
            name,
            elements,
        } => {
            out.extend_from_slice(b"val ")?;
            out.extend_from_slice(name.as_slice())?;
            out.extend_from_slice(b": int")?;
            put_field_end(out, *elements)
        }
        Field::Ptr {
            line: _,
            name,
            target,
            elements,
        } => {
            out.extend_from_slice(b"ptr ")?;
            out.extend_from_slice(name.as_slice())?;
            out.extend_from_slice(b": ")?;
            out.extend_from_slice(target.as_slice())?;
            put_field_end(out, *elements)
        }
    }
}

/// Puts fields one after another.
fn put_fields(out: &mut Vec<u8>, fields: &[Field]) -> Result<(), NoMemory>
    ensures { OnOk result (out.new.items ≡ out.old.items ++ flat_map field_text (map field_of fields.now)) }
{
    for field in fields {
        put_field(out, field)?;
    }
    Ok(())
}

/// Puts the line of a record type.
fn put_record(
    out: &mut Vec<u8>,
    name: &Identifier,
    limit: i64,
    fields: &[Field],
) -> Result<(), NoMemory>
    ensures { OnOk result (out.new.items ≡ out.old.items ++ record_text name.now limit (map field_of fields.now)) }
{
    out.extend_from_slice(b"record ")?;
    out.extend_from_slice(name.as_slice())?;
    out.extend_from_slice(b" ")?;
    put_number(out, limit)?;
    out.extend_from_slice(b" { ")?;
    put_fields(out, fields)?;
    out.extend_from_slice(b"}\n")
}

/// Puts the line of a root.
fn put_root(out: &mut Vec<u8>, name: &Identifier, kind: &TypeName) -> Result<(), NoMemory>
    ensures { OnOk result (out.new.items ≡ out.old.items ++ line 0 (codes "root " ++ typed_text name.now (type_word_of kind.now) ++ codes ";")) }
{
    out.extend_from_slice(b"root ")?;
    put_typed(out, name, kind)?;
    out.extend_from_slice(b";\n")
}

/// Puts parameters with commas between them.
fn put_parameters(out: &mut Vec<u8>, list: &[Local]) -> Result<(), NoMemory>
    ensures { OnOk result (out.new.items ≡ out.old.items ++ listed parameter_text (map local_of list.now)) }
{
    match list {
        [] => Ok(()),
        [first, rest @ ..] => {
            put_typed(out, &first.name, &first.kind)?;
            put_more_parameters(out, rest)
        }
    }
}

/// Puts parameters, each behind a comma.
fn put_more_parameters(out: &mut Vec<u8>, list: &[Local]) -> Result<(), NoMemory>
    ensures { OnOk result (out.new.items ≡ out.old.items ++ flat_map (behind_comma parameter_text) (map local_of list.now)) }
{
    for parameter in list {
        out.extend_from_slice(b", ")?;
        put_typed(out, &parameter.name, &parameter.kind)?;
    }
    Ok(())
}

/// Puts a result type, if there is one.
fn put_gives(out: &mut Vec<u8>, result_kind: &Option<TypeName>) -> Result<(), NoMemory>
    ensures { OnOk result (out.new.items ≡ out.old.items ++ gives_text (option_map type_word_of result_kind.now)) }
{
    match result_kind {
        None => Ok(()),
        Some(kind) => {
            out.extend_from_slice(b": ")?;
            put_type(out, kind)
        }
    }
}

/// Puts the line of a local.
fn put_local(out: &mut Vec<u8>, local: &Local) -> Result<(), NoMemory>
    ensures { OnOk result (out.new.items ≡ out.old.items ++ local_text (local_of local.now)) }
{
    out.extend_from_slice(b"  var ")?;
    put_typed(out, &local.name, &local.kind)?;
    out.extend_from_slice(b";\n")
}

/// Puts locals, each on a line.
fn put_locals(out: &mut Vec<u8>, locals: &[Local]) -> Result<(), NoMemory>
    ensures { OnOk result (out.new.items ≡ out.old.items ++ flat_map local_text (map local_of locals.now)) }
{
    for local in locals {
        put_local(out, local)?;
    }
    Ok(())
}

/// Puts the word that a procedure or a query begins with, and a space.
fn put_sort(out: &mut Vec<u8>, query: bool) -> Result<(), NoMemory>
    ensures { OnOk result (out.new.items ≡ out.old.items ++ sort_text query) }
{
    if query {
        out.extend_from_slice(b"query ")
    } else {
        out.extend_from_slice(b"proc ")
    }
}

/// Puts the word that a procedure or a query begins with, its name and an opening parenthesis.
fn put_title(out: &mut Vec<u8>, query: bool, name: &Identifier) -> Result<(), NoMemory>
    ensures { OnOk result (out.new.items ≡ out.old.items ++ (sort_text query ++ name.now ++ codes "(")) }
{
    put_sort(out, query)?;
    out.extend_from_slice(name.as_slice())?;
    out.extend_from_slice(b"(")
}

/// Puts what stands behind the parameters on the head line of a procedure.
fn put_opening(out: &mut Vec<u8>, result_kind: &Option<TypeName>) -> Result<(), NoMemory>
    ensures { OnOk result (out.new.items ≡ out.old.items ++ (codes ")" ++ gives_text (option_map type_word_of result_kind.now) ++ codes " {" ++ codes "\n")) }
{
    out.extend_from_slice(b")")?;
    put_gives(out, result_kind)?;
    out.extend_from_slice(b" {\n")
}

/// Puts the head line of a procedure.
fn put_head(
    out: &mut Vec<u8>,
    query: bool,
    name: &Identifier,
    parameters: &[Local],
    result_kind: &Option<TypeName>,
) -> Result<(), NoMemory>
    ensures { OnOk result (out.new.items ≡ out.old.items ++ head_text query name.now (map local_of parameters.now) (option_map type_word_of result_kind.now)) }
{
    put_title(out, query, name)?;
    put_parameters(out, parameters)?;
    put_opening(out, result_kind)
}

/// Puts what stands behind the head of a procedure.
fn put_body(out: &mut Vec<u8>, locals: &[Local], body: &Block) -> Result<(), NoMemory>
    ensures { OnOk result (out.new.items ≡ out.old.items ++ body_text (map local_of locals.now) (phrases_of body.now)) }
{
    put_locals(out, locals)?;
    put_block(out, 2, body)?;
    put_line(out, 0, b"}")
}

/// Puts a declaration.
fn put_declaration(out: &mut Vec<u8>, declaration: &Declaration) -> Result<(), NoMemory>
    ensures { OnOk result (out.new.items ≡ out.old.items ++ item_text (item_of declaration.now)) }
{
    match declaration {
        Declaration::Record {
            line: _,
            name,
            limit,
            fields,
        } => put_record(out, name, *limit, fields.as_slice()),
        Declaration::Root {
            line: _,
            name,
            kind,
        } => put_root(out, name, kind),
        Declaration::Procedure {
            line: _,
            query,
            name,
            parameters,
            result,
            locals,
            body,
        } => {
            put_head(out, *query, name, parameters.as_slice(), result)?;
            put_body(out, locals.as_slice(), body)
        }
    }
}

/// Puts the line that a program of language 2 begins with.
fn put_language(out: &mut Vec<u8>, language: u8) -> Result<(), NoMemory>
    ensures { OnOk result (out.new.items ≡ out.old.items ++ language_text language) }
{
    if language == 2 {
        out.extend_from_slice(b"language 2\n")
    } else {
        Ok(())
    }
}

/// The canonical text of a program: the line `language 2` if it is of that language, each statement on a line, blocks
/// indented by two spaces, one space where one is needed. Comments are not kept.
///
/// # Errors
/// Where there was no memory.
#[tactic(auto, unfolding(crate::specs::Canonical::canonical))]
pub fn print_program(alloc: Global, tree: &Tree) -> Result<Text, NoMemory>
    ensures { IfOk result (λ text. text ≡ canonical (text_of tree.now)) }
{
    let mut out = Vec::new(alloc);
    put_language(&mut out, tree.language)?;
    for declaration in &tree.declarations.items {
        put_declaration(&mut out, declaration)?;
    }
    Ok(Text::from_vec(out))
}
