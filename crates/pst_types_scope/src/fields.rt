//! The fields of a record type.

ghost use Rattle.std.specs.Prelude.{◌≡◌, ◌++◌, OnOk, Ok, IfOk, IfErr, map, replicate};
ghost use Rattle.pst_grammar.specs.View as tree_view;
ghost use Rattle.pst_typing.specs.declared.fault.TypeFault.TheVariants as fault;
ghost use Rattle.pst_typing.specs.Answers.{through};
ghost use Rattle.pst_typing.specs.Declarations.{elements_with, field, targets_of, shape_of, names_of};
ghost use Rattle.pst_typing.specs.Names.{no_members, members_from};
ghost use Rattle.pst_typing.specs.View.{Answers};
ghost use Rattle.pst_types_scope.specs.View.{members_of, scope_of};

use crate::names::{
    Members, Scope, Word, elements_at, elements_of, is_length, length_in, line_of, name_of,
};
use pst_base::{MOST_ELEMENTS, SlotNo, Targets, Text, TypeNo, TypeShape};
use pst_grammar::Field;
use pst_program::{FieldName, FieldNames, TypeEntry};
use pst_typing::TypeFault;
use std::alloc::{AllocError, Global};

/// The fields of a record type; of doubled names the first counts.
///
/// # Errors
/// The first fault of typing, or that there was no memory.
pub fn lay_out<'t>(alloc: Global, fields: &'t [Field]) -> Result<Members<'t>, TypeFault>
    ensures { Answers members_of result (Ok (members_from no_members (map tree_view.field_of fields.entry.now))) }
{
    let mut members = Members::new(alloc);
    for field in fields {
        members.add_new(field)?;
    }
    Ok(members)
}

/// How many elements the fields have with one more field.
fn elements_with(members: &Members, next: &Field) -> usize
    ensures { result ≡ elements_with (members_of members.now) (tree_view.field_of next.now) }
{
    let count = elements_of(length_in(elements_at(next)));
    usize::from(members.values) + usize::from(members.pointers) + usize::from(count)
}

/// Judges a field after those before it, and adds it.
#[tactic(auto, using(crate::proofs::Lookups::look_ups))]
fn add_field<'t>(
    scope: &Scope<'t>,
    members: &mut Members<'t>,
    next: &'t Field,
) -> Result<(), TypeFault>
    ensures { Answers (λ _. members_of members.new) result (field (scope_of scope.now) (members_of members.old) (tree_view.field_of next.now)) }
{
    let line = line_of(next);
    if members.list.len() >= 16 {
        return Err(TypeFault::TooMany { line });
    }
    if members.has(name_of(next)) {
        return Err(TypeFault::Duplicate { line });
    }
    if !is_length(elements_at(next)) {
        return Err(TypeFault::Limit { line });
    }
    if elements_with(members, next) > MOST_ELEMENTS {
        return Err(TypeFault::TooMany { line });
    }
    if !scope.is_known(Word::of_field(next)) {
        return Err(TypeFault::Unknown { line });
    }
    members.add_field(next)?;
    Ok(())
}

/// Judges the fields of a record type.
///
/// # Errors
/// The first fault of typing, or that there was no memory.
pub fn judge_fields<'t>(
    alloc: Global,
    scope: &Scope<'t>,
    fields: &'t [Field],
) -> Result<Members<'t>, TypeFault>
    ensures { Answers members_of result (through (field (scope_of scope.now)) no_members (map tree_view.field_of fields.entry.now)) }
{
    let mut members = Members::new(alloc);
    for field in fields {
        add_field(scope, &mut members, field)?;
    }
    Ok(members)
}

/// Adds the type of a field that holds pointers, once for each of its elements.
fn add_targets(items: &mut Vec<TypeNo>, ty: TypeNo, elements: u8) -> Result<(), AllocError>
    ensures { OnOk result (items.new.items ≡ items.old.items ++ replicate elements ty) }
{
    for _ in 0..elements {
        items.push(ty)?;
    }
    Ok(())
}

/// The types of the elements that hold pointers.
fn targets_of(alloc: Global, scope: &Scope, members: &Members) -> Result<Targets, TypeFault>
    ensures { Answers (λ targets. targets) result (Ok (targets_of (scope_of scope.now) (members_of members.now).list)) }
{
    let mut items = Vec::new(alloc);
    for member in members.list.values().as_slice() {
        if let Word::Named(name) = member.kind {
            add_targets(
                &mut items,
                scope.number_of(name),
                elements_of(member.elements),
            )?;
        }
    }
    Ok(Targets::from_vec(items))
}

/// A record type as a shape has it.
///
/// # Errors
/// The first fault of typing, or that there was no memory.
pub fn shape_of(
    alloc: Global,
    scope: &Scope,
    limit: u8,
    members: &Members,
) -> Result<TypeShape, TypeFault>
    ensures { Answers (λ shape. shape) result (Ok (shape_of (scope_of scope.now) limit (members_of members.now))) }
{
    Ok(TypeShape {
        values: members.values,
        targets: targets_of(alloc, scope, members)?,
        limit,
    })
}

/// A field by its name.
fn named_field(
    alloc: Global,
    name: &[u8],
    slot: SlotNo,
    elements: Option<u8>,
) -> Result<FieldName, TypeFault>
    ensures ok { IfOk result (λ f. (f.name ≡ name.now) × (f.slot ≡ slot) × (f.elements ≡ elements)) }
    ensures err { IfErr result (λ e. e ≡ fault.Memory) }
{
    Ok(FieldName {
        name: Text::from_vec(Vec::from_slice(alloc, name)?),
        slot,
        elements,
    })
}

/// The names of a record type and of its fields.
///
/// # Errors
/// The first fault of typing, or that there was no memory.
pub fn names_of(alloc: Global, name: &[u8], members: &Members) -> Result<TypeEntry, TypeFault>
    ensures { Answers (λ names. names) result (Ok (names_of name.now (members_of members.now))) }
{
    let mut fields = Vec::new(alloc);
    let declared = members.list.values().as_slice();
    for (index, field) in members.list.keys().as_slice().iter().enumerate() {
        let member = &declared[index];
        let slot = members.slot(member);
        fields.push(named_field(alloc, field, slot, member.elements)?)?;
    }
    Ok(TypeEntry {
        name: Text::from_vec(Vec::from_slice(alloc, name)?),
        fields: FieldNames::from_vec(fields),
    })
}
