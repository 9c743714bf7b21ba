//! The fields that a path names.

ghost use Rattle.std.specs.Prelude.{◌≡◌, ◌∷◌, IfOk, IfSome, position};
ghost use Rattle.std.specs.Option.{option_map};
ghost use Rattle.pst_questions.specs.Path.{is_dot, names_of, names_in, field_step, step_named, resolved, IsPathIn};

use crate::slots::{PathStep, Slots};
use pst_base::{Kind, NoMemory, TypeNo};
use pst_program::Program;
use std::alloc::Global;

/// The type of the root record, whose fields are the roots.
const ROOT_TYPE: TypeNo = TypeNo(0);

/// The field of a record type with the name, if it is no array.
fn field_step(program: &Program, ty: TypeNo, name: &[u8]) -> Option<PathStep>
    ensures { result ≡ field_step program.now ty name.now }
{
    let slot = program.plain_field(ty, name)?;
    let shape = program.shape().as_slice().get(usize::from(ty.0))?;
    let kind = shape.kind(slot)?;
    Some(PathStep { slot, kind })
}

/// The field with the name, of the record that a pointer of this kind leads to.
fn step_named(program: &Program, kind: Kind, name: &[u8]) -> Option<PathStep>
    ensures { result ≡ step_named program.now kind name.now }
{
    match kind {
        Kind::Int => None,
        Kind::Pointer(ty) => field_step(program, ty, name),
    }
}

/// Where the first dot stands.
fn first_dot(path: &[u8]) -> Option<usize>
    ensures { result ≡ position is_dot path.now }
{
    path.iter().position(|byte| *byte == b'.')
}

/// The first name of a path, and what stands behind its dot, if it has one.
fn split_name(path: &[u8]) -> (&[u8], Option<&[u8]>)
    ensures { names_of path.now ≡ result.0.now ∷ names_in (option_map (λ behind. behind.now) result.1) }
{
    match first_dot(path) {
        None => (path, None),
        Some(dot) => (&path[..dot], Some(&path[dot + 1..])),
    }
}

/// The slots of a path, each with the kind of its field. It is None exactly where the path is not valid: its first name is
/// not that of a root, or a further one is not that of a field of the type that the part before points to, or is that of an
/// array.
///
/// # Errors
/// Want of memory.
pub fn resolve(alloc: Global, program: &Program, path: &[u8]) -> Result<Option<Slots>, NoMemory>
    ensures exact { IfOk result (λ slots. slots ≡ resolved program.now path.now) }
    ensures fields { IfOk result (λ slots. IfSome slots (IsPathIn program.now.shape)) }
{
    let mut steps = Vec::new(alloc);
    let mut kind = Kind::Pointer(ROOT_TYPE);
    let mut rest = Some(path);
    while let Some(names) = rest {
        let (name, behind) = split_name(names);
        let Some(step) = step_named(program, kind, name) else {
            return Ok(None);
        };
        kind = step.kind;
        steps.push(step)?;
        rest = behind;
    }
    Ok(Some(Slots::from_vec(steps)))
}
