//! The two walks over the declarations of a program.
//!
//! Nearly all of a tree are the bodies of its procedures. The names, fields and parameters of the declarations are looked
//! at to the end, since the scope refers to them, but a body only once, in the second walk. So the bodies are taken out of
//! the declarations first, and each is let go as soon as its procedure is typed.

ghost use Rattle.std.specs.Prelude.{◌≡◌, ℕ, List, Ok, IfOk, length, map};
ghost use Rattle.pst_grammar.specs.Syntax as tree;
ghost use Rattle.pst_grammar.specs.View as tree_view;
ghost use Rattle.pst_grammar.specs.Depth.{IsShallow};
ghost use Rattle.pst_program.specs.View.{routines_of};
ghost use Rattle.pst_program.specs.Typed.{IsTyped};
ghost use Rattle.pst_typing.specs.Answers.{through};
ghost use Rattle.pst_typing.specs.Declarations.{noted, limit_of, declared, root_alone, checked, NamedProgram};
ghost use Rattle.pst_typing.specs.Names.{nothing_declared};
ghost use Rattle.pst_typing.specs.View.{Answers, Approves};
ghost use Rattle.pst_types_scope.specs.View.{members_of, scope_of};
ghost use Rattle.pst_typing.specs.View.{program_of};
ghost use Rattle.pst_types.specs.View.{draft_of, Declares};
ghost use Rattle.pst_types.specs.Added.{members_judged, with_type};
ghost use Rattle.pst_types.specs.Bodies.{item_with, items_with};

use pst_base::{MOST_IN_DEGREE, Shape, TypeShape};
use pst_grammar::{Block, Declaration, Fields, Identifier, Tree, TypeName};
use pst_program::{Program, TypeEntry, TypeNames, TypedProc, TypedProcs};
use pst_types_procedures::{approve_procedure, as_procedure, judge_procedure, note};
use pst_types_scope::{Members, Scope, Word, judge_fields, names_of, shape_of};
use pst_typing::{TypeFault, accepted_programs_are_typed};
use std::alloc::{AllocError, Global};
use std::mem;

/// A typed program as far as it is made.
#[derive(Drop)]
pub(crate) struct Draft {
    pub(crate) shape: Vec<TypeShape>,
    pub(crate) names: Vec<TypeEntry>,
    pub(crate) procedures: Vec<TypedProc>,
}

/// The first walk: the declared names.
fn gather<'t>(alloc: Global, declarations: &'t [Declaration]) -> Result<Scope<'t>, TypeFault>
    ensures { Answers scope_of result (through noted nothing_declared (map tree_view.item_of declarations.entry.now)) }
{
    let mut scope = Scope::new(alloc);
    for declaration in declarations {
        note(alloc, &mut scope, declaration)?;
    }
    Ok(scope)
}

/// Adds a record type and its names.
fn add_type(
    alloc: Global,
    scope: &Scope,
    draft: &mut Draft,
    limit: u8,
    name: &[u8],
    members: &Members,
) -> Result<(), TypeFault>
    ensures { Answers (λ _. draft_of draft.new) result (Ok (with_type (scope_of scope.now) (draft_of draft.old) limit name.now (members_of members.now))) }
{
    draft.shape.push(shape_of(alloc, scope, limit, members)?)?;
    draft.names.push(names_of(alloc, name, members)?)?;
    Ok(())
}

/// What is there before the second walk: the root record.
fn root_alone(alloc: Global, scope: &Scope) -> Result<Draft, TypeFault>
    ensures { Answers draft_of result (Ok (root_alone (scope_of scope.now))) }
{
    let mut draft = Draft {
        shape: Vec::new(alloc),
        names: Vec::new(alloc),
        procedures: Vec::new(alloc),
    };
    add_type(alloc, scope, &mut draft, 1, b"root", &scope.roots)?;
    Ok(draft)
}

/// The in-degree limit, if it is from 1 to 16.
fn limit_of(limit: i64) -> Option<u8>
    ensures { result ≡ limit_of limit }
{
    if (1..=i64::from(MOST_IN_DEGREE)).contains(&limit) {
        Some(limit as u8)
    } else {
        None
    }
}

/// Judges a record type: its in-degree limit, then its fields from the first to the last.
fn judge_members<'t>(
    alloc: Global,
    scope: &Scope<'t>,
    line: u32,
    limit: i64,
    fields: &'t Fields,
) -> Result<(u8, Members<'t>), TypeFault>
    ensures { Answers (λ p. (p.0, members_of p.1)) result (members_judged (scope_of scope.now) line limit (map tree_view.field_of fields.entry.now)) }
{
    let limit = match limit_of(limit) {
        None => return Err(TypeFault::Limit { line }),
        Some(limit) => limit,
    };
    Ok((limit, judge_fields(alloc, scope, fields.as_slice())?))
}

/// Judges a record type, and adds it.
fn judge_record(
    alloc: Global,
    scope: &Scope,
    draft: &mut Draft,
    line: u32,
    name: &Identifier,
    limit: i64,
    fields: &Fields,
) -> Result<(), TypeFault>
    ensures { Declares scope.now draft.old draft.new result (tree.Record line name.now limit (map tree_view.field_of fields.now)) }
{
    let (limit, members) = judge_members(alloc, scope, line, limit, fields)?;
    add_type(alloc, scope, draft, limit, name.as_slice(), &members)
}

/// Judges a root: its type has to be known.
fn judge_root(scope: &Scope, line: u32, kind: &TypeName) -> Result<(), TypeFault>
    ensures { (before : NamedProgram) (name : List ℕ) → Answers (λ _. before) result (declared (scope_of scope.now) before (tree.Root line name (tree_view.type_word_of kind.now))) }
{
    if !scope.is_known(Word::of_type(kind)) {
        return Err(TypeFault::Unknown { line });
    }
    Ok(())
}

/// Judges a declaration with this body after those before it, and adds what it says. The body is let go.
fn judge_declaration<'t>(
    alloc: Global,
    scope: &Scope<'t>,
    draft: &mut Draft,
    declaration: &'t Declaration,
    body: Block,
) -> Result<(), TypeFault>
    ensures { Declares scope.now draft.old draft.new result (item_with body declaration.now) }
{
    match declaration {
        Declaration::Record {
            line,
            name,
            limit,
            fields,
        } => judge_record(alloc, scope, draft, *line, name, *limit, fields),
        Declaration::Root { line, kind, .. } => judge_root(scope, *line, kind),
        Declaration::Procedure { .. } => match as_procedure(declaration) {
            None => unreachable!(),
            Some((head, _)) => {
                draft
                    .procedures
                    .push(judge_procedure(alloc, scope, &head, body)?)?;
                Ok(())
            }
        },
    }
}

/// The second walk: what the declarations say, each with its body. Each body is let go before the next is looked at.
fn judge_all<'t>(
    alloc: Global,
    scope: &Scope<'t>,
    declarations: &'t [Declaration],
    bodies: Vec<Block>,
) -> Result<Draft, TypeFault>
    requires { length bodies.items ≡ length declarations.now }
    ensures { let s = scope_of scope.now in Answers draft_of result (through (declared s) (root_alone s) (items_with bodies.items declarations.entry.now)) }
{
    let mut draft = root_alone(alloc, scope)?;
    for (declaration, body) in declarations.iter().zip(bodies) {
        judge_declaration(alloc, scope, &mut draft, declaration, body)?;
    }
    Ok(draft)
}

/// Takes the body out of a declaration and leaves an empty one. A record type and a root have no body, and give an empty one.
fn take_body(alloc: Global, declaration: &mut Declaration) -> Block
    ensures { item_with result declaration.new ≡ tree_view.item_of declaration.old }
{
    let empty = Block {
        items: Vec::new(alloc),
    };
    match declaration {
        Declaration::Procedure { body, .. } => mem::replace(body, empty),
        Declaration::Record { .. } | Declaration::Root { .. } => empty,
    }
}

/// Takes the bodies out of the declarations, one of each, in order.
fn take_bodies(alloc: Global, declarations: &mut [Declaration]) -> Result<Vec<Block>, AllocError>
    ensures each { IfOk result (λ bodies. length bodies.items ≡ length declarations.new) }
    ensures whole { IfOk result (λ bodies. items_with bodies.items declarations.new ≡ map tree_view.item_of declarations.old) }
{
    let mut bodies = Vec::new(alloc);
    for declaration in declarations.iter_mut() {
        bodies.push(take_body(alloc, declaration))?;
    }
    Ok(bodies)
}

/// The program of this language that a draft has become. A function of its own, since nothing can fail here any more.
fn finished(language: u8, draft: Draft) -> Program
    ensures program { program_of result ≡ draft_of draft }
    ensures language { result.language ≡ language }
{
    Program {
        language,
        shape: Shape::from_vec(draft.shape),
        names: TypeNames::from_vec(draft.names),
        procedures: TypedProcs {
            items: draft.procedures,
        },
    }
}

/// Both walks over the declarations of a program of this language, whose bodies were taken out of them.
fn walk(
    alloc: Global,
    language: u8,
    declarations: &[Declaration],
    bodies: Vec<Block>,
) -> Result<Program, TypeFault>
    requires { length bodies.items ≡ length declarations.now }
    ensures answer { Answers program_of result (checked (items_with bodies.items declarations.now)) }
    ensures language { IfOk result (λ p. p.language ≡ language) }
{
    let scope = gather(alloc, declarations)?;
    let draft = judge_all(alloc, &scope, declarations, bodies)?;
    Ok(finished(language, draft))
}

/// Checks the types of a program whose expressions are no deeper than 64 and whose blocks are no deeper than 16, as in
/// each tree that the parser gives. There are two walks over the declarations: the first notes the declared names, and
/// the second judges each declaration with its statements. The first fault is the answer; without one it is the typed
/// program, of the tree's language. The language changes nothing else: a tree of language 1 has no arrays.
///
/// The tree is let go as it is typed, the body of each procedure before the next one is looked at, so that tree and typed
/// program never stand side by side as a whole.
///
/// Names are found in constant time, so this takes time that is linear in the tree.
///
/// # Errors
///
/// The first fault with its line, or `Memory` where memory runs out before it is found. The tree is let go then too.
pub fn check(alloc: Global, tree: Tree) -> Result<Program, TypeFault>
    requires { IsShallow (tree_view.items_of tree) }
    ensures answer { Answers program_of result (checked (tree_view.items_of tree)) }
    ensures typed { IfOk result (λ p. IsTyped (routines_of p)) }
    ensures language { IfOk result (λ p. p.language ≡ tree.language) }
{
    accepted_programs_are_typed();
    let mut declarations = tree.declarations.items;
    let bodies = take_bodies(alloc, &mut declarations)?;
    walk(alloc, tree.language, &declarations, bodies)
}

/// Judges a declaration for the verdict alone, which does not depend on what those before it say.
fn approve_declaration<'t>(
    alloc: Global,
    scope: &Scope<'t>,
    declaration: &'t Declaration,
) -> Result<(), TypeFault>
    ensures { (before : NamedProgram) → Approves result (declared (scope_of scope.now) before (tree_view.item_of declaration.entry.now)) }
{
    match declaration {
        Declaration::Record {
            line,
            limit,
            fields,
            ..
        } => {
            let _judged = judge_members(alloc, scope, *line, *limit, fields)?;
            Ok(())
        }
        Declaration::Root { line, kind, .. } => judge_root(scope, *line, kind),
        Declaration::Procedure { .. } => match as_procedure(declaration) {
            None => unreachable!(),
            Some((head, body)) => approve_procedure(alloc, scope, &head, body),
        },
    }
}

/// The second walk for the verdict alone.
fn approve_all<'t>(
    alloc: Global,
    scope: &Scope<'t>,
    declarations: &'t [Declaration],
) -> Result<(), TypeFault>
    ensures { let s = scope_of scope.now in (before : NamedProgram) → Approves result (through (declared s) before (map tree_view.item_of declarations.entry.now)) }
{
    for declaration in declarations {
        approve_declaration(alloc, scope, declaration)?;
    }
    Ok(())
}

/// Checks the types of a program for the verdict alone: the first fault is the answer, as [`check`] gives it. Nothing typed is kept
/// but one statement at a time, and the tree stays.
///
/// # Errors
///
/// The first fault with its line, or `Memory` where memory runs out before it is found.
pub fn approve(alloc: Global, tree: &Tree) -> Result<(), TypeFault>
    ensures { Approves result (checked (tree_view.items_of tree.now)) }
{
    let declarations = tree.declarations.items.as_slice();
    let scope = gather(alloc, declarations)?;
    approve_all(alloc, &scope, declarations)
}
