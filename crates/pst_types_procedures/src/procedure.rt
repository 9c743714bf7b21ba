//! What a procedure says.

ghost use Rattle.std.specs.Prelude.{◌≡◌, ◌≤◌, Ok, Bool, OnOk, [], ◌∷◌, ◌++◌, map};
ghost use Rattle.std.specs.Option.{option_map};
ghost use Rattle.pst_grammar.specs.Syntax.{Phrases};
ghost use Rattle.pst_grammar.specs.View as tree_view;
ghost use Rattle.pst_grammar.specs.View.{phrases_of};
ghost use Rattle.pst_program.specs.View.{procedure_of};
ghost use Rattle.pst_typing.specs.Declarations.{variable, is_new, is_result_known, procedure};
ghost use Rattle.pst_typing.specs.Names.{kind_of, is_named};
ghost use Rattle.pst_typing.specs.View.{Answers, Approves};
ghost use Rattle.pst_types_scope.specs.View.{kind_word, local_of, scope_of, setting_of};
ghost use Rattle.pst_types_procedures.specs.View.{procedure_text_of, as_procedure, variables_of, AddsVariables};
ghost use Rattle.pst_types_procedures.specs.Parts.{counted, variables_in, stand_in, procedure_in, by_parts};

use indexmap::IndexMap;
use pst_base::{Kind, Kinds, Text};
use pst_grammar::{Block, Declaration, Identifier, Local, TypeName};
use pst_program::TypedProc;
use pst_types_scope::{Scope, Setting, Variable, Word};
use pst_types_statements::{approve_block, judge_block};
use pst_typing::TypeFault;
use std::alloc::{AllocError, Global};

/// A procedure as it was written, without its body: its line, from 1 on, whether it is a query, its name, its parameters, the
/// type of what it gives, and its locals.
#[derive(Clone, Copy)]
pub struct ProcedureHead<'t> {
    pub line: u32,
    pub query: bool,
    pub name: &'t Identifier,
    pub parameters: &'t [Local],
    pub result: &'t Option<TypeName>,
    pub locals: &'t [Local],
}

/// The two parts of a procedure, its head and its body. `None` of a record type and of a root.
pub fn as_procedure<'t>(declaration: &'t Declaration) -> Option<(ProcedureHead<'t>, &'t Block)>
    ensures { option_map (λ p. procedure_text_of p.0 (phrases_of p.1.now)) result ≡ as_procedure (tree_view.item_of declaration.now) }
{
    match declaration {
        Declaration::Record { .. } | Declaration::Root { .. } => None,
        Declaration::Procedure {
            line,
            query,
            name,
            parameters,
            result,
            locals,
            body,
        } => {
            let head = ProcedureHead {
                line: *line,
                query: *query,
                name,
                parameters: parameters.as_slice(),
                result,
                locals: locals.as_slice(),
            };
            Some((head, body))
        }
    }
}

/// Whether neither a parameter or local before nor a root has the name.
#[tactic(auto, using(pst_types_scope::proofs::Lookups::look_ups))]
fn is_new<'t>(scope: &Scope<'t>, variables: &IndexMap<&'t [u8], Variable<'t>>, name: &[u8]) -> bool
    ensures { result ≡ is_new (scope_of scope.now) (variables_of variables.now) name.now }
{
    !variables.contains_key(name) && !scope.roots.has(name)
}

/// Adds a parameter or a local whose name is new.
#[tactic(auto, using(pst_types_scope::proofs::Lookups::look_ups))]
fn insert<'t>(
    variables: &mut IndexMap<&'t [u8], Variable<'t>>,
    name: &'t [u8],
    variable: Variable<'t>,
) -> Result<(), AllocError>
    requires { is_named name.now (variables_of variables.old) ≡ Bool.false }
    ensures { OnOk result (variables_of variables.new ≡ variables_of variables.old ++ (name.now, local_of variable.entry) ∷ []) }
{
    variables.insert(name, variable)?;
    Ok(())
}

/// Judges a parameter or a local after those before it, of which there may be so many, and adds it.
#[tactic(auto, using(pst_types_scope::proofs::Lookups::look_ups))]
fn add_variable<'t>(
    scope: &Scope<'t>,
    most: usize,
    variables: &mut IndexMap<&'t [u8], Variable<'t>>,
    local: &'t Local,
) -> Result<(), TypeFault>
    requires { most ≤ 72 }
    ensures { Answers (λ _. variables_of variables.new) result (variable (scope_of scope.now) most (variables_of variables.old) (tree_view.local_of local.now)) }
{
    let line = local.line;
    let count = variables.len();
    if count >= most {
        return Err(TypeFault::TooMany { line });
    }
    let name = local.name.as_slice();
    if !is_new(scope, variables, name) {
        return Err(TypeFault::Duplicate { line });
    }
    let kind = Word::of_type(&local.kind);
    if !scope.is_known(kind) {
        return Err(TypeFault::Unknown { line });
    }
    let number = count as u16;
    insert(variables, name, Variable { number, kind })?;
    Ok(())
}

/// Judges parameters or locals after others, so many in all at most.
fn add_variables<'t>(
    scope: &Scope<'t>,
    most: usize,
    variables: &mut IndexMap<&'t [u8], Variable<'t>>,
    locals: &'t [Local],
) -> Result<(), TypeFault>
    requires { most ≤ 72 }
    ensures { AddsVariables scope.now most variables.old variables.new result (map tree_view.local_of locals.now) }
{
    for local in locals {
        add_variable(scope, most, variables, local)?;
    }
    Ok(())
}

/// What the parameters and locals hold.
fn kinds_of<'t>(
    alloc: Global,
    scope: &Scope<'t>,
    variables: &IndexMap<&'t [u8], Variable<'t>>,
) -> Result<Kinds, TypeFault>
    ensures { Answers (λ kinds. kinds) result (Ok (map (λ v. kind_of (scope_of scope.now) v.1.kind) (variables_of variables.now))) }
{
    let mut items = Vec::new(alloc);
    for variable in variables.values().as_slice() {
        items.push(scope.kind_of(variable.kind))?;
    }
    Ok(Kinds::from_vec(items))
}

/// What a procedure gives.
fn result_kind(scope: &Scope, kind: Option<Word>) -> Option<Kind>
    ensures { result ≡ option_map (kind_of (scope_of scope.now)) (option_map kind_word kind.entry) }
{
    match kind {
        None => None,
        Some(kind) => Some(scope.kind_of(kind)),
    }
}

/// Whether a procedure gives nothing, or something of a type that is declared.
fn is_result_known(scope: &Scope, kind: Option<Word>) -> bool
    ensures { result ≡ is_result_known (scope_of scope.now) (option_map kind_word kind.entry) }
{
    match kind {
        None => true,
        Some(kind) => scope.is_known(kind),
    }
}

/// Judges the parameters of a procedure, what it gives, and its locals, whatever its body is; gives how many are parameters.
fn declare<'t>(
    scope: &Scope<'t>,
    variables: &mut IndexMap<&'t [u8], Variable<'t>>,
    head: &ProcedureHead<'t>,
) -> Result<u8, TypeFault>
    requires { variables.old.entries ≡ [] }
    ensures { (body : Phrases) → Answers (counted (variables_of variables.new)) result (variables_in (scope_of scope.now) (procedure_text_of head.now body)) }
{
    add_variables(scope, 8, variables, head.parameters)?;
    let parameters = variables.len();
    if !is_result_known(scope, Word::of_result(head.result)) {
        return Err(TypeFault::Unknown { line: head.line });
    }
    add_variables(scope, parameters + 64, variables, head.locals)?;
    Ok(parameters as u8)
}

/// Where the statements of a procedure stand, once its names are judged, and how many of them are parameters, whatever its body is.
fn stand_in<'a, 't>(
    alloc: Global,
    scope: &'a Scope<'t>,
    head: &ProcedureHead<'t>,
) -> Result<(Setting<'a, 't>, u8), TypeFault>
    ensures { (body : Phrases) → Answers (λ p. (setting_of p.0, p.1)) result (stand_in (scope_of scope.entry.now) (procedure_text_of head.now body)) }
{
    let mut locals = IndexMap::new(alloc);
    let arguments = declare(scope, &mut locals, head)?;
    let setting = Setting {
        scope,
        query: head.query,
        result: Word::of_result(head.result),
        locals,
    };
    Ok((setting, arguments))
}

/// Judges the statements of a procedure with so many parameters, in the setting of its names.
fn judge_in(
    alloc: Global,
    setting: &Setting,
    arguments: u8,
    head: &ProcedureHead,
    body: &Block,
) -> Result<TypedProc, TypeFault>
    ensures { Answers procedure_of result (procedure_in (setting_of setting.now) arguments (procedure_text_of head.now (phrases_of body.now))) }
{
    let body = judge_block(alloc, setting, body)?;
    Ok(TypedProc {
        name: Text::from_vec(Vec::from_slice(alloc, head.name.as_slice())?),
        query: head.query,
        arguments,
        result: result_kind(setting.scope, setting.result),
        kinds: kinds_of(alloc, setting.scope, &setting.locals)?,
        body,
    })
}

/// Judges a procedure by its parts: its names, and then its statements.
fn judge_parts<'t>(
    alloc: Global,
    scope: &Scope<'t>,
    head: &ProcedureHead<'t>,
    body: &Block,
) -> Result<TypedProc, TypeFault>
    ensures { Answers procedure_of result (by_parts (scope_of scope.now) (procedure_text_of head.now (phrases_of body.now))) }
{
    let (setting, arguments) = stand_in(alloc, scope, head)?;
    judge_in(alloc, &setting, arguments, head, body)
}

/// Judges a procedure with this body in the scope of the declared names: its parameters, what it gives, its locals, and then
/// its statements. Gives the typed procedure. Its body is let go, which is nearly all of its text.
///
/// # Errors
///
/// The first fault with its line, or `Memory` where memory runs out before it is found. The body is let go then too.
pub fn judge_procedure<'t>(
    alloc: Global,
    scope: &Scope<'t>,
    head: &ProcedureHead<'t>,
    body: Block,
) -> Result<TypedProc, TypeFault>
    ensures { Answers procedure_of result (procedure (scope_of scope.now) (procedure_text_of head.now (phrases_of body))) }
{
    judge_parts(alloc, scope, head, &body)
}

/// Judges a procedure with this body in the scope of the declared names for the verdict alone. No more than one typed statement is
/// kept at a time.
///
/// # Errors
///
/// The first fault with its line, as [`judge_procedure`] gives it, or `Memory` where memory runs out before it is found.
pub fn approve_procedure<'t>(
    alloc: Global,
    scope: &Scope<'t>,
    head: &ProcedureHead<'t>,
    body: &Block,
) -> Result<(), TypeFault>
    ensures { Approves result (procedure (scope_of scope.now) (procedure_text_of head.now (phrases_of body.now))) }
{
    let (setting, _arguments) = stand_in(alloc, scope, head)?;
    approve_block(alloc, &setting, body)
}
