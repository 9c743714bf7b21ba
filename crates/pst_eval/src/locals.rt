//! The values that a call begins with: its arguments, and its locals.

ghost use Rattle.std.specs.Prelude.{◌≡◌, IfOk, map};
ghost use Rattle.std.specs.Option.{option_map};
ghost use Rattle.pst_program.specs.Meaning.{values, default_of, first_env};
ghost use Rattle.pst_program.specs.View.{expr_of};
ghost use Rattle.pst_eval.specs.Answers.{values_of};

use crate::values::value;
use pst_base::{Kind, NoMemory, TrapKind};
use pst_heap::PlainHeap;
use pst_program::{Typed, Value};
use std::alloc::Global;

/// The values of the arguments in order, or the kind of the first trap.
///
/// # Errors
/// Where there was no memory.
pub fn arguments(
    alloc: Global,
    list: &[Typed],
    env: &[Value],
    heap: &PlainHeap,
) -> Result<Result<Vec<Value>, TrapKind>, NoMemory>
    ensures { IfOk result (λ all. values_of all ≡ values heap.now.shape (map expr_of list.now) env.now heap.now.heap) }
{
    let mut all = Vec::with_capacity(alloc, list.len())?;
    for e in list {
        match value(e, env, heap) {
            Err(trap) => return Ok(Err(trap)),
            Ok(v) => all.push(v)?,
        }
    }
    Ok(Ok(all))
}

/// What a local holds at first.
fn default(kind: Kind) -> Value
    ensures { result ≡ default_of kind }
{
    match kind {
        Kind::Int => Value::Number(0),
        Kind::Pointer(_) => Value::Null,
    }
}

/// The result of a procedure that ends without `return`.
pub fn default_result(kind: Option<Kind>) -> Option<Value>
    ensures { result ≡ option_map default_of kind }
{
    match kind {
        None => None,
        Some(kind) => Some(default(kind)),
    }
}

/// The arguments, and the other locals as they begin.
///
/// # Errors
/// Where there was no memory.
pub fn first_env(arguments: Vec<Value>, kinds: &[Kind]) -> Result<Vec<Value>, NoMemory>
    ensures { IfOk result (λ env. env.items ≡ first_env kinds.now arguments.items) }
{
    let mut env = arguments;
    let start = env.len();
    for i in start..kinds.len() {
        env.push(default(kinds[i]))?;
    }
    Ok(env)
}
