//! Calls by name.

ghost use Rattle.std.specs.Prelude.{◌≡◌, IfOk, IsSome};
ghost use Rattle.pst_code.specs.Procedures.{procedure_named};
ghost use Rattle.pst_history.specs.Meaning.{kinds_refusal};
ghost use Rattle.pst_engine_runs.specs.Coded.{code_call, code_parameters};
ghost use Rattle.pst_machine.specs.Advance.{task_call};

use pst_base::{NoMemory, Numbers, Text};
use pst_code::Code;
use pst_history::refusal_of_arguments;
use pst_machine::ProcCall;
use pst_script::Refusal;

/// Whether no query, or no procedure that may write, has the name, or the arguments do not fit it.
pub(crate) fn refusal_of_kinds(
    code: &Code,
    query: bool,
    name: &[u8],
    arguments: &[i64],
) -> Option<Refusal>
    ensures { result ≡ kinds_refusal (code_parameters query code.now name.now) arguments.now }
{
    let Some(number) = code.procedure(name) else {
        return Some(Refusal::Name);
    };
    if code.is_query(number) != query {
        return Some(Refusal::Name);
    }
    refusal_of_arguments(code.parameters(number), arguments)
}

/// The call of a procedure by its name.
pub(crate) fn call_of(code: &Code, name: &Text, arguments: &Numbers) -> Result<ProcCall, NoMemory>
    requires { IsSome (procedure_named code.now name.now) }
    ensures { IfOk result (λ call. task_call call ≡ code_call code.now (record { procedure = name.now; arguments = arguments.now })) }
{
    let Some(procedure) = code.procedure(name.as_slice()) else {
        unreachable!()
    };
    let arguments = arguments.copy()?;
    Ok(ProcCall {
        procedure,
        arguments,
    })
}
