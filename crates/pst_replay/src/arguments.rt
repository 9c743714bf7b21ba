//! Whether a procedure may be called so: by its name and its arguments.

ghost use Rattle.std.specs.Prelude.{◌≡◌, ◌≤◌, length};
ghost use Rattle.pst_program.specs.View.{routines_of};
ghost use Rattle.pst_program.specs.Typed.{parameters_named};
ghost use Rattle.pst_history.specs.Meaning.{kinds_refusal};
ghost use Rattle.pst_history.specs.Direct.{meaning_of};

use pst_history::refusal_of_arguments;
use pst_program::Program;
use pst_script::Refusal;

/// Whether no query, or no procedure that may write, has the name, or the arguments do not fit it.
fn refusal_of_kinds(
    program: &Program,
    query: bool,
    procedure: &[u8],
    arguments: &[i64],
) -> Option<Refusal>
    requires { length program.now.procedures.items.items ≤ 65536 }
    ensures { result ≡ kinds_refusal (parameters_named query (routines_of program.now) procedure.now) arguments.now }
{
    let Some(number) = program.procedure(procedure) else {
        return Some(Refusal::Name);
    };
    if program.is_query(number) != query {
        return Some(Refusal::Name);
    }
    refusal_of_arguments(program.parameters(number), arguments)
}

/// The refusal of a call of a procedure that may write, by its name and arguments.
#[tactic(auto, unfolding(pst_history::specs::Direct::direct))]
pub(crate) fn refusal_of_procedure(
    program: &Program,
    procedure: &[u8],
    arguments: &[i64],
) -> Option<Refusal>
    requires { length program.now.procedures.items.items ≤ 65536 }
    ensures { result ≡ kinds_refusal ((meaning_of program.now).proc procedure.now) arguments.now }
{
    refusal_of_kinds(program, false, procedure, arguments)
}

/// The refusal of a call of a query, by its name and arguments.
#[tactic(auto, unfolding(pst_history::specs::Direct::direct))]
pub(crate) fn refusal_of_query(
    program: &Program,
    procedure: &[u8],
    arguments: &[i64],
) -> Option<Refusal>
    requires { length program.now.procedures.items.items ≤ 65536 }
    ensures { result ≡ kinds_refusal ((meaning_of program.now).query procedure.now) arguments.now }
{
    refusal_of_kinds(program, true, procedure, arguments)
}
