//! Why a procedure is not called with some arguments, and which of two refusals is told.

ghost use Rattle.std.specs.Prelude.{◌≡◌, Some};
ghost use Rattle.std.specs.List.{list_all};
ghost use Rattle.pst_history.specs.Meaning.{fits, kinds_refusal};
ghost use Rattle.pst_history.specs.History.{first};
ghost use Rattle.pst_history.specs.Kinds.{is_number};

use pst_base::Kind;
use pst_script::Refusal;

/// Whether each parameter is a number: a line of a script has no way to name a record.
fn all_numbers(parameters: &[Kind]) -> bool
    ensures { result ≡ list_all is_number parameters.now }
{
    parameters.iter().all(|kind| matches!(kind, Kind::Int))
}

/// Whether the arguments are as many as the parameters, and each parameter is a number.
fn fits(parameters: &[Kind], arguments: &[i64]) -> bool
    ensures { result ≡ fits parameters.now arguments.now }
{
    parameters.len() == arguments.len() && all_numbers(parameters)
}

/// Why a procedure with these parameters can't be called with these arguments, or None exactly where it can.
pub fn refusal_of_arguments(parameters: &[Kind], arguments: &[i64]) -> Option<Refusal>
    ensures { result ≡ kinds_refusal (Some parameters.now) arguments.now }
{
    if !fits(parameters, arguments) {
        return Some(Refusal::Arguments);
    }
    None
}

/// The first of two refusals that holds.
pub fn first_of(one: Option<Refusal>, next: Option<Refusal>) -> Option<Refusal>
    ensures { result ≡ first one next }
{
    match one {
        Some(refusal) => Some(refusal),
        None => next,
    }
}
