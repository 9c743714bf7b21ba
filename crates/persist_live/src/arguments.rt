//! A call from a host's own words.

ghost use Rattle.std.specs.Prelude.{◌≡◌, IfOk, true};
ghost use Rattle.std.specs.List.{list_all};
ghost use Rattle.pst_script.specs.Numerals.{fits_64_bits};
ghost use Rattle.pst_script.specs.Commands.{call_in_range};

use pst_base::{NoMemory, Numbers, Text, VersionNo};
use pst_script::Call;
use std::alloc::Global;

/// A number of the type fits into 64 bits with a sign.
fn fits(number: i64)
    ensures { fits_64_bits number ≡ true }
{}

/// All numbers of the type do.
fn all_fit(numbers: &[i64])
    ensures { list_all fits_64_bits numbers.now ≡ true }
{
    for number in numbers {
        fits(*number);
    }
}

/// The call of a procedure on a version, whose numbers a line can give.
///
/// # Errors
/// Where there was no memory.
pub(crate) fn call_of(
    alloc: Global,
    version: VersionNo,
    procedure: &[u8],
    arguments: &[i64],
) -> Result<Call, NoMemory>
    ensures is { IfOk result (λ call. call ≡ record { version = version; procedure = procedure.now; arguments = arguments.now }) }
    ensures range { IfOk result (λ call. call_in_range call ≡ true) }
{
    all_fit(arguments);
    Ok(Call {
        version,
        procedure: Text::from_vec(Vec::from_slice(alloc, procedure)?),
        arguments: Numbers::from_vec(Vec::from_slice(alloc, arguments)?),
    })
}
