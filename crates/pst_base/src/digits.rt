//! Numbers in texts.

ghost use Rattle.std.specs.Prelude.{◌≡◌, ◌++◌, OnOk};

use itoa::{Buffer, Integer};
use std::alloc::AllocError;

/// Puts a number behind a text: its decimal digits, behind a minus sign where it is negative.
///
/// # Errors
///
/// Where there is no memory for the digits.
pub fn put_number<N: Integer>(text: &mut Vec<u8>, number: N) -> Result<(), AllocError>
    ensures { OnOk result (text.new.items ≡ text.old.items ++ N.text number) }
{
    let mut digits = Buffer::new();
    text.extend_from_slice(digits.format(number).as_bytes())
}

/// Puts a number between two pieces behind a text.
///
/// # Errors
///
/// Where there is no memory for all of it. The first pieces may stand there then.
#[inline(always)]
pub fn put_number_between<N: Integer>(
    text: &mut Vec<u8>,
    before: &[u8],
    number: N,
    behind: &[u8],
) -> Result<(), AllocError>
    ensures { OnOk result (text.new.items ≡ text.old.items ++ (before.now ++ N.text number ++ behind.now)) }
{
    text.extend_from_slice(before)?;
    put_number(text, number)?;
    text.extend_from_slice(behind)
}
