//! Whole groups, and what a crash may leave behind them.

ghost use Rattle.std.specs.Prelude.{◌≡◌, ◌≤◌, ◌↔◌, take, length, replicate, IfOk, IfErr, IsTrue};
ghost use Rattle.pst_kept_text.specs.Text.{whole, IsTornEnd, GoesOn};
ghost use Rattle.pst_kept_text.specs.declared.error.DiskError.TheVariants.{Memory};

use crate::DiskError;
use std::alloc::Global;

/// The byte at the end of each group, the record separator of ASCII.
pub const END: u8 = 30;

/// How many bytes the whole groups have that stand before the first zero byte.
pub fn whole_len(text: &[u8]) -> usize
    ensures front { take result text.now ≡ whole text.now }
    ensures within { result ≤ length text.now }
{
    let mut end = 0;
    for (i, byte) in text.iter().enumerate() {
        if *byte == 0 {
            return end;
        }
        if *byte == END {
            end = i + 1;
        }
    }
    end
}

/// Whether bytes behind the whole groups may be what a crash left.
pub fn is_torn_end(rest: &[u8]) -> bool
    ensures { IsTrue result ↔ IsTornEnd rest.now }
{
    rest.contains(&0) && (rest[0] == 0 || !goes_on_behind_end(rest))
}

/// Whether a byte other than zero stands behind the end of a group.
fn goes_on_behind_end(rest: &[u8]) -> bool
    ensures { IsTrue result ↔ GoesOn rest.now }
{
    let mut ended = false;
    for byte in rest {
        if ended && *byte != 0 {
            return true;
        }
        ended = ended || *byte == END;
    }
    false
}

/// So many zero bytes.
pub fn zeros(alloc: Global, n: usize) -> Result<Vec<u8>, DiskError>
    ensures zeros { IfOk result (λ zeros. zeros.items ≡ replicate n 0) }
    ensures memory { IfErr result (λ e. e ≡ Memory) }
{
    let mut zeros = Vec::new(alloc);
    match zeros.resize(n, 0) {
        Ok(()) => Ok(zeros),
        Err(_) => Err(DiskError::Memory),
    }
}
