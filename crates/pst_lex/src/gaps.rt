//! White space and comments.

ghost use Rattle.std.specs.Prelude.{◌+◌, ◌<◌, ◌^◌, length};
ghost use Rattle.pst_lex.specs.Pieces.{Skips};

use crate::bytes::gap_step;
use crate::faults::LexFault;

/// How many bytes of white space and comments stand at the front, and the line behind them.
///
/// # Errors
/// The fault of a comment that holds a byte which may not stand there.
#[tactic(auto, using(crate::proofs::Blanks::gaps))]
pub fn gap_length(text: &[u8], line: u32) -> Result<(usize, u32), LexFault>
    requires { line + length text.now < 2 ^ 32 }
    ensures { Skips result text.now line }
{
    let mut n = 0;
    let mut line = line;
    let mut inside = false;
    while n < text.len() {
        let b = text[n];
        match gap_step(inside, b) {
            Some(after) => inside = after,
            None if inside => return Err(LexFault::Byte { line }),
            None => break,
        }
        if b == b'\n' {
            line += 1;
        }
        n += 1;
    }
    Ok((n, line))
}
