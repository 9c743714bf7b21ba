//! Names of a program's text.

ghost use Rattle.std.specs.Prelude.{◌≡◌, ◌≤◌, length, IfOk};

use pst_base::NoMemory;
use std::alloc::Global;
use std::marker::Model;

/// So many bytes of a name stand in the name itself.
const MOST_INSIDE: usize = 14;

/// A name of a program's text, which contracts see as the list of its bytes, in 16 bytes. Nearly all names are short, and a
/// tree has one for each place where one stands: so a name of up to 14 bytes stands in these 16 and takes no memory beside them.
/// A longer one is on the heap.
#[derive(Drop)]
pub struct Identifier {
    kept: Kept,
}

// How many bytes a short name has, and the bytes, with zeros behind them; or a long name.
#[derive(Drop)]
enum Kept {
    Short(u8, [u8; MOST_INSIDE]),
    Long(Box<Vec<u8>>),
}

impl Model for Identifier {
    ghost use Rattle.std.specs.Prelude.{ℕ, List};
    ghost use Rattle.pst_grammar.specs.Kept.{shown, IsWhole};

    ghost Value = { List ℕ };

    ghost view = { λ name. shown name.kept };

    ghost invariant = { λ name. IsWhole name.kept };
}

impl Identifier {
    /// The name of these bytes. `NoMemory` where it has more than 14 and there is no memory for them.
    ///
    /// # Errors
    /// Where there was no memory.
    #[inline(always)]
    pub fn from_slice(alloc: Global, bytes: &[u8]) -> Result<Identifier, NoMemory>
        ensures { IfOk result (λ name. name ≡ bytes.now) }
    {
        if bytes.len() <= MOST_INSIDE {
            Ok(short(bytes))
        } else {
            long(alloc, bytes)
        }
    }

    /// Its bytes.
    #[inline(always)]
    pub fn as_slice(&self) -> &[u8]
        ensures { result.now ≡ self.now }
    {
        match &self.kept {
            Kept::Short(len, bytes) => &bytes[..usize::from(*len)],
            Kept::Long(bytes) => bytes.as_slice(),
        }
    }
}

// A name that takes no memory.
#[inline(always)]
fn short(bytes: &[u8]) -> Identifier
    requires { length bytes.now ≤ 14 }
    ensures { result ≡ bytes.now }
{
    let len = bytes.len();
    let mut inside = [0; MOST_INSIDE];
    inside[..len].copy_from_slice(bytes);
    Identifier {
        kept: Kept::Short(len as u8, inside),
    }
}

// A name on the heap.
#[inline(never)]
fn long(alloc: Global, bytes: &[u8]) -> Result<Identifier, NoMemory>
    ensures { IfOk result (λ name. name ≡ bytes.now) }
{
    let bytes = Box::new(alloc, Vec::from_slice(alloc, bytes)?)?;
    Ok(Identifier {
        kept: Kept::Long(bytes),
    })
}
