//! Why the tests come to no answer.

use pst_base::NoMemory;
use pst_parse::ParseFault;
use pst_typing::TypeFault;

/// Why a test comes to no answer.
#[derive(Clone, Copy, Debug, PartialEq, Eq)]
pub enum Trouble {
    /// The text is no program.
    Program,
    /// Engine and replayer answer differently.
    Differs,
    /// Memory ran out.
    Memory,
}

impl From<NoMemory> for Trouble {
    fn from(_error: NoMemory) -> Trouble {
        Trouble::Memory
    }
}

impl From<ParseFault> for Trouble {
    fn from(_fault: ParseFault) -> Trouble {
        Trouble::Program
    }
}

impl From<TypeFault> for Trouble {
    fn from(_fault: TypeFault) -> Trouble {
        Trouble::Program
    }
}
