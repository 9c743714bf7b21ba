//! The fault of a refused program, and its line.

ghost use Rattle.std.specs.Prelude.{◌≡◌, IfOk, string_bytes};
ghost use Rattle.pst_front.specs.Verdict.{fault_name, fault_text};

use pst_base::NoMemory;
use std::alloc::Global;

/// What is wrong with a program.
#[derive(Clone, Copy, PartialEq, Eq)]
pub enum FaultKind {
    /// A byte that may not stand there.
    Byte,
    /// A word that begins with a digit and is no number.
    Number,
    /// A name of more than 32 bytes.
    NameLength,
    /// A token with which no program goes on, or an end where none ends.
    Unexpected,
    /// A token with which only programs go on that are nested too deeply.
    TooDeep,
    /// A name that stands for nothing that it could stand for.
    Unknown,
    /// A name that is declared already.
    Duplicate,
    /// A type that does not fit, or arguments that are too many or too few.
    Mismatch,
    /// An in-degree limit, or a number of elements, that is not from 1 to 16.
    Limit,
    /// One more thing of a kind than there may be.
    TooMany,
    /// A query that writes, or calls what may write.
    QueryWrites,
}

/// The first fault of a program, with its line, from 1.
#[derive(Clone, Copy, PartialEq, Eq)]
pub struct Fault {
    pub kind: FaultKind,
    pub line: u32,
}

/// The name of a fault in its line.
fn fault_name(kind: FaultKind) -> &'static str
    ensures { result.now ≡ fault_name kind }
{
    match kind {
        FaultKind::Byte => "byte",
        FaultKind::Number => "number",
        FaultKind::NameLength => "name-length",
        FaultKind::Unexpected => "unexpected",
        FaultKind::TooDeep => "too-deep",
        FaultKind::Unknown => "unknown",
        FaultKind::Duplicate => "duplicate",
        FaultKind::Mismatch => "mismatch",
        FaultKind::Limit => "limit",
        FaultKind::TooMany => "too-many",
        FaultKind::QueryWrites => "query-writes",
    }
}

/// The line that a refused program is answered by.
///
/// # Errors
/// Where there was no memory.
pub fn fault_text(alloc: Global, fault: Fault) -> Result<String, NoMemory>
    ensures { IfOk result (λ text. string_bytes text ≡ fault_text fault) }
{
    let name = fault_name(fault.kind);
    let line = fault.line;
    format!(in alloc; "refused {name} at {line}\n")
}
