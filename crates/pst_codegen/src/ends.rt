//! The code that ends a procedure.

ghost use Rattle.std.specs.Prelude.{OnOk};
ghost use Rattle.pst_translation.specs.Code.{end_code};
ghost use Rattle.pst_codegen_expressions.specs.Ready.{HasNoted, HasEnd};
ghost use Rattle.pst_codegen_expressions.specs.Emitted.{Emits, temps_of};

use pst_base::{Kind, NoMemory};
use pst_code::Instr;
use pst_codegen_expressions::{Layout, put};

/// Adds the code that ends a procedure without `return`.
///
/// # Errors
/// Where there was no memory.
pub fn emit_end(
    code: &mut Vec<Instr>,
    layout: &Layout<'_>,
    kind: Option<Kind>,
) -> Result<(), NoMemory>
    requires { HasEnd (HasNoted layout.now.table) kind }
    ensures { OnOk result (Emits code.old code.new (end_code (temps_of layout.now) kind)) }
{
    match kind {
        None => put(code, Instr::Return(None)),
        Some(kind) => {
            let d = layout.temporary(0, kind);
            match kind {
                Kind::Int => put(code, Instr::Const(d, 0))?,
                Kind::Pointer(_) => put(code, Instr::Null(d))?,
            }
            put(code, Instr::Return(Some(d)))
        }
    }
}
