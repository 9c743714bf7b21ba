//! The code of a program is valid.

ghost use Rattle.pst_translation.specs.ValidLaws.{CompiledIsValid, RegistersAreFew};

/// The code of a well-typed program is valid.
pub fn compiled_code_is_valid()
    ensures { CompiledIsValid }
{}

/// The temporary registers of a procedure are of low levels, and all its registers have numbers of 16 bits.
pub fn registers_are_few()
    ensures { RegistersAreFew }
{}
