//! Why the parser stops.

use crate::lexeme::Atom;
use std::alloc::{AllocError, AllocFailed};

/// Why reading stopped, and the tokens from that place on.
#[derive(Drop)]
pub enum Stop<'a, 't> {
    Unexpected(&'a [Atom<'t>]),
    TooDeep(&'a [Atom<'t>]),
    Memory,
}

impl From<AllocError> for Stop<'_, '_> {
    ghost use Rattle.std.specs.Prelude.{◌≡◌};
    ghost use Rattle.pst_parse_expressions.specs.declared.stop.Stop.TheVariants.{Memory};

    ghost from_gives = { λ _ e. e ≡ Memory };

    fn from(_e: AllocError) -> Self {
        Stop::Memory
    }
}

impl<T: Drop> From<AllocFailed<T>> for Stop<'_, '_> {
    ghost use Rattle.std.specs.Prelude.{◌≡◌};
    ghost use Rattle.pst_parse_expressions.specs.declared.stop.Stop.TheVariants.{Memory};

    ghost from_gives = { λ _ e. e ≡ Memory };

    fn from(_e: AllocFailed<T>) -> Self {
        Stop::Memory
    }
}
