//! Why bytes are no image.

ghost use Rattle.std.specs.Prelude.{◌≡◌};
ghost use Rattle.pst_image_form.specs.declared.fault.FormFault.TheVariants.{Memory};

use std::alloc::{AllocError, AllocFailed};

/// What kept an image from being read.
#[derive(Clone, Copy, Debug, PartialEq, Eq)]
pub enum FormFault {
    /// The bytes do not begin with an image: they are too few, or a number is none of its type.
    Form,
    /// Want of memory.
    Memory,
}

impl From<AllocError> for FormFault {
    ghost from_gives = { λ _ e. e ≡ Memory };

    fn from(_e: AllocError) -> FormFault {
        FormFault::Memory
    }
}

impl<T: Drop> From<AllocFailed<T>> for FormFault {
    ghost from_gives = { λ _ e. e ≡ Memory };

    fn from(_e: AllocFailed<T>) -> FormFault {
        FormFault::Memory
    }
}
