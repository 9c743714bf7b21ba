//! Why an image is not taken.

ghost use Rattle.std.specs.Prelude.{◌≡◌};
ghost use Rattle.pst_image_unpack.specs.declared.fault.ImageFault.TheVariants.{Memory};

use pst_image_rules::Rule;
use std::alloc::{AllocError, AllocFailed};

/// What kept an image from being taken.
#[derive(Clone, Copy, Debug, PartialEq, Eq)]
pub enum ImageFault {
    /// This is the first rule that fails.
    Bad(Rule),
    /// Want of memory.
    Memory,
}

impl From<AllocError> for ImageFault {
    ghost from_gives = { λ _ e. e ≡ Memory };

    fn from(_e: AllocError) -> ImageFault {
        ImageFault::Memory
    }
}

impl<T: Drop> From<AllocFailed<T>> for ImageFault {
    ghost from_gives = { λ _ e. e ≡ Memory };

    fn from(_e: AllocFailed<T>) -> ImageFault {
        ImageFault::Memory
    }
}
