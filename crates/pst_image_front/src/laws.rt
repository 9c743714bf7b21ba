//! The law. It is the contract of a function that does nothing.

ghost use Rattle.pst_image_front.specs.Front.{ImageIsPromised};

/// The sizes of an image promise just that image.
pub fn image_is_promised()
    ensures { ImageIsPromised }
{}
