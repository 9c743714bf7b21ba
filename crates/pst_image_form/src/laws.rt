//! Laws of the form of an image. These functions have no code.

ghost use Rattle.std.specs.Prelude.{◌≡◌, ◌<◌};
ghost use Rattle.pst_base.specs.declared.shape.TheConstants.{MOST_SLOTS};
ghost use Rattle.pst_image_form.specs.Bytes.{FormIsOne};
ghost use Rattle.pst_image_form.specs.declared.parts.TheConstants.{ENTRY_SLOTS};

/// How many numbers of slots an entry tells apart, in digits: more than a node has slots.
pub fn entry_slots_in_digits()
    ensures digits { ENTRY_SLOTS ≡ 128 }
    ensures enough { MOST_SLOTS < ENTRY_SLOTS }
{}

/// No image begins with the bytes of another one: bytes are read as an image in one way at most.
pub fn form_is_one()
    ensures { FormIsOne }
{}
