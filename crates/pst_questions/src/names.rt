//! The form of a path.

ghost use Rattle.std.specs.Prelude.{◌≡◌};
ghost use Rattle.pst_questions.specs.Path.{is_path};

use pst_base::is_name;

/// Whether the bytes have the form of a path: names of the language, joined by single dots. Whether a program has such
/// fields is for [`resolve`](crate::resolve) to say.
pub fn path_form(path: &[u8]) -> bool
    ensures { result ≡ is_path path.now }
{
    path.split(|byte| *byte == b'.').all(|name| is_name(name))
}
