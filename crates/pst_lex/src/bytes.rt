//! Which bytes may stand where.

ghost use Rattle.std.specs.Prelude.{◌≡◌};
ghost use Rattle.pst_lex.specs.Bytes.{gap_step as step, is_allowed as allowed, is_digit as digit, is_letter as letter, is_white as white, is_word as word};

/// White space: tab, line feed, carriage return and blank.
pub fn is_white(b: u8) -> bool
    ensures { result ≡ white b }
{
    matches!(b, b'\t' | b'\n' | b'\r' | b' ')
}

/// A byte that may stand in a text: white space and the printable ASCII characters.
pub fn is_allowed(b: u8) -> bool
    ensures { result ≡ allowed b }
{
    b == b'\t' || b == b'\n' || b == b'\r' || (b' ' <= b && b <= b'~')
}

/// A decimal digit.
pub fn is_digit(b: u8) -> bool
    ensures { result ≡ digit b }
{
    b'0' <= b && b <= b'9'
}

/// A letter or `_`.
pub fn is_letter(b: u8) -> bool
    ensures { result ≡ letter b }
{
    (b'A' <= b && b <= b'Z') || (b'a' <= b && b <= b'z') || b == b'_'
}

/// A byte that names and numbers go on over.
pub fn is_word(b: u8) -> bool
    ensures { result ≡ word b }
{
    if b >= b'a' {
        // tried first, since most bytes of a word are small letters
        b <= b'z'
    } else {
        is_letter(b) || is_digit(b)
    }
}

/// Whether a comment is open behind one more byte between tokens, or nothing where the byte does not stand between tokens.
pub fn gap_step(inside: bool, b: u8) -> Option<bool>
    ensures { result ≡ step inside b }
{
    if inside {
        if b == b'\n' {
            Some(false)
        } else if is_allowed(b) {
            Some(true)
        } else {
            None
        }
    } else if b > b'#' {
        // all the bytes of a word, and most of the others that begin a token
        None
    } else if is_white(b) {
        Some(false)
    } else if b == b'#' {
        Some(true)
    } else {
        None
    }
}
