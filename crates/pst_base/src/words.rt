//! The words of the language itself, and the names that a program can give.

ghost use Rattle.std.specs.Prelude.{◌≡◌};
ghost use Rattle.std.specs.List.{list_all, list_any};
ghost use Rattle.std.specs.Str.{bytes_eq};
ghost use Rattle.pst_base.specs.Words.{
  is_keyword,
  is_name,
  has_name_bytes,
  is_name_start,
  is_name_byte,
};

/// The keywords, which no name is spelled as.
const KEYWORDS: [&[u8]; 19] = [
    b"record", b"val", b"ptr", b"root", b"proc", b"query", b"var", b"new", b"call", b"print",
    b"if", b"else", b"while", b"return", b"null", b"and", b"or", b"not", b"int",
];

/// Whether a word is a keyword.
pub fn is_keyword(word: &[u8]) -> bool
    ensures { result ≡ is_keyword word.now }
{
    is_among(word, &KEYWORDS)
}

/// Whether a word is one of some words.
fn is_among(word: &[u8], words: &[&[u8]]) -> bool
    ensures { result ≡ list_any (λ other. bytes_eq other.now word.now) words.now }
{
    words.iter().any(|other| *other == word)
}

/// The most bytes that a name has.
const NAME_BYTES: usize = 32;

/// Whether a name can begin with the byte: a letter or an underscore.
fn is_name_start(byte: u8) -> bool
    ensures { result ≡ is_name_start byte }
{
    byte.is_ascii_alphabetic() || byte == b'_'
}

/// Whether a name can go on with the byte: a letter, a digit or an underscore.
fn is_name_byte(byte: u8) -> bool
    ensures { result ≡ is_name_byte byte }
{
    byte.is_ascii_alphanumeric() || byte == b'_'
}

fn are_name_bytes(bytes: &[u8]) -> bool
    ensures { result ≡ list_all is_name_byte bytes.now }
{
    bytes.iter().all(|byte| is_name_byte(*byte))
}

/// Whether the word is made of letters, digits and underscores, and the first is no digit.
fn has_name_bytes(word: &[u8]) -> bool
    ensures { result ≡ has_name_bytes word.now }
{
    match word.split_first() {
        Some((first, rest)) => is_name_start(*first) && are_name_bytes(rest),
        None => false,
    }
}

/// Whether a program can give this name: at most 32 letters, digits and underscores, of which the first is no digit, and
/// no keyword.
#[tactic(auto, unfolding(crate::specs::Words::is_name))]
pub fn is_name(word: &[u8]) -> bool
    ensures { result ≡ is_name word.now }
{
    if word.len() > NAME_BYTES {
        return false;
    }
    has_name_bytes(word) && !is_keyword(word)
}
