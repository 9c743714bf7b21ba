//! One token at the front of a text.

ghost use Rattle.std.specs.Prelude.{◌≡◌, ◌+◌, ◌≤◌, ◌<◌, length, drop, take, slice_index, None};
ghost use Rattle.std.specs.List.{list_all};
ghost use Rattle.std.specs.Prelude.{true, false};
ghost use Rattle.pst_lex.specs.Bytes.{gap_step, is_word as is_word_byte, EndsWord, StartsWithDigit, StartsWithLetter};
ghost use Rattle.pst_lex.specs.Pieces.{IsNameKind, IsPair, IsSingle, leading_zero, Takes, Writes};

use crate::bytes::{is_digit, is_letter, is_word};
use crate::faults::LexFault;
use crate::types::{Name, TokenKind};
use crate::words::{Mark, keyword};

/// The greatest length of a name, in bytes.
const LONGEST_NAME: usize = 32;

/// How many bytes of a word stand at the front.
#[tactic(auto, using(crate::proofs::Marks::words))]
fn word_length(text: &[u8]) -> usize
    ensures within { result ≤ length text.now }
    ensures all { list_all is_word_byte (take result text.now) ≡ true }
    ensures longest { EndsWord (drop result text.now) }
{
    let mut n = 0;
    while n < text.len() && is_word(text[n]) {
        n += 1;
    }
    n
}

/// Whether a zero stands in front of more.
fn has_leading_zero(word: &[u8]) -> bool
    ensures { result ≡ leading_zero word.now }
{
    matches!(word, [b'0', _, ..])
}

/// The number that a word writes: `0`, or a digit from 1 to 9 and digits behind it, up to 9,223,372,036,854,775,807.
fn number(word: &[u8]) -> Option<u64>
    requires { 0 < length word.now }
    ensures { Writes result word.now }
{
    if has_leading_zero(word) {
        return None;
    }
    let mut value: u64 = 0;
    for b in word {
        if !is_digit(*b) {
            return None;
        }
        let digit = u64::from(*b - b'0');
        if value > (i64::MAX as u64 - digit) / 10 {
            return None;
        }
        value = value * 10 + digit;
    }
    Some(value)
}

/// What a word is that begins with a letter or `_` and is not too long: a keyword, or a name.
fn name_kind<'a>(word: &'a [u8]) -> TokenKind<'a>
    requires starts { StartsWithLetter word.now }
    requires all { list_all is_word_byte word.now ≡ true }
    requires short { length word.now ≤ 32 }
    ensures { IsNameKind result word.now }
{
    match keyword(word) {
        Some(mark) => TokenKind::Mark(mark),
        None => TokenKind::Name(Name::new(word)),
    }
}

/// A name or keyword at the front, as long as it can be, and its length.
fn name<'a>(text: &'a [u8], line: u32) -> Result<(TokenKind<'a>, usize), LexFault>
    requires { StartsWithLetter text.now }
    ensures { Takes result text.now line }
{
    let length = word_length(text);
    if length > LONGEST_NAME {
        return Err(LexFault::NameLength { line });
    }
    Ok((name_kind(&text[..length]), length))
}

/// A number at the front, as long as it can be, and its length.
fn numeral<'a>(text: &'a [u8], line: u32) -> Result<(TokenKind<'a>, usize), LexFault>
    requires { StartsWithDigit text.now }
    ensures { Takes result text.now line }
{
    let length = word_length(text);
    match number(&text[..length]) {
        Some(value) => Ok((TokenKind::Number(value as i64), length)),
        None => Err(LexFault::Number { line }),
    }
}

/// The symbol that a byte is where no second one makes a pair of them.
fn single(a: u8) -> Option<Mark>
    ensures { IsSingle result a }
{
    match a {
        b'{' => Some(Mark::OpenBrace),
        b'}' => Some(Mark::CloseBrace),
        b'(' => Some(Mark::OpenParen),
        b')' => Some(Mark::CloseParen),
        b';' => Some(Mark::Semicolon),
        b':' => Some(Mark::Colon),
        b',' => Some(Mark::Comma),
        b'.' => Some(Mark::Dot),
        b'=' => Some(Mark::Assign),
        b'<' => Some(Mark::Less),
        b'>' => Some(Mark::Greater),
        b'+' => Some(Mark::Plus),
        b'-' => Some(Mark::Minus),
        b'*' => Some(Mark::Star),
        b'/' => Some(Mark::Slash),
        b'%' => Some(Mark::Percent),
        _ => None,
    }
}

/// The symbol of two bytes that stands at the front.
fn pair(text: &[u8]) -> Option<Mark>
    ensures { IsPair result text.now }
{
    match text {
        [b'=', b'=', ..] => Some(Mark::Equal),
        [b'!', b'=', ..] => Some(Mark::NotEqual),
        [b'<', b'=', ..] => Some(Mark::LessEqual),
        [b'>', b'=', ..] => Some(Mark::GreaterEqual),
        _ => None,
    }
}

/// A symbol at the front, the longer one first, and its length.
fn symbol<'a>(text: &'a [u8], line: u32) -> Result<(TokenKind<'a>, usize), LexFault>
    requires some { 0 < length text.now }
    requires no_gap { gap_step false (slice_index text.now 0) ≡ None }
    requires no_word { is_word_byte (slice_index text.now 0) ≡ false }
    ensures { Takes result text.now line }
{
    if let Some(mark) = pair(text) {
        return Ok((TokenKind::Mark(mark), 2));
    }
    match single(text[0]) {
        Some(mark) => Ok((TokenKind::Mark(mark), 1)),
        None => Err(LexFault::Byte { line }),
    }
}

/// The token at the front, and its length.
///
/// # Errors
/// The fault of the bytes that are no token, with its line.
pub fn first_token<'a>(text: &'a [u8], line: u32) -> Result<(TokenKind<'a>, usize), LexFault>
    requires some { 0 < length text.now }
    requires no_gap { gap_step false (slice_index text.now 0) ≡ None }
    ensures { Takes result text.now line }
{
    let first = text[0];
    if is_letter(first) {
        name(text, line)
    } else if is_digit(first) {
        numeral(text, line)
    } else {
        symbol(text, line)
    }
}
