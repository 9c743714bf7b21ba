//! Numerals, and the arguments of a call.
ghost use Rattle.std.specs.Prelude.{◌≡◌, is_some, true};
ghost use Rattle.std.specs.Char.{is_ascii_digit};
ghost use Rattle.std.specs.List.{list_all};
ghost use Rattle.pst_script.specs.Numerals.{is_numeral, number_of, argument_of, passing, fits_32_bits, fits_64_bits, fits_charges};

use std::str;

/// The most charges that a line can grant, or set as the budget.
pub const MOST_CHARGES: u32 = 1_000_000_000;

fn are_digits(bytes: &[u8]) -> bool
    ensures { result ≡ list_all is_ascii_digit bytes.now }
{
    bytes.iter().all(|byte| byte.is_ascii_digit())
}

/// Whether the word is a numeral: `0`, or a digit from 1 to 9 and then digits.
pub fn is_numeral(word: &[u8]) -> bool
    ensures { result ≡ is_numeral word.now }
{
    match word.split_first() {
        None => false,
        Some((b'0', rest)) => rest.is_empty(),
        Some((first, rest)) => first.is_ascii_digit() && are_digits(rest),
    }
}

/// Whether the word is an argument: a numeral, or `-` and a numeral other than `0`.
pub(crate) fn is_argument(word: &[u8]) -> bool
    ensures { result ≡ is_some (argument_of word.now) }
{
    match word.split_first() {
        Some((b'-', rest)) => is_numeral(rest) && rest != b"0".as_slice(),
        _ => is_numeral(word),
    }
}

/// The number that a numeral writes. None where it has more than 32 bits.
pub fn number(word: &[u8]) -> Option<u32>
    requires { is_numeral word.now ≡ true }
    ensures { result ≡ passing fits_32_bits (number_of word.now) }
{
    let mut value: u64 = 0;
    for digit in word {
        value = value * 10 + u64::from(*digit - b'0');
        if value > u64::from(u32::MAX) {
            return None;
        }
    }
    Some(value as u32)
}

/// The number of charges that a numeral writes. None where it is not from 1 to 1,000,000,000.
pub(crate) fn charges(word: &[u8]) -> Option<u32>
    requires { is_numeral word.now ≡ true }
    ensures { result ≡ passing fits_charges (number_of word.now) }
{
    let charges = number(word)?;
    if charges < 1 || charges > MOST_CHARGES {
        return None;
    }
    Some(charges)
}

/// The number that an argument writes. None where it has more than 64 bits.
pub(crate) fn argument(word: &[u8]) -> Option<i64>
    requires { is_some (argument_of word.now) ≡ true }
    ensures { result ≡ passing fits_64_bits (argument_of word.now) }
{
    if word[0] != b'-' {
        if let Some(small) = number(word) {
            return Some(i64::from(small));
        }
    }
    str::from_utf8(word).ok()?.parse().ok()
}
