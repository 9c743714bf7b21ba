//! Single tokens that have to come.

ghost use Rattle.std.specs.Prelude.{◌≡◌, ◌<◌, ◌∷◌, length, IfOk, MatchOption};
ghost use Rattle.pst_grammar.specs.Lexemes.{Plain};
ghost use Rattle.pst_grammar.specs.Reader.{expect as expecting, label as labelling, number as numbering, type_word};
ghost use Rattle.pst_parse_expressions.specs.View.{Gives, GivesRest, Lacks, itself, lexemes_of};
ghost use Rattle.pst_grammar.specs.View.{type_word_of};

use crate::lexeme::{Atom, Lexeme, peek};
use crate::stop::Stop;
use pst_grammar::{Identifier, Label, Sign, TypeName};
use std::alloc::Global;

/// The tokens after a sign that has to come.
///
/// # Errors
/// The tokens from the first one that does not fit on, or that there was no memory.
#[inline(always)]
pub fn expect<'a, 't>(tokens: &'a [Atom<'t>], sign: Sign) -> Result<&'a [Atom<'t>], Stop<'a, 't>>
    ensures given { GivesRest result (expecting sign (lexemes_of tokens.now)) }
    ensures shorter { IfOk result (λ rest. length rest.now < length tokens.now) }
{
    match peek(tokens) {
        Some((Lexeme::Plain(found), rest)) => {
            if found != sign {
                return Err(Stop::Unexpected(tokens));
            }
            Ok(rest)
        }
        _ => Err(Stop::Unexpected(tokens)),
    }
}

/// A name that has to come, and the tokens after it.
///
/// # Errors
/// The tokens from the first one that does not fit on, or that there was no memory.
#[inline(always)]
pub fn name<'a, 't>(
    alloc: Global,
    tokens: &'a [Atom<'t>],
) -> Result<(Label, &'a [Atom<'t>]), Stop<'a, 't>>
    ensures given { Gives itself result (labelling (lexemes_of tokens.now)) }
    ensures shorter { IfOk result (λ x. length x.1.now < length tokens.now) }
{
    match peek(tokens) {
        Some((Lexeme::Name(line, name), rest)) => {
            let name = Identifier::from_slice(alloc, name)?;
            Ok((Label { line, name }, rest))
        }
        _ => Err(Stop::Unexpected(tokens)),
    }
}

/// A number that has to come, and the tokens after it.
///
/// # Errors
/// The tokens from the first one that does not fit on, or that there was no memory.
pub fn number<'a, 't>(tokens: &'a [Atom<'t>]) -> Result<(i64, &'a [Atom<'t>]), Stop<'a, 't>>
    ensures given { Gives itself result (numbering (lexemes_of tokens.now)) }
    ensures shorter { IfOk result (λ x. length x.1.now < length tokens.now) }
{
    match peek(tokens) {
        Some((Lexeme::Number(value), rest)) => Ok((value, rest)),
        _ => Err(Stop::Unexpected(tokens)),
    }
}

/// A type that has to come, `int` or a name, and the tokens after it.
///
/// # Errors
/// The tokens from the first one that does not fit on, or that there was no memory.
pub fn type_name<'a, 't>(
    alloc: Global,
    tokens: &'a [Atom<'t>],
) -> Result<(TypeName, &'a [Atom<'t>]), Stop<'a, 't>>
    ensures given { Gives type_word_of result (type_word (lexemes_of tokens.now)) }
    ensures shorter { IfOk result (λ x. length x.1.now < length tokens.now) }
{
    match peek(tokens) {
        Some((Lexeme::Plain(sign), rest)) => match sign {
            Sign::Int => Ok((TypeName::Int, rest)),
            _ => Err(Stop::Unexpected(tokens)),
        },
        Some((Lexeme::Name(_, name), rest)) => Ok((
            TypeName::Named(Identifier::from_slice(alloc, name)?),
            rest,
        )),
        _ => Err(Stop::Unexpected(tokens)),
    }
}

/// The tokens after a sign, if it stands there.
#[inline(always)]
pub fn after<'a, 't>(tokens: &'a [Atom<'t>], sign: Sign) -> Option<&'a [Atom<'t>]>
    ensures seen { MatchOption result (Lacks sign (lexemes_of tokens.now)) (λ rest. lexemes_of tokens.now ≡ Plain sign ∷ lexemes_of rest.now) }
    ensures shorter { MatchOption result (Unit {0}) (λ rest. length rest.now < length tokens.now) }
{
    match peek(tokens) {
        Some((Lexeme::Plain(found), rest)) => {
            if found != sign {
                return None;
            }
            Some(rest)
        }
        _ => None,
    }
}
