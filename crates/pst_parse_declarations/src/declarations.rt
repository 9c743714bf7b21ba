//! Reading declarations, in a language, 1 or 2, and what a program begins with.

ghost use Rattle.std.specs.Prelude.{◌≡◌, ◌≤◌, ◌<◌, length, map, IfOk, MatchOption, Option};
ghost use Rattle.std.specs.Option.{option_map};
ghost use Rattle.pst_grammar.specs.View.{field_of, local_of, item_of, type_word_of};
ghost use Rattle.pst_grammar.specs.Reader.{expect as expecting, listed, many};
ghost use Rattle.pst_grammar.specs.Declarations as read;
ghost use Rattle.pst_parse_expressions.specs.View.{Gives, GivesRest, itself, lexemes_of};
ghost use Rattle.pst_parse_statements.specs.View.{begins};
ghost use Rattle.pst_parse_declarations.specs.View.{BeginsWithWord, BeginsOtherwise, GivesBehind, fields_of, locals_of, result_of, heading as heading_of, signature_of};

use pst_base::Op;
use pst_grammar::{Declaration, Field, Fields, Identifier, Lead, Local, Locals, Sign, TypeName};
use pst_parse_expressions::{Atom, Lexeme, Stop, after, expect, name, number, peek, type_name};
use pst_parse_statements::block;
use std::alloc::Global;

/// What a procedure or query shows of itself to a caller.
#[derive(Drop)]
struct Signature {
    name: Identifier,
    parameters: Locals,
    result: Option<TypeName>,
}

/// A value that was read, and the tokens behind a sign that has to come next. The value is handed in, so that one place lets it
/// go where another token stands.
fn followed<'a, 't, T: Drop>(
    value: T,
    tokens: &'a [Atom<'t>],
    sign: Sign,
) -> Result<(T, &'a [Atom<'t>]), Stop<'a, 't>>
    ensures given { GivesBehind result (expecting sign (lexemes_of tokens.now)) }
    ensures kept { IfOk result (λ x. x.0 ≡ value) }
    ensures shorter { IfOk result (λ x. length x.1.now < length tokens.now) }
{
    let rest = expect(tokens, sign)?;
    Ok((value, rest))
}

/// The number of elements behind the type of a field, where one stands there. Language 1 has none.
fn count<'a, 't>(
    language: u8,
    tokens: &'a [Atom<'t>],
) -> Result<(Option<i64>, &'a [Atom<'t>]), Stop<'a, 't>>
    ensures given { Gives itself result (read.count language (lexemes_of tokens.now)) }
    ensures shorter { IfOk result (λ x. length x.1.now ≤ length tokens.now) }
{
    if language != 2 {
        return Ok((None, tokens));
    }
    match peek(tokens) {
        Some((Lexeme::Operator(op), rest)) => match op {
            Op::Mul => {
                let (elements, rest) = number(rest)?;
                Ok((Some(elements), rest))
            }
            _ => Ok((None, tokens)),
        },
        _ => Ok((None, tokens)),
    }
}

/// What stands behind `val`.
fn value_field<'a, 't>(
    alloc: Global,
    language: u8,
    tokens: &'a [Atom<'t>],
    line: u32,
) -> Result<(Field, &'a [Atom<'t>]), Stop<'a, 't>>
    ensures given { Gives field_of result (read.value_field language line (lexemes_of tokens.now)) }
    ensures shorter { IfOk result (λ x. length x.1.now < length tokens.now) }
{
    let (label, rest) = name(alloc, tokens)?;
    let (label, rest) = followed(label, rest, Sign::Colon)?;
    let (label, rest) = followed(label, rest, Sign::Int)?;
    let (elements, rest) = count(language, rest)?;
    let name = label.name;
    let field = Field::Val {
        line,
        name,
        elements,
    };
    followed(field, rest, Sign::Semicolon)
}

/// What stands behind `ptr`.
fn pointer_field<'a, 't>(
    alloc: Global,
    language: u8,
    tokens: &'a [Atom<'t>],
    line: u32,
) -> Result<(Field, &'a [Atom<'t>]), Stop<'a, 't>>
    ensures given { Gives field_of result (read.pointer_field language line (lexemes_of tokens.now)) }
    ensures shorter { IfOk result (λ x. length x.1.now < length tokens.now) }
{
    let (label, rest) = name(alloc, tokens)?;
    let (label, rest) = followed(label, rest, Sign::Colon)?;
    let (target, rest) = name(alloc, rest)?;
    let (elements, rest) = count(language, rest)?;
    let name = label.name;
    let target = target.name;
    let field = Field::Ptr {
        line,
        name,
        target,
        elements,
    };
    followed(field, rest, Sign::Semicolon)
}

/// A field of a record type.
fn field<'a, 't>(
    alloc: Global,
    language: u8,
    tokens: &'a [Atom<'t>],
) -> Result<(Field, &'a [Atom<'t>]), Stop<'a, 't>>
    ensures given { Gives field_of result (read.field language (lexemes_of tokens.now)) }
    ensures shorter { IfOk result (λ x. length x.1.now < length tokens.now) }
{
    match peek(tokens) {
        Some((Lexeme::Leading(lead, line), rest)) => match lead {
            Lead::Val => value_field(alloc, language, rest, line),
            Lead::Ptr => pointer_field(alloc, language, rest, line),
            _ => Err(Stop::Unexpected(tokens)),
        },
        _ => Err(Stop::Unexpected(tokens)),
    }
}

/// Whether a field begins there.
fn is_field(tokens: &[Atom<'_>]) -> bool
    ensures { result ≡ begins read.starts_field (lexemes_of tokens.now) }
{
    match peek(tokens) {
        Some((Lexeme::Leading(lead, _), _)) => match lead {
            Lead::Val | Lead::Ptr => true,
            _ => false,
        },
        _ => false,
    }
}

/// As many fields as stand there, one after another.
fn fields<'a, 't>(
    alloc: Global,
    language: u8,
    tokens: &'a [Atom<'t>],
) -> Result<(Fields, &'a [Atom<'t>]), Stop<'a, 't>>
    ensures given { Gives fields_of result (many read.starts_field (read.field language) (lexemes_of tokens.now)) }
    ensures shorter { IfOk result (λ x. length x.1.now ≤ length tokens.now) }
{
    let mut items = Vec::new(alloc);
    // All of them, as a part, as in `pst_parse_statements::block`.
    let (_, mut rest) = tokens.split_at(0);
    while is_field(rest) {
        let (field, behind) = field(alloc, language, rest)?;
        items.push(field)?;
        rest = behind;
    }
    Ok((Fields::from_vec(items), rest))
}

/// A `:` and a type.
fn typed<'a, 't>(
    alloc: Global,
    tokens: &'a [Atom<'t>],
) -> Result<(TypeName, &'a [Atom<'t>]), Stop<'a, 't>>
    ensures given { Gives type_word_of result (read.typed (lexemes_of tokens.now)) }
    ensures shorter { IfOk result (λ x. length x.1.now < length tokens.now) }
{
    let rest = expect(tokens, Sign::Colon)?;
    type_name(alloc, rest)
}

/// A parameter.
fn parameter<'a, 't>(
    alloc: Global,
    tokens: &'a [Atom<'t>],
) -> Result<(Local, &'a [Atom<'t>]), Stop<'a, 't>>
    ensures given { Gives local_of result (read.parameter (lexemes_of tokens.now)) }
    ensures shorter { IfOk result (λ x. length x.1.now < length tokens.now) }
{
    let (label, rest) = name(alloc, tokens)?;
    let (kind, rest) = typed(alloc, rest)?;
    let line = label.line;
    let name = label.name;
    Ok((Local { line, name, kind }, rest))
}

/// The parameters of a procedure, up to the `)` behind them.
fn parameters<'a, 't>(
    alloc: Global,
    tokens: &'a [Atom<'t>],
) -> Result<(Locals, &'a [Atom<'t>]), Stop<'a, 't>>
    ensures given { Gives locals_of result (listed read.parameter (lexemes_of tokens.now)) }
    ensures shorter { IfOk result (λ x. length x.1.now < length tokens.now) }
{
    let mut items = Vec::new(alloc);
    if let Some(rest) = after(tokens, Sign::CloseParen) {
        return Ok((Locals::from_vec(items), rest));
    }
    let (first, behind) = parameter(alloc, tokens)?;
    items.push(first)?;
    let mut rest = behind;
    while let Some(next) = after(rest, Sign::Comma) {
        let (parameter, behind) = parameter(alloc, next)?;
        items.push(parameter)?;
        rest = behind;
    }
    followed(Locals::from_vec(items), rest, Sign::CloseParen)
}

/// The result's type, if one is named.
fn result_type<'a, 't>(
    alloc: Global,
    tokens: &'a [Atom<'t>],
) -> Result<(Option<TypeName>, &'a [Atom<'t>]), Stop<'a, 't>>
    ensures given { Gives result_of result (read.result (lexemes_of tokens.now)) }
    ensures shorter { IfOk result (λ x. length x.1.now ≤ length tokens.now) }
{
    match after(tokens, Sign::Colon) {
        Some(rest) => {
            let (kind, rest) = type_name(alloc, rest)?;
            Ok((Some(kind), rest))
        }
        None => Ok((None, tokens)),
    }
}

/// Whether a local begins there.
fn is_local(tokens: &[Atom<'_>]) -> bool
    ensures { result ≡ begins read.starts_local (lexemes_of tokens.now) }
{
    match peek(tokens) {
        Some((Lexeme::Leading(lead, _), _)) => match lead {
            Lead::Var => true,
            _ => false,
        },
        _ => false,
    }
}

/// A local.
fn local<'a, 't>(
    alloc: Global,
    tokens: &'a [Atom<'t>],
) -> Result<(Local, &'a [Atom<'t>]), Stop<'a, 't>>
    ensures given { Gives local_of result (read.local (lexemes_of tokens.now)) }
    ensures shorter { IfOk result (λ x. length x.1.now < length tokens.now) }
{
    match peek(tokens) {
        Some((Lexeme::Leading(lead, line), rest)) => match lead {
            Lead::Var => variable(alloc, rest, line),
            _ => Err(Stop::Unexpected(tokens)),
        },
        _ => Err(Stop::Unexpected(tokens)),
    }
}

/// What stands behind `var`.
fn variable<'a, 't>(
    alloc: Global,
    tokens: &'a [Atom<'t>],
    line: u32,
) -> Result<(Local, &'a [Atom<'t>]), Stop<'a, 't>>
    ensures given { Gives local_of result (read.variable line (lexemes_of tokens.now)) }
    ensures shorter { IfOk result (λ x. length x.1.now < length tokens.now) }
{
    let (label, rest) = name(alloc, tokens)?;
    let (kind, rest) = typed(alloc, rest)?;
    let name = label.name;
    followed(Local { line, name, kind }, rest, Sign::Semicolon)
}

/// As many locals as stand there, one after another.
fn locals<'a, 't>(
    alloc: Global,
    tokens: &'a [Atom<'t>],
) -> Result<(Locals, &'a [Atom<'t>]), Stop<'a, 't>>
    ensures given { Gives locals_of result (many read.starts_local read.local (lexemes_of tokens.now)) }
    ensures shorter { IfOk result (λ x. length x.1.now ≤ length tokens.now) }
{
    let mut items = Vec::new(alloc);
    // All of them, as a part, as in `pst_parse_statements::block`.
    let (_, mut rest) = tokens.split_at(0);
    while is_local(rest) {
        let (local, behind) = local(alloc, rest)?;
        items.push(local)?;
        rest = behind;
    }
    Ok((Locals::from_vec(items), rest))
}

/// What stands behind `record`.
fn record_type<'a, 't>(
    alloc: Global,
    language: u8,
    tokens: &'a [Atom<'t>],
    line: u32,
) -> Result<(Declaration, &'a [Atom<'t>]), Stop<'a, 't>>
    ensures given { Gives item_of result (read.record_type language line (lexemes_of tokens.now)) }
    ensures shorter { IfOk result (λ x. length x.1.now < length tokens.now) }
{
    let (label, rest) = name(alloc, tokens)?;
    let (limit, rest) = number(rest)?;
    let (label, rest) = followed(label, rest, Sign::OpenBrace)?;
    let (fields, rest) = fields(alloc, language, rest)?;
    let name = label.name;
    let declaration = Declaration::Record {
        line,
        name,
        limit,
        fields,
    };
    followed(declaration, rest, Sign::CloseBrace)
}

/// What stands behind `root`.
fn root<'a, 't>(
    alloc: Global,
    tokens: &'a [Atom<'t>],
    line: u32,
) -> Result<(Declaration, &'a [Atom<'t>]), Stop<'a, 't>>
    ensures given { Gives item_of result (read.root line (lexemes_of tokens.now)) }
    ensures shorter { IfOk result (λ x. length x.1.now < length tokens.now) }
{
    let (label, rest) = name(alloc, tokens)?;
    let (kind, rest) = typed(alloc, rest)?;
    let name = label.name;
    followed(
        Declaration::Root { line, name, kind },
        rest,
        Sign::Semicolon,
    )
}

/// The name, the parameters and the result's type of a procedure, up to the `{`.
fn heading<'a, 't>(
    alloc: Global,
    tokens: &'a [Atom<'t>],
) -> Result<(Signature, &'a [Atom<'t>]), Stop<'a, 't>>
    ensures given { Gives signature_of result (heading_of (lexemes_of tokens.now)) }
    ensures shorter { IfOk result (λ x. length x.1.now < length tokens.now) }
{
    let (label, rest) = name(alloc, tokens)?;
    let (label, rest) = followed(label, rest, Sign::OpenParen)?;
    let (parameters, rest) = parameters(alloc, rest)?;
    let (kind, rest) = result_type(alloc, rest)?;
    let name = label.name;
    let signature = Signature {
        name,
        parameters,
        result: kind,
    };
    followed(signature, rest, Sign::OpenBrace)
}

/// What stands behind `proc` or `query`.
fn procedure<'a, 't>(
    alloc: Global,
    language: u8,
    tokens: &'a [Atom<'t>],
    line: u32,
    query: bool,
    height: u8,
    nesting: u8,
) -> Result<(Declaration, &'a [Atom<'t>]), Stop<'a, 't>>
    ensures given { Gives item_of result (read.procedure language height nesting line query (lexemes_of tokens.now)) }
    ensures shorter { IfOk result (λ x. length x.1.now < length tokens.now) }
{
    let (signature, rest) = heading(alloc, tokens)?;
    let (locals, rest) = locals(alloc, rest)?;
    let (body, rest) = block(alloc, language, rest, height, nesting)?;
    let declaration = Declaration::Procedure {
        line,
        query,
        name: signature.name,
        parameters: signature.parameters,
        result: signature.result,
        locals,
        body,
    };
    followed(declaration, rest, Sign::CloseBrace)
}

/// A declaration.
///
/// # Errors
/// The tokens from the first one that does not fit on, or that there was no memory.
pub fn declaration<'a, 't>(
    alloc: Global,
    language: u8,
    tokens: &'a [Atom<'t>],
    height: u8,
    nesting: u8,
) -> Result<(Declaration, &'a [Atom<'t>]), Stop<'a, 't>>
    ensures given { Gives item_of result (read.item language height nesting (lexemes_of tokens.now)) }
    ensures shorter { IfOk result (λ x. length x.1.now < length tokens.now) }
{
    match peek(tokens) {
        Some((Lexeme::Leading(lead, line), rest)) => match lead {
            Lead::Record => record_type(alloc, language, rest, line),
            Lead::Root => root(alloc, rest, line),
            Lead::Proc => procedure(alloc, language, rest, line, false, height, nesting),
            Lead::Query => procedure(alloc, language, rest, line, true, height, nesting),
            _ => Err(Stop::Unexpected(tokens)),
        },
        _ => Err(Stop::Unexpected(tokens)),
    }
}

/// Whether any token stands there.
pub fn is_token(tokens: &[Atom<'_>]) -> bool
    ensures { result ≡ begins read.any (lexemes_of tokens.now) }
{
    match peek(tokens) {
        Some(_) => true,
        None => false,
    }
}

/// The tokens behind the word that a program of language 2 begins with, if it stands there.
pub fn behind_word<'a, 't>(tokens: &'a [Atom<'t>]) -> Option<&'a [Atom<'t>]>
    ensures { MatchOption result (BeginsOtherwise (lexemes_of tokens.now)) (λ rest. BeginsWithWord (lexemes_of tokens.now) (lexemes_of rest.now)) }
{
    match peek(tokens) {
        Some((Lexeme::Name(_, name), rest)) => {
            if name != b"language".as_slice() {
                return None;
            }
            Some(rest)
        }
        _ => None,
    }
}

/// The tokens behind the number 2, which has to come.
///
/// # Errors
/// The tokens from the first one that does not fit on, or that there was no memory.
pub fn behind_two<'a, 't>(tokens: &'a [Atom<'t>]) -> Result<&'a [Atom<'t>], Stop<'a, 't>>
    ensures { GivesRest result (read.two (lexemes_of tokens.now)) }
{
    match peek(tokens) {
        Some((Lexeme::Number(value), rest)) => {
            if value != 2 {
                return Err(Stop::Unexpected(tokens));
            }
            Ok(rest)
        }
        _ => Err(Stop::Unexpected(tokens)),
    }
}
