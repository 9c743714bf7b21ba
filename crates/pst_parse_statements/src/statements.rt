//! Reading statements and blocks, in a language, 1 or 2.

ghost use Rattle.std.specs.Prelude.{◌≡◌, ◌≤◌, ◌<◌, ◌++◌, [], ◌∷◌, length, IfOk, OnOk, Option, Some, None};
ghost use Rattle.pst_grammar.specs.View.{expr_of, phrase_of, phrases_of};
ghost use Rattle.pst_grammar.specs.Reader.{within};
ghost use Rattle.pst_grammar.specs.Reading.{read};
ghost use Rattle.pst_grammar.specs.Statements.{ended as ending, arguments as listing, call as calling, made as making, set as setting, written as writing, assigned as assigning, returned as returning, braced as bracing, reading_statement, reading_block, starts_statement as starting, starts};
ghost use Rattle.pst_parse_expressions.specs.View.{Gives, lexemes_of};
ghost use Rattle.pst_parse_statements.specs.View.{exprs_of, stated_of, begins, reading_behind};

use pst_grammar::{Block, Expression, Expressions, Form, Identifier, Lead, Sign, Statement};
use pst_parse_expressions::{Atom, Lexeme, Stop, after, expect, more, name, operand, peek};
use std::alloc::{AllocError, Global};

/// An expression and a `;`.
fn ended<'a, 't>(
    alloc: Global,
    language: u8,
    tokens: &'a [Atom<'t>],
    height: u8,
) -> Result<(Expression, &'a [Atom<'t>]), Stop<'a, 't>>
    ensures given { Gives expr_of result (ending language height (lexemes_of tokens.now)) }
    ensures shorter { IfOk result (λ x. length x.1.now < length tokens.now) }
{
    let (value, _, rest) = operand(alloc, language, tokens, 0, height)?;
    let rest = expect(rest, Sign::Semicolon)?;
    Ok((value, rest))
}

/// The arguments of a call, up to the `)` behind them.
fn arguments<'a, 't>(
    alloc: Global,
    language: u8,
    tokens: &'a [Atom<'t>],
    height: u8,
) -> Result<(Expressions, &'a [Atom<'t>]), Stop<'a, 't>>
    ensures given { Gives exprs_of result (listing language height (lexemes_of tokens.now)) }
    ensures shorter { IfOk result (λ x. length x.1.now < length tokens.now) }
{
    let mut items = Vec::new(alloc);
    if let Some(rest) = after(tokens, Sign::CloseParen) {
        return Ok((Expressions::from_vec(items), rest));
    }
    let (first, _, behind) = operand(alloc, language, tokens, 0, height)?;
    items.push(first)?;
    let mut rest = behind;
    while let Some(next) = after(rest, Sign::Comma) {
        let (argument, _, behind) = operand(alloc, language, next, 0, height)?;
        items.push(argument)?;
        rest = behind;
    }
    let rest = expect(rest, Sign::CloseParen)?;
    Ok((Expressions::from_vec(items), rest))
}

/// What stands behind the word `call`, up to the `;`.
fn call<'a, 't>(
    alloc: Global,
    language: u8,
    tokens: &'a [Atom<'t>],
    target: Option<Identifier>,
    height: u8,
) -> Result<(Form, &'a [Atom<'t>]), Stop<'a, 't>>
    ensures given { Gives phrase_of result (calling language height target (lexemes_of tokens.now)) }
    ensures shorter { IfOk result (λ x. length x.1.now < length tokens.now) }
{
    let (procedure, rest) = name(alloc, tokens)?;
    let rest = expect(rest, Sign::OpenParen)?;
    let (arguments, rest) = arguments(alloc, language, rest, height)?;
    let rest = expect(rest, Sign::Semicolon)?;
    let procedure = procedure.name;
    let form = Form::Call {
        result: target,
        procedure,
        arguments,
    };
    Ok((form, rest))
}

/// What stands behind `new` in `x = new T;`.
fn made<'a, 't>(
    alloc: Global,
    tokens: &'a [Atom<'t>],
    name: Identifier,
) -> Result<(Form, &'a [Atom<'t>]), Stop<'a, 't>>
    ensures given { Gives phrase_of result (making name (lexemes_of tokens.now)) }
    ensures shorter { IfOk result (λ x. length x.1.now < length tokens.now) }
{
    let (ty, rest) = pst_parse_expressions::name(alloc, tokens)?;
    let rest = expect(rest, Sign::Semicolon)?;
    let ty = ty.name;
    Ok((Form::New { name, ty }, rest))
}

/// What stands behind `NAME =`.
fn set<'a, 't>(
    alloc: Global,
    language: u8,
    name: Identifier,
    tokens: &'a [Atom<'t>],
    height: u8,
) -> Result<(Form, &'a [Atom<'t>]), Stop<'a, 't>>
    ensures given { Gives phrase_of result (setting language height name (lexemes_of tokens.now)) }
    ensures shorter { IfOk result (λ x. length x.1.now < length tokens.now) }
{
    match peek(tokens) {
        Some((Lexeme::Plain(sign), rest)) => match sign {
            Sign::New => made(alloc, rest, name),
            _ => written(alloc, language, Expression::Name(name), tokens, height),
        },
        Some((Lexeme::Leading(lead, _), rest)) => match lead {
            Lead::Call => call(alloc, language, rest, Some(name), height),
            _ => written(alloc, language, Expression::Name(name), tokens, height),
        },
        _ => written(alloc, language, Expression::Name(name), tokens, height),
    }
}

/// The expression behind `place =`, and the `;`.
fn written<'a, 't>(
    alloc: Global,
    language: u8,
    place: Expression,
    tokens: &'a [Atom<'t>],
    height: u8,
) -> Result<(Form, &'a [Atom<'t>]), Stop<'a, 't>>
    ensures given { Gives phrase_of result (writing language height (expr_of place) (lexemes_of tokens.now)) }
    ensures shorter { IfOk result (λ x. length x.1.now < length tokens.now) }
{
    let (value, rest) = ended(alloc, language, tokens, height)?;
    Ok((Form::Write { place, value }, rest))
}

/// What stands behind the name that a statement begins with.
fn assigned<'a, 't>(
    alloc: Global,
    language: u8,
    label: &[u8],
    tokens: &'a [Atom<'t>],
    height: u8,
) -> Result<(Form, &'a [Atom<'t>]), Stop<'a, 't>>
    ensures given { Gives phrase_of result (assigning language height label.now (lexemes_of tokens.now)) }
    ensures shorter { IfOk result (λ x. length x.1.now < length tokens.now) }
{
    let place = Expression::Name(Identifier::from_slice(alloc, label)?);
    let (place, _, rest) = more(alloc, language, place, 0, tokens, 7, height)?;
    let rest = expect(rest, Sign::Assign)?;
    match place {
        Expression::Name(name) => set(alloc, language, name, rest, height),
        place => written(alloc, language, place, rest, height),
    }
}

/// What stands behind `return`.
fn returned<'a, 't>(
    alloc: Global,
    language: u8,
    tokens: &'a [Atom<'t>],
    height: u8,
) -> Result<(Form, &'a [Atom<'t>]), Stop<'a, 't>>
    ensures given { Gives phrase_of result (returning language height (lexemes_of tokens.now)) }
    ensures shorter { IfOk result (λ x. length x.1.now < length tokens.now) }
{
    match after(tokens, Sign::Semicolon) {
        Some(rest) => Ok((Form::Return(None), rest)),
        None => {
            let (value, rest) = ended(alloc, language, tokens, height)?;
            Ok((Form::Return(Some(value)), rest))
        }
    }
}

/// A block in braces.
#[cycle(statement)]
#[tactic(auto, using(crate::proofs::StatementEquations::statement_equations))]
fn braced<'a, 't>(
    alloc: Global,
    language: u8,
    tokens: &'a [Atom<'t>],
    height: u8,
    nesting: u8,
) -> Result<(Block, &'a [Atom<'t>]), Stop<'a, 't>>
    ensures given { Gives phrases_of result (bracing (reading_block language height nesting) (lexemes_of tokens.now)) }
    ensures shorter { IfOk result (λ x. length x.1.now < length tokens.now) }
{
    let rest = expect(tokens, Sign::OpenBrace)?;
    let (block, rest) = block(alloc, language, rest, height, nesting)?;
    let rest = expect(rest, Sign::CloseBrace)?;
    Ok((block, rest))
}

/// Whether a statement begins with the word.
fn starts_statement(lead: Lead) -> bool
    ensures { result ≡ starting lead }
{
    match lead {
        Lead::Call | Lead::Print | Lead::If | Lead::While | Lead::Return => true,
        _ => false,
    }
}

/// Whether a statement begins there.
fn is_statement(tokens: &[Atom<'_>]) -> bool
    ensures { result ≡ begins starts (lexemes_of tokens.now) }
{
    match peek(tokens) {
        Some((Lexeme::Name(_, _), _)) => true,
        Some((Lexeme::Leading(lead, _), _)) => starts_statement(lead),
        _ => false,
    }
}

/// Puts a statement behind the others. There is room for one alone where it is the first, since most blocks are short.
fn put<T: Drop>(items: &mut Vec<T>, item: T) -> Result<(), AllocError>
    ensures { OnOk result (items.new.items ≡ items.old.items ++ item ∷ []) }
{
    if items.is_empty() {
        items.reserve_exact(1)?;
    }
    items.push(item)?;
    Ok(())
}

/// As many statements as stand there, one after another.
///
/// # Errors
/// The tokens from the first one that does not fit on, or that there was no memory.
#[cycle(statement)]
#[tactic(auto, using(crate::proofs::StatementEquations::statement_equations))]
pub fn block<'a, 't>(
    alloc: Global,
    language: u8,
    tokens: &'a [Atom<'t>],
    height: u8,
    nesting: u8,
) -> Result<(Block, &'a [Atom<'t>]), Stop<'a, 't>>
    ensures given { Gives phrases_of result (reading_block language height nesting (lexemes_of tokens.now)) }
    ensures shorter { IfOk result (λ x. length x.1.now ≤ length tokens.now) }
{
    let mut items = Vec::new(alloc);
    // All of them, as a part: what is left behind a statement is one too, and the borrow checker takes them for different things else.
    let (_, mut rest) = tokens.split_at(0);
    while is_statement(rest) {
        let (statement, behind) = statement(alloc, language, rest, height, nesting)?;
        put(&mut items, statement)?;
        rest = behind;
    }
    // A tree stays until it is typed, and a list that grew may have half of its room empty.
    items.shrink_to_fit();
    Ok((Block { items }, rest))
}

/// A statement.
#[cycle(statement)]
#[tactic(auto, using(crate::proofs::StatementEquations::statement_equations))]
fn statement<'a, 't>(
    alloc: Global,
    language: u8,
    tokens: &'a [Atom<'t>],
    height: u8,
    nesting: u8,
) -> Result<(Statement, &'a [Atom<'t>]), Stop<'a, 't>>
    ensures given { Gives stated_of result (reading_statement language height nesting (lexemes_of tokens.now)) }
    ensures shorter { IfOk result (λ x. length x.1.now < length tokens.now) }
{
    let Some((first, rest)) = peek(tokens) else {
        return Err(Stop::Unexpected(tokens));
    };
    match first {
        Lexeme::Name(line, label) => {
            let (form, rest) = assigned(alloc, language, label, rest, height)?;
            Ok((Statement { line, form }, rest))
        }
        Lexeme::Leading(lead, line) => {
            let (form, rest) = led(alloc, language, lead, tokens, rest, height, nesting)?;
            Ok((Statement { line, form }, rest))
        }
        _ => Err(Stop::Unexpected(tokens)),
    }
}

/// What stands behind the word that a statement begins with.
#[cycle(statement)]
#[tactic(auto, using(crate::proofs::StatementEquations::statement_equations))]
fn led<'a, 't>(
    alloc: Global,
    language: u8,
    lead: Lead,
    tokens: &'a [Atom<'t>],
    rest: &'a [Atom<'t>],
    height: u8,
    nesting: u8,
) -> Result<(Form, &'a [Atom<'t>]), Stop<'a, 't>>
    ensures given { Gives phrase_of result (reading_behind lead language height nesting tokens.now rest.now) }
    ensures shorter { IfOk result (λ x. length x.1.now < length rest.now) }
{
    match lead {
        Lead::Print => {
            let (value, rest) = ended(alloc, language, rest, height)?;
            Ok((Form::Print(value), rest))
        }
        Lead::Call => call(alloc, language, rest, None, height),
        Lead::Return => returned(alloc, language, rest, height),
        Lead::If => choice(alloc, language, tokens, rest, height, nesting),
        Lead::While => repeated(alloc, language, tokens, rest, height, nesting),
        _ => Err(Stop::Unexpected(tokens)),
    }
}

/// The condition behind `if` or `while`, the word that `tokens` begin with. The word itself is too deep where no block
/// may stand inside.
#[tactic(auto, using(crate::proofs::StatementEquations::condition_equations))]
fn condition<'a, 't>(
    alloc: Global,
    language: u8,
    tokens: &'a [Atom<'t>],
    rest: &'a [Atom<'t>],
    height: u8,
    nesting: u8,
) -> Result<(Expression, &'a [Atom<'t>]), Stop<'a, 't>>
    ensures given { Gives expr_of result (within 0 nesting (lexemes_of tokens.now) (read language height 0 (lexemes_of rest.now))) }
    ensures shallow { IfOk result (λ x. 0 < nesting) }
    ensures shorter { IfOk result (λ x. length x.1.now < length rest.now) }
{
    if nesting == 0 {
        return Err(Stop::TooDeep(tokens));
    }
    let (condition, _, rest) = operand(alloc, language, rest, 0, height)?;
    Ok((condition, rest))
}

/// What stands behind `while`.
#[cycle(statement)]
#[tactic(auto, using(crate::proofs::StatementEquations::statement_equations))]
fn repeated<'a, 't>(
    alloc: Global,
    language: u8,
    tokens: &'a [Atom<'t>],
    rest: &'a [Atom<'t>],
    height: u8,
    nesting: u8,
) -> Result<(Form, &'a [Atom<'t>]), Stop<'a, 't>>
    ensures given { Gives phrase_of result (reading_behind Lead.While language height nesting tokens.now rest.now) }
    ensures shorter { IfOk result (λ x. length x.1.now < length rest.now) }
{
    let (condition, rest) = condition(alloc, language, tokens, rest, height, nesting)?;
    let (body, rest) = braced(alloc, language, rest, height, nesting - 1)?;
    Ok((Form::While { condition, body }, rest))
}

/// What stands behind `if`.
#[cycle(statement)]
#[tactic(auto, using(crate::proofs::StatementEquations::statement_equations))]
fn choice<'a, 't>(
    alloc: Global,
    language: u8,
    tokens: &'a [Atom<'t>],
    rest: &'a [Atom<'t>],
    height: u8,
    nesting: u8,
) -> Result<(Form, &'a [Atom<'t>]), Stop<'a, 't>>
    ensures given { Gives phrase_of result (reading_behind Lead.If language height nesting tokens.now rest.now) }
    ensures shorter { IfOk result (λ x. length x.1.now < length rest.now) }
{
    let (condition, rest) = condition(alloc, language, tokens, rest, height, nesting)?;
    let (yes, rest) = braced(alloc, language, rest, height, nesting - 1)?;
    match after(rest, Sign::Else) {
        Some(behind) => {
            let (no, rest) = braced(alloc, language, behind, height, nesting - 1)?;
            let no = Some(no);
            Ok((Form::If { condition, yes, no }, rest))
        }
        None => {
            let no = None;
            Ok((Form::If { condition, yes, no }, rest))
        }
    }
}
