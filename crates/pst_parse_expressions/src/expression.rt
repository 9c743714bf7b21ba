//! Reading expressions.

ghost use Rattle.std.specs.Prelude.{◌≡◌, ◌+◌, ◌≤◌, ◌<◌, ◌∷◌, length, IfOk, IsTrue};
ghost use Rattle.pst_grammar.specs.View.{expr_of};
ghost use Rattle.pst_grammar.specs.Lexemes.{Plain, Operator};
ghost use Rattle.pst_grammar.specs.Depth.{height as height_of};
ghost use Rattle.pst_grammar.specs.Forms.{level, loosest_left, rank};
ghost use Rattle.pst_grammar.specs.Reading.{read, going, goes_on, deeper, selected as selecting};
ghost use Rattle.pst_parse_expressions.specs.View.{GivesTree, lexemes_of};

use crate::lexeme::{Atom, Lexeme, peek};
use crate::stop::Stop;
use crate::token::{after, expect, name};
use pst_base::Op;
use pst_grammar::{Expression, Identifier, Sign};
use std::alloc::Global;

/// How tightly an operator binds, from 0.
fn level_of(op: Op) -> u8
    ensures value { result ≡ level op }
    ensures small { result ≤ 5 }
{
    match op {
        Op::Or => 0,
        Op::And => 1,
        Op::Equal | Op::NotEqual | Op::Less | Op::LessEqual | Op::Greater | Op::GreaterEqual => 3,
        Op::Add | Op::Sub => 4,
        Op::Mul | Op::Div | Op::Rem => 5,
    }
}

/// The lowest rank of a form that may stand at an operator's left.
fn loosest_left_of(op: Op) -> u8
    ensures { result ≡ loosest_left op }
{
    match op {
        Op::Or => 0,
        Op::And => 1,
        Op::Equal
        | Op::NotEqual
        | Op::Less
        | Op::LessEqual
        | Op::Greater
        | Op::GreaterEqual
        | Op::Add
        | Op::Sub => 4,
        Op::Mul | Op::Div | Op::Rem => 5,
    }
}

/// The rank of a form, from 0 to 8: a greater one binds more tightly.
fn rank_of(e: &Expression) -> u8
    ensures { result ≡ rank (expr_of e.now) }
{
    match e {
        Expression::Not(_) => 2,
        Expression::Negate(_) => 6,
        Expression::Field { .. } | Expression::Indexed { .. } => 7,
        Expression::Binary { op, .. } => level_of(*op),
        Expression::Number(_) | Expression::Null | Expression::Name(_) | Expression::Parens(_) => 8,
    }
}

/// Whether an operator goes on with the form on its left, where an operand of rank `n` is wanted.
fn takes(n: u8, e: &Expression, op: Op) -> bool
    ensures { result ≡ goes_on n (expr_of e.now) op }
{
    n <= level_of(op) && loosest_left_of(op) <= rank_of(e)
}

/// An operand of rank `n` and of a height up to `budget`, in a language, 1 or 2, by precedence climbing: the operand, its
/// height, and the tokens after it.
///
/// # Errors
/// The tokens from the first one that does not fit on, or that there was no memory.
#[cycle(expression)]
#[tactic(auto, using(crate::proofs::Equations::equations))]
pub fn operand<'a, 't>(
    alloc: Global,
    language: u8,
    tokens: &'a [Atom<'t>],
    n: u8,
    budget: u8,
) -> Result<(Expression, u8, &'a [Atom<'t>]), Stop<'a, 't>>
    requires { n ≤ 6 }
    ensures given { GivesTree result (read language budget n (lexemes_of tokens.now)) }
    ensures low { IfOk result (λ x. x.1 ≤ budget) }
    ensures shorter { IfOk result (λ x. length x.2.now < length tokens.now) }
{
    let Some((first, rest)) = peek(tokens) else {
        return Err(Stop::Unexpected(tokens));
    };
    match first {
        Lexeme::Number(value) => more(
            alloc,
            language,
            Expression::Number(value),
            0,
            rest,
            n,
            budget,
        ),
        Lexeme::Name(_, name) => {
            let name = Expression::Name(Identifier::from_slice(alloc, name)?);
            more(alloc, language, name, 0, rest, n, budget)
        }
        Lexeme::Operator(op) => match op {
            Op::Sub => negated(alloc, language, tokens, rest, n, budget),
            _ => Err(Stop::Unexpected(tokens)),
        },
        Lexeme::Plain(sign) => match sign {
            Sign::Null => more(alloc, language, Expression::Null, 0, rest, n, budget),
            Sign::OpenParen => parens(alloc, language, tokens, rest, n, budget),
            Sign::Not => inverted(alloc, language, tokens, rest, n, budget),
            _ => Err(Stop::Unexpected(tokens)),
        },
        _ => Err(Stop::Unexpected(tokens)),
    }
}

/// An operand that begins with `(`.
#[cycle(expression)]
#[tactic(auto, using(crate::proofs::Equations::equations))]
fn parens<'a, 't>(
    alloc: Global,
    language: u8,
    tokens: &'a [Atom<'t>],
    rest: &'a [Atom<'t>],
    n: u8,
    budget: u8,
) -> Result<(Expression, u8, &'a [Atom<'t>]), Stop<'a, 't>>
    requires small { n ≤ 6 }
    requires begins { lexemes_of tokens.now ≡ Plain Sign.OpenParen ∷ lexemes_of rest.now }
    requires behind { length rest.now < length tokens.now }
    ensures given { GivesTree result (read language budget n (lexemes_of tokens.now)) }
    ensures low { IfOk result (λ x. x.1 ≤ budget) }
    ensures shorter { IfOk result (λ x. length x.2.now < length tokens.now) }
{
    if budget == 0 {
        return Err(Stop::TooDeep(tokens));
    }
    let (e, height, rest) = operand(alloc, language, rest, 0, budget - 1)?;
    let rest = expect(rest, Sign::CloseParen)?;
    let e = Expression::Parens(Box::new(alloc, e)?);
    more(alloc, language, e, height + 1, rest, n, budget)
}

/// An operand that begins with `-`.
#[cycle(expression)]
#[tactic(auto, using(crate::proofs::Equations::equations))]
fn negated<'a, 't>(
    alloc: Global,
    language: u8,
    tokens: &'a [Atom<'t>],
    rest: &'a [Atom<'t>],
    n: u8,
    budget: u8,
) -> Result<(Expression, u8, &'a [Atom<'t>]), Stop<'a, 't>>
    requires small { n ≤ 6 }
    requires begins { lexemes_of tokens.now ≡ Operator Op.Sub ∷ lexemes_of rest.now }
    requires behind { length rest.now < length tokens.now }
    ensures given { GivesTree result (read language budget n (lexemes_of tokens.now)) }
    ensures low { IfOk result (λ x. x.1 ≤ budget) }
    ensures shorter { IfOk result (λ x. length x.2.now < length tokens.now) }
{
    if budget == 0 {
        return Err(Stop::TooDeep(tokens));
    }
    let (e, height, rest) = operand(alloc, language, rest, 6, budget - 1)?;
    let e = Expression::Negate(Box::new(alloc, e)?);
    more(alloc, language, e, height + 1, rest, n, budget)
}

/// An operand that begins with `not`.
#[cycle(expression)]
#[tactic(auto, using(crate::proofs::Equations::equations))]
fn inverted<'a, 't>(
    alloc: Global,
    language: u8,
    tokens: &'a [Atom<'t>],
    rest: &'a [Atom<'t>],
    n: u8,
    budget: u8,
) -> Result<(Expression, u8, &'a [Atom<'t>]), Stop<'a, 't>>
    requires small { n ≤ 6 }
    requires begins { lexemes_of tokens.now ≡ Plain Sign.Not ∷ lexemes_of rest.now }
    requires behind { length rest.now < length tokens.now }
    ensures given { GivesTree result (read language budget n (lexemes_of tokens.now)) }
    ensures low { IfOk result (λ x. x.1 ≤ budget) }
    ensures shorter { IfOk result (λ x. length x.2.now < length tokens.now) }
{
    if n > 2 {
        return Err(Stop::Unexpected(tokens));
    }
    if budget == 0 {
        return Err(Stop::TooDeep(tokens));
    }
    let (e, height, rest) = operand(alloc, language, rest, 2, budget - 1)?;
    let e = Expression::Not(Box::new(alloc, e)?);
    more(alloc, language, e, height + 1, rest, n, budget)
}

/// What goes on after an expression of a height, as far as it stays an operand of rank `n`.
///
/// # Errors
/// The tokens from the first one that does not fit on, or that there was no memory.
#[cycle(expression)]
#[tactic(auto, using(crate::proofs::Equations::equations))]
pub fn more<'a, 't>(
    alloc: Global,
    language: u8,
    e: Expression,
    height: u8,
    tokens: &'a [Atom<'t>],
    n: u8,
    budget: u8,
) -> Result<(Expression, u8, &'a [Atom<'t>]), Stop<'a, 't>>
    requires small { n ≤ 7 }
    requires measured { height ≡ height_of (expr_of e) }
    requires low { height ≤ budget }
    ensures given { GivesTree result (going language budget n (expr_of e) (lexemes_of tokens.now)) }
    ensures low { IfOk result (λ x. x.1 ≤ budget) }
    ensures shorter { IfOk result (λ x. length x.2.now ≤ length tokens.now) }
{
    let Some((first, rest)) = peek(tokens) else {
        return Ok((e, height, tokens));
    };
    match first {
        Lexeme::Operator(op) => {
            if !takes(n, &e, op) {
                return Ok((e, height, tokens));
            }
            joined(alloc, language, e, height, op, tokens, rest, n, budget)
        }
        Lexeme::Plain(sign) => match sign {
            Sign::Dot => {
                if rank_of(&e) < 7 {
                    return Ok((e, height, tokens));
                }
                field(alloc, language, e, height, tokens, rest, n, budget)
            }
            _ => Ok((e, height, tokens)),
        },
        _ => Ok((e, height, tokens)),
    }
}

/// What goes on after an expression and an operator.
#[cycle(expression)]
#[tactic(auto, using(crate::proofs::Equations::equations))]
fn joined<'a, 't>(
    alloc: Global,
    language: u8,
    e: Expression,
    height: u8,
    op: Op,
    tokens: &'a [Atom<'t>],
    rest: &'a [Atom<'t>],
    n: u8,
    budget: u8,
) -> Result<(Expression, u8, &'a [Atom<'t>]), Stop<'a, 't>>
    requires small { n ≤ 7 }
    requires measured { height ≡ height_of (expr_of e) }
    requires low { height ≤ budget }
    requires begins { lexemes_of tokens.now ≡ Operator op ∷ lexemes_of rest.now }
    requires behind { length rest.now < length tokens.now }
    requires taken { IsTrue (goes_on n (expr_of e) op) }
    ensures given { GivesTree result (going language budget n (expr_of e) (lexemes_of tokens.now)) }
    ensures low { IfOk result (λ x. x.1 ≤ budget) }
    ensures shorter { IfOk result (λ x. length x.2.now ≤ length tokens.now) }
{
    if height >= budget {
        return Err(Stop::TooDeep(tokens));
    }
    let (right, right_height, rest) = operand(alloc, language, rest, level_of(op) + 1, budget - 1)?;
    let left = Box::new(alloc, e)?;
    let right = Box::new(alloc, right)?;
    let whole = Expression::Binary { op, left, right };
    more(
        alloc,
        language,
        whole,
        height.max(right_height) + 1,
        rest,
        n,
        budget,
    )
}

/// What goes on after an expression and a dot.
#[cycle(expression)]
#[tactic(auto, using(crate::proofs::Equations::equations))]
fn field<'a, 't>(
    alloc: Global,
    language: u8,
    e: Expression,
    height: u8,
    tokens: &'a [Atom<'t>],
    rest: &'a [Atom<'t>],
    n: u8,
    budget: u8,
) -> Result<(Expression, u8, &'a [Atom<'t>]), Stop<'a, 't>>
    requires small { n ≤ 7 }
    requires measured { height ≡ height_of (expr_of e) }
    requires low { height ≤ budget }
    requires begins { lexemes_of tokens.now ≡ Plain Sign.Dot ∷ lexemes_of rest.now }
    requires behind { length rest.now < length tokens.now }
    requires taken { 7 ≤ rank (expr_of e) }
    ensures given { GivesTree result (going language budget n (expr_of e) (lexemes_of tokens.now)) }
    ensures low { IfOk result (λ x. x.1 ≤ budget) }
    ensures shorter { IfOk result (λ x. length x.2.now ≤ length tokens.now) }
{
    if height >= budget {
        return Err(Stop::TooDeep(tokens));
    }
    let (label, rest) = name(alloc, rest)?;
    selected(alloc, language, e, height, label.name, rest, n, budget)
}

/// What goes on after an expression, a dot and a name: in language 2 an index may stand there.
#[cycle(expression)]
#[tactic(auto, using(crate::proofs::Equations::equations))]
fn selected<'a, 't>(
    alloc: Global,
    language: u8,
    e: Expression,
    height: u8,
    name: Identifier,
    tokens: &'a [Atom<'t>],
    n: u8,
    budget: u8,
) -> Result<(Expression, u8, &'a [Atom<'t>]), Stop<'a, 't>>
    requires small { n ≤ 7 }
    requires measured { height ≡ height_of (expr_of e) }
    requires low { height < budget }
    ensures given { GivesTree result (selecting language (deeper language budget) (expr_of e) name (λ a. going language budget n a) (lexemes_of tokens.now)) }
    ensures low { IfOk result (λ x. x.1 ≤ budget) }
    ensures shorter { IfOk result (λ x. length x.2.now ≤ length tokens.now) }
{
    let object = Box::new(alloc, e)?;
    if language != 2 {
        let whole = Expression::Field { object, name };
        return more(alloc, language, whole, height + 1, tokens, n, budget);
    }
    let Some(inside) = after(tokens, Sign::OpenParen) else {
        let whole = Expression::Field { object, name };
        return more(alloc, language, whole, height + 1, tokens, n, budget);
    };
    let (index, index_height, rest) = operand(alloc, language, inside, 0, budget - 1)?;
    let rest = expect(rest, Sign::CloseParen)?;
    let index = Box::new(alloc, index)?;
    let whole = Expression::Indexed {
        object,
        name,
        index,
    };
    more(
        alloc,
        language,
        whole,
        height.max(index_height) + 1,
        rest,
        n,
        budget,
    )
}
