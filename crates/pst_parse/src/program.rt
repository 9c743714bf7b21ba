//! Parsing a whole program.

ghost use Rattle.std.specs.Prelude.{◌≡◌, ◌+◌, ◌≤◌, ◌<◌, ◌^◌, length, IfOk};
ghost use Rattle.pst_lex.specs.Lexing.{HasLexing};
ghost use Rattle.pst_parse.specs.Answers.{Found, FindsOnly, FaultsUnexpected, FaultsTooDeep, OfItsTokens, Parses};
ghost use Rattle.pst_parse.specs.Window.{Ahead, IsFilled, ReachesEnd};
ghost use Rattle.pst_parse.specs.Taking.{StandsOn, Takes, Declares, Opens, HasRoom};

use crate::fault::ParseFault;
use crate::window::Window;
use pst_grammar::{Declaration, Declarations, Tree};
use pst_parse_declarations::{behind_two, behind_word, declaration, is_token};
use pst_parse_expressions::{Atom, Stop};
use std::alloc::Global;

/// The greatest height of an expression or a place: its depth, counted from 1, is one more.
const HEIGHT: u8 = 63;

/// How many blocks may stand in one another below the body of a procedure.
const NESTING: u8 = 15;

/// The line of the token from which on so many tokens are left.
fn line_from(tokens: &[Atom<'_>], left: usize) -> u32
    requires some { 0 < left }
    requires within { left ≤ length tokens.now }
    ensures { StandsOn result tokens.now left }
{
    tokens[tokens.len() - left].line()
}

/// Takes the declarations that stand at the front of the tokens, one after another, and answers how many tokens are left: none,
/// or those of a declaration that their end breaks off.
fn take_declarations(
    alloc: Global,
    language: u8,
    tokens: &[Atom<'_>],
    items: &mut Vec<Declaration>,
) -> Result<usize, ParseFault>
    ensures { Takes language result tokens.now items.old.items items.new.items }
{
    // All of them, as a part, as in `pst_parse_statements::block`.
    let (_, mut rest) = tokens.split_at(0);
    while is_token(rest) {
        match declaration(alloc, language, rest, HEIGHT, NESTING) {
            Ok(read) => {
                let (declaration, behind) = read;
                items.push(declaration)?;
                rest = behind;
            }
            Err(Stop::Unexpected(place)) => {
                if place.is_empty() {
                    return Ok(rest.len());
                }
                let line = line_from(tokens, place.len());
                return Err(ParseFault::Unexpected { line });
            }
            Err(Stop::TooDeep(place)) => {
                let line = line_from(tokens, place.len());
                return Err(ParseFault::TooDeep { line });
            }
            Err(Stop::Memory) => return Err(ParseFault::Memory),
        }
    }
    Ok(0)
}

/// The declarations of a program of a language, up to the end of the text.
fn declarations(alloc: Global, language: u8, mut window: Window) -> Result<Declarations, ParseFault>
    ensures declares { Declares language result window.entry }
    ensures lexed { IfOk result (λ _. ReachesEnd window.entry) }
{
    let mut items = Vec::new(alloc);
    let mut left = take_declarations(alloc, language, window.tokens(), &mut items)?;
    while !window.is_last() {
        window.keep(left);
        window.fill()?;
        left = take_declarations(alloc, language, window.tokens(), &mut items)?;
    }
    if left > 0 {
        let line = window.end_line();
        return Err(ParseFault::Unexpected { line });
    }
    Ok(Declarations { items })
}

/// The language of a program that begins with these tokens, and how many of them are left behind what says it.
fn opening(window: &Window) -> Result<(u8, usize), ParseFault>
    requires { HasRoom window.now }
    ensures opens { Opens result window.now }
    ensures within { IfOk result (λ read. read.1 ≤ length window.now.tokens.items) }
{
    let tokens = window.tokens();
    let Some(rest) = behind_word(tokens) else {
        return Ok((1, tokens.len()));
    };
    match behind_two(rest) {
        Ok(rest) => Ok((2, rest.len())),
        Err(Stop::Unexpected(place)) => {
            let line = if place.is_empty() {
                window.end_line()
            } else {
                line_from(tokens, place.len())
            };
            Err(ParseFault::Unexpected { line })
        }
        Err(Stop::TooDeep(_) | Stop::Memory) => Err(ParseFault::Memory),
    }
}

/// The program of a text.
fn program(alloc: Global, text: &[u8]) -> Result<Tree, ParseFault>
    requires { length text.now + 1 < 2 ^ 32 }
    ensures parses { Parses result text.now }
    ensures lexed { IfOk result (λ _. HasLexing text.now) }
{
    let mut window = Window::new(alloc, text);
    window.fill()?;
    let (language, left) = opening(&window)?;
    window.keep(left);
    let declarations = declarations(alloc, language, window)?;
    Ok(Tree {
        language,
        declarations,
    })
}

/// The program that the tokens of a text are, of language 2 where they begin with the name `language` and the number 2, and of
/// language 1 elsewhere: with its parentheses kept, its chains grouped to the left, and the line of each
/// declaration, field, parameter, local and statement. The text has fewer than 4,294,967,295 bytes. Where it has a lexical fault
/// there is no tree, and the error tells no more than that: `pst_lex::find_fault` tells which fault is the first.
///
/// An expression, and the place before a `=`, may have depth 64: a number, `null` or a name has depth 1, parentheses,
/// `-`, `not` and `.` add 1, an operator adds 1 to its deeper side, and an access with an index adds 1 to the deeper of
/// the object and the index. Blocks may stand 16 deep, the body of a
/// procedure counted. It reads by recursive descent with one token of lookahead, in time linear in the number of
/// tokens, and never goes on behind a token that no program has there, so that the first fault is found where it
/// stands. Of the tokens it has no more at hand than four times those of the longest declaration, or some thousands.
///
/// # Errors
///
/// `Unexpected` at the first token, or at the end, where no program goes on so. `TooDeep` at the first token with
/// which programs go on, all of them too deep. The earlier of the two is given. `Memory` where memory ran out.
pub fn parse(alloc: Global, text: &[u8]) -> Result<Tree, ParseFault>
    requires { length text.now + 1 < 2 ^ 32 }
    ensures lexed { IfOk result (λ _. HasLexing text.now) }
    ensures found { OfItsTokens text.now (Found 63 15 result) }
    ensures only { OfItsTokens text.now (FindsOnly 63 15 result) }
    ensures unexpected { OfItsTokens text.now (FaultsUnexpected 63 15 result) }
    ensures deep { OfItsTokens text.now (FaultsTooDeep 63 15 result) }
{
    program(alloc, text)
}
