//! The next tokens of a text: as many as are read at once.

ghost use Rattle.std.specs.Prelude.{◌≡◌, ◌⊎◌, ◌+◌, ◌-◌, ◌<◌, ◌≤◌, ◌^◌, length, drop, IfErr, OnOk};
ghost use Rattle.pst_parse.specs.Window.{begins_declaration as begins};

use crate::fault::ParseFault;
use pst_lex::{Lexer, Mark};
use pst_parse_expressions::Atom;
use std::alloc::Global;

/// How many tokens are at hand, at least, where no more are taken at once than up to the begin of a declaration.
const LEAST: usize = 1_024;

/// How many tokens may be taken at once in any case.
const MOST: usize = 8_192;

/// Whether a token begins a declaration. No declaration has such a token behind its first.
fn begins_declaration(token: &Atom<'_>) -> bool
    ensures { result ≡ begins token.now }
{
    match token {
        Atom::Mark(mark, _) => match mark {
            Mark::Record | Mark::Root | Mark::Proc | Mark::Query => true,
            _ => false,
        },
        _ => false,
    }
}

/// Lets the front of a list go, and keeps so many items at its end.
#[tactic(auto, using(crate::proofs::Kept::last_alone))]
fn keep_last<T: Drop>(items: &mut Vec<T>, left: usize)
    requires { left ≤ length items.old.items }
    ensures { items.new.items ≡ drop (length items.old.items - left) items.old.items }
{
    let read = items.len() - left;
    if left == 1 {
        // One alone is put to the front, and nothing else is moved.
        items.swap(0, read);
        items.truncate(1);
    } else {
        items.drain(..read);
    }
}

/// The next tokens of a text, and the text behind them. Their names borrow from the text.
#[derive(Drop)]
pub struct Window<'a> {
    tokens: Vec<Atom<'a>>,
    lexer: Lexer<'a>,
}

impl<'a> Window<'a> {
    ghost use Rattle.pst_parse.specs.declared.fault.ParseFault.TheVariants.{Memory};
    ghost use Rattle.pst_parse.specs.Window.{IsFrontOf, HasNoEnd, KeepsAhead, KeepsReached, IsFilled, IsLast, EndsOn};

    /// Before the tokens of a text of fewer than 4,294,967,295 bytes.
    pub fn new(alloc: Global, text: &'a [u8]) -> Window<'a>
        requires { length text.now + 1 < 2 ^ 32 }
        ensures { IsFrontOf result text.now }
    {
        Window {
            tokens: Vec::new(alloc),
            lexer: Lexer::new(text),
        }
    }

    /// The tokens that are at hand.
    pub fn tokens(&self) -> &[Atom<'a>]
        ensures { result.now ≡ self.now.tokens.items }
    {
        self.tokens.as_slice()
    }

    /// Whether the text has no others.
    pub fn is_last(&self) -> bool
        ensures { IsLast result self.now }
    {
        self.lexer.is_at_end()
    }

    /// The line of the end of the text, where it has no others.
    pub fn end_line(&self) -> u32
        ensures { EndsOn result self.now }
    {
        self.lexer.line()
    }

    /// Lets the tokens go that were read, and keeps so many that are left.
    pub fn keep(&mut self, left: usize)
        requires { left ≤ length self.old.tokens.items }
        ensures tokens { self.new.tokens.items ≡ drop (length self.old.tokens.items - left) self.old.tokens.items }
        ensures lexer { self.new.lexer ≡ self.old.lexer }
    {
        keep_last(&mut self.tokens, left);
    }

    /// Takes some tokens more, up to the end of the text: up to the next that begins a declaration, once there are enough, so that
    /// what is at hand ends with whole declarations and is read once. Where a declaration is so long that none comes, it takes as
    /// many as are at hand, or as there is room for, and a few at least: so what is read again, for want of the rest of it, is no
    /// more than what is taken.
    ///
    /// # Errors
    /// Want of memory; `Unexpected` where a lexical fault stands in a token's place, with the line that was reached.
    pub fn fill(&mut self) -> Result<(), ParseFault>
        ensures ahead { OnOk result (KeepsAhead self.old self.new) }
        ensures reached { OnOk result (KeepsReached self.old self.new) }
        ensures filled { OnOk result (IsFilled self.old self.new) }
        ensures err { IfErr result (λ fault. (fault ≡ Memory) ⊎ HasNoEnd self.old) }
    {
        let kept = self.tokens.len();
        let room = self.tokens.capacity().saturating_sub(kept);
        for taken in 0..kept.max(room).max(MOST) {
            match self.lexer.next_token() {
                Ok(Some(token)) => {
                    let atom = Atom::from_token(token);
                    let begins = begins_declaration(&atom);
                    self.tokens.push(atom)?;
                    if begins && taken > 0 && self.tokens.len() > LEAST {
                        return Ok(());
                    }
                }
                Ok(None) => return Ok(()),
                Err(_) => {
                    let line = self.lexer.line();
                    return Err(ParseFault::Unexpected { line });
                }
            }
        }
        Ok(())
    }
}
