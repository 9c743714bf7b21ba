//! Laws of the grammar. No function here does anything: what it ensures is the law.

ghost use Rattle.pst_grammar.specs.Grammar.{HasOneTree};
ghost use Rattle.pst_grammar.specs.Laws.{ReadsPrograms, ReadsEachProgram, FindsUnexpected, FindsTooDeep, ReadStays, FaultStays, EndIsNotTooDeep, ReadsFromFront};

use pst_lex::Token;

/// Tokens are those of at most one program.
pub fn tokens_have_one_tree(tokens: &[Token])
    ensures { HasOneTree tokens.now }
{
    let _ = tokens;
}

/// Reading from the front, by precedence climbing with one token of lookahead, answers as the grammar does, within any
/// limits of depth: it gives exactly the programs within the limits, and else the first fault where it stands.
pub fn reading_answers_as_the_grammar()
    ensures programs { ReadsPrograms }
    ensures each { ReadsEachProgram }
    ensures unexpected { FindsUnexpected }
    ensures deep { FindsTooDeep }
{}

/// A declaration needs no tokens but its own: what is read as one at the front of some tokens is read so whatever follows them,
/// and a fault that stands at one of them stands there. So a reader may have only the next tokens at hand, and take more where
/// it finds their end.
pub fn reading_needs_no_more_tokens()
    ensures read { ReadStays }
    ensures fault { FaultStays }
    ensures end { EndIsNotTooDeep }
    ensures front { ReadsFromFront }
{}
