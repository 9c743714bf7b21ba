//! Laws of the tokens of a text. No function here does anything: what it ensures is the law.

ghost use Rattle.pst_lex.specs.Words.{KeywordsAreThose};
ghost use Rattle.pst_lex.specs.Lexing.{HasOneLexing, HasOneFault, HasNotBoth, HasItsWords, HasNoFault, HasWords, HasTokensInPlace, HasFaultInPlace};

/// The keywords among the tokens are spelled as the words that no name is.
pub fn keywords_are_those_of_the_language()
    ensures { KeywordsAreThose }
{}

/// A text has at most one list of tokens or one first fault.
pub fn text_is_read_in_one_way(text: &[u8])
    ensures lexing { HasOneLexing text.now }
    ensures fault { HasOneFault text.now }
    ensures not_both { HasNotBoth text.now }
{
    let _ = text;
}

/// Tokens stand in the text one behind the other, each spelled by the bytes of its span. Its line, and that of a fault and of
/// the end, is 1 and the number of line feeds before it.
pub fn tokens_and_faults_stand_in_place(text: &[u8])
    ensures tokens { HasTokensInPlace text.now }
    ensures fault { HasFaultInPlace text.now }
{
    let _ = text;
}

/// The tokens of a text, places and lines apart, are determined by the text, and leave no room for a fault.
pub fn words_are_those_of_the_text(text: &[u8])
    ensures words { HasItsWords text.now }
    ensures no_fault { HasNoFault text.now }
    ensures formed { HasWords text.now }
{
    let _ = text;
}
