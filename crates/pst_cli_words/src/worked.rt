//! What the definition says of short lines.

ghost use Rattle.pst_cli_words.specs.Worked.{WorkedQuestions};

/// The questions of short lines: of `dump` and `changed` with blanks around their words, and none where a word is missing, is one too many or
/// has another form.
pub fn questions_by_hand()
    ensures { WorkedQuestions }
{}
