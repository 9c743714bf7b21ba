//! The law of verdicts. Its function does nothing: what it ensures is the law.

ghost use Rattle.pst_front.specs.Laws.{HasOneVerdict};

/// A text has at most one verdict: one tree with one typed program, or one fault.
pub fn text_has_one_verdict(text: &[u8])
    ensures { HasOneVerdict text.now }
{
    let _ = text;
}
