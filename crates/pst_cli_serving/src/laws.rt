//! The law of outputs. Its function does nothing: what it ensures is the law.

ghost use Rattle.pst_cli_serving.specs.Laws.{HasOneOutput};

/// An input has at most one output for a job, whichever of its verdicts is taken.
pub fn input_has_one_output(input: &[u8])
    ensures { HasOneOutput input.now }
{
    let _ = input;
}
