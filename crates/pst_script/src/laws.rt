//! What follows from the definition of a line's meaning.
ghost use Rattle.std.specs.Prelude.{◌≡◌, ℕ, List};
ghost use Rattle.pst_script.specs.Spelled.{IsWrittenOneWay};
ghost use Rattle.pst_script.specs.declared.command.Command.{Command};
ghost use Rattle.pst_script.specs.declared.numerals.TheConstants.{MOST_CHARGES};

/// A line is a command exactly where its words are those of the command: so a line is at most one command, and each
/// command in its ranges is written in one way but for the blanks. It does nothing.
pub fn written_one_way()
    ensures { (line : List ℕ) (command : Command) → IsWrittenOneWay line command }
{}

/// The most charges that a line can grant, or set as the budget, in digits.
pub fn most_charges_in_digits()
    ensures { MOST_CHARGES ≡ 1000000000 }
{}
