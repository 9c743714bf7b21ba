//! Code whose meaning is known.

ghost use Rattle.std.specs.Prelude.{◌≡◌};
ghost use Rattle.pst_history.specs.Meaning.{IsLawful};
ghost use Rattle.pst_engine_runs.specs.Coded.{IsMeaningOf, MeantCode};

use pst_code::Code;

/// Code whose meaning is known, and lawful: what the machine comes to on it.
pub trait Meant {
    /// The code, with what it means.
    ghost meant: { Self → MeantCode };

    /// The code.
    fn code(&self) -> &Code
        ensures code { result.now ≡ (meant self.now).parts }
        ensures means { IsMeaningOf (meant self.now).parts (meant self.now).meaning }
        ensures lawful { IsLawful (meant self.now).meaning };
}
