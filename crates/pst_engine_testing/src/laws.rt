//! How a forest begins, as a law.

ghost use Rattle.pst_engine_testing.specs.Started.{NewForestIsStarted};

/// A forest as it is started has version 0 alone, with the root record alone: with a new engine it stands for the opening.
pub fn a_new_forest_is_started()
    ensures { NewForestIsStarted }
{}
