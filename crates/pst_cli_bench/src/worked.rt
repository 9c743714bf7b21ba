//! What the definition says of short scripts.
ghost use Rattle.pst_cli_bench.specs.Worked.{Scripts};

/// The script of a path of eight versions, what stands behind a path with two branches, and the last line of each part of a
/// path of 20,000 versions.
pub fn scripts_by_hand()
    ensures { Scripts }
{}
