//! Laws of two files.

ghost use Rattle.pst_kept_files.specs.Lives.{MeansKeepsLaw, KeptOnceLaw, LivesLaw};

/// What a session knows of its files is kept in them. Two files keep one image and one text of commands. Behind any number of days, each cut short at any moment, they keep all commands
/// that were told to be kept, in order, none twice, and of each group that was begun all or nothing.
pub fn lives()
    ensures means { MeansKeepsLaw }
    ensures once { KeptOnceLaw }
    ensures lives { LivesLaw }
{}
