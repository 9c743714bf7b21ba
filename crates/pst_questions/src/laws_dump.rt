//! What holds of every numbering and of every dump. These functions have no code: each is a fact for those who build on the
//! definitions.

ghost use Rattle.pst_questions.specs.LawsDump.{NumberingExists, NumberingIsUnique, DumpIsUnique, RenamingKeepsDump, LinesTellHeaps, DumpsTellHeaps};
ghost use Rattle.pst_questions.specs.WorkedDump.{WorkedDumps};

/// The dumps of heaps worked by hand: a list, no item, a ring, and an item that several paths lead to beside one that none does.
pub fn dumps_by_hand()
    ensures { WorkedDumps }
{}

/// The records of a well-formed heap can be numbered.
pub fn numbering_exists()
    ensures { NumberingExists }
{}

/// A heap has one numbering.
pub fn numbering_is_unique()
    ensures { NumberingIsUnique }
{}

/// A heap has one dump.
pub fn dump_is_unique()
    ensures { DumpIsUnique }
{}

/// A heap in which records are renamed has the same dump.
pub fn renaming_keeps_dump()
    ensures { RenamingKeepsDump }
{}

/// The lines of two well-formed heaps are equal exactly where one heap is the other one with its records renamed.
pub fn lines_tell_heaps()
    ensures { LinesTellHeaps }
{}

/// The dumps of two well-formed heaps are equal exactly where one heap is the other one with its records renamed.
pub fn dumps_tell_heaps()
    ensures { DumpsTellHeaps }
{}
