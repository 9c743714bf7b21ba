//! Laws of histories: a script goes on behind an opening as behind the history that it was taken up from, and what a program comes
//! to does not depend on its lines.
//!
//! Model: the opening that is taken up from a history (`taken_up`) has its versions, heaps and counts, its budget and its next run number,
//! and none of its runs. A tree of statements without lines has 0 for each; two results are alike where they differ in no more than the
//! line of a trap or of a fault.
//!
//! Contract: `goes_on` says that behind a history without an open run and behind the opening taken up from it, each command has one reply,
//! and the histories stay alike (`BeginsLaw`, `RepliesLaw`, `StaysLaw`). So a second script has the same replies behind the opening that is
//! taken up from a first one as behind the first one with its open runs dropped (`GoesOnLaw`), also where the program was written as its
//! canonical text and read again (`ProgramGoesOnLaw`). `lines` says that typing gives programs that are the same but for lines
//! (`TypingLaw`); what a run of such a program comes to is the same but for the line of a trap (`OutcomeLaw`, `MeaningLaw`), and so are the
//! histories of scripts (`HistoryLaw`). The canonical text of an accepted program is accepted as the same program but for lines, and is
//! its own canonical text (`CanonicalLaw`).
#![tactic(auto)]

mod laws_lines;
mod openings;

pub use laws_lines::lines;
pub use openings::goes_on;
