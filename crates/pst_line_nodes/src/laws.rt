//! The laws of the changes of nodes. Each is the contract of a function that does nothing.

ghost use Rattle.pst_line_nodes.specs.Changes.{NumberLaw, NullLaw, PointLaw, RedirectLaw, CopyLaw, MadeLaw, QuietLaw, WalkLaw};

/// A number, null or a pointer is written, and a new record is made.
pub fn writes()
    ensures number { NumberLaw }
    ensures null { NullLaw }
    ensures point { PointLaw }
    ensures made { MadeLaw }
{}

/// A full node is copied, and the pointers to it are redirected.
pub fn cascade()
    ensures copy { CopyLaw }
    ensures redirect { RedirectLaw }
    ensures quiet { QuietLaw }
    ensures walk { WalkLaw }
{}

ghost use Rattle.pst_line_nodes.specs.Full.{FullLaw, OpenLaw};

/// A pointer write is refused exactly where no slot would be free.
pub fn degrees()
    ensures full { FullLaw }
    ensures open_slot { OpenLaw }
{}

ghost use Rattle.pst_line_nodes.specs.Runs.{NextLaw, DropLaw, LeftBehindLaw};

/// A run is published, or its records are dropped.
pub fn runs()
    ensures next { NextLaw }
    ensures drop { DropLaw }
    ensures left_behind { LeftBehindLaw }
{}
