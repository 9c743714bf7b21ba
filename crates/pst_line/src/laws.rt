//! What each change of nodes does to what a line store means. Each law is the contract of a function that does nothing.

ghost use Rattle.pst_line.specs.StoreLaws.{SoundLaw, ValueLaw, NullLaw, PointLaw, AllocateLaw, CopyLaw, RedirectLaw, FailLaw, BeginLaw, PublishLaw};
ghost use Rattle.pst_line.specs.Undoing.{EndLaw, PutBackLaw, RoomLaw};

/// The changes of the calls of `HeapAt`.
pub fn changes()
    ensures sound { SoundLaw }
    ensures value { ValueLaw }
    ensures null { NullLaw }
    ensures point { PointLaw }
    ensures allocate { AllocateLaw }
    ensures copy { CopyLaw }
    ensures redirect { RedirectLaw }
    ensures fail { FailLaw }
{}

/// How runs begin and end.
pub fn runs()
    ensures begin { BeginLaw }
    ensures publish { PublishLaw }
    ensures put_back { PutBackLaw }
    ensures room { RoomLaw }
    ensures end { EndLaw }
{}

ghost use Rattle.pst_line.specs.Undo.{ValueBackLaw, PointerBackLaw, EntryLaw, RecordBackLaw};

/// What an undo entry stands for.
pub fn undo_entries()
    ensures value_back { ValueBackLaw }
    ensures pointer_back { PointerBackLaw }
    ensures entry { EntryLaw }
    ensures new_record { RecordBackLaw }
{}
