//! The laws of a store's changes. Each is the contract of a function that does nothing.

ghost use Rattle.pst_store_meaning.specs.Changes.{InsertedLaw, MadeLaw, NumberLaw, TakenLaw, PutLaw, ClearedLaw, PointerLaw, SplitLaw};
ghost use Rattle.pst_store_meaning.specs.Sound.{SoundLaw, FullLaw, OpenSlotLaw};
ghost use Rattle.pst_store_meaning.specs.Steps.{LifeLaw, StoreIsSoundLaw, StoreIsVersionedLaw, ForkLaw, ForkRefusedLaw, ForkBrokenLaw, PublishLaw, AllocateLaw, ValueLaw, NullLaw, LinkLaw, SplitStepLaw, RepairLaw, UnchangedLaw, ValueAroundLaw, PointerAroundLaw, AllocatedAfterLaw, KindLaw, ValueReadLaw, PointerReadLaw, RootLaw, StartLaw};

/// What each change of nodes does to the heap at each position.
pub fn changes()
    ensures inserted { InsertedLaw }
    ensures made { MadeLaw }
    ensures number { NumberLaw }
    ensures taken { TakenLaw }
    ensures put { PutLaw }
    ensures cleared { ClearedLaw }
    ensures pointer { PointerLaw }
    ensures split { SplitLaw }
{}

/// The heap at each position is well formed, a write is full exactly where no slot would be free, and a record is there over the
/// place at which it was made and nowhere else.
pub fn soundness()
    ensures sound { SoundLaw }
    ensures full { FullLaw }
    ensures open_slot { OpenSlotLaw }
    ensures store { StoreIsSoundLaw }
    ensures versions { StoreIsVersionedLaw }
    ensures life { LifeLaw }
{}

/// What the calls of a store do to what it means, and that they keep what it keeps.
pub fn steps()
    ensures fork { ForkLaw }
    ensures fork_refused { ForkRefusedLaw }
    ensures fork_broken { ForkBrokenLaw }
    ensures publish { PublishLaw }
    ensures allocate { AllocateLaw }
    ensures value { ValueLaw }
    ensures null { NullLaw }
    ensures link { LinkLaw }
    ensures split { SplitStepLaw }
{}

/// One change after another, and what is read.
pub fn around()
    ensures repair { RepairLaw }
    ensures unchanged { UnchangedLaw }
    ensures value { ValueAroundLaw }
    ensures pointer { PointerAroundLaw }
    ensures allocated { AllocatedAfterLaw }
    ensures kind { KindLaw }
    ensures value_read { ValueReadLaw }
    ensures pointer_read { PointerReadLaw }
    ensures root { RootLaw }
    ensures start { StartLaw }
{}
