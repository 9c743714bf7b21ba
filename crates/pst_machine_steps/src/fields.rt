//! The instructions that read and write records.

ghost use Rattle.std.specs.Prelude.{◌≡◌, ◌+◌, ◌<◌, ◌≤◌, ◌^◌, All, map, Some, IfOk, IfSome, OnOk, OnErr, length, slice_get, slice_index_or, slice_set};
ghost use Rattle.std.specs.Option.{option_map};
ghost use Rattle.pst_base.specs.Name.{root_name};
ghost use Rattle.pst_base.specs.Heap.{kind_in};
ghost use Rattle.pst_program.specs.Value.{content};
ghost use Rattle.pst_code.specs.declared.instr.Instr.TheVariants as instr;
ghost use Rattle.pst_code.specs.declared.procedure.Parts.{Parts};
ghost use Rattle.pst_versions.specs.State.{IsFresh, IsNewType, HasRoom};
ghost use Rattle.pst_versions.specs.Store.{MayStorePointer};
ghost use Rattle.pst_machine_steps.specs.View.{value_of, frame_of, StaysAt};
ghost use Rattle.pst_machine_steps.specs.Live.{IsLive, IsPlainRegister, IsRoot};
ghost use Rattle.pst_machine_steps.specs.Calls.{held_in, HasRegister, HoldsNumber};
ghost use Rattle.pst_machine_steps.specs.Steps.{Forgets, IsSeen, MayWriteRoot, MayStore, MayStoreElements, Reads, Stored, StoredElement, slot_in, RefusesElement};
ghost use Rattle.pst_machine_steps.specs.Fields.{FieldIs, ElementsAre, MayWriteField, FieldWritten, PointerWritten, Made, KeepsOthers};

use crate::frame::{index, read, set};
use crate::register::Register;
use crate::standing::{CallFrame, Seen, Standing, Step, Top};
use pst_base::{Kind, Name, NoMemory, SlotNo, TrapKind, TypeNo};
use pst_code::Reg;
use pst_versions::{HeapAt, StoreFault};

/// An element of an array: the slot of the first one, how many there are, and the register that holds the index.
#[derive(Clone, Copy)]
pub struct Element {
    pub first: SlotNo,
    pub elements: u8,
    pub index: Reg,
}

impl Element {
    ghost use Rattle.std.specs.Prelude.{◌≡◌};

    /// The element of these terms.
    #[inline(always)]
    pub fn new(first: SlotNo, elements: u8, index: Reg) -> Element
        ensures { result ≡ record { first = first; elements = elements; index = index } }
    {
        Element {
            first,
            elements,
            index,
        }
    }
}

/// What a register holds by the kinds of all.
#[inline(always)]
fn kind_at(kinds: &[Kind], r: Reg) -> Kind
    requires { r.0 < length kinds.now }
    ensures { slice_get kinds.now r.0 ≡ Some result }
{
    kinds[usize::from(r.0)]
}

/// The slot of an element, or None where the index is that of none.
#[inline(always)]
fn slot_of<R: Copy>(frame: &CallFrame<R>, element: Element) -> Option<SlotNo>
    requires there { HoldsNumber frame.now element.index }
    requires numbered { element.first.0 + element.elements ≤ 2 ^ 16 }
    ensures { (name : R → Name) → option_map (λ s. s.0) result ≡ slot_in name frame.now element }
{
    let k = index(frame, element.index, element.elements)?;
    Some(SlotNo(element.first.0 + u16::from(k)))
}

/// What a field of a record holds, at a place.
#[inline(always)]
fn field<H: HeapAt>(heap: &H, at: H::Place, r: H::Ref, slot: SlotNo, kind: Kind) -> Register<H::Ref>
    requires live { (H.state heap.now).live at r }
    requires kind { kind_in (H.state heap.now).shape ((H.state heap.now).heap at) ((H.state heap.now).name r) slot.0 ≡ Some kind }
    ensures value { value_of (H.state heap.now).name result ≡ content (Some kind) ((H.state heap.now).heap at) ((H.state heap.now).name r) slot.0 }
    ensures live { IsLive (H.state heap.now) at result }
{
    match kind {
        Kind::Int => Register::Number(heap.load_value(at, r, slot)),
        Kind::Pointer(_) => match heap.load_pointer(at, r, slot) {
            None => Register::Null,
            Some(target) => Register::Reference(target),
        },
    }
}

/// Brings the references in the registers of a frame up to date: each is then the nearest one to its record at a place.
pub fn renew<H: HeapAt>(heap: &H, at: H::Place, frame: &mut CallFrame<H::Ref>)
    requires live { All (IsLive (H.state heap.now) at) frame.old.registers.items }
    ensures means { (parts : Parts) → frame_of parts (H.state heap.now).name frame.new ≡ frame_of parts (H.state heap.now).name frame.old }
    ensures live { All (IsLive (H.state heap.now) at) frame.new.registers.items }
    ensures same { frame.new.procedure ≡ frame.old.procedure }
{
    renew_all(heap, at, &mut frame.registers);
}

/// Brings the references in registers up to date.
fn renew_all<H: HeapAt>(heap: &H, at: H::Place, registers: &mut Vec<Register<H::Ref>>)
    requires live { All (IsLive (H.state heap.now) at) registers.old.items }
    ensures values { map (value_of (H.state heap.now).name) registers.new.items ≡ map (value_of (H.state heap.now).name) registers.old.items }
    ensures live { All (IsLive (H.state heap.now) at) registers.new.items }
{
    for i in 0..registers.len() {
        let Register::Reference(r) = registers[i] else {
            continue;
        };
        registers[i] = Register::Reference(heap.nearest(at, r));
    }
}

/// Sets a register to a field of the root record, which is of the register's kind.
#[inline(always)]
pub fn root<H: HeapAt>(
    heap: &H,
    at: H::Place,
    top: &mut Top<H::Ref>,
    frame: &mut CallFrame<H::Ref>,
    kinds: &[Kind],
    d: Reg,
    slot: SlotNo,
) -> Step
    requires there { HasRegister frame.old d }
    requires kinds { d.0 < length kinds.now }
    requires top { IsRoot (H.state heap.now) at top.old.root }
    requires last { IfSome top.old.last (IsSeen (H.state heap.now) at) }
    requires kind { kind_in (H.state heap.now).shape ((H.state heap.now).heap at) root_name slot.0 ≡ slice_get kinds.now d.0 }
    ensures acts { Reads (H.state heap.now) at frame.old (instr.Root d slot) result frame.new }
    ensures live { All (IsLive (H.state heap.now) at) frame.old.registers.items → All (IsLive (H.state heap.now) at) frame.new.registers.items }
    ensures same { frame.new.procedure ≡ frame.old.procedure }
    ensures still { StaysAt frame.old result frame.new }
    ensures top { top.new.root ≡ top.old.root }
    ensures last { IfSome top.new.last (IsSeen (H.state heap.now) at) }
{
    let v = top_field(heap, at, top, slot, kind_at(kinds, d));
    set(frame, d, v)
}

/// What a field of the root record holds, at a place. It is looked up unless it was the last one that was.
#[inline(always)]
fn top_field<H: HeapAt>(
    heap: &H,
    at: H::Place,
    top: &mut Top<H::Ref>,
    slot: SlotNo,
    kind: Kind,
) -> Register<H::Ref>
    requires top { IsRoot (H.state heap.now) at top.old.root }
    requires last { IfSome top.old.last (IsSeen (H.state heap.now) at) }
    requires kind { kind_in (H.state heap.now).shape ((H.state heap.now).heap at) root_name slot.0 ≡ Some kind }
    ensures value { value_of (H.state heap.now).name result ≡ content (Some kind) ((H.state heap.now).heap at) root_name slot.0 }
    ensures live { IsLive (H.state heap.now) at result }
    ensures top { top.new.root ≡ top.old.root }
    ensures last { IfSome top.new.last (IsSeen (H.state heap.now) at) }
{
    if let Some(seen) = top.last {
        if seen.slot == slot {
            return seen.value;
        }
    }
    let value = field(heap, at, top.root, slot, kind);
    top.last = Some(Seen { slot, value });
    value
}

/// Sets a register to a field of the record that another one points to, which is of the register's kind; null traps.
#[inline(always)]
pub fn load<H: HeapAt>(
    heap: &H,
    at: H::Place,
    frame: &mut CallFrame<H::Ref>,
    kinds: &[Kind],
    d: Reg,
    object: Reg,
    slot: SlotNo,
) -> Step
    requires there { HasRegister frame.old d × HasRegister frame.old object }
    requires kinds { d.0 < length kinds.now }
    requires live { All (IsLive (H.state heap.now) at) frame.old.registers.items }
    requires kind { FieldIs (H.state heap.now) at (slice_get kinds.now d.0) slot.0 (slice_index_or frame.old.registers.items object.0 Register.Null) }
    ensures acts { Reads (H.state heap.now) at frame.old (instr.Load d object slot) result frame.new }
    ensures live { All (IsLive (H.state heap.now) at) frame.new.registers.items }
    ensures same { frame.new.procedure ≡ frame.old.procedure }
    ensures still { StaysAt frame.old result frame.new }
{
    match read(frame, object) {
        Register::Reference(r) => {
            let v = field(heap, at, r, slot, kind_at(kinds, d));
            set(frame, d, v)
        }
        _ => Step::Trap(TrapKind::Null),
    }
}

/// Sets a register to an element of an array of the record that another one points to, whose elements are of the register's
/// kind; null traps, and then an index of no element.
#[inline(always)]
pub fn load_element<H: HeapAt>(
    heap: &H,
    at: H::Place,
    frame: &mut CallFrame<H::Ref>,
    kinds: &[Kind],
    d: Reg,
    object: Reg,
    element: Element,
) -> Step
    requires there { HasRegister frame.old d × HasRegister frame.old object }
    requires index { HoldsNumber frame.old element.index }
    requires kinds { d.0 < length kinds.now }
    requires live { All (IsLive (H.state heap.now) at) frame.old.registers.items }
    requires kind { ElementsAre (H.state heap.now) at (slice_get kinds.now d.0) element.first.0 element.elements (held_in frame.old object) }
    ensures acts { let read = instr.Loadx d object element.first element.elements element.index in Reads (H.state heap.now) at frame.old read result frame.new }
    ensures live { All (IsLive (H.state heap.now) at) frame.new.registers.items }
    ensures same { frame.new.procedure ≡ frame.old.procedure }
    ensures still { StaysAt frame.old result frame.new }
{
    let Register::Reference(r) = read(frame, object) else {
        return Step::Trap(TrapKind::Null);
    };
    match slot_of(frame, element) {
        None => Step::Trap(TrapKind::Index),
        Some(slot) => {
            let v = field(heap, at, r, slot, kind_at(kinds, d));
            set(frame, d, v)
        }
    }
}

/// Writes a field of a record. The answer is why it was refused, if it was.
///
/// # Errors
/// Where there was no memory.
#[inline(always)]
pub fn write<H: HeapAt>(
    heap: &mut H,
    at: H::Place,
    r: H::Ref,
    slot: SlotNo,
    v: Register<H::Ref>,
) -> Result<Option<TrapKind>, NoMemory>
    requires { MayWriteField (H.state heap.old) at r slot.0 v }
    ensures ok { IfOk result (λ trap. FieldWritten (H.state heap.old) at ((H.state heap.old).name r) slot.0 v trap (H.state heap.new)) }
    ensures err { OnErr result (KeepsOthers at (H.state heap.old) (H.state heap.new)) }
{
    heap.known();
    match v {
        Register::Number(n) => {
            heap.store_value(at, r, slot, n)?;
            Ok(None)
        }
        Register::Null => write_pointer(heap, at, r, slot, None),
        Register::Reference(target) => write_pointer(heap, at, r, slot, Some(target)),
    }
}

/// Writes a field of the root record. The answer is why it was refused, if it was.
///
/// # Errors
/// Where there was no memory.
#[inline(always)]
pub fn set_root<H: HeapAt>(
    heap: &mut H,
    at: H::Place,
    top: &mut Top<H::Ref>,
    frame: &CallFrame<H::Ref>,
    slot: SlotNo,
    s: Reg,
) -> Result<Option<TrapKind>, NoMemory>
    requires there { HasRegister frame.now s }
    requires top { IsRoot (H.state heap.old) at top.old.root }
    requires may { MayWriteRoot (H.state heap.old) at slot.0 (held_in frame.now s) }
    ensures ok { IfOk result (λ trap. FieldWritten (H.state heap.old) at root_name slot.0 (held_in frame.now s) trap (H.state heap.new)) }
    ensures err { OnErr result (KeepsOthers at (H.state heap.old) (H.state heap.new)) }
    ensures forgets { Forgets top.old top.new }
{
    top.forget();
    let v = read(frame, s);
    write(heap, at, top.root, slot, v)
}

/// Writes a field of the record that a register points to; null traps.
///
/// # Errors
/// Where there was no memory.
#[inline(always)]
pub fn store<H: HeapAt>(
    heap: &mut H,
    at: H::Place,
    top: &mut Top<H::Ref>,
    frame: &CallFrame<H::Ref>,
    object: Reg,
    slot: SlotNo,
    s: Reg,
) -> Result<Option<TrapKind>, NoMemory>
    requires there { HasRegister frame.now object × HasRegister frame.now s }
    requires may { MayStore (H.state heap.old) at (held_in frame.now object) slot.0 (held_in frame.now s) }
    ensures ok { IfOk result (λ trap. Stored (H.state heap.old) at (held_in frame.now object) slot.0 (held_in frame.now s) trap (H.state heap.new)) }
    ensures null { IsPlainRegister (held_in frame.now object) → heap.new ≡ heap.old }
    ensures err { OnErr result (KeepsOthers at (H.state heap.old) (H.state heap.new)) }
    ensures forgets { Forgets top.old top.new }
{
    top.forget();
    match read(frame, object) {
        Register::Reference(r) => {
            let v = read(frame, s);
            write(heap, at, r, slot, v)
        }
        _ => Ok(Some(TrapKind::Null)),
    }
}

/// Writes an element of an array of the record that a register points to; null traps, and then an index of no element.
///
/// # Errors
/// Where there was no memory.
#[inline(always)]
pub fn store_element<H: HeapAt>(
    heap: &mut H,
    at: H::Place,
    top: &mut Top<H::Ref>,
    frame: &CallFrame<H::Ref>,
    object: Reg,
    element: Element,
    s: Reg,
) -> Result<Option<TrapKind>, NoMemory>
    requires there { HasRegister frame.now object × HasRegister frame.now s }
    requires index { HoldsNumber frame.now element.index }
    requires may { MayStoreElements (H.state heap.old) at (held_in frame.now object) element.first.0 element.elements (held_in frame.now s) }
    ensures ok { IfOk result (λ trap. StoredElement (H.state heap.old) at frame.now object element (held_in frame.now s) trap (H.state heap.new)) }
    ensures refused { RefusesElement (held_in frame.now object) (slot_in (H.state heap.old).name frame.now element) → heap.new ≡ heap.old }
    ensures err { OnErr result (KeepsOthers at (H.state heap.old) (H.state heap.new)) }
    ensures forgets { Forgets top.old top.new }
{
    top.forget();
    let Register::Reference(r) = read(frame, object) else {
        return Ok(Some(TrapKind::Null));
    };
    match slot_of(frame, element) {
        None => Ok(Some(TrapKind::Index)),
        Some(slot) => {
            let v = read(frame, s);
            write(heap, at, r, slot, v)
        }
    }
}

/// Writes a pointer field of a record. The answer is why it was refused, if it was.
#[inline(never)]
fn write_pointer<H: HeapAt>(
    heap: &mut H,
    at: H::Place,
    r: H::Ref,
    slot: SlotNo,
    target: Option<H::Ref>,
) -> Result<Option<TrapKind>, NoMemory>
    requires { MayStorePointer (H.state heap.old) at r slot.0 target }
    ensures ok { IfOk result (λ trap. let s = H.state heap.old in PointerWritten s at (s.name r) slot.0 (option_map s.name target) trap (H.state heap.new)) }
    ensures err { OnErr result (KeepsOthers at (H.state heap.old) (H.state heap.new)) }
{
    match heap.store_pointer(at, r, slot, target) {
        Ok(()) => Ok(None),
        Err(StoreFault::InDegree) => Ok(Some(TrapKind::InDegree)),
        Err(StoreFault::Memory) => Err(NoMemory),
    }
}

/// Makes a record whose fields are 0 or null, and sets a register to it. It has the number of the run, and how many the run
/// had made before.
///
/// # Errors
/// Where there was no memory.
pub fn make<H: HeapAt>(
    heap: &mut H,
    standing: &mut Standing<H::Place, H::Ref>,
    top: &mut Top<H::Ref>,
    frame: &mut CallFrame<H::Ref>,
    d: Reg,
    ty: TypeNo,
) -> Result<Step, NoMemory>
    requires there { HasRegister frame.old d }
    requires writable { (H.state heap.old).writable standing.old.place }
    requires known_type { IsNewType (H.state heap.old) ty }
    requires fresh { IsFresh (H.state heap.old) record { run = standing.old.run; ordinal = standing.old.made } }
    requires numbered { standing.old.made + 1 < 2 ^ 32 }
    requires room { HasRoom (H.state heap.old) }
    ensures ok { IfOk result (λ step. Made (H.state heap.old) standing.old.place record { run = standing.old.run; ordinal = standing.old.made } frame.old d.0 ty step (H.state heap.new) frame.new) }
    ensures still { IfOk result (λ step. StaysAt frame.old step frame.new) }
    ensures counted { OnOk result (standing.new ≡ record standing.old { made = standing.old.made + 1 }) }
    ensures err { OnErr result (KeepsOthers standing.old.place (H.state heap.old) (H.state heap.new)) }
    ensures stays { OnErr result (standing.new ≡ standing.old) }
    ensures forgets { Forgets top.old top.new }
{
    top.forget();
    let name = Name {
        run: standing.run,
        ordinal: standing.made,
    };
    let r = heap.allocate(standing.place, ty, name)?;
    standing.made += 1;
    Ok(set(frame, d, Register::Reference(r)))
}
