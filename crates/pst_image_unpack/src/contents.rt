//! Contents by their numbers.

ghost use Rattle.std.specs.Prelude.{◌≡◌, ◌<◌, ◌^◌, OnOk, length, map};
ghost use Rattle.pst_image_meaning.specs.Denoted.{content_of as denoted_content, contents_from, stamp_of as denoted_stamp};
ghost use Rattle.pst_image_unpack.specs.Listing.{AreOfFirst};

use pst_base::{Kind, NoMemory, NodeId, SlotNo, TypeShape};
use pst_image_form::{ENTRY_SLOTS, StampPart};
use pst_order::Pos;
use pst_rows::{Content, Stamp};

/// The content of a slot of a node of a type, by its number.
pub fn content_of(ty: &TypeShape, slot: SlotNo, number: u64) -> Content
    ensures { result ≡ denoted_content ty.now slot.0 number }
{
    match ty.kind(slot) {
        Some(Kind::Int) => Content::Number(number.cast_signed()),
        Some(Kind::Pointer(_)) if number == 0 => Content::Null,
        Some(Kind::Pointer(_)) => Content::Target(NodeId(number - 1)),
        None if number == 0 => Content::Free,
        None => {
            let node = NodeId((number / ENTRY_SLOTS).saturating_sub(1));
            Content::From(node, SlotNo((number % ENTRY_SLOTS) as u16))
        }
    }
}

/// What the slots of a node of a type hold at first, in a list that is used again for each node.
///
/// # Errors
/// Where there was no memory.
pub fn put_bases(ty: &TypeShape, numbers: &[u64], bases: &mut Vec<Content>) -> Result<(), NoMemory>
    requires few { length numbers.now < 2 ^ 16 }
    ensures { OnOk result (bases.new.items ≡ contents_from ty.now 0 numbers.now) }
{
    bases.clear();
    for slot in 0..numbers.len() {
        bases.push(content_of(ty, SlotNo(slot as u16), numbers[slot]))?;
    }
    Ok(())
}

/// A stamped value of a node of a type.
fn stamp_of(ty: &TypeShape, part: StampPart) -> Stamp
    requires { part.slot.0 < 256 }
    ensures { result ≡ denoted_stamp ty.now part }
{
    let content = content_of(ty, part.slot, part.content);
    Stamp::new(part.slot, Pos(part.place), content)
}

/// What is stamped in a node of a type, in a list that is used again for each node.
///
/// # Errors
/// Where there was no memory.
pub fn put_stamps(
    ty: &TypeShape,
    parts: &[StampPart],
    stamps: &mut Vec<Stamp>,
) -> Result<(), NoMemory>
    requires { AreOfFirst parts.now }
    ensures { OnOk result (stamps.new.items ≡ map (denoted_stamp ty.now) parts.now) }
{
    stamps.clear();
    for part in parts {
        stamps.push(stamp_of(ty, *part))?;
    }
    Ok(())
}
