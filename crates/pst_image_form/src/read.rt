//! Reading an image.

ghost use Rattle.std.specs.Prelude.{◌≡◌, ℕ, ◌^◌, List, Option, IfOk};
ghost use Rattle.pst_image_form.specs.Bytes.{HasForm};
ghost use Rattle.pst_image_form.specs.Reading.{Gives, ReadsAs, read_number, below, read_32, times, read_counted, read_text, read_version, read_stamp, read_contents, read_node, read_counts, read_body, read_front};
ghost use Rattle.pst_image_form.specs.declared.parts.ImageParts.{ImageParts};

use crate::fault::FormFault;
use crate::parts::{Image, ImageParts, NodePart, StampPart, VersionPart};
use pst_base::{Counts, Items, Name, RunNo, SlotNo, Text, TypeNo, VersionNo};
use std::alloc::Global;

// How many bytes a number takes.
const NUMBER: usize = 8;

/// A number, and the bytes behind it.
fn number(bytes: &[u8]) -> Result<(u64, &[u8]), FormFault>
    ensures { Gives (λ x. (x.0, x.1.now)) result (read_number bytes.now) }
{
    if bytes.len() < NUMBER {
        return Err(FormFault::Form);
    }
    let (front, rest) = bytes.split_at(NUMBER);
    let number = u64::from_be_bytes([
        front[0], front[1], front[2], front[3], front[4], front[5], front[6], front[7],
    ]);
    Ok((number, rest))
}

/// A number of 32 bits.
fn number32(bytes: &[u8]) -> Result<(u32, &[u8]), FormFault>
    ensures { Gives (λ x. (x.0, x.1.now)) result (read_32 bytes.now) }
{
    let (number, rest) = number(bytes)?;
    if number < 1 << 32 {
        Ok((number as u32, rest))
    } else {
        Err(FormFault::Form)
    }
}

/// A number of 16 bits.
fn number16(bytes: &[u8]) -> Result<(u16, &[u8]), FormFault>
    ensures { Gives (λ x. (x.0, x.1.now)) result (below (2 ^ 16) bytes.now) }
{
    let (number, rest) = number(bytes)?;
    if number < 1 << 16 {
        Ok((number as u16, rest))
    } else {
        Err(FormFault::Form)
    }
}

/// A number of 8 bits.
fn number8(bytes: &[u8]) -> Result<(u8, &[u8]), FormFault>
    ensures { Gives (λ x. (x.0, x.1.now)) result (below (2 ^ 8) bytes.now) }
{
    let (number, rest) = number(bytes)?;
    if number < 1 << 8 {
        Ok((number as u8, rest))
    } else {
        Err(FormFault::Form)
    }
}

/// A text: its length and its bytes.
#[tactic(auto, unfolding(crate::specs::Reading::read_text))]
fn text(alloc: Global, bytes: &[u8]) -> Result<(Text, &[u8]), FormFault>
    ensures { Gives (λ x. (x.0, x.1.now)) result (read_text bytes.now) }
{
    let (length, rest) = number(bytes)?;
    let length = length as usize;
    if rest.len() < length {
        return Err(FormFault::Form);
    }
    let (text, rest) = rest.split_at(length);
    let text = Vec::from_slice(alloc, text)?;
    Ok((Items::from_vec(text), rest))
}

#[tactic(auto, unfolding(crate::specs::Reading::read_version))]
fn version(bytes: &[u8]) -> Result<(VersionPart, &[u8]), FormFault>
    ensures { Gives (λ x. (x.0, x.1.now)) result (read_version bytes.now) }
{
    let (parent, rest) = number32(bytes)?;
    let (run, rest) = number32(rest)?;
    let (begin, rest) = number32(rest)?;
    let (end, rest) = number32(rest)?;
    let version = VersionPart {
        parent: VersionNo(parent),
        run: RunNo(run),
        begin,
        end,
    };
    Ok((version, rest))
}

#[tactic(auto, unfolding(crate::specs::Reading::read_stamp))]
fn stamp(bytes: &[u8]) -> Result<(StampPart, &[u8]), FormFault>
    ensures { Gives (λ x. (x.0, x.1.now)) result (read_stamp bytes.now) }
{
    let (slot, rest) = number16(bytes)?;
    let (place, rest) = number32(rest)?;
    let (content, rest) = number(rest)?;
    let stamp = StampPart {
        slot: SlotNo(slot),
        place,
        content,
    };
    Ok((stamp, rest))
}

/// What an image has many of, one behind the other.
trait Part: Drop + Sized {
    /// How one of them is read.
    ghost reading: { List ℕ → Option (Self × List ℕ) };

    /// One of them, and the bytes behind it.
    fn read(alloc: Global, bytes: &[u8]) -> Result<(Self, &[u8]), FormFault>
        ensures { Gives (λ x. (x.0, x.1.now)) result (reading bytes.now) };
}

impl Part for u64 {
    ghost reading = { read_number };

    fn read(_alloc: Global, bytes: &[u8]) -> Result<(u64, &[u8]), FormFault> {
        number(bytes)
    }
}

impl Part for VersionPart {
    ghost reading = { read_version };

    fn read(_alloc: Global, bytes: &[u8]) -> Result<(VersionPart, &[u8]), FormFault> {
        version(bytes)
    }
}

impl Part for StampPart {
    ghost reading = { read_stamp };

    fn read(_alloc: Global, bytes: &[u8]) -> Result<(StampPart, &[u8]), FormFault> {
        stamp(bytes)
    }
}

/// So many of them.
fn parts<T: Part>(alloc: Global, count: u64, bytes: &[u8]) -> Result<(Items<T>, &[u8]), FormFault>
    ensures { Gives (λ x. (x.0, x.1.now)) result (times T.reading count bytes.now) }
{
    let mut items = Vec::new(alloc);
    let mut rest = bytes;
    for _ in 0..count {
        let (item, after) = T::read(alloc, rest)?;
        items.push(item)?;
        rest = after;
    }
    Ok((Items::from_vec(items), rest))
}

/// What a node holds: a base for each slot, and what is stamped.
#[tactic(auto, unfolding(crate::specs::Reading::read_contents))]
fn contents(
    alloc: Global,
    bytes: &[u8],
) -> Result<((Items<u64>, Items<StampPart>), &[u8]), FormFault>
    ensures { Gives (λ x. (x.0, x.1.now)) result (read_contents bytes.now) }
{
    let (slots, rest) = number16(bytes)?;
    let (bases, rest) = parts::<u64>(alloc, u64::from(slots), rest)?;
    let (stamped, rest) = number(rest)?;
    let (stamps, rest) = parts::<StampPart>(alloc, stamped, rest)?;
    Ok(((bases, stamps), rest))
}

#[tactic(auto, unfolding(crate::specs::Reading::read_node))]
fn node(alloc: Global, bytes: &[u8]) -> Result<(NodePart, &[u8]), FormFault>
    ensures { Gives (λ x. (x.0, x.1.now)) result (read_node bytes.now) }
{
    let (run, rest) = number32(bytes)?;
    let (ordinal, rest) = number32(rest)?;
    let (ty, rest) = number8(rest)?;
    let (lo, rest) = number32(rest)?;
    let (hi, rest) = number32(rest)?;
    let (later, rest) = number(rest)?;
    let ((bases, stamps), rest) = contents(alloc, rest)?;
    let node = NodePart {
        name: Name {
            run: RunNo(run),
            ordinal,
        },
        ty: TypeNo(ty),
        lo,
        hi,
        later,
        bases,
        stamps,
    };
    Ok((node, rest))
}

impl Part for NodePart {
    ghost reading = { read_node };

    fn read(alloc: Global, bytes: &[u8]) -> Result<(NodePart, &[u8]), FormFault> {
        node(alloc, bytes)
    }
}

/// So many of them as a number of 64 bits before them says.
fn counted<T: Part>(alloc: Global, bytes: &[u8]) -> Result<(Items<T>, &[u8]), FormFault>
    ensures { Gives (λ x. (x.0, x.1.now)) result (read_counted (2 ^ 64) T.reading bytes.now) }
{
    let (count, rest) = number(bytes)?;
    parts::<T>(alloc, count, rest)
}

#[tactic(auto, unfolding(crate::specs::Reading::read_counts))]
fn counts(bytes: &[u8]) -> Result<(Counts, &[u8]), FormFault>
    ensures { Gives (λ x. (x.0, x.1.now)) result (read_counts bytes.now) }
{
    let (records, rest) = number(bytes)?;
    let (pointer_writes, rest) = number(rest)?;
    let (value_writes, rest) = number(rest)?;
    let counts = Counts {
        records,
        pointer_writes,
        value_writes,
    };
    Ok((counts, rest))
}

/// What stands behind the bytes that each image begins with.
#[tactic(auto, unfolding(crate::specs::Reading::read_body))]
fn body(alloc: Global, bytes: &[u8]) -> Result<(ImageParts, &[u8]), FormFault>
    ensures { Gives (λ x. (x.0, x.1.now)) result (read_body bytes.now) }
{
    let (text, rest) = text(alloc, bytes)?;
    let (budget, rest) = number32(rest)?;
    let (next_run, rest) = number32(rest)?;
    let (counts, rest) = counts(rest)?;
    let (places, rest) = number32(rest)?;
    let (count, rest) = number32(rest)?;
    let (versions, rest) = parts::<VersionPart>(alloc, u64::from(count), rest)?;
    let (nodes, rest) = counted::<NodePart>(alloc, rest)?;
    let parts = ImageParts {
        text,
        budget,
        next_run: RunNo(next_run),
        counts,
        places,
        versions,
        nodes,
    };
    Ok((parts, rest))
}

/// The image at the front, and the bytes behind it.
#[tactic(auto, unfolding(crate::specs::Reading::read_front))]
fn image(alloc: Global, bytes: &[u8]) -> Result<(ImageParts, &[u8]), FormFault>
    ensures { Gives (λ x. (x.0, x.1.now)) result (read_front bytes.now) }
{
    if bytes.len() < NUMBER {
        return Err(FormFault::Form);
    }
    let (front, rest) = bytes.split_at(NUMBER);
    let magic: &[u8] = b"PSTIMG01";
    if front != magic {
        return Err(FormFault::Form);
    }
    body(alloc, rest)
}

/// Reads the image at the front of the bytes; others may follow it. It takes time by the length of the image.
///
/// `Form` comes exactly where no parts have an image that the bytes begin with.
///
/// # Errors
/// Where no image stands at the front, or there was no memory.
pub fn read_image(alloc: Global, bytes: &[u8]) -> Result<Image, FormFault>
    ensures found { IfOk result (λ image. HasForm bytes.now image.parts image.length) }
    ensures only { (p : ImageParts) (len : ℕ) → HasForm bytes.now p len → ReadsAs result p len }
{
    let (parts, rest) = image(alloc, bytes)?;
    let length = bytes.len() - rest.len();
    Ok(Image { parts, length })
}
