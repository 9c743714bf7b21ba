//! Writing an image.

ghost use Rattle.std.specs.Prelude.{◌≡◌, ◌++◌, ℕ, List, OnOk, IfOk};
ghost use Rattle.pst_image_form.specs.Bytes.{number as number_bytes, counted, text_bytes, version_bytes, stamp_bytes, node_bytes, counts_bytes, body_bytes, image_bytes};

use crate::parts::{ImageParts, NodePart, StampPart, VersionPart};
use pst_base::{Counts, Items, NoMemory, Text};
use std::alloc::Global;

/// A number at the end.
#[tactic(auto, unfolding(crate::specs::Bytes::number))]
fn put(out: &mut Vec<u8>, number: u64) -> Result<(), NoMemory>
    ensures { OnOk result (out.new.items ≡ out.old.items ++ number_bytes number) }
{
    out.extend_from_slice(&number.to_be_bytes())
}

/// What an image has many of, one behind the other.
trait Written {
    /// How one of them is written.
    ghost bytes: { Self → List ℕ };

    /// One more at the end.
    fn write(&self, out: &mut Vec<u8>) -> Result<(), NoMemory>
        ensures { OnOk result (out.new.items ≡ out.old.items ++ bytes self.now) };
}

impl Written for u64 {
    ghost bytes = { number_bytes };

    fn write(&self, out: &mut Vec<u8>) -> Result<(), NoMemory> {
        put(out, *self)
    }
}

impl Written for VersionPart {
    ghost bytes = { version_bytes };

    fn write(&self, out: &mut Vec<u8>) -> Result<(), NoMemory> {
        put(out, u64::from(self.parent.0))?;
        put(out, u64::from(self.run.0))?;
        put(out, u64::from(self.begin))?;
        put(out, u64::from(self.end))
    }
}

impl Written for StampPart {
    ghost bytes = { stamp_bytes };

    fn write(&self, out: &mut Vec<u8>) -> Result<(), NoMemory> {
        put(out, u64::from(self.slot.0))?;
        put(out, u64::from(self.place))?;
        put(out, self.content)
    }
}

/// How many there are, and each of them.
fn put_all<T: Written>(out: &mut Vec<u8>, items: &[T]) -> Result<(), NoMemory>
    ensures { OnOk result (out.new.items ≡ out.old.items ++ counted T.bytes items.now) }
{
    put(out, items.len() as u64)?;
    for item in items {
        item.write(out)?;
    }
    Ok(())
}

impl Written for NodePart {
    ghost bytes = { node_bytes };

    fn write(&self, out: &mut Vec<u8>) -> Result<(), NoMemory> {
        put(out, u64::from(self.name.run.0))?;
        put(out, u64::from(self.name.ordinal))?;
        put(out, u64::from(self.ty.0))?;
        put(out, u64::from(self.lo))?;
        put(out, u64::from(self.hi))?;
        put(out, self.later)?;
        put_all(out, self.bases.as_slice())?;
        put_all(out, self.stamps.as_slice())
    }
}

/// The counts at the end.
fn put_counts(out: &mut Vec<u8>, counts: &Counts) -> Result<(), NoMemory>
    ensures { OnOk result (out.new.items ≡ out.old.items ++ counts_bytes counts.now) }
{
    put(out, counts.records)?;
    put(out, counts.pointer_writes)?;
    put(out, counts.value_writes)
}

/// What stands behind the bytes that each image begins with.
fn put_body(out: &mut Vec<u8>, parts: &ImageParts) -> Result<(), NoMemory>
    ensures { OnOk result (out.new.items ≡ out.old.items ++ body_bytes parts.now) }
{
    let text = parts.text.as_slice();
    put(out, text.len() as u64)?;
    out.extend_from_slice(text)?;
    put(out, u64::from(parts.budget))?;
    put(out, u64::from(parts.next_run.0))?;
    put_counts(out, &parts.counts)?;
    put(out, u64::from(parts.places))?;
    put_all(out, parts.versions.as_slice())?;
    put_all(out, parts.nodes.as_slice())
}

/// The bytes of an image. It takes time by their number.
///
/// # Errors
/// Where there was no memory.
pub fn write_image(alloc: Global, parts: &ImageParts) -> Result<Text, NoMemory>
    ensures { IfOk result (λ text. text ≡ image_bytes parts.now) }
{
    let mut out = Vec::new(alloc);
    out.extend_from_slice(b"PSTIMG01")?;
    put_body(&mut out, parts)?;
    Ok(Items::from_vec(out))
}
