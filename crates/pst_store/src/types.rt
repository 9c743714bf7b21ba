//! What a store asks of the types of its shape.

ghost use Rattle.std.specs.Prelude.{◌≡◌, ◌<◌, length};
ghost use Rattle.pst_base.specs.Shape.{IsValid, type_at, field_kind};
ghost use Rattle.pst_mirror.specs.Potential.{capacity};

use pst_base::{Kind, Shape, SlotNo, TypeNo};

/// How many stamped values a node of a type may have: twice its pointer elements and its limit.
#[inline(always)]
pub fn capacity_of(shape: &Shape, ty: TypeNo) -> u32
    requires valid { IsValid shape.now }
    requires known { ty.0 < length shape.now }
    ensures { result ≡ capacity (type_at shape.now ty) }
{
    let of = &shape.as_slice()[usize::from(ty.0)];
    2 * (of.targets.as_slice().len() as u32 + u32::from(of.limit))
}

/// The kind of a field of a type, or None exactly where it has no such field.
#[inline(always)]
pub fn field_kind(shape: &Shape, ty: TypeNo, field: SlotNo) -> Option<Kind>
    ensures { result ≡ field_kind (type_at shape.now ty) field.0 }
{
    match shape.as_slice().get(usize::from(ty.0)) {
        None => None,
        Some(of) => of.kind(field),
    }
}
