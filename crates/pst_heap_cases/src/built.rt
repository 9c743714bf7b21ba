//! A heap that a test builds.

ghost use Rattle.std.specs.Prelude.{◌≡◌, IsTrue, IfSome, IfOk};
ghost use Rattle.pst_versions.specs.State.{HasRoom};
ghost use Rattle.pst_forest.specs.Forest.{state_of};

use pst_base::{Kind, Name, NoMemory, RunNo, Shape, SlotNo, Targets, Text, TypeNo, TypeShape};
use pst_forest::{Forest, PlaceNo, Reference};
use pst_program::{FieldNames, Program, TypeEntry, TypeNames, TypedProcs};
use pst_questions::dump;
use pst_versions::{HeapAt, MOST_FORKS, StoreFault, VersionedHeap};
use std::alloc::Global;

/// The type of all records but the root record: two numbers, and then two pointers to items.
const ITEM: TypeNo = TypeNo(1);

/// The slots of an item.
pub(crate) const KEY: SlotNo = SlotNo(0);

pub(crate) const SIZE: SlotNo = SlotNo(1);

pub(crate) const LEFT: SlotNo = SlotNo(2);

pub(crate) const RIGHT: SlotNo = SlotNo(3);

/// The slots of the root record.
pub(crate) const FIRST: SlotNo = SlotNo(0);

pub(crate) const SECOND: SlotNo = SlotNo(1);

/// The root record.
pub(crate) const ROOT: Reference = Reference {
    name: pst_base::ROOT,
    ty: TypeNo(0),
};

/// Why a test comes to no answer.
#[derive(Clone, Copy, Debug, PartialEq, Eq)]
pub(crate) enum Trouble {
    /// What a call needs does not hold.
    Misfit,
    /// The heap refused a call.
    Refused(StoreFault),
}

impl From<NoMemory> for Trouble {
    fn from(_error: NoMemory) -> Trouble {
        Trouble::Refused(StoreFault::Memory)
    }
}

impl From<StoreFault> for Trouble {
    fn from(fault: StoreFault) -> Trouble {
        Trouble::Refused(fault)
    }
}

/// An item of run 1.
pub(crate) fn item(ordinal: u32) -> Reference {
    Reference {
        name: Name {
            run: RunNo(1),
            ordinal,
        },
        ty: ITEM,
    }
}

/// A type with this many numbers, two pointers to items, and this limit.
fn type_of_two(alloc: Global, values: u16, limit: u8) -> Result<TypeShape, NoMemory> {
    Ok(TypeShape {
        values,
        targets: Targets::from_vec(vec![in alloc; ITEM, ITEM]?),
        limit,
    })
}

/// Two roots, and items.
fn shape(alloc: Global) -> Result<Shape, NoMemory> {
    let root = type_of_two(alloc, 0, 1)?;
    let items = type_of_two(alloc, 2, 4)?;
    Ok(Shape::from_vec(vec![in alloc; root, items]?))
}

/// The forest of version 0.
fn start(alloc: Global) -> Result<Forest, Trouble> {
    let shape = shape(alloc)?;
    if !shape.is_valid() {
        return Err(Trouble::Misfit);
    }
    Ok(Forest::start(alloc, &shape)?)
}

/// The names of a record type without fields.
fn entry(alloc: Global, name: &[u8]) -> Result<TypeEntry, NoMemory> {
    Ok(TypeEntry {
        name: Text::from_vec(Vec::from_slice(alloc, name)?),
        fields: FieldNames::from_vec(Vec::new(alloc)),
    })
}

/// A program with the shape, where items are called `N`.
fn program(alloc: Global, shape: &Shape) -> Result<Program, NoMemory>
    ensures { IfOk result (λ p. p.shape ≡ shape.now) }
{
    let root = entry(alloc, b"root")?;
    let items = entry(alloc, b"N")?;
    Ok(Program {
        language: 1,
        shape: shape.copy(alloc)?,
        names: TypeNames::from_vec(vec![in alloc; root, items]?),
        procedures: TypedProcs {
            items: Vec::new(alloc),
        },
    })
}

/// Whether each count can be raised once.
fn has_room(forest: &Forest) -> bool
    ensures { IsTrue result → HasRoom (state_of forest.now) }
{
    let counts = forest.counts();
    counts.records < 1 << 60 && counts.pointer_writes < 1 << 60 && counts.value_writes < 1 << 60
}

/// Whether a target is null, or live at a place.
fn is_live(forest: &Forest, at: PlaceNo, target: Option<Reference>) -> bool
    ensures { IsTrue result → IfSome target ((state_of forest.now).live at) }
{
    match target {
        None => true,
        Some(target) => forest.is_live(at, target),
    }
}

/// A fork of the heap that has the root record alone, and that is written record by record.
#[derive(Drop)]
pub(crate) struct Built {
    alloc: Global,
    forest: Forest,
    at: PlaceNo,
}

impl Built {
    /// The root record alone.
    pub(crate) fn new(alloc: Global) -> Result<Built, Trouble> {
        let mut forest = start(alloc)?;
        let from = PlaceNo(0);
        if !forest.has(from) || forest.can_write(from) || forest.fork_calls() >= MOST_FORKS {
            return Err(Trouble::Misfit);
        }
        let at = forest.fork(from)?;
        Ok(Built { alloc, forest, at })
    }

    /// Makes an item.
    pub(crate) fn make(&mut self, r: Reference) -> Result<(), Trouble> {
        if !self.forest.can_write(self.at)
            || !self.forest.is_fresh(r.name)
            || !has_room(&self.forest)
            || self.forest.shape().as_slice().len() < 2
        {
            return Err(Trouble::Misfit);
        }
        self.forest.allocate(self.at, ITEM, r.name)?;
        Ok(())
    }

    /// Writes a number.
    pub(crate) fn set(&mut self, r: Reference, field: SlotNo, n: i64) -> Result<(), Trouble> {
        if !self.forest.can_write(self.at)
            || !self.forest.is_live(self.at, r)
            || !has_room(&self.forest)
        {
            return Err(Trouble::Misfit);
        }
        match self.forest.kind_of(self.at, r, field) {
            Some(Kind::Int) => Ok(self.forest.store_value(self.at, r, field, n)?),
            Some(Kind::Pointer(_)) | None => Err(Trouble::Misfit),
        }
    }

    /// Writes a pointer.
    pub(crate) fn point(
        &mut self,
        r: Reference,
        field: SlotNo,
        target: Option<Reference>,
    ) -> Result<(), Trouble> {
        if !self.forest.can_write(self.at)
            || !self.forest.is_live(self.at, r)
            || !is_live(&self.forest, self.at, target)
            || !self.forest.fits(self.at, r, field, target)
            || !has_room(&self.forest)
        {
            return Err(Trouble::Misfit);
        }
        Ok(self.forest.store_pointer(self.at, r, field, target)?)
    }

    /// The dump, where items are called `N`.
    pub(crate) fn dump(&self) -> Result<Text, Trouble> {
        if !self.forest.has(self.at) {
            return Err(Trouble::Misfit);
        }
        let program = program(self.alloc, self.forest.shape())?;
        Ok(dump(self.alloc, &self.forest, &program, self.at)?)
    }
}
