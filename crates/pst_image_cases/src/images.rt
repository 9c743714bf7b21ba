//! The images of the tests: their numbers behind the eight bytes that each image begins with, in order.

ghost use Rattle.std.specs.Prelude.{IfOk};
ghost use Rattle.pst_base.specs.Shape.{IsValid};

use pst_base::{NoMemory, Shape, Targets, TypeNo, TypeShape};
use pst_image_form::{FormFault, read_image};
use pst_image_rules::{Rule, first_failed};
use std::alloc::Global;

/// The image of the empty program's store at the start: the root record, without fields, in one node.
pub(crate) const EMPTY: [u64; 22] = [
    0, 1_000_000, 1, 1, 0, 0, 2, // text, budget, next run, counts, places
    1, 0, 0, 0, 1, // one version
    1, 0, 0, 0, 0, 1, 0, 1, 0, 0, // one node: name, type, life, next, one slot, no stamped value
];

/// Run 1 made a record with the number 5 and pointed the root record's field to it; its version is version 1.
pub(crate) const LINKED: [u64; 45] = [
    0, 1_000_000, 2, 2, 1, 1, 4, // text, budget, next run, counts, places
    2, 0, 0, 0, 3, 0, 1, 1, 2, // two versions
    2, 0, 0, 0, 0, 3, 0, 2, 0, 0, 2, 0, 1, 2, 0, 2, 0, // the root record: its field is node 1 from place 1 up to place 2
    1, 0, 1, 1, 2, 0, 4, 5, 0, 128, 0, 0, // the other record: entered in its first inverse slot
];

/// Two records of the shape of `LINKED`, and a pointer from place 1 up to place 3 to a node that lives up to place 4.
pub(crate) const PAIRED: [u64; 44] = [
    0, 1_000_000, 3, 2, 2, 0, 6, // text, budget, next run, counts, places
    1, 0, 0, 0, 5, // one version
    2, 0, 0, 0, 0, 5, 0, 2, 0, 0, 2, 0, 1, 2, 0, 3, 0, // the root record
    1, 0, 1, 1, 4, 0, 4, 0, 0, 128, 0, 1, 2, 3, 0, // the other record: its entry is gone from place 3 on
];

/// Two children of version 0: that of run 2 stands before that of run 1.
pub(crate) const SIBLINGS: [u64; 30] = [
    0, 1_000_000, 3, 1, 0, 0, 6, // text, budget, next run, counts, places
    3, 0, 0, 0, 5, 0, 1, 3, 4, 0, 2, 1, 2, // three versions
    1, 0, 0, 0, 0, 5, 0, 1, 0, 0, // one node
];

/// The same versions, in the other order.
pub(crate) const TURNED: [u64; 30] = [
    0, 1_000_000, 3, 1, 0, 0, 6, // text, budget, next run, counts, places
    3, 0, 0, 0, 5, 0, 2, 1, 2, 0, 1, 3, 4, // three versions
    1, 0, 0, 0, 0, 5, 0, 1, 0, 0, // one node
];

/// The root record in two nodes, the second behind the first.
pub(crate) const COPIED: [u64; 31] = [
    0, 1_000_000, 2, 1, 1, 0, 4, // text, budget, next run, counts, places
    1, 0, 0, 0, 3, // one version
    2, 0, 0, 0, 0, 2, 2, 1, 0, 0, 0, 0, 0, 2, 3, 0, 1, 0, 0, // two nodes
];

/// A record of a run that left no version: it lives from place 1 up to place 2, where no version begins.
pub(crate) const DROPPED: [u64; 35] = [
    0, 1_000_000, 2, 2, 0, 0, 4, // text, budget, next run, counts, places
    1, 0, 0, 0, 3, // one version
    2, 0, 0, 0, 0, 3, 0, 2, 0, 0, 0, // the root record
    1, 0, 1, 1, 2, 0, 4, 0, 0, 0, 0, 0, // the other record
];

/// Two nodes of one name that lead to no other one.
pub(crate) const PARTED: [u64; 47] = [
    0, 1_000_000, 3, 3, 0, 0, 6, // text, budget, next run, counts, places
    1, 0, 0, 0, 5, // one version
    3, 0, 0, 0, 0, 5, 0, 2, 0, 0, 0, // the root record
    1, 0, 1, 1, 2, 0, 4, 0, 0, 0, 0, 0, // a node
    1, 0, 1, 3, 4, 0, 4, 0, 0, 0, 0, 0, // another one of its name
];

/// A node with two stamped values and a capacity of two: one above the bound.
pub(crate) const STAMPED: [u64; 28] = [
    0, 1_000_000, 3, 1, 0, 0, 5, // text, budget, next run, counts, places
    1, 0, 0, 0, 4, // one version
    1, 0, 0, 0, 0, 4, 0, 1, 0, 2, 0, 1, 0, 0, 2, 0, // one node
];

/// The same with three stamped values.
pub(crate) const CROWDED: [u64; 31] = [
    0, 1_000_000, 3, 1, 0, 0, 5, // text, budget, next run, counts, places
    1, 0, 0, 0, 4, // one version
    1, 0, 0, 0, 0, 4, 0, 1, 0, 3, 0, 1, 0, 0, 2, 0, 0, 3, 0, // one node
];

/// The bytes of an image with these numbers.
pub(crate) fn bytes_of(alloc: Global, numbers: &[u64]) -> Result<Vec<u8>, NoMemory> {
    let mut bytes = b"PSTIMG01".to_vec(alloc)?;
    for number in numbers {
        bytes.extend_from_slice(&number.to_be_bytes())?;
    }
    Ok(bytes)
}

/// The bytes of an image with these numbers, but for one of them.
pub(crate) fn changed(
    alloc: Global,
    numbers: &[u64],
    index: usize,
    number: u64,
) -> Result<Vec<u8>, NoMemory> {
    let mut other = numbers.to_vec(alloc)?;
    if index < other.len() {
        other[index] = number;
    }
    bytes_of(alloc, &other)
}

/// A root record without fields.
pub(crate) fn plain(alloc: Global) -> Result<Shape, NoMemory> {
    let root = TypeShape {
        values: 0,
        targets: Targets::from_vec(Vec::new(alloc)),
        limit: 1,
    };
    Ok(Shape::from_vec(vec![in alloc; root]?))
}

/// A root record with one pointer to records of a number and a pointer, of which each may be pointed to twice.
pub(crate) fn linking(alloc: Global) -> Result<Shape, NoMemory> {
    let root = TypeShape {
        values: 0,
        targets: Targets::from_vec(vec![in alloc; TypeNo(1)]?),
        limit: 1,
    };
    let cell = TypeShape {
        values: 1,
        targets: Targets::from_vec(vec![in alloc; TypeNo(1)]?),
        limit: 2,
    };
    Ok(Shape::from_vec(vec![in alloc; root, cell]?))
}

/// The number of the first rule that fails, or None where all hold.
pub(crate) fn judged(alloc: Global, shape: &Shape, bytes: &[u8]) -> Result<Option<u8>, FormFault>
    requires { IsValid shape.now }
{
    match read_image(alloc, bytes) {
        Err(FormFault::Form) => Ok(Some(Rule::Form.number())),
        Err(FormFault::Memory) => Err(FormFault::Memory),
        Ok(image) => match first_failed(alloc, shape, &image.parts)? {
            Some(rule) => Ok(Some(rule.number())),
            None => Ok(None),
        },
    }
}
