//! Shapes at the bounds.

use pst_base::{NoMemory, Shape, Targets, TypeNo, TypeShape};
use std::alloc::Global;

/// A type: how many value fields and how many pointers it has, to which type these lead, and its limit.
type Given = (u16, u8, u8, u8);

/// Root records, and whether each is a valid shape by itself.
const ROOTS: [(Given, bool); 6] = [
    ((0, 0, 0, 1), true),
    ((32, 0, 0, 1), true),
    ((33, 0, 0, 1), false),
    ((0, 0, 0, 0), false),
    ((0, 0, 0, 2), false),
    ((0, 1, 1, 1), false),
];

/// Root records with one further type, and whether both are a valid shape.
const PAIRS: [(Given, Given, bool); 8] = [
    ((0, 1, 1, 1), (0, 0, 0, 1), true),
    ((16, 16, 1, 1), (48, 16, 1, 16), true),
    ((17, 16, 1, 1), (0, 0, 0, 1), false),
    ((0, 0, 0, 1), (49, 16, 1, 16), false),
    ((0, 0, 0, 1), (0, 0, 0, 0), false),
    ((0, 0, 0, 1), (0, 0, 0, 17), false),
    ((0, 0, 0, 1), (0, 1, 0, 1), false),
    ((0, 0, 0, 1), (0, 1, 2, 1), false),
];

/// The type that is given so.
fn type_of(alloc: Global, given: Given) -> Result<TypeShape, NoMemory> {
    let (values, pointers, target, limit) = given;
    let mut targets = Vec::new(alloc);
    for _ in 0..pointers {
        targets.push(TypeNo(target))?;
    }
    Ok(TypeShape {
        values,
        targets: Targets::from_vec(targets),
        limit,
    })
}

/// A root record, and so many further types that are all given so.
fn shape_of(alloc: Global, root: Given, count: u8, other: Given) -> Result<Shape, NoMemory> {
    let mut types = Vec::new(alloc);
    types.push(type_of(alloc, root)?)?;
    for _ in 0..count {
        types.push(type_of(alloc, other)?)?;
    }
    Ok(Shape::from_vec(types))
}

#[test]
fn root_records_within_the_bounds_are_valid(rt: HostRuntime) -> Result<(), NoMemory> {
    assert!(rt; !Shape::from_vec(Vec::new(rt.alloc())).is_valid());
    for (root, want) in ROOTS {
        let shape = shape_of(rt.alloc(), root, 0, root)?;
        assert!(rt; shape.is_valid() == want);
    }
    Ok(())
}

#[test]
fn types_within_the_bounds_are_valid(rt: HostRuntime) -> Result<(), NoMemory> {
    for (root, other, want) in PAIRS {
        let shape = shape_of(rt.alloc(), root, 1, other)?;
        assert!(rt; shape.is_valid() == want);
    }
    Ok(())
}

#[test]
fn sixty_five_types_are_valid_and_no_more(rt: HostRuntime) -> Result<(), NoMemory> {
    let plain = (0, 0, 0, 1);
    let shape = shape_of(rt.alloc(), plain, 64, (1, 1, 64, 2))?;
    assert!(rt; shape.is_valid());
    let copy = shape.copy(rt.alloc())?;
    assert!(rt; copy.is_valid() && copy.as_slice().len() == 65);
    assert!(rt; !shape_of(rt.alloc(), plain, 65, plain)?.is_valid());
    Ok(())
}
