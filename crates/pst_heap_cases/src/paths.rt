//! What no clause says: that the calls which take memory succeed, and that the clauses mean what is meant. What is generic over
//! a heap of versions is run where such a heap stands.

use pst_base::{Kind, NoMemory, Shape, SlotNo, Targets, Text, TypeNo, TypeShape};
use pst_program::{FieldName, FieldNames, Program, TypeEntry, TypeNames, TypedProcs};
use pst_questions::{PathStep, path_form, resolve};
use std::alloc::Global;

/// A record type with this name and these fields: an array has a number of elements.
fn entry(
    alloc: Global,
    name: &[u8],
    fields: &[(&[u8], u16, Option<u8>)],
) -> Result<TypeEntry, NoMemory> {
    let mut names = Vec::new(alloc);
    for (name, slot, elements) in fields {
        names.push(FieldName {
            name: Text::from_vec(Vec::from_slice(alloc, name)?),
            slot: SlotNo(*slot),
            elements: *elements,
        })?;
    }
    Ok(TypeEntry {
        name: Text::from_vec(Vec::from_slice(alloc, name)?),
        fields: FieldNames::from_vec(names),
    })
}

/// A type with one value element, and so many pointers to type 1.
fn shape_of(alloc: Global, pointers: usize, limit: u8) -> Result<TypeShape, NoMemory> {
    let mut targets = Vec::new(alloc);
    for _ in 0..pointers {
        targets.push(TypeNo(1))?;
    }
    Ok(TypeShape {
        values: 1,
        targets: Targets::from_vec(targets),
        limit,
    })
}

/// A program with the roots `size`, a number, and `first`, an `N`, which has a number `key`, an `N` called `next` and
/// an array of two of them, `links`.
fn program(alloc: Global) -> Result<Program, NoMemory> {
    let root = entry(alloc, b"root", &[(b"first", 1, None), (b"size", 0, None)])?;
    let node = entry(
        alloc,
        b"N",
        &[
            (b"key", 0, None),
            (b"next", 1, None),
            (b"links", 2, Some(2)),
        ],
    )?;
    Ok(Program {
        language: 2,
        shape: Shape::from_vec(vec![in alloc; shape_of(alloc, 1, 1)?, shape_of(alloc, 3, 2)?]?),
        names: TypeNames::from_vec(vec![in alloc; root, node]?),
        procedures: TypedProcs {
            items: Vec::new(alloc),
        },
    })
}

/// Whether these are the slots of a path, or None where the path is not valid.
fn are_slots(
    alloc: Global,
    program: &Program,
    path: &[u8],
    want: Option<&[PathStep]>,
) -> Result<bool, NoMemory> {
    let slots = resolve(alloc, program, path)?;
    Ok(slots.as_ref().map(|slots| slots.as_slice()) == want)
}

#[test]
fn a_path_has_the_slots_of_its_fields(rt: HostRuntime) -> Result<(), NoMemory> {
    let alloc = rt.alloc();
    let program = program(alloc)?;
    let number = PathStep {
        slot: SlotNo(0),
        kind: Kind::Int,
    };
    let pointer = PathStep {
        slot: SlotNo(1),
        kind: Kind::Pointer(TypeNo(1)),
    };
    let cases: [(&[u8], Option<&[PathStep]>); 12] = [
        (b"size", Some(&[number])),
        (b"first", Some(&[pointer])),
        (b"first.key", Some(&[pointer, number])),
        (
            b"first.next.next.key",
            Some(&[pointer, pointer, pointer, number]),
        ),
        (b"key", None),
        (b"first.size", None),
        (b"first.Key", None),
        (b"size.key", None),
        (b"first.links", None),
        (b"first.links.key", None),
        (b"first.", None),
        (b"", None),
    ];
    for (path, want) in cases {
        assert!(rt; are_slots(alloc, &program, path, want)?);
    }
    Ok(())
}

#[test]
fn a_path_is_names_joined_by_single_dots(rt: HostRuntime) {
    let cases = [
        ("first", true),
        ("_.A9.next_2", true),
        ("first.a2345678901234567890123456789012.key", true),
        ("first.a23456789012345678901234567890123.key", false),
        ("", false),
        (".", false),
        ("first.", false),
        (".first", false),
        ("first..key", false),
        ("first.while", false),
        ("first.whiles", true),
        ("2first", false),
        ("first key", false),
        ("first.k\u{e9}y", false),
    ];
    for (path, want) in cases {
        assert_eq!(rt; path_form(path.as_bytes()), want);
    }
}
