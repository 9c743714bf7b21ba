//! Copies of lists, and keywords.

use pst_base::{Kind, Kinds, NoMemory, Numbers, Targets, Text, TypeNo, is_keyword};
use std::alloc::Global;

/// Whether a text and its copy are the same.
fn is_text_copied(alloc: Global) -> Result<bool, NoMemory> {
    let text = Text::from_vec(Vec::from_slice(alloc, b"key")?).copy()?;
    Ok(text.as_slice() == b"key".as_slice() && text.into_vec().len() == 3)
}

/// The same of numbers.
fn are_numbers_copied(alloc: Global) -> Result<bool, NoMemory> {
    let numbers = Numbers::from_vec(Vec::from_slice(alloc, &[3, -4])?).copy()?;
    Ok(numbers.as_slice() == [3, -4].as_slice() && numbers.into_vec().len() == 2)
}

/// The same of kinds.
fn are_kinds_copied(alloc: Global) -> Result<bool, NoMemory> {
    let both = [Kind::Int, Kind::Pointer(TypeNo(1))];
    let kinds = Kinds::from_vec(Vec::from_slice(alloc, &both)?).copy()?;
    Ok(kinds.as_slice() == both.as_slice() && kinds.into_vec().len() == 2)
}

/// The same of targets.
fn are_targets_copied(alloc: Global) -> Result<bool, NoMemory> {
    let targets = Targets::from_vec(Vec::from_slice(alloc, &[TypeNo(2)])?).copy()?;
    Ok(targets.as_slice() == [TypeNo(2)].as_slice() && targets.into_vec().len() == 1)
}

#[test]
fn lists_are_copied(rt: HostRuntime) -> Result<(), NoMemory> {
    assert!(rt; is_text_copied(rt.alloc())?);
    assert!(rt; are_numbers_copied(rt.alloc())?);
    assert!(rt; are_kinds_copied(rt.alloc())?);
    assert!(rt; are_targets_copied(rt.alloc())?);
    Ok(())
}

#[test]
fn keywords_are_told_from_names(rt: HostRuntime) {
    assert!(rt; is_keyword(b"while") && !is_keyword(b"language"));
}
