//! The script as a whole.
ghost use Rattle.std.specs.Prelude.{◌≡◌, ◌+◌, ◌/◌, ◌^◌, ◌<◌, ◌≤◌, ◌++◌, OnOk, IfOk};
ghost use Rattle.pst_cli_bench.specs.Script.{path_lines, branch_lines, count_lines, key_lines, script};

use crate::lines::{SPACING, push_branch_line, push_count_line, push_key_line, push_path_line};
use pst_base::{NoMemory, Text};
use std::alloc::Global;

/// How many versions the path of the bench has.
pub const SIZE: u32 = 20_000;

/// The most bytes that a line takes in a script of this size.
const LINE_BYTES: usize = 21;

/// Puts the lines that make the path behind its first version.
fn push_path(text: &mut Vec<u8>, size: u32, number: u64) -> Result<(), NoMemory>
    requires some { 1 ≤ size }
    requires fits { size + 1 < 2 ^ 32 }
    ensures { OnOk result (text.new.items ≡ text.old.items ++ path_lines size number) }
{
    for version in 2..size + 1 {
        push_path_line(text, number, version)?;
    }
    Ok(())
}

/// Puts the lines that make the branches.
fn push_branches(text: &mut Vec<u8>, size: u32, number: u64) -> Result<(), NoMemory>
    ensures { OnOk result (text.new.items ≡ text.old.items ++ branch_lines size number) }
{
    for branch in 1..size / SPACING + 1 {
        push_branch_line(text, number, branch)?;
    }
    Ok(())
}

/// Puts the queries that count.
fn push_counts(text: &mut Vec<u8>, size: u32) -> Result<(), NoMemory>
    ensures { OnOk result (text.new.items ≡ text.old.items ++ count_lines size) }
{
    for branch in 1..size / SPACING + 1 {
        push_count_line(text, branch)?;
    }
    Ok(())
}

/// Puts the queries for keys.
fn push_keys(text: &mut Vec<u8>, size: u32) -> Result<(), NoMemory>
    requires { size + size / 100 < 2 ^ 32 }
    ensures { OnOk result (text.new.items ≡ text.old.items ++ key_lines size) }
{
    for branch in 1..size / SPACING + 1 {
        push_key_line(text, size, branch)?;
    }
    Ok(())
}

/// The script whose path has so many versions.
#[tactic(auto, unfolding(crate::specs::Script::script))]
fn script_of(alloc: Global, size: u32, number: u64) -> Result<Text, NoMemory>
    requires some { 1 ≤ size }
    requires fits { size + size / 100 < 2 ^ 32 }
    ensures { IfOk result (λ text. text ≡ script size number) }
{
    let lines = size as usize + 3 * (size / SPACING) as usize;
    let mut text = Vec::with_capacity(alloc, LINE_BYTES * lines)?;
    text.extend_from_slice(b"run 0 make 0\n")?;
    push_path(&mut text, size, number)?;
    push_branches(&mut text, size, number)?;
    push_counts(&mut text, size)?;
    push_keys(&mut text, size)?;
    Ok(Text::from_vec(text))
}

/// The script of the bench for a number: 20,600 lines, each ended by a line feed, for the program `pst_samples::ring`.
///
/// Version 1 is a ring of one record. Versions 2 to 20,000 are each made of the one before, every fourth by a move of the
/// root, the others by an insertion. Then a branch is made at every hundredth of them, which sets a key; the records are
/// counted where each branch begins; and each branch is asked for that key. The keys go up by one from the remainder of
/// the number by 1,000 on, and from 999 to 0.
///
/// # Errors
///
/// `NoMemory` where there is none for the text, for which room for 432,600 bytes is taken.
pub fn bench_script(alloc: Global, number: u64) -> Result<Text, NoMemory>
    ensures { IfOk result (λ text. text ≡ script 20000 number) }
{
    script_of(alloc, SIZE, number)
}
