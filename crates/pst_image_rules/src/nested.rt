//! Whether the versions of an image are nested, and their order by runs.

ghost use Rattle.std.specs.Prelude.{◌≡◌, ◌↔◌, ℕ, ◌^◌, ◌<◌, ◌≤◌, IsTrue, IfOk, length, map, option_map};
ghost use Rattle.pst_image_rules.specs.Versions.{version_at, HaveOwnRuns, IsOrderOfRuns, IsRootVersion, IsInside, AreInside, AreSiblingsApart, AreNested};
ghost use Rattle.pst_image_rules.specs.Walk.{IsTable, IsTabled};

use pst_base::NoMemory;
use pst_image_form::VersionPart;
use std::alloc::Global;

/// Whether this can be version 0.
fn is_root(version: &VersionPart, places: u32) -> bool
    requires { 2 ≤ places }
    ensures { IsTrue result ↔ IsRootVersion version.now places }
{
    version.parent.0 == 0 && version.run.0 == 0 && version.begin == 0 && version.end == places - 1
}

/// Whether this can be the version with a number, where its parent is that one.
fn is_inside(next_run: u32, number: usize, version: VersionPart, parent: VersionPart) -> bool
    ensures { IsTrue result ↔ IsInside next_run number version parent }
{
    (version.parent.0 as usize) < number
        && 1 <= version.run.0
        && version.run.0 < next_run
        && version.begin < version.end
        && parent.begin < version.begin
        && version.end < parent.end
}

/// Whether each further version stands inside its parent.
fn are_inside(next_run: u32, versions: &[VersionPart]) -> bool
    ensures { IsTrue result ↔ AreInside next_run versions.now }
{
    for number in 1..versions.len() {
        let version = versions[number];
        let parent = version.parent.0 as usize;
        if number <= parent || !is_inside(next_run, number, version, versions[parent]) {
            return false;
        }
    }
    true
}

/// The versions by the number of their run, or None where two are of one run.
fn by_run(
    alloc: Global,
    next_run: u32,
    versions: &[VersionPart],
) -> Result<Option<Vec<u32>>, NoMemory>
    requires inside { AreInside next_run versions.now }
    requires some { 0 < length versions.now }
    requires few { length versions.now < 2 ^ 32 }
    ensures { IfOk result (λ table. IsTabled versions.now next_run (option_map (λ t. t.items) table)) }
{
    let mut table = vec![in alloc; 0; next_run as usize]?;
    for number in 1..versions.len() {
        let run = versions[number].run.0 as usize;
        if table[run] != 0 {
            return Ok(None);
        }
        table[run] = number as u32;
    }
    Ok(Some(table))
}

/// Where each version ends.
fn ends(alloc: Global, versions: &[VersionPart]) -> Result<Vec<u32>, NoMemory>
    ensures { IfOk result (λ ends. ends.items ≡ map (λ v. v.end) versions.now) }
{
    versions.iter().map(|version| version.end).collect(alloc)
}

/// Whether of two children of one version the one with the greater run stands wholly before the other: for each version the place
/// before which its next child must end is kept, from the least run on.
fn are_siblings_apart(
    alloc: Global,
    versions: &[VersionPart],
    table: &[u32],
) -> Result<bool, NoMemory>
    requires inside { AreInside (length table.now) versions.now }
    requires table { IsTable versions.now (length versions.now) table.now }
    ensures { IfOk result (λ apart. IsTrue apart ↔ AreSiblingsApart versions.now) }
{
    let mut bounds = ends(alloc, versions)?;
    for number in table {
        if *number == 0 {
            continue;
        }
        let version = versions[*number as usize];
        let parent = version.parent.0 as usize;
        if bounds[parent] <= version.end {
            return Ok(false);
        }
        bounds[parent] = version.begin;
    }
    Ok(true)
}

/// Whether the versions are a version tree of nested stretches of so many places: version 0 is the root and takes all places; each
/// other one has a parent of a lower number, a run of its own below `next_run`, and a stretch strictly inside its parent's; of two
/// children of one version the one with the greater run stands wholly before the other. It takes time by the number of versions and
/// of runs.
///
/// # Errors
/// Where there was no memory.
pub fn are_nested(
    alloc: Global,
    versions: &[VersionPart],
    places: u32,
    next_run: u32,
) -> Result<bool, NoMemory>
    requires some { 0 < length versions.now }
    requires few { length versions.now < 2 ^ 32 }
    requires places { 2 ≤ places }
    ensures { IfOk result (λ nested. IsTrue nested ↔ AreNested versions.now places next_run) }
{
    if !is_root(&versions[0], places) || !are_inside(next_run, versions) {
        return Ok(false);
    }
    let Some(table) = by_run(alloc, next_run, versions)? else {
        return Ok(false);
    };
    are_siblings_apart(alloc, versions, &table)
}

/// The versions of a table by run number, in its order.
fn in_order(alloc: Global, versions: &[VersionPart], table: &[u32]) -> Result<Vec<u32>, NoMemory>
    requires inside { AreInside (length table.now) versions.now }
    requires table { IsTable versions.now (length versions.now) table.now }
    ensures { IfOk result (λ order. IsOrderOfRuns versions.now order.items) }
{
    let mut order = Vec::new(alloc);
    for number in table {
        if *number != 0 {
            order.push(*number)?;
        }
    }
    Ok(order)
}

/// The numbers of the versions from 1 on, in the order of their runs, for one who makes them anew. It takes time by the number of
/// versions and of runs.
///
/// # Errors
/// Where there was no memory.
pub fn order_of_runs(
    alloc: Global,
    versions: &[VersionPart],
    next_run: u32,
) -> Result<Vec<u32>, NoMemory>
    requires some { 0 < length versions.now }
    requires few { length versions.now < 2 ^ 32 }
    requires inside { AreInside next_run versions.now }
    requires own_run { HaveOwnRuns versions.now }
    ensures { IfOk result (λ order. IsOrderOfRuns versions.now order.items) }
{
    match by_run(alloc, next_run, versions)? {
        Some(table) => in_order(alloc, versions, &table),
        None => Ok(Vec::new(alloc)),
    }
}
