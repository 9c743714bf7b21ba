//! Versions and forks. A version after 0 has the fork with the number that its run has among the runs of all versions.

ghost use Rattle.std.specs.Prelude.{◌≡◌, ◌<◌, ◌^◌, ℕ, List, IfOk, length};
ghost use Rattle.pst_image_rules.specs.Versions.{IsOrderOfRuns};
ghost use Rattle.pst_image_unpack.specs.Listing.{AreOfVersions, HaveParents, HasNumbers, place_in, places_in, rows_in, forks_in};

use pst_base::{NoMemory, VersionNo};
use pst_image_form::VersionPart;
use pst_order::Pos;
use pst_store_meaning::place::{Fork, Place};
use pst_versions::Versions;
use std::alloc::Global;

/// The number of each version's fork, by the versions in the order of their runs. Version 0 has none, and 0 stands there.
fn numbers_of(alloc: Global, count: usize, by_run: &[u32]) -> Result<Vec<u32>, NoMemory>
    requires versions { AreOfVersions count by_run.now }
    requires few { length by_run.now < 2 ^ 32 }
    ensures { IfOk result (λ numbers. HasNumbers count by_run.now numbers.items) }
{
    let mut numbers = vec![in alloc; 0; count]?;
    for number in 0..by_run.len() {
        numbers[by_run[number] as usize] = number as u32;
    }
    Ok(numbers)
}

/// The place of a version.
fn place_of(version: VersionPart, number: u32) -> Place
    ensures { result ≡ place_in version number }
{
    Place {
        number,
        begin: Pos(version.begin),
        end: Pos(version.end),
    }
}

/// The place of each version, by the versions in the order of their runs.
///
/// # Errors
/// Where there was no memory.
pub fn places_of(
    alloc: Global,
    versions: &[VersionPart],
    by_run: &[u32],
) -> Result<Vec<Place>, NoMemory>
    requires versions { AreOfVersions (length versions.now) by_run.now }
    requires few { length by_run.now < 2 ^ 32 }
    ensures { IfOk result (λ places. (numbers : List ℕ) × HasNumbers (length versions.now) by_run.now numbers × (places.items ≡ places_in versions.now numbers)) }
{
    let numbers = numbers_of(alloc, versions.len(), by_run)?;
    let mut places = Vec::new(alloc);
    for version in 0..versions.len() {
        places.push(place_of(versions[version], numbers[version]))?;
    }
    Ok(places)
}

/// The version tree, with the place of each version.
///
/// # Errors
/// Where there was no memory.
pub fn tree_of(
    alloc: Global,
    versions: &[VersionPart],
    places: &[Place],
) -> Result<Versions<Place>, NoMemory>
    requires few { length versions.now < 2 ^ 32 }
    requires parents { HaveParents versions.now }
    requires places { length places.now ≡ length versions.now }
    ensures { IfOk result (λ tree. tree ≡ rows_in versions.now places.now) }
{
    let mut tree = Versions::new(alloc, places[0])?;
    for number in 1..versions.len() {
        let version = versions[number];
        tree.publish(version.parent, version.run, places[number])?;
    }
    Ok(tree)
}

/// The forks, in the order of the runs: each is published, and was made from the place of its version's parent.
///
/// # Errors
/// Where there was no memory.
pub fn forks_of(
    alloc: Global,
    versions: &[VersionPart],
    places: &[Place],
    by_run: &[u32],
) -> Result<Vec<Fork>, NoMemory>
    requires versions { AreOfVersions (length versions.now) by_run.now }
    requires parents { HaveParents versions.now }
    requires places { length places.now ≡ length versions.now }
    ensures { IfOk result (λ forks. forks.items ≡ forks_in versions.now places.now by_run.now) }
{
    let mut forks = Vec::new(alloc);
    for number in by_run {
        let VersionNo(parent) = versions[*number as usize].parent;
        forks.push(Fork {
            place: places[*number as usize],
            from: places[parent as usize],
            published: true,
        })?;
    }
    Ok(forks)
}
