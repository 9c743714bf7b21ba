//! The chains of an image, and the versions in the order of their runs.

ghost use Rattle.std.specs.Prelude.{◌^◌, ◌<◌, length};
ghost use Rattle.pst_base.specs.Shape.{IsValid};

use crate::images::{COPIED, LINKED, SIBLINGS, TURNED, bytes_of, linking, plain};
use pst_base::{NoMemory, Shape};
use pst_image_form::{FormFault, ImageParts, read_image};
use pst_image_rules::{
    Chain, are_chained, are_nested, are_nodes, chains_of, is_in_range, order_of_runs,
};
use std::alloc::Global;

/// The chains of parts whose nodes stand in chains, and none of others.
fn chains_in(alloc: Global, shape: &Shape, parts: &ImageParts) -> Result<Vec<Chain>, NoMemory>
    requires { IsValid shape.now }
{
    let nodes = parts.nodes.as_slice();
    if !is_in_range(parts) {
        return Ok(Vec::new(alloc));
    }
    if !are_nodes(shape, parts.places, nodes) {
        return Ok(Vec::new(alloc));
    }
    if !are_chained(alloc, parts.places, parts.next_run.0, nodes)? {
        return Ok(Vec::new(alloc));
    }
    chains_of(alloc, nodes)
}

/// The order of runs of parts whose versions are nested, and none of others.
fn order_in(alloc: Global, parts: &ImageParts) -> Result<Vec<u32>, NoMemory>
    requires { length parts.now.versions < 2 ^ 32 }
{
    let versions = parts.versions.as_slice();
    let next_run = parts.next_run.0;
    if !is_in_range(parts) {
        return Ok(Vec::new(alloc));
    }
    if !are_nested(alloc, versions, parts.places, next_run)? {
        return Ok(Vec::new(alloc));
    }
    order_of_runs(alloc, versions, next_run)
}

/// Whether the chains have these heads and last nodes.
fn are_ends(chains: &[Chain], ends: &[(u64, u64)]) -> bool {
    if chains.len() != ends.len() {
        return false;
    }
    for (chain, end) in chains.iter().zip(ends) {
        if chain.head.0 != end.0 || chain.last.0 != end.1 {
            return false;
        }
    }
    true
}

#[test]
fn chains_are_listed_by_their_ends(rt: HostRuntime) -> Result<(), FormFault> {
    let alloc = rt.alloc();
    let (plain, linking) = (plain(alloc)?, linking(alloc)?);
    assert!(rt; plain.is_valid() && linking.is_valid());
    let copied = read_image(alloc, &bytes_of(alloc, &COPIED)?)?;
    assert!(rt; are_ends(&chains_in(alloc, &plain, &copied.parts)?, &[(0, 1)]));
    let linked = read_image(alloc, &bytes_of(alloc, &LINKED)?)?;
    assert!(rt;
        are_ends(
            &chains_in(alloc, &linking, &linked.parts)?,
            &[(0, 0), (1, 1)]
        )
    );
    Ok(())
}

#[test]
fn versions_are_listed_by_their_runs(rt: HostRuntime) -> Result<(), FormFault> {
    let alloc = rt.alloc();
    let siblings = read_image(alloc, &bytes_of(alloc, &SIBLINGS)?)?;
    assert_eq!(rt;
        order_in(alloc, &siblings.parts)?.as_slice(),
        [1, 2].as_slice()
    );
    let turned = read_image(alloc, &bytes_of(alloc, &TURNED)?)?;
    assert_eq!(rt;
        order_in(alloc, &turned.parts)?.as_slice(),
        [2, 1].as_slice()
    );
    Ok(())
}
