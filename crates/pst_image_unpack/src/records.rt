//! Over which places the records of an image live.

ghost use Rattle.std.specs.Prelude.{◌≡◌, ◌<◌, ◌^◌, IfOk, length, map};
ghost use Rattle.pst_image_rules.specs.Chains.{HaveLives, EndBelow, AreInChains, AreChains};
ghost use Rattle.pst_image_meaning.specs.Denoted.{relic_of as relic_in};
ghost use Rattle.pst_image_rules.specs.declared.ends.Chain.{Chain as ItsChain};
ghost use Rattle.std.specs.Prelude.{List};

use pst_base::NoMemory;
use pst_image_form::NodePart;
use pst_image_rules::{Chain, chains_of};
use pst_order::Pos;
use pst_store_meaning::place::Place;
use std::alloc::Global;

/// The place over which the record of a chain lives: from where its head begins to where its last node ends.
fn relic_of(nodes: &[NodePart], chain: Chain) -> Place
    requires head { chain.head.0 < length nodes.now }
    requires last { chain.last.0 < length nodes.now }
    ensures { result ≡ relic_in nodes.now chain }
{
    Place {
        number: 0,
        begin: Pos(nodes[chain.head.0 as usize].lo),
        end: Pos(nodes[chain.last.0 as usize].hi),
    }
}

/// The places of all records, one for each.
///
/// # Errors
/// Where there was no memory.
pub fn relics_of(alloc: Global, nodes: &[NodePart]) -> Result<Vec<Place>, NoMemory>
    requires chained { AreInChains nodes.now }
    requires lives { HaveLives nodes.now }
    requires inside { EndBelow (2 ^ 32) nodes.now }
    ensures { IfOk result (λ relics. (chains : List ItsChain) × AreChains nodes.now chains × (relics.items ≡ map (relic_in nodes.now) chains)) }
{
    let mut relics = Vec::new(alloc);
    for chain in &chains_of(alloc, nodes)? {
        relics.push(relic_of(nodes, *chain))?;
    }
    Ok(relics)
}
