//! Tests of what the printers' calls rest on.
ghost use Rattle.std.specs.Prelude.{◌≡◌, All, IfOk, IsTrue, true};
ghost use Rattle.class_path.specs.Files.{AreAddresses, AreAllKnown};
ghost use Rattle.cache_layout.specs.Addresses.{IsAddress};
ghost use Rattle.res_base.specs.Known.{known_of};
ghost use Rattle.res_base.specs.Plain.{is_plain_coord};
ghost use Rattle.resolution.specs.Settlements.{HasRepositories, IsEdgeOf, IsPlaceIn, IsSettlement};
ghost use Rattle.resolution.specs.declared.settled.Edge.{Edge};
ghost use Rattle.resolution.specs.declared.settled.Node.{Node};

use cache_layout::{NameErr, cache_name};
use case_words::case_error::CaseError;
use project_lookup::Known;
use res_base::{FileKey, List, Text, is_plain};
use resolution::{Edge, Node, Settled};
use std::alloc::Global;

fn is_place_in(count: usize, source: Option<u64>) -> bool
    ensures { IsTrue result → IsPlaceIn count source }
{
    match source {
        None => true,
        Some(place) => (place as usize) < count,
    }
}

fn is_edge_of(count: usize, edge: &Edge) -> bool
    ensures { IsTrue result → IsEdgeOf count edge.now }
{
    (edge.target as usize) < count && is_place_in(count, edge.source)
}

fn are_edges_of(count: usize, edges: &[Edge]) -> bool
    ensures { IsTrue result → All (λ (e : Edge). IsEdgeOf count e) edges.now }
{
    for edge in edges {
        if !is_edge_of(count, edge) {
            return false;
        }
    }
    true
}

fn are_plain(nodes: &[Node]) -> bool
    ensures { IsTrue result → All (λ (node : Node). is_plain_coord node.coord ≡ true) nodes.now }
{
    for node in nodes {
        if !is_plain(&node.coord) {
            return false;
        }
    }
    true
}

pub(crate) fn is_settlement(settled: &Settled) -> bool
    ensures { IsTrue result → IsSettlement settled.now }
{
    let nodes = settled.nodes.as_slice();
    are_edges_of(nodes.len(), settled.edges.as_slice()) && are_plain(nodes)
}

pub(crate) fn has_repositories(count: usize, settled: &Settled) -> bool
    ensures { IsTrue result → HasRepositories count settled.now }
{
    for node in settled.nodes.as_slice() {
        if node.repo as usize >= count {
            return false;
        }
    }
    true
}

fn is_address(alloc: Global, address: &str) -> Result<bool, CaseError>
    ensures { IfOk result (λ is. IsTrue is → IsAddress address.now) }
{
    match cache_name(alloc, address, "x") {
        Ok(_) => Ok(true),
        Err(NameErr::BadAddress(_)) => Ok(false),
        Err(NameErr::NoMemory) => Err(CaseError::NoMemory),
    }
}

pub(crate) fn are_addresses(alloc: Global, addresses: &List<Text>) -> Result<bool, CaseError>
    ensures { IfOk result (λ are. IsTrue are → AreAddresses addresses.now) }
{
    for address in addresses.as_slice() {
        if !is_address(alloc, address.as_str())? {
            return Ok(false);
        }
    }
    Ok(true)
}

pub(crate) fn are_known(known: &Known, keys: &[FileKey]) -> bool
    ensures { IsTrue result → AreAllKnown (known_of known.now.pairs) keys.now }
{
    for key in keys {
        if known.at(key).is_none() {
            return false;
        }
    }
    true
}
