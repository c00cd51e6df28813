//! The table of edges by their nodes.
ghost use Rattle.std.specs.Prelude.{◌≡◌, ◌<◌, ℕ, [], ◌∷◌, ◌++◌, All, IfOk, OnOk, is_none, length, slice_set};
ghost use Rattle.node_edges.specs.Edges.{edges_of, if_so, root_edges, starts_at};
ghost use Rattle.node_edges.specs.Table.{ArePlaces, IsTable, row_at};
ghost use Rattle.resolution.specs.Settlements.{IsPlaceIn};
ghost use Rattle.resolution.specs.declared.settled.Edge.{Edge};

use res_base::{List, NoMemory};
use resolution::Edge;
use std::alloc::Global;

/// For each node the places of its edges, in order, and those of the roots.
#[derive(Drop)]
pub struct EdgeTable {
    pub roots: List<usize>,
    /// By the places of the nodes.
    pub rows: List<List<usize>>,
}

/// So many empty rows.
fn empty_rows(alloc: Global, count: usize) -> Result<Vec<List<usize>>, NoMemory>
    ensures size { IfOk result (λ made. length made.items ≡ count) }
    ensures empty { IfOk result (λ made. (place : ℕ) → row_at made.items place ≡ []) }
{
    let mut made: Vec<List<usize>> = Vec::new(alloc);
    for _row in 0..count {
        made.push(List::new(alloc))?;
    }
    Ok(made)
}

/// Puts the place of an edge at the end of a row.
fn put_in_row(rows: &mut [List<usize>], place: usize, at: usize) -> Result<(), NoMemory>
    requires { place < length rows.old }
    ensures size { length rows.new ≡ length rows.old }
    ensures put { OnOk result (rows.new ≡ slice_set rows.old place (row_at rows.old place ++ at ∷ [])) }
{
    rows[place].push(at)
}

/// Puts the place of an edge to the node from which the edge goes, or to the roots.
fn put(
    roots: &mut List<usize>,
    rows: &mut [List<usize>],
    source: Option<u64>,
    at: usize,
) -> Result<(), NoMemory>
    requires { IsPlaceIn (length rows.old) source }
    ensures size { length rows.new ≡ length rows.old }
    ensures roots { OnOk result (roots.new ≡ roots.old ++ if_so (is_none source) at) }
    ensures rows { OnOk result ((place : ℕ) → place < length rows.old
        → row_at rows.new place ≡ row_at rows.old place ++ if_so (starts_at place source) at) }
{
    match source {
        None => roots.push(at),
        Some(place) => put_in_row(rows, place as usize, at),
    }
}

/// Puts the place of each edge where it belongs.
fn fill(roots: &mut List<usize>, rows: &mut [List<usize>], edges: &[Edge]) -> Result<(), NoMemory>
    requires sources { All (λ (e : Edge). IsPlaceIn (length rows.old) e.source) edges.now }
    requires no_roots { roots.old ≡ [] }
    requires empty { (place : ℕ) → row_at rows.old place ≡ [] }
    ensures size { length rows.new ≡ length rows.old }
    ensures roots { OnOk result (ArePlaces edges.now roots.new (root_edges edges.now)) }
    ensures rows { OnOk result ((place : ℕ) → place < length rows.old
        → ArePlaces edges.now (row_at rows.new place) (edges_of edges.now place)) }
{
    for at in 0..edges.len() {
        put(roots, rows, edges[at].source, at)?;
    }
    Ok(())
}

/// The edges of so many nodes, in one pass.
pub fn edge_table(alloc: Global, count: usize, edges: &[Edge]) -> Result<EdgeTable, NoMemory>
    requires { All (λ (e : Edge). IsPlaceIn count e.source) edges.now }
    ensures { IfOk result (IsTable edges.now count) }
{
    let mut roots: List<usize> = List::new(alloc);
    let mut rows = empty_rows(alloc, count)?;
    fill(&mut roots, rows.as_mut_slice(), edges)?;
    Ok(EdgeTable {
        roots,
        rows: List::from_vec(rows),
    })
}
