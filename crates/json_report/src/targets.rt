//! The dependencies of a module.
ghost use Rattle.std.specs.Prelude.{◌≡◌, ◌<◌, IfOk, OnOk, length, map, nat_eq, string_bytes};
ghost use Rattle.std.specs.Option.{option_copied};
ghost use Rattle.indexmap.specs.IndexSet.{insert_key};
ghost use Rattle.json_report.specs.Found.{found_targets, with_target};
ghost use Rattle.json_report.specs.Report.{coord_text as text_of_coord, dependencies as dependencies_of};
ghost use Rattle.json_report.specs.Report.{dependency as dependency_of, target_text as text_of_target};
ghost use Rattle.node_edges.specs.Table.{IsTable};
ghost use Rattle.serde_json.specs.View.{view};

use indexmap::IndexSet;
use node_edges::EdgeTable;
use res_base::{Coord, List, NoMemory};
use resolution::{Edge, Node, Settled};
use serde_json::Value;
use std::alloc::Global;

/// `org:name:version`.
pub(crate) fn coord_text(alloc: Global, coord: &Coord) -> Result<String, NoMemory>
    ensures { IfOk result (λ text. string_bytes text ≡ text_of_coord coord.now) }
{
    let org = coord.module.org.as_str();
    let name = coord.module.name.as_str();
    let version = coord.version.as_str();
    Ok(format!(in alloc; "{org}:{name}:{version}")?)
}

fn target_text(alloc: Global, node: Option<&Node>) -> Result<String, NoMemory>
    ensures { IfOk result (λ text. string_bytes text ≡ text_of_target (option_copied node.entry)) }
{
    match node {
        None => Ok(String::new(alloc)),
        Some(node) => coord_text(alloc, &node.coord),
    }
}

/// The coordinate of a module that an edge leads to.
fn dependency(alloc: Global, nodes: &List<Node>, target: u64) -> Result<Value, NoMemory>
    ensures { IfOk result (λ value. view value ≡ dependency_of nodes.now target) }
{
    Ok(Value::from(target_text(alloc, nodes.get(target as usize))?))
}

/// Puts the module that an edge leads to at the end, unless it is there.
fn put_target(
    alloc: Global,
    targets: &mut IndexSet<u64>,
    made: &mut Vec<Value>,
    nodes: &List<Node>,
    target: u64,
) -> Result<(), NoMemory>
    requires { map view made.old.items ≡ map (dependency_of nodes.now) targets.old.keys }
    ensures targets { OnOk result (targets.new.keys ≡ insert_key nat_eq targets.old.keys target) }
    ensures made { OnOk result (map view made.new.items ≡ map (dependency_of nodes.now) targets.new.keys) }
{
    if !targets.insert(target)? {
        return Ok(());
    }
    made.push(dependency(alloc, nodes, target)?)?;
    Ok(())
}

fn put_edge(
    alloc: Global,
    targets: &mut IndexSet<u64>,
    made: &mut Vec<Value>,
    nodes: &List<Node>,
    edge: Option<&Edge>,
) -> Result<(), NoMemory>
    requires { map view made.old.items ≡ map (dependency_of nodes.now) targets.old.keys }
    ensures targets { OnOk result (targets.new.keys ≡ with_target targets.old.keys (option_copied edge.entry)) }
    ensures made { OnOk result (map view made.new.items ≡ map (dependency_of nodes.now) targets.new.keys) }
{
    match edge {
        None => Ok(()),
        Some(edge) => put_target(alloc, targets, made, nodes, edge.target),
    }
}

/// The coordinates of the modules that the edges at some places lead to, in order, each once.
fn dependencies_at(
    alloc: Global,
    nodes: &List<Node>,
    edges: &List<Edge>,
    places: &[usize],
) -> Result<Vec<Value>, NoMemory>
    ensures { IfOk result (λ made. map view made.items
        ≡ map (dependency_of nodes.now) (found_targets edges.now places.now)) }
{
    let mut targets: IndexSet<u64> = IndexSet::new(alloc);
    let mut made: Vec<Value> = Vec::new(alloc);
    for at in places {
        put_edge(alloc, &mut targets, &mut made, nodes, edges.get(*at))?;
    }
    Ok(made)
}

/// The coordinates of the modules that a module's edges lead to, in order, each once.
pub(crate) fn dependencies(
    alloc: Global,
    settled: &Settled,
    table: &EdgeTable,
    place: usize,
) -> Result<Vec<Value>, NoMemory>
    requires table { IsTable settled.now.edges (length settled.now.nodes) table.now }
    requires place { place < length settled.now.nodes }
    ensures { IfOk result (λ made. map view made.items ≡ dependencies_of settled.now place) }
{
    let places = table.rows.as_slice()[place].as_slice();
    dependencies_at(alloc, &settled.nodes, &settled.edges, places)
}
