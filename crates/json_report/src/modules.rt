//! The modules of the report.
ghost use Rattle.std.specs.Prelude.{◌≡◌, ◌<◌, IfOk, length, map};
ghost use Rattle.json_report.specs.Report.{address_of as address_in, module_value as value_of_module};
ghost use Rattle.json_report.specs.Report.{module_values as values_of_modules};
ghost use Rattle.node_edges.specs.Table.{IsTable};
ghost use Rattle.serde_json.specs.View.{view};

use super::targets::{coord_text, dependencies};
use node_edges::EdgeTable;
use res_base::{List, NoMemory, Text};
use resolution::{Node, Settled};
use serde_json::{Value, json};
use std::alloc::Global;

/// The address of a repository.
fn address_of(addresses: &List<Text>, repo: u32) -> &str
    ensures { result.now ≡ address_in addresses.now repo }
{
    match addresses.get(repo as usize) {
        None => "",
        Some(address) => address.as_str(),
    }
}

fn module_value(
    alloc: Global,
    settled: &Settled,
    table: &EdgeTable,
    addresses: &List<Text>,
    place: usize,
    node: &Node,
) -> Result<Value, NoMemory>
    requires table { IsTable settled.now.edges (length settled.now.nodes) table.now }
    requires place { place < length settled.now.nodes }
    ensures { IfOk result (λ value. view value ≡ value_of_module settled.now addresses.now place node.now) }
{
    let coord = coord_text(alloc, &node.coord)?;
    let targets = dependencies(alloc, settled, table, place)?;
    let repository = address_of(addresses, node.repo);
    let value = json!(in alloc; {
        "coord": coord,
        "dependencies": targets,
        "repository": repository
    })?;
    Ok(value)
}

/// A value for each module, in order.
pub(crate) fn module_values(
    alloc: Global,
    settled: &Settled,
    table: &EdgeTable,
    addresses: &List<Text>,
) -> Result<Vec<Value>, NoMemory>
    requires { IsTable settled.now.edges (length settled.now.nodes) table.now }
    ensures { IfOk result (λ made. map view made.items
        ≡ values_of_modules settled.now addresses.now 0 settled.now.nodes) }
{
    let nodes = settled.nodes.as_slice();
    let mut made: Vec<Value> = Vec::new(alloc);
    for place in 0..nodes.len() {
        let node = &nodes[place];
        made.push(module_value(alloc, settled, table, addresses, place, node)?)?;
    }
    Ok(made)
}
