//! What is asked of each module.
ghost use Rattle.std.specs.Prelude.{◌≡◌, [], map, IfOk};
ghost use Rattle.round_core.specs.Requests.{asked_by, request_row, requests_in as requests_of_module};
ghost use Rattle.round_core.specs.Requests.{with_edge as asked_with_edge, with_request as asked_with_request};

use super::edges::RowEdge;
use super::request_list::RequestList;
use super::steer::{Steer, text_of};
use reconcile_rules::Request;
use res_base::{Coord, Copied, List, Module, NoMemory};
use resolution::RequestRow;
use std::alloc::Global;
use std::collections::BTreeMap;
use std::marker::Model;

/// The requests for each module, in module order. Contracts see the list of them.
#[derive(Drop)]
pub(crate) struct AskedTable {
    rows: BTreeMap<Module, RequestList>,
}

impl Model for AskedTable {
    ghost use Rattle.round_core.specs.Requests.{Asked};

    ghost Value = { Asked };

    ghost view = { λ table. table.rows.entries };
}

impl AskedTable {
    fn new(alloc: Global) -> AskedTable
        ensures { result ≡ [] }
    {
        AskedTable {
            rows: BTreeMap::new(alloc),
        }
    }

    /// With a request for a module, unless it is there.
    fn with_request(
        self,
        alloc: Global,
        module: &Module,
        request: Request,
    ) -> Result<AskedTable, NoMemory>
        ensures { IfOk result (λ made. made ≡ asked_with_request self «module».now request) }
    {
        let AskedTable { mut rows } = self;
        let before = rows.remove(module).unwrap_or(RequestList::new(alloc));
        let requests = before.with(alloc, request)?;
        rows.insert(module.copy(alloc)?, requests)?;
        Ok(AskedTable { rows })
    }

    /// With what an edge asks for.
    fn with_edge(
        self,
        alloc: Global,
        roots: &[Coord],
        steer: &Steer,
        edge: &RowEdge,
    ) -> Result<AskedTable, NoMemory>
        ensures { IfOk result (λ made. made ≡ asked_with_edge roots.now steer.now self edge.now) }
    {
        let request = Request {
            text: text_of(alloc, roots, steer, edge)?,
            from: edge.source.copy(alloc)?,
        };
        self.with_request(alloc, &edge.row.module, request)
    }

    /// What all edges ask for.
    pub fn of(
        alloc: Global,
        roots: &[Coord],
        steer: &Steer,
        last: &[RowEdge],
    ) -> Result<AskedTable, NoMemory>
        ensures { IfOk result (λ made. made ≡ asked_by roots.now steer.now last.now) }
    {
        let mut made = AskedTable::new(alloc);
        for edge in last {
            made = made.with_edge(alloc, roots, steer, edge)?;
        }
        Ok(made)
    }

    /// What is asked of a module.
    pub fn requests_in(&self, alloc: Global, module: &Module) -> Result<List<Request>, NoMemory>
        ensures { IfOk result (λ made. made ≡ requests_of_module self.now «module».now) }
    {
        match self.rows.get(module) {
            None => Ok(List::new(alloc)),
            Some(requests) => requests.as_list().copy(alloc),
        }
    }

    /// A row for each module.
    pub fn into_rows(self, alloc: Global) -> Result<List<RequestRow>, NoMemory>
        ensures { IfOk result (λ made. made ≡ map request_row self) }
    {
        let AskedTable { rows } = self;
        let mut made: List<RequestRow> = List::new(alloc);
        for (module, requests) in rows {
            made.push(RequestRow {
                module,
                requests: requests.into_list(),
            })?;
        }
        Ok(made)
    }
}
