//! Keys of requests.
ghost use Rattle.std.specs.Prelude.{◌≡◌, [], IfOk};
ghost use Rattle.std.proofs.Common.{rules};
ghost use Rattle.std.specs.Cmp.{partial_equiv_from_equiv, partial_order_from_own_ties};
ghost use Rattle.std.specs.Cmp.Rules.{comparing};
ghost use Rattle.std.specs.Ordering.{as_partial_cmp};
ghost use Rattle.res_base.specs.Builders.{module_of};
ghost use Rattle.round_core.specs.RequestKeys.{key_for, request_key_cmp, request_key_eq};

use reconcile_rules::Asker;
use res_base::{Copied, Module, NoMemory, Text};
use std::alloc::Global;
use std::cmp::Ordering;

/// A request, in parts that are ordered: who asks, and by which text.
#[derive(Drop)]
pub(crate) struct RequestKey {
    /// 0 for a root, which has a place, and 1 for a project.
    pub kind: u64,
    pub place: u64,
    pub module: Module,
    pub version: Text,
    pub text: Text,
}

impl PartialEq for RequestKey {
    ghost eq = { request_key_eq };

    ghost laws = { partial_equiv_from_equiv (Prim.search (comparing, rules) depth 8) };

    fn eq(&self, other: &RequestKey) -> bool {
        self.kind == other.kind
            && self.place == other.place
            && self.module == other.module
            && self.version == other.version
            && self.text == other.text
    }
}

impl Eq for RequestKey {
    ghost laws = { Prim.search (comparing, rules) depth 8 };
}

impl PartialOrd for RequestKey {
    ghost partial_cmp = { as_partial_cmp request_key_cmp };

    ghost laws = { partial_order_from_own_ties (Prim.search (comparing, rules) depth 8) (Prim.search (comparing, rules)) };

    fn partial_cmp(&self, other: &RequestKey) -> Option<Ordering> {
        Some(self.cmp(other))
    }
}

impl Ord for RequestKey {
    ghost cmp = { request_key_cmp };

    ghost total = { Prim.search (comparing, rules) depth 8 };

    ghost matches_partial_cmp = { Prim.search (comparing, rules) };

    ghost matches_eq = { Prim.search (comparing, rules) };

    fn cmp(&self, other: &RequestKey) -> Ordering {
        let by_kind = self.kind.cmp(&other.kind);
        let by_place = self.place.cmp(&other.place);
        let by_module = self.module.cmp(&other.module);
        let by_version = self.version.cmp(&other.version);
        by_kind
            .then(by_place)
            .then(by_module)
            .then(by_version)
            .then(self.text.cmp(&other.text))
    }
}

fn no_module(alloc: Global) -> Module
    ensures { result ≡ module_of [] [] }
{
    Module {
        org: Text::new(alloc),
        name: Text::new(alloc),
    }
}

pub(crate) fn key_of(alloc: Global, text: &Text, from: &Asker) -> Result<RequestKey, NoMemory>
    ensures { IfOk result (λ made. made ≡ key_for text.now «from».now) }
{
    match from {
        Asker::Root(place) => Ok(RequestKey {
            kind: 0,
            place: *place,
            module: no_module(alloc),
            version: Text::new(alloc),
            text: text.copy(alloc)?,
        }),
        Asker::Project(coord) => Ok(RequestKey {
            kind: 1,
            place: 0,
            module: coord.module.copy(alloc)?,
            version: coord.version.copy(alloc)?,
            text: text.copy(alloc)?,
        }),
    }
}
