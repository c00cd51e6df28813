//! Requests, each once.
ghost use Rattle.std.specs.Prelude.{◌≡◌, ◌∷◌, [], ◌++◌, IfOk, IfSome};
ghost use Rattle.std.specs.List.{list_any};
ghost use Rattle.std.specs.Option.{option_copied};
ghost use Rattle.round_core.specs.RequestKeys.{HasKeys};
ghost use Rattle.round_core.specs.Requests.{asker_eq, request_eq};
ghost use Rattle.round_core.specs.Tables.{once};

use super::request_key::{RequestKey, key_of};
use reconcile_rules::{Asker, Request};
use res_base::{List, NoMemory};
use std::alloc::Global;
use std::collections::BTreeSet;
use std::marker::Model;

/// From how many requests on a table of their keys costs less than comparing all.
const MANY_REQUESTS: usize = 16;

/// Requests, each once, in the order in which they came. Contracts see the list of them.
#[derive(Drop)]
pub(crate) struct RequestList {
    requests: List<Request>,
    /// The keys of the requests, once there are many.
    seen: Option<BTreeSet<RequestKey>>,
}

impl Model for RequestList {
    ghost use Rattle.std.specs.Prelude.{List, IfSome};
    ghost use Rattle.reconcile_rules.specs.declared.request.Request.{Request as Asking};
    ghost use Rattle.round_core.specs.RequestKeys.{HasKeys};

    ghost Value = { List Asking };

    ghost view = { λ list. list.requests };

    ghost invariant = { λ list. IfSome list.seen (λ keys. HasKeys keys list.requests) };
}

fn same_asker(one: &Asker, other: &Asker) -> bool
    ensures { result ≡ asker_eq one.now other.now }
{
    match one {
        Asker::Root(place) => match other {
            Asker::Root(also) => *place == *also,
            Asker::Project(_) => false,
        },
        Asker::Project(coord) => match other {
            Asker::Root(_) => false,
            Asker::Project(also) => *coord == *also,
        },
    }
}

fn same_request(one: &Request, other: &Request) -> bool
    ensures { result ≡ request_eq one.now other.now }
{
    one.text == other.text && same_asker(&one.from, &other.from)
}

/// Whether a request is among others.
fn is_among(requests: &[Request], request: &Request) -> bool
    ensures { result ≡ list_any (request_eq request.now) requests.now }
{
    requests.iter().any(|one| same_request(request, one))
}

/// The keys of requests.
fn keys_of(alloc: Global, requests: &[Request]) -> Result<BTreeSet<RequestKey>, NoMemory>
    ensures { IfOk result (λ keys. HasKeys keys requests.now) }
{
    let mut keys: BTreeSet<RequestKey> = BTreeSet::new(alloc);
    for request in requests {
        keys.insert(key_of(alloc, &request.text, &request.from)?)?;
    }
    Ok(keys)
}

/// The keys with that of one request more.
fn with_key(
    alloc: Global,
    keys: BTreeSet<RequestKey>,
    requests: &[Request],
    request: &Request,
) -> Result<BTreeSet<RequestKey>, NoMemory>
    requires { HasKeys keys requests.now }
    ensures { IfOk result (λ more. HasKeys more (requests.now ++ request.now ∷ [])) }
{
    let mut more = keys;
    more.insert(key_of(alloc, &request.text, &request.from)?)?;
    Ok(more)
}

/// The keys, where there are or will be many requests.
fn keys_with(
    alloc: Global,
    seen: Option<BTreeSet<RequestKey>>,
    requests: &[Request],
    request: &Request,
) -> Result<Option<BTreeSet<RequestKey>>, NoMemory>
    requires { IfSome seen (λ keys. HasKeys keys requests.now) }
    ensures { IfOk result (λ made. IfSome made (λ more. HasKeys more (requests.now ++ request.now ∷ []))) }
{
    match seen {
        Some(keys) => Ok(Some(with_key(alloc, keys, requests, request)?)),
        None => {
            if requests.len() < MANY_REQUESTS {
                return Ok(None);
            }
            let keys = keys_of(alloc, requests)?;
            Ok(Some(with_key(alloc, keys, requests, request)?))
        }
    }
}

impl RequestList {
    pub fn new(alloc: Global) -> RequestList
        ensures { result ≡ [] }
    {
        RequestList {
            requests: List::new(alloc),
            seen: None,
        }
    }

    pub fn as_list(&self) -> &List<Request>
        ensures { result.now ≡ self.now }
    {
        &self.requests
    }

    pub fn into_list(self) -> List<Request>
        ensures { result ≡ self }
    {
        self.requests
    }

    /// Whether a request is there.
    fn has(&self, alloc: Global, request: &Request) -> Result<bool, NoMemory>
        ensures { IfOk result (λ found. found ≡ list_any (request_eq request.now) self.now) }
    {
        match &self.seen {
            None => Ok(is_among(self.requests.as_slice(), request)),
            Some(keys) => {
                let key = key_of(alloc, &request.text, &request.from)?;
                Ok(keys.contains(&key))
            }
        }
    }

    /// With one request more at the end, unless it is there.
    pub fn with(self, alloc: Global, request: Request) -> Result<RequestList, NoMemory>
        ensures { IfOk result (λ made. made ≡ once request_eq self request) }
    {
        if self.has(alloc, &request)? {
            return Ok(self);
        }
        let RequestList { mut requests, seen } = self;
        let seen = keys_with(alloc, seen, requests.as_slice(), &request)?;
        requests.push(request)?;
        Ok(RequestList { requests, seen })
    }
}
