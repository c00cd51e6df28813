//! Which plain versions accept a chosen one.
ghost use Rattle.std.specs.Prelude.{◌≡◌, IfOk};
ghost use Rattle.reconcile_rules.specs.Choose.{first_refusing, where_accepted};
ghost use Rattle.reconcile_rules.specs.Accept.{accepts_by};

use super::request::{Chosen, Clash, PlainRequest};
use interval_sets::NoMemory;
use std::alloc::Global;
use version_order::Version;

/// What a plain version accepts: what is equal to it by items, or what is not less by items and
/// of its series.
#[derive(Clone, Copy, Drop)]
pub(crate) enum Accepts {
    Equal,
    Series,
}

impl Accepts {
    fn test(self, chosen: &Version, plain: &Version) -> bool
        ensures { result ≡ accepts_by self chosen.now plain.now }
    {
        match self {
            Accepts::Equal => plain.cmp_items(chosen).is_eq(),
            Accepts::Series => chosen.cmp_items(plain).is_ge() && plain.same_series(chosen),
        }
    }
}

/// The number of the first plain version that does not accept the chosen one.
fn first_refusing(by: Accepts, chosen: &Version, plains: &[PlainRequest]) -> Option<u64>
    ensures { result ≡ first_refusing (accepts_by by) chosen.now plains.now }
{
    for request in plains {
        if !by.test(chosen, &request.version) {
            return Some(request.number);
        }
    }
    None
}

/// The choice where all plain versions accept it.
pub(crate) fn where_accepted(
    alloc: Global,
    by: Accepts,
    chosen: Chosen,
    plains: &[PlainRequest],
) -> Result<Chosen, NoMemory>
    ensures { IfOk result (λ made. made ≡ where_accepted (accepts_by by) plains.now chosen) }
{
    match chosen {
        Chosen::Version(text) => {
            let version = Version::read(alloc, text.as_str())?;
            match first_refusing(by, &version, plains) {
                Some(number) => Ok(Chosen::Clash(Clash::NotAccepted(number))),
                None => Ok(Chosen::Version(text)),
            }
        }
        other => Ok(other),
    }
}
