//! The greatest of many versions by the full order.
ghost use Rattle.std.specs.Prelude.{◌≡◌, Some, IfOk};
ghost use Rattle.std.specs.Option.{option_copied};
ghost use Rattle.reconcile_rules.specs.Greatest.{greater_of, greatest, versions_of, versions_within};

use super::request::PlainRequest;
use interval_sets::{Interval, NoMemory};
use res_base::Text;
use std::alloc::Global;
use std::cmp::Ordering;
use version_order::Version;

fn greater<'a>(best: Option<&'a Version>, version: &'a Version) -> Option<&'a Version>
    ensures { option_copied result ≡ greater_of (option_copied best.entry) version.now }
{
    match best {
        None => Some(version),
        Some(other) => {
            if other.cmp_full(version) == Ordering::Less {
                Some(version)
            } else {
                Some(other)
            }
        }
    }
}

/// The greatest plain version that is asked for.
pub(crate) fn greatest<'a>(asked: &'a [PlainRequest]) -> Option<&'a Version>
    ensures { option_copied result ≡ greatest (versions_of asked.now) }
{
    let mut best: Option<&'a Version> = None;
    for request in asked {
        best = greater(best, &request.version);
    }
    best
}

/// The greatest plain version in an interval that is asked for.
pub(crate) fn greatest_within<'a>(
    common: &Interval<Version>,
    asked: &'a [PlainRequest],
) -> Option<&'a Version>
    ensures { option_copied result ≡ greatest (versions_within common.now asked.now) }
{
    let mut best: Option<&'a Version> = None;
    for request in asked {
        if common.holds(&request.version) {
            best = greater(best, &request.version);
        }
    }
    best
}

/// The greater of two versions.
fn later(best: Option<Version>, version: Version) -> Version
    ensures { Some result ≡ greater_of best version }
{
    match best {
        None => version,
        Some(other) => {
            if other.cmp_full(&version) == Ordering::Less {
                version
            } else {
                other
            }
        }
    }
}

/// The greatest of the listed versions.
pub(crate) fn greatest_listed(alloc: Global, listed: &[Text]) -> Result<Option<Version>, NoMemory>
    ensures { IfOk result (λ best. best ≡ greatest listed.now) }
{
    let mut best = None;
    for text in listed {
        let version = Version::read(alloc, text.as_str())?;
        best = Some(later(best, version));
    }
    Ok(best)
}
