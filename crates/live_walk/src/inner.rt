//! The edges that paths can go on behind.
ghost use Rattle.std.specs.Prelude.{◌≡◌, ◌∷◌, ◌++◌, [], IfOk, OnOk};
ghost use Rattle.live_walk.specs.Numbers.{goes_on as goes_on_at, hops_at, inner_hops as hops_inside, inner_out as out_inside};

use super::hop::Hop;
use res_base::{Copied, List, NoMemory};
use std::alloc::Global;

fn edges_at(out: &[List<Hop>], place: usize) -> &[Hop]
    ensures { result.now ≡ hops_at out.now place }
{
    match out.get(place) {
        None => &[],
        Some(hops) => hops.as_slice(),
    }
}

/// Whether the module at a place has edges.
fn goes_on(out: &[List<Hop>], place: usize) -> bool
    ensures { result ≡ goes_on_at out.now place }
{
    !edges_at(out, place).is_empty()
}

/// Puts an edge at the end of others, if edges go on behind it.
fn put_inner(
    alloc: Global,
    out: &[List<Hop>],
    made: &mut List<Hop>,
    hop: &Hop,
) -> Result<(), NoMemory>
    ensures { OnOk result (made.new ≡ made.old ++ hops_inside out.now (hop.now ∷ [])) }
{
    if goes_on(out, hop.to) {
        return made.push(hop.copy(alloc)?);
    }
    Ok(())
}

fn inner_hops(alloc: Global, out: &[List<Hop>], hops: &[Hop]) -> Result<List<Hop>, NoMemory>
    ensures { IfOk result (λ made. made ≡ hops_inside out.now hops.now) }
{
    let mut made: List<Hop> = List::new(alloc);
    for hop in hops {
        put_inner(alloc, out, &mut made, hop)?;
    }
    Ok(made)
}

/// The edges of each module that lead to modules with edges. Sets are put to these modules alone:
/// at another one no path goes on.
pub(crate) fn inner_out(alloc: Global, out: &[List<Hop>]) -> Result<List<List<Hop>>, NoMemory>
    ensures { IfOk result (λ made. made ≡ out_inside out.now) }
{
    let mut made: List<List<Hop>> = List::new(alloc);
    for hops in out {
        made.push(inner_hops(alloc, out, hops.as_slice())?)?;
    }
    Ok(made)
}
