//! The branches that are still to be printed, as a stack.
ghost use Rattle.std.specs.Prelude.{◌≡◌, ◌<◌, ◌++◌, [], Some, OnOk, true, if◌then◌else◌};
ghost use Rattle.std.specs.Prelude.{length, map, reverse, slice_get, slice_set};
ghost use Rattle.tree_print.specs.Stacks.{pending_at};

use res_base::{List, NoMemory};

/// An edge that is to be printed: its depth, and its place.
#[derive(Drop)]
pub(crate) struct Pending {
    pub depth: usize,
    pub at: usize,
}

/// Whether a module was marked. It is from then on.
pub(crate) fn mark(marks: &mut [bool], place: usize) -> bool
    requires { place < length marks.old }
    ensures was { slice_get marks.old place ≡ Some result }
    ensures marked { marks.new ≡ slice_set marks.old place true }
{
    let was = marks[place];
    marks[place] = true;
    was
}

/// Puts edges on the stack, the first of them on top.
fn push_all(stack: &mut List<Pending>, depth: usize, places: &[usize]) -> Result<(), NoMemory>
    ensures { OnOk result (stack.new ≡ stack.old ++ map (pending_at depth) (reverse places.now)) }
{
    for done in 0..places.len() {
        let at = places[places.len() - 1 - done];
        stack.push(Pending { depth, at })?;
    }
    Ok(())
}

/// Puts edges on the stack, unless lines of them stand above.
pub(crate) fn push_unless(
    stack: &mut List<Pending>,
    above: bool,
    depth: usize,
    places: &[usize],
) -> Result<(), NoMemory>
    ensures { OnOk result (stack.new
        ≡ stack.old ++ (if above then [] else map (pending_at depth) (reverse places.now))) }
{
    if above {
        return Ok(());
    }
    push_all(stack, depth, places)
}
