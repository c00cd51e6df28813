//! The elements that are open while a document is read.

ghost use Rattle.std.specs.Prelude.{◌≡◌};
ghost use Rattle.pom_grammar.specs.declared.tree.TextErr.TheVariants.{BadText};

use pom_grammar::{TextErr, Tree};
use res_base::{List, Text};

pub(crate) fn bad_text(place: usize) -> TextErr
    ensures { result ≡ BadText place }
{
    TextErr::BadText(place as u64)
}

/// An element that is still open: its name as it stands, its local name, and its text and elements
/// so far.
#[derive(Drop)]
pub(crate) struct Frame {
    pub(crate) raw: List<u8>,
    pub(crate) label: Text,
    pub(crate) text: Text,
    pub(crate) children: List<Tree>,
}

/// What was read: the root, once it is closed, and the open elements, the innermost last.
#[derive(Drop)]
pub(crate) struct Open {
    pub(crate) root: Option<Tree>,
    pub(crate) frames: List<Frame>,
}

/// What is open after a place.
#[derive(Drop)]
pub(crate) struct Step {
    pub(crate) at: usize,
    pub(crate) stack: Open,
}
