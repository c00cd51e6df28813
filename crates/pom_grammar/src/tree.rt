//! The tree of a document, and the faults of a text that is none.

ghost use Rattle.std.specs.Prelude.{◌≡◌};

use res_base::{List, NoMemory, Text};

/// The most levels of elements that a document has. The root is the first.
pub const MOST_LEVELS: usize = 64;

/// An element: its local name, its own text, and the elements in it.
///
/// The name is what stands after the first colon, or the whole where there is none. The text has
/// its references and CDATA sections put in, and no white space at its ends.
#[derive(Drop)]
pub struct Tree {
    pub name: Text,
    pub text: Text,
    pub children: List<Tree>,
}

/// Why a text is no document. Places are bytes from the start of the input.
#[derive(Clone, Copy, Debug, PartialEq, Eq, Drop)]
pub enum TextErr {
    /// The longest prefix of the input that begins some document has this length.
    BadText(u64),
    /// A `<!DOCTYPE` stands before the root, at this place.
    Doctype(u64),
    /// A start tag opens the 65th level, at this place.
    TooDeep(u64),
    /// The declaration names an encoding that is not known, at this place.
    UnknownEncoding(u64),
    NoMemory,
}

impl From<NoMemory> for TextErr {
    ghost use Rattle.pom_grammar.specs.declared.tree.TextErr.TheVariants.{NoMemory};

    ghost from_gives = { λ _ e. e ≡ NoMemory };

    fn from(_: NoMemory) -> TextErr {
        TextErr::NoMemory
    }
}
