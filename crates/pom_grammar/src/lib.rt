//! The grammar of documents, and the laws of a reader that goes over them byte by byte.
//!
//! A document is a text of a small part of XML 1.0 (W3C, fifth edition) without document types,
//! namespaces or entities of its own. `specs/Document.antt` has the grammar, as a relation between
//! bytes and trees; `specs/Machine.antt` a reader; `proofs/` shows that the reader is right.
#![tactic(auto)]

mod byte_laws;
mod encoding;
mod laws;
mod tree;

pub use byte_laws::{ascii_ends_runs, declarations_begin, names_have_no_space, texts_are_utf8};
pub use encoding::{Encoding, Seek, Tail};
pub use laws::{documents_are_read, one_answer, one_tree, verdict_says};
pub use tree::{MOST_LEVELS, TextErr, Tree};
