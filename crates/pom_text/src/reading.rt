//! The reader of documents.

ghost use Rattle.std.specs.Prelude.{◌≡◌, ◌⊎◌, List, Ok, Err, IfOk, IfErr};
ghost use Rattle.pom_grammar.specs.Declarations.{encoding_rows};
ghost use Rattle.pom_grammar.specs.References.{entity_rows};
ghost use Rattle.pom_grammar.specs.Faults.{Says};
ghost use Rattle.pom_grammar.specs.Machine.{back, outcome};
ghost use Rattle.pom_grammar.specs.Verdicts.{ended, whole_verdict};
ghost use Rattle.pom_text.specs.Views.{open_view};

use crate::declaration::read_head;
use crate::markup::part;
use crate::tables::{encoding_table, entity_table};
use crate::tree::{Open, bad_text};
use case_table::Table;
use pom_grammar::{Encoding, TextErr, Tree, verdict_says};
use res_base::List;
use std::alloc::Global;

/// What is answered at the end of a text.
fn finish(end: usize, stack: Open) -> Result<Tree, TextErr>
    ensures ok { IfOk result (λ tree. ended (outcome (back (open_view stack))) end ≡ Ok tree) }
    ensures err { IfErr result (λ fault. ended (outcome (back (open_view stack))) end ≡ Err fault) }
{
    let Open { root, frames } = stack;
    if !frames.is_empty() {
        return Err(bad_text(end));
    }
    match root {
        Some(tree) => Ok(tree),
        None => Err(bad_text(end)),
    }
}

/// What is answered for a text, by the two tables, unless memory runs out.
fn read_with(
    alloc: Global,
    encodings: &Table<Encoding>,
    entities: &Table<char>,
    bytes: &[u8],
) -> Result<Tree, TextErr>
    requires encodings { encodings.now ≡ encoding_rows }
    requires entities { entities.now ≡ entity_rows }
    ensures ok { IfOk result (λ tree. whole_verdict bytes.now ≡ Ok tree) }
    ensures err { IfErr result (λ fault. (fault ≡ TextErr.NoMemory) ⊎ (whole_verdict bytes.now ≡ Err fault)) }
{
    let head = match read_head(encodings, bytes) {
        Ok(head) => head,
        Err(fault) => return Err(fault),
    };
    let encoding = head.encoding;
    let mut at = head.at;
    let mut stack = Open {
        root: None,
        frames: List::new(alloc),
    };
    while at < bytes.len() {
        let next = match part(alloc, entities, bytes, at, encoding, stack) {
            Ok(next) => next,
            Err(fault) => return Err(fault),
        };
        at = next.at;
        stack = next.stack;
    }
    finish(at, stack)
}

/// What is answered for a text, unless memory runs out.
fn read(alloc: Global, bytes: &[u8]) -> Result<Tree, TextErr>
    ensures ok { IfOk result (λ tree. whole_verdict bytes.now ≡ Ok tree) }
    ensures err { IfErr result (λ fault. (fault ≡ TextErr.NoMemory) ⊎ (whole_verdict bytes.now ≡ Err fault)) }
{
    let encodings = match encoding_table(alloc) {
        Ok(table) => table,
        Err(_) => return Err(TextErr::NoMemory),
    };
    let entities = match entity_table(alloc) {
        Ok(table) => table,
        Err(_) => return Err(TextErr::NoMemory),
    };
    read_with(alloc, &encodings, &entities, bytes)
}

/// The tree of a document, or the first fault of a text that is none.
///
/// The grammar is that of `pom_grammar`: a part of XML 1.0 without document types, of at most 64
/// levels, in UTF-8, ASCII or ISO-8859-1. A fault has its place in bytes from the start.
pub fn read_tree(alloc: Global, bytes: &[u8]) -> Result<Tree, TextErr>
    ensures says { Says bytes.now result }
    ensures read { IfOk result (λ tree. whole_verdict bytes.now ≡ Ok tree) }
    ensures refused { IfErr result (λ fault. (fault ≡ TextErr.NoMemory) ⊎ (whole_verdict bytes.now ≡ Err fault)) }
{
    verdict_says();
    read(alloc, bytes)
}
