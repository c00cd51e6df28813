//! Trees of elements.
//!
//! - `tree H`: `ok TREE`, where TREE is `(`, the name, a space, the text, then for each child a
//!   space and its TREE, and `)`, with names and texts as H; or the fault.
ghost use Rattle.std.specs.Prelude.{◌≡◌, ◌++◌, IfOk, OnOk, codes, string_bytes};
ghost use Rattle.project_cases.specs.Faults.{text_fault};
ghost use Rattle.project_cases.specs.Trees.{head_word, tree_word};

use crate::reasons::fault_line;
use case_words::case_error::CaseError;
use case_words::hex_word::{bytes_of, hex_word};
use pom_text::{TextErr, Tree, read_tree};
use res_base::ReadFault;
use std::alloc::Global;

/// No document has more levels of elements.
const LEVELS: usize = 64;

/// Puts the bracket, the name and the text of a tree at the end.
fn push_head(alloc: Global, line: &mut String, tree: &Tree) -> Result<(), CaseError>
    ensures { OnOk result (string_bytes line.new ≡ string_bytes line.old ++ head_word tree.now) }
{
    let name = hex_word(alloc, tree.name.as_bytes())?;
    let text = hex_word(alloc, tree.text.as_bytes())?;
    let head = format!(in alloc; "({name} {text}")?;
    line.push_str(head.as_str())?;
    Ok(())
}

/// Puts a tree of at most so many levels at the end.
fn push_tree(alloc: Global, line: &mut String, tree: &Tree, levels: usize) -> Result<(), CaseError>
    ensures { OnOk result (string_bytes line.new ≡ string_bytes line.old ++ tree_word levels tree.now) }
{
    if levels == 0 {
        return Err(CaseError::OutOfForm);
    }
    push_head(alloc, line, tree)?;
    for child in tree.children.as_slice() {
        line.push_str(" ")?;
        push_tree(alloc, line, child, levels - 1)?;
    }
    line.push_str(")")?;
    Ok(())
}

fn tree_line(alloc: Global, tree: &Tree) -> Result<String, CaseError>
    ensures { IfOk result (λ line. string_bytes line ≡ codes "ok " ++ tree_word LEVELS tree.now) }
{
    let mut line = String::from_str(alloc, "ok ")?;
    push_tree(alloc, &mut line, tree, LEVELS)?;
    Ok(line)
}

/// Why a text is no document, unless memory was wanting.
fn fault_of(fault: TextErr) -> Result<ReadFault, CaseError>
    ensures { IfOk result (λ told. text_fault fault ≡ Some told) }
{
    match fault {
        TextErr::BadText(place) => Ok(ReadFault::BadText(place)),
        TextErr::Doctype(place) => Ok(ReadFault::Doctype(place)),
        TextErr::TooDeep(place) => Ok(ReadFault::TooDeep(place)),
        TextErr::UnknownEncoding(place) => Ok(ReadFault::UnknownEncoding(place)),
        TextErr::NoMemory => Err(CaseError::NoMemory),
    }
}

pub fn tree(alloc: Global, fields: &[&str]) -> Result<String, CaseError> {
    let [text] = fields else {
        return Err(CaseError::OutOfForm);
    };
    let text = bytes_of(alloc, text)?;
    match read_tree(alloc, text.as_slice()) {
        Ok(tree) => tree_line(alloc, &tree),
        Err(fault) => Ok(fault_line(alloc, fault_of(fault)?)?),
    }
}
