//! Artifacts of a settled resolution.
//!
//! - `artifacts SETTLED..`: `ok`, then ` R:PATH` for each artifact key. SETTLED is the nodes and then
//!   the edges, as `progress` writes them.
use case_words::case_error::CaseError;
use case_words::hex_word::text_of;
use case_words::names::coord_of;
use case_words::words::{joined, pieces_of};
use project_cases::effectives::key_word;
use project_cases::lookups::number_of;
use res_base::{List, Text};
use round_core::{Edge, Node, Settled, artifacts as artifact_keys};
use std::alloc::Global;

fn node_of(alloc: Global, pieces: &[&str]) -> Result<Node, CaseError> {
    let [coord, repo, packaging, moved] = pieces else {
        return Err(CaseError::OutOfForm);
    };
    Ok(Node {
        coord: coord_of(alloc, coord)?,
        repo: number_of(alloc, repo)?,
        packaging: text_of(alloc, packaging)?,
        moved: *moved == "moved",
    })
}

fn source_of(alloc: Global, word: &str) -> Result<Option<u64>, CaseError> {
    if word == "root" {
        return Ok(None);
    }
    Ok(Some(number_of(alloc, word)? as u64))
}

fn edge_of(alloc: Global, pieces: &[&str]) -> Result<Edge, CaseError> {
    let [source, target, asked, kind, classifier] = pieces else {
        return Err(CaseError::OutOfForm);
    };
    let asked: Text = text_of(alloc, asked)?;
    Ok(Edge {
        source: source_of(alloc, source)?,
        target: number_of(alloc, target)? as u64,
        asked,
        kind: text_of(alloc, kind)?,
        classifier: text_of(alloc, classifier)?,
    })
}

/// Puts a node or an edge in its place.
fn put_part(alloc: Global, settled: &mut Settled, field: &str) -> Result<(), CaseError> {
    let pieces = pieces_of(alloc, field, '=')?;
    match pieces.as_slice() {
        ["node", pieces @ ..] => Ok(settled.nodes.push(node_of(alloc, pieces)?)?),
        ["edge", pieces @ ..] => Ok(settled.edges.push(edge_of(alloc, pieces)?)?),
        _ => Err(CaseError::OutOfForm),
    }
}

/// What is settled, by its nodes and edges.
pub fn settled_of(alloc: Global, fields: &[&str]) -> Result<Settled, CaseError> {
    let mut settled = Settled {
        round: 1,
        nodes: List::new(alloc),
        edges: List::new(alloc),
    };
    for field in fields {
        put_part(alloc, &mut settled, field)?;
    }
    Ok(settled)
}

pub fn artifacts(alloc: Global, fields: &[&str]) -> Result<String, CaseError> {
    let settled = settled_of(alloc, fields)?;
    let mut words = Vec::new(alloc);
    words.push(String::from_str(alloc, "ok")?)?;
    for key in artifact_keys(alloc, &settled)?.as_slice() {
        words.push(key_word(alloc, key)?)?;
    }
    Ok(joined(alloc, words.as_slice(), " ")?)
}
