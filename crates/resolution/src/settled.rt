//! What a resolution has settled on.
use res_base::{Coord, List, Text};

/// A module at its chosen version.
#[derive(Drop)]
pub struct Node {
    pub coord: Coord,
    /// The place of the repository in which its project was found.
    pub repo: u32,
    pub packaging: Text,
    /// Its project has moved, so it has no artifact.
    pub moved: bool,
}

/// A dependency of a node, or a root where there is no source. Nodes are named by their places.
#[derive(Drop)]
pub struct Edge {
    pub source: Option<u64>,
    pub target: u64,
    /// The constraint that is asked for, as managed versions leave it.
    pub asked: Text,
    /// The type.
    pub kind: Text,
    pub classifier: Text,
}

/// Nodes in module order, and their edges: the roots in the order of the words, and then by source
/// and by the place of the row.
#[derive(Drop)]
pub struct Settled {
    /// The round in which nothing changed any more, from 1.
    pub round: u32,
    pub nodes: List<Node>,
    pub edges: List<Edge>,
}
