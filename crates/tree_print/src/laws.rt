//! What the lines of a tree are.
ghost use Rattle.std.specs.Prelude.{List};
ghost use Rattle.resolution.specs.declared.settled.Edge.{Edge};
ghost use Rattle.tree_print.specs.Lines.{tree_lines};
ghost use Rattle.tree_print.specs.Trees.{IsTree};

/// A law, with nothing to run: a line of a module that stands above says so, and nothing stands
/// below it; below each other line come the lines of its module's edges, one deeper.
pub fn tree_rule()
    ensures { (edges : List Edge) → IsTree edges (tree_lines edges) }
{}
