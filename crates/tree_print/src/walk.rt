//! The walk over the tree.
ghost use Rattle.std.specs.Prelude.{◌≡◌, ◌<◌, ◌++◌, [], ◌∷◌, IfOk, OnOk, length};
ghost use Rattle.node_edges.specs.Table.{IsTable};
ghost use Rattle.resolution.specs.Settlements.{IsSettlement};
ghost use Rattle.tree_print.specs.Lines.{root_branches};
ghost use Rattle.tree_print.specs.Stacks.{IsState, IsStep};
ghost use Rattle.tree_print.specs.Texts.{tree_text};

use super::pending::{Pending, mark, push_unless};
use super::texts::put_line;
use node_edges::{EdgeTable, edge_table};
use res_base::{List, NoMemory, Text};
use resolution::Settled;
use std::alloc::Global;

/// Prints the branch that stood on top of the stack, and puts its children there.
fn print_branch(
    settled: &Settled,
    table: &EdgeTable,
    marks: &mut [bool],
    stack: &mut List<Pending>,
    text: &mut Text,
    top: Pending,
) -> Result<(), NoMemory>
    requires settlement { IsSettlement settled.now }
    requires table { IsTable settled.now.edges (length settled.now.nodes) table.now }
    requires marks { length marks.old ≡ length settled.now.nodes }
    requires at { top.at < length settled.now.edges }
    requires depth { top.depth < length settled.now.edges }
    ensures size { length marks.new ≡ length marks.old }
    ensures step { OnOk result (IsStep settled.now marks.old (stack.old ++ top ∷ []) text.old
        marks.new stack.new text.new) }
{
    let edge = &settled.edges.as_slice()[top.at];
    let target = edge.target as usize;
    let above = mark(marks, target);
    put_line(text, &settled.nodes, edge, top.depth, above)?;
    let children = table.rows.as_slice()[target].as_slice();
    push_unless(stack, above, top.depth + 1, children)
}

/// Prints the branches on a stack, and all that stand below them.
fn print_all(
    alloc: Global,
    settled: &Settled,
    table: &EdgeTable,
    marks: &mut [bool],
    first: List<Pending>,
) -> Result<Text, NoMemory>
    requires settlement { IsSettlement settled.now }
    requires table { IsTable settled.now.edges (length settled.now.nodes) table.now }
    requires marks { length marks.old ≡ length settled.now.nodes }
    requires start { IsState settled.now.edges marks.old first [] (root_branches settled.now.edges) }
    ensures { IfOk result (λ text. text ≡ tree_text settled.now) }
{
    let mut text = Text::new(alloc);
    let mut stack = first;
    for _line in 0..settled.edges.len() {
        match stack.pop() {
            None => return Ok(text),
            Some(top) => print_branch(settled, table, marks, &mut stack, &mut text, top)?,
        }
    }
    Ok(text)
}

/// The tree of a settled resolution: a line for each root and for each edge below it, two spaces
/// deeper than its module's first line. A line is `org:name:ASKED`, then ` -> CHOSEN` where that is
/// not what is asked, then ` (above)` where a line of that module was printed before; only below
/// the first line of a module its edges stand. Each line ends with a line feed.
pub fn tree(alloc: Global, settled: &Settled) -> Result<Text, NoMemory>
    requires { IsSettlement settled.now }
    ensures { IfOk result (λ text. text ≡ tree_text settled.now) }
{
    let count = settled.nodes.len();
    let table = edge_table(alloc, count, settled.edges.as_slice())?;
    let mut marks = vec![in alloc; false; count]?;
    let mut first: List<Pending> = List::new(alloc);
    push_unless(&mut first, false, 0, table.roots.as_slice())?;
    print_all(alloc, settled, &table, marks.as_mut_slice(), first)
}
