//! The text of a line.
ghost use Rattle.std.specs.Prelude.{◌≡◌, ◌++◌, OnOk};
ghost use Rattle.std.specs.Option.{option_copied};
ghost use Rattle.tree_print.specs.Lines.{line_at};
ghost use Rattle.tree_print.specs.Texts.{asked_text as asked_as, choice_text, end_text, entry_text, indent};
ghost use Rattle.tree_print.specs.Texts.{line_text, name_text, node_text, target_text};

use res_base::{List, Module, NoMemory, Text};
use resolution::{Edge, Node};

/// Two spaces for each step of depth.
fn put_indent(text: &mut Text, depth: usize) -> Result<(), NoMemory>
    ensures { OnOk result (text.new ≡ text.old ++ indent depth) }
{
    for _step in 0..depth {
        text.push_str("  ")?;
    }
    Ok(())
}

/// What is asked, or a dash where that is empty.
fn asked_text(asked: &str) -> &str
    ensures { result.now ≡ asked_as asked.now }
{
    if asked.is_empty() { "-" } else { asked }
}

fn put_name(text: &mut Text, module: &Module, asked: &str) -> Result<(), NoMemory>
    ensures { OnOk result (text.new ≡ text.old ++ name_text «module».now asked.now) }
{
    text.push_str(module.org.as_str())?;
    text.push_str(":")?;
    text.push_str(module.name.as_str())?;
    text.push_str(":")?;
    text.push_str(asked_text(asked))
}

/// The version that was chosen, where it is not what is asked.
fn put_choice(text: &mut Text, same: bool, version: &str) -> Result<(), NoMemory>
    ensures { OnOk result (text.new ≡ text.old ++ choice_text same version.now) }
{
    if same {
        return Ok(());
    }
    text.push_str(" -> ")?;
    text.push_str(version)
}

fn put_node(text: &mut Text, node: &Node, asked: &str) -> Result<(), NoMemory>
    ensures { OnOk result (text.new ≡ text.old ++ node_text node.now asked.now) }
{
    put_name(text, &node.coord.module, asked)?;
    let version = node.coord.version.as_str();
    put_choice(text, asked == version, version)
}

fn put_target(text: &mut Text, node: Option<&Node>, asked: &str) -> Result<(), NoMemory>
    ensures { OnOk result (text.new ≡ text.old ++ target_text (option_copied node.entry) asked.now) }
{
    match node {
        None => Ok(()),
        Some(node) => put_node(text, node, asked),
    }
}

fn end_of(above: bool) -> &'static str
    ensures { result.now ≡ end_text above }
{
    if above { " (above)\n" } else { "\n" }
}

/// A line without its indent.
fn put_entry(text: &mut Text, nodes: &List<Node>, edge: &Edge, above: bool) -> Result<(), NoMemory>
    ensures { OnOk result (text.new ≡ text.old ++ entry_text nodes.now edge.now above) }
{
    let node = nodes.get(edge.target as usize);
    put_target(text, node, edge.asked.as_str())?;
    text.push_str(end_of(above))
}

/// Puts the line of an edge at the end of a text.
pub(crate) fn put_line(
    text: &mut Text,
    nodes: &List<Node>,
    edge: &Edge,
    depth: usize,
    above: bool,
) -> Result<(), NoMemory>
    ensures { OnOk result (text.new ≡ text.old ++ line_text nodes.now (line_at depth edge.now above)) }
{
    put_indent(text, depth)?;
    put_entry(text, nodes, edge, above)
}
