//! Lines of what was settled: of its modules, of its files, and of a sample.
ghost use Rattle.std.specs.Prelude.{◌≡◌, ◌++◌, IfOk, OnOk, codes, length};
ghost use Rattle.std.specs.Fmt.{decimal};
ghost use Rattle.std.specs.List.{flat_map};
ghost use Rattle.command_lines.specs.Rendered.{file_line, module_line, sample_line};
ghost use Rattle.json_report.specs.Report.{configuration_text as text_of_configuration};

use class_path::FileRow;
use res_base::{List, NoMemory, Text};
use resolution::{Node, Settled};
use scope_rules::Configuration;
use std::alloc::Global;

fn configuration_text(configuration: Configuration) -> &'static str
    ensures { result.now ≡ text_of_configuration configuration }
{
    match configuration {
        Configuration::Default => "default",
        Configuration::Compile => "compile",
        Configuration::Runtime => "runtime",
    }
}

/// Puts the line of a module at the end of a text.
fn put_module_line(text: &mut Text, configuration: &str, node: &Node) -> Result<(), NoMemory>
    ensures { OnOk result (text.new ≡ text.old ++ module_line configuration.now node.now) }
{
    text.push_str(node.coord.module.org.as_str())?;
    text.push_str(":")?;
    text.push_str(node.coord.module.name.as_str())?;
    text.push_str(":")?;
    text.push_str(node.coord.version.as_str())?;
    text.push_str(":")?;
    text.push_str(configuration)?;
    text.push_str("\n")
}

fn put_module_lines(text: &mut Text, configuration: &str, nodes: &[Node]) -> Result<(), NoMemory>
    ensures { OnOk result (text.new ≡ text.old ++ flat_map (module_line configuration.now) nodes.now) }
{
    for node in nodes {
        put_module_line(text, configuration, node)?;
    }
    Ok(())
}

/// A line for each module, with the configuration.
pub(crate) fn module_lines(
    alloc: Global,
    configuration: Configuration,
    nodes: &List<Node>,
) -> Result<Text, NoMemory>
    ensures { IfOk result (λ text. text ≡ flat_map (module_line (text_of_configuration configuration)) nodes.now) }
{
    let mut text = Text::new(alloc);
    put_module_lines(
        &mut text,
        configuration_text(configuration),
        nodes.as_slice(),
    )?;
    Ok(text)
}

/// Puts the line of a file at the end of a text.
fn put_file_line(text: &mut Text, prefix: &str, row: &FileRow) -> Result<(), NoMemory>
    ensures { OnOk result (text.new ≡ text.old ++ file_line prefix.now row.now) }
{
    text.push_str(prefix)?;
    text.push_str(row.name.as_str())?;
    text.push_str("\n")
}

/// A line for each file: the prefix and its name in the cache.
pub(crate) fn file_lines(
    alloc: Global,
    prefix: &str,
    files: &List<FileRow>,
) -> Result<Text, NoMemory>
    ensures { IfOk result (λ text. text ≡ flat_map (file_line prefix.now) files.now) }
{
    let mut text = Text::new(alloc);
    for row in files.as_slice() {
        put_file_line(&mut text, prefix, row)?;
    }
    Ok(text)
}

/// Puts a word and a number at the end of a text.
fn put_number(alloc: Global, text: &mut Text, word: &str, number: u64) -> Result<(), NoMemory>
    ensures { OnOk result (text.new ≡ text.old ++ (word.now ++ decimal number)) }
{
    let digits = format!(in alloc; "{number}")?;
    text.push_str(word)?;
    text.push_str(digits.as_str())
}

/// The line of a sample: how many modules there are, in which round nothing changed any more, and
/// how many answers were known.
pub(crate) fn sample_line(alloc: Global, settled: &Settled, reads: u64) -> Result<Text, NoMemory>
    ensures { IfOk result (λ text. text ≡ sample_line settled.now reads) }
{
    let mut text = Text::new(alloc);
    put_number(alloc, &mut text, "modules ", settled.nodes.len() as u64)?;
    put_number(alloc, &mut text, " rounds ", settled.round as u64)?;
    put_number(alloc, &mut text, " reads ", reads)?;
    text.push_str("\n")?;
    Ok(text)
}
