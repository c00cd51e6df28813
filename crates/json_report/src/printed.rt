//! The report.
ghost use Rattle.std.specs.Prelude.{◌≡◌, IfOk, IfSome, Some, codes, length, map};
ghost use Rattle.std.specs.Option.{option_copied, option_map};
ghost use Rattle.class_path.specs.Files.{AreFileRows};
ghost use Rattle.json_report.specs.Report.{bare_report, configuration_text as text_of_configuration};
ghost use Rattle.json_report.specs.Report.{file_value as value_of_file, full_report, report_of};
ghost use Rattle.json_report.specs.Report.{report_value as value_of_report};
ghost use Rattle.resolution.specs.Settlements.{HasRepositories, IsSettlement};
ghost use Rattle.serde_json.specs.Read.{read};
ghost use Rattle.serde_json.specs.View.{view};
ghost use Rattle.serde_json.specs.Written.{compact_text};

use super::modules::module_values;
use class_path::FileRow;
use node_edges::edge_table;
use res_base::{List, NoMemory, Text};
use resolution::Settled;
use scope_rules::Configuration;
use serde_json::{Value, json};
use std::alloc::Global;

/// What a report says beside what was settled.
#[derive(Drop)]
pub struct ReportJob {
    pub configuration: Configuration,
    /// The addresses of the repositories.
    pub addresses: List<Text>,
    /// What stands before the name of each file.
    pub prefix: Text,
}

fn configuration_text(configuration: Configuration) -> &'static str
    ensures { result.now ≡ text_of_configuration configuration }
{
    match configuration {
        Configuration::Default => "default",
        Configuration::Compile => "compile",
        Configuration::Runtime => "runtime",
    }
}

fn file_value(alloc: Global, prefix: &str, row: &FileRow) -> Result<Value, NoMemory>
    ensures { IfOk result (λ value. view value ≡ value_of_file prefix.now row.now) }
{
    let name = row.name.as_str();
    Ok(Value::from(format!(in alloc; "{prefix}{name}")?))
}

fn file_values(alloc: Global, prefix: &str, rows: &List<FileRow>) -> Result<Vec<Value>, NoMemory>
    ensures { IfOk result (λ made. map view made.items ≡ map (value_of_file prefix.now) rows.now) }
{
    let mut made: Vec<Value> = Vec::new(alloc);
    for row in rows.as_slice() {
        made.push(file_value(alloc, prefix, row)?)?;
    }
    Ok(made)
}

/// The value of a report without files.
fn bare_value(alloc: Global, configuration: &str, modules: Vec<Value>) -> Result<Value, NoMemory>
    ensures { IfOk result (λ value. view value ≡ bare_report configuration.now (map view modules.items)) }
{
    let value = json!(in alloc; {"configuration": configuration, "modules": modules})?;
    Ok(value)
}

/// The value of a report with files.
fn full_value(
    alloc: Global,
    configuration: &str,
    files: Vec<Value>,
    modules: Vec<Value>,
) -> Result<Value, NoMemory>
    ensures { IfOk result (λ value. view value
        ≡ full_report configuration.now (map view files.items) (map view modules.items)) }
{
    let value = json!(in alloc; {
        "configuration": configuration,
        "files": files,
        "modules": modules
    })?;
    Ok(value)
}

fn report_value(
    alloc: Global,
    job: &ReportJob,
    files: Option<&List<FileRow>>,
    modules: Vec<Value>,
) -> Result<Value, NoMemory>
    ensures { IfOk result (λ value. view value
        ≡ report_of job.now (option_copied files.entry) (map view modules.items)) }
{
    let configuration = configuration_text(job.configuration);
    match files {
        None => bare_value(alloc, configuration, modules),
        Some(rows) => {
            let files = file_values(alloc, job.prefix.as_str(), rows)?;
            full_value(alloc, configuration, files, modules)
        }
    }
}

/// The report of a settled resolution: one JSON value without spaces, whose objects have their
/// keys in the order of bytes. It has the configuration; the files, where some are given, each as
/// the prefix and its name; and the modules, each with its coordinate, the coordinates of the
/// modules that its edges lead to in order, each once, and the address of the repository in which
/// it was found. There is no line feed at the end.
pub fn report(
    alloc: Global,
    settled: &Settled,
    job: &ReportJob,
    files: Option<&List<FileRow>>,
) -> Result<Text, NoMemory>
    requires settlement { IsSettlement settled.now }
    requires repositories { HasRepositories (length job.now.addresses) settled.now }
    requires files { IfSome (option_copied files) (AreFileRows (length job.now.addresses)) }
    ensures text { IfOk result (λ text. text
        ≡ compact_text (value_of_report settled.now job.now (option_copied files.entry))) }
    ensures reads_back { IfOk result (λ text. read text
        ≡ Some (value_of_report settled.now job.now (option_copied files.entry))) }
{
    let table = edge_table(alloc, settled.nodes.len(), settled.edges.as_slice())?;
    let modules = module_values(alloc, settled, &table, &job.addresses)?;
    let value = report_value(alloc, job, files, modules)?;
    Ok(Text::from_string(value.to_string(alloc)?))
}
