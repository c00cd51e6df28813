//! What is printed of a verdict.
ghost use Rattle.std.specs.Prelude.{◌≡◌, IfOk, length};
ghost use Rattle.class_path.specs.Files.{AreFileRows};
ghost use Rattle.command_lines.specs.Rendered.{came_text, fetched, made, rendered_of, resolved_text, settled_as};
ghost use Rattle.resolution.specs.Settlements.{HasRepositories, IfSettled, IsSettlement};

use super::reports::{class_path_line, report_line};
use super::rows::{file_lines, module_lines, sample_line};
use class_path::FileRow;
use line_streams::Rendered;
use res_base::{List, NoMemory, Text};
use resolution::{Settled, Verdict};
use std::alloc::Global;
use tree_print::tree;
use verdict_print::{all_came, artifact_lines, clash_lines, failed_lines, unsettled_line};
use word_values::{Command, Job, Output};

fn made(status: u8, text: Text) -> Rendered
    ensures { result ≡ made status text }
{
    let bytes = List::from_vec(text.into_string().into_bytes());
    Rendered { status, bytes }
}

/// What `resolve` prints where all is settled.
fn resolved_text(alloc: Global, job: &Job, settled: &Settled) -> Result<Text, NoMemory>
    requires settlement { IsSettlement settled.now }
    requires repositories { HasRepositories (length job.now.addresses) settled.now }
    ensures { IfOk result (λ text. text ≡ resolved_text job.now settled.now job.now.output) }
{
    match job.output {
        Output::Plain => module_lines(alloc, job.ask.configuration, &settled.nodes),
        Output::Tree => tree(alloc, settled),
        Output::Json => report_line(alloc, job, settled, None),
        Output::Classpath => module_lines(alloc, job.ask.configuration, &settled.nodes),
    }
}

/// What `fetch` prints where all is settled and all files came whole.
fn came_text(
    alloc: Global,
    job: &Job,
    settled: &Settled,
    files: &List<FileRow>,
) -> Result<Text, NoMemory>
    requires settlement { IsSettlement settled.now }
    requires repositories { HasRepositories (length job.now.addresses) settled.now }
    requires files { AreFileRows (length job.now.addresses) files.now }
    ensures { IfOk result (λ text. text ≡ came_text job.now settled.now files.now job.now.output) }
{
    match job.output {
        Output::Plain => file_lines(alloc, job.prefix.as_str(), files),
        Output::Tree => file_lines(alloc, job.prefix.as_str(), files),
        Output::Json => report_line(alloc, job, settled, Some(files)),
        Output::Classpath => class_path_line(alloc, job.prefix.as_str(), files),
    }
}

/// What `fetch` prints where all is settled.
fn fetched(
    alloc: Global,
    job: &Job,
    settled: &Settled,
    files: &List<FileRow>,
) -> Result<Rendered, NoMemory>
    requires settlement { IsSettlement settled.now }
    requires repositories { HasRepositories (length job.now.addresses) settled.now }
    requires files { AreFileRows (length job.now.addresses) files.now }
    ensures { IfOk result (λ rendered. rendered ≡ fetched job.now settled.now files.now) }
{
    if !all_came(files) {
        return Ok(made(1, artifact_lines(alloc, &job.addresses, files)?));
    }
    Ok(made(0, came_text(alloc, job, settled, files)?))
}

/// What a command prints where all is settled.
fn settled_as(
    alloc: Global,
    job: &Job,
    settled: &Settled,
    files: &List<FileRow>,
    reads: u64,
) -> Result<Rendered, NoMemory>
    requires settlement { IsSettlement settled.now }
    requires repositories { HasRepositories (length job.now.addresses) settled.now }
    requires files { AreFileRows (length job.now.addresses) files.now }
    ensures { IfOk result (λ rendered. rendered ≡ settled_as job.now settled.now files.now reads job.now.command) }
{
    match job.command {
        Command::Resolve => Ok(made(0, resolved_text(alloc, job, settled)?)),
        Command::Fetch => fetched(alloc, job, settled, files),
        Command::Sample => Ok(made(0, sample_line(alloc, settled, reads)?)),
    }
}

/// What is printed of a verdict, and the status: 0 where it is settled and, for `fetch`, all files
/// came whole, and 1 otherwise. `files` are the files of a settled verdict, of which `fetch` alone
/// speaks, and `reads` is the number of known answers, of which `sample` alone does. An output that
/// its command does not have is printed as the plain one.
pub fn render(
    alloc: Global,
    job: &Job,
    verdict: &Verdict,
    files: &List<FileRow>,
    reads: u64,
) -> Result<Rendered, NoMemory>
    requires settlement { IfSettled verdict.now IsSettlement }
    requires repositories { IfSettled verdict.now (HasRepositories (length job.now.addresses)) }
    requires files { AreFileRows (length job.now.addresses) files.now }
    ensures { IfOk result (λ rendered. rendered ≡ rendered_of job.now verdict.now files.now reads) }
{
    match verdict {
        Verdict::Settled(settled) => settled_as(alloc, job, settled, files, reads),
        Verdict::Clashes(rows) => Ok(made(1, clash_lines(alloc, rows)?)),
        Verdict::Failed(rows) => Ok(made(1, failed_lines(alloc, &job.addresses, rows)?)),
        Verdict::Unsettled(rounds) => Ok(made(1, unsettled_line(alloc, *rounds)?)),
    }
}
