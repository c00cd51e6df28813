//! Texts that other crates make, as lines.
ghost use Rattle.std.specs.Prelude.{◌≡◌, ◌++◌, IfOk, IfSome, OnOk, codes, length};
ghost use Rattle.std.specs.Option.{option_copied};
ghost use Rattle.class_path.specs.Files.{AreFileRows, class_path_of};
ghost use Rattle.command_lines.specs.Rendered.{report_job, report_line};
ghost use Rattle.resolution.specs.Settlements.{HasRepositories, IsSettlement};

use class_path::{FileRow, class_path};
use json_report::{ReportJob, report};
use res_base::{Copied, List, NoMemory, Text};
use resolution::Settled;
use std::alloc::Global;
use word_values::Job;

/// A text with a line feed at its end.
fn with_line_end(text: Text) -> Result<Text, NoMemory>
    ensures { IfOk result (λ made. made ≡ text ++ codes "\n") }
{
    let mut text = text;
    text.push_str("\n")?;
    Ok(text)
}

fn report_job(alloc: Global, job: &Job) -> Result<ReportJob, NoMemory>
    ensures { IfOk result (λ made. made ≡ report_job job.now) }
{
    Ok(ReportJob {
        configuration: job.ask.configuration,
        addresses: job.addresses.copy(alloc)?,
        prefix: job.prefix.copy(alloc)?,
    })
}

/// The report, on a line.
pub(crate) fn report_line(
    alloc: Global,
    job: &Job,
    settled: &Settled,
    files: Option<&List<FileRow>>,
) -> Result<Text, NoMemory>
    requires settlement { IsSettlement settled.now }
    requires repositories { HasRepositories (length job.now.addresses) settled.now }
    requires files { IfSome (option_copied files) (AreFileRows (length job.now.addresses)) }
    ensures { IfOk result (λ text. text ≡ report_line job.now settled.now (option_copied files.entry)) }
{
    let made = report_job(alloc, job)?;
    with_line_end(report(alloc, settled, &made, files)?)
}

/// The class path of files, on a line.
pub(crate) fn class_path_line(
    alloc: Global,
    prefix: &str,
    files: &List<FileRow>,
) -> Result<Text, NoMemory>
    ensures { IfOk result (λ text. text ≡ class_path_of files.now prefix.now ++ codes "\n") }
{
    with_line_end(class_path(alloc, files, prefix)?)
}
