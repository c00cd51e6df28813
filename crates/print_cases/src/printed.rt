//! Trees and reports.
//!
//! - `tree-text SETTLED..`: the tree, as H, without the line feed at its end. SETTLED is the nodes
//!   and then the edges.
//! - `report CONFIGURATION ADDRESSES H FILES SETTLED..`: addresses, each H, joined by commas, and a
//!   prefix; FILES is `files`, and then the artifacts are all stored, or `no-files`. The report, as
//!   H.
ghost use Rattle.std.specs.Prelude.{length};
ghost use Rattle.resolution.specs.Settlements.{HasRepositories, IsSettlement};

use super::conditions::{has_repositories, is_settlement};
use super::files::rows_of;
use case_words::case_error::CaseError;
use case_words::hex_word::{hex_word, text_of};
use case_words::names::texts_of;
use json_report::{ReportJob, report as report_text};
use res_base::Text;
use resolution::Settled;
use round_cases::artifacts::settled_of;
use std::alloc::Global;
use tree_print::tree;
use value_cases::scopes::configuration_of;

/// A text as H, without the line feed at its end.
fn cut_word(alloc: Global, text: &str) -> Result<String, CaseError> {
    let cut = match text.strip_suffix('\n') {
        Some(cut) => cut,
        None => text,
    };
    Ok(hex_word(alloc, cut.as_bytes())?)
}

pub fn tree_text(alloc: Global, fields: &[&str]) -> Result<String, CaseError> {
    let settled = settled_of(alloc, fields)?;
    if !is_settlement(&settled) {
        return Err(CaseError::OutOfForm);
    }
    cut_word(alloc, tree(alloc, &settled)?.as_str())
}

fn report_line(
    alloc: Global,
    settled: &Settled,
    job: &ReportJob,
    files: &str,
) -> Result<Text, CaseError>
    requires settlement { IsSettlement settled.now }
    requires repositories { HasRepositories (length job.now.addresses) settled.now }
{
    match files {
        "files" => {
            let rows = rows_of(alloc, settled, &job.addresses)?;
            Ok(report_text(alloc, settled, job, Some(&rows))?)
        }
        "no-files" => Ok(report_text(alloc, settled, job, None)?),
        _ => Err(CaseError::OutOfForm),
    }
}

pub fn report(alloc: Global, fields: &[&str]) -> Result<String, CaseError> {
    let [configuration, addresses, prefix, files, parts @ ..] = fields else {
        return Err(CaseError::OutOfForm);
    };
    let Some(configuration) = configuration_of(configuration) else {
        return Err(CaseError::OutOfForm);
    };
    let job = ReportJob {
        configuration,
        addresses: texts_of(alloc, addresses)?,
        prefix: text_of(alloc, prefix)?,
    };
    let settled = settled_of(alloc, parts)?;
    if !is_settlement(&settled) || !has_repositories(job.addresses.len(), &settled) {
        return Err(CaseError::OutOfForm);
    }
    let text = report_line(alloc, &settled, &job, files)?;
    cut_word(alloc, text.as_str())
}
