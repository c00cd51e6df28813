//! Clashes.
ghost use Rattle.std.specs.Prelude.{◌≡◌, ◌++◌, IfOk, OnOk, codes};
ghost use Rattle.std.specs.Fmt.{decimal};
ghost use Rattle.std.specs.List.{flat_map};
ghost use Rattle.verdict_print.specs.Lines.{asked_text, asker_text, clash_lines, clash_text, module_text, request_line};
ghost use Rattle.verdict_print.specs.Reasons.{numbered};

use crate::texts::{numbered, put_coord, put_module};
use reconcile_rules::{Asker, Clash, Request};
use res_base::{List, Module, NoMemory, Text};
use resolution::ClashRow;
use std::alloc::Global;

fn apart_text(alloc: Global, first: u64, second: u64) -> Result<Text, NoMemory>
    ensures { IfOk result (λ text. text ≡ numbered (codes "apart") first ++ (codes " " ++ decimal second)) }
{
    let mut text = numbered(alloc, "apart", first)?;
    let second = format!(in alloc; " {second}")?;
    text.push_str(second.as_str())?;
    Ok(text)
}

fn clash_text(alloc: Global, clash: Clash) -> Result<Text, NoMemory>
    ensures { IfOk result (λ text. text ≡ clash_text clash) }
{
    match clash {
        Clash::Apart(first, second) => apart_text(alloc, first, second),
        Clash::Above(at) => numbered(alloc, "above", at),
        Clash::NotAccepted(at) => numbered(alloc, "not-accepted", at),
        Clash::NoVersion => Text::of(alloc, "no-version"),
        Clash::NoneListed => Text::of(alloc, "none-listed"),
        Clash::BadConstraint(at) => numbered(alloc, "bad-constraint", at),
    }
}

fn put_asker(text: &mut Text, asker: &Asker) -> Result<(), NoMemory>
    ensures { OnOk result (text.new ≡ text.old ++ asker_text asker.now) }
{
    match asker {
        Asker::Root(_) => text.push_str("root"),
        Asker::Project(coord) => put_coord(text, coord),
    }
}

fn asked_text(asked: &str) -> &str
    ensures { result.now ≡ asked_text asked.now }
{
    if asked.is_empty() { "-" } else { asked }
}

fn put_request(text: &mut Text, request: &Request) -> Result<(), NoMemory>
    ensures { OnOk result (text.new ≡ text.old ++ request_line request.now) }
{
    text.push_str("  ")?;
    put_asker(text, &request.from)?;
    text.push_str(" asks ")?;
    text.push_str(asked_text(request.text.as_str()))?;
    text.push_str("\n")
}

fn put_requests(text: &mut Text, requests: &[Request]) -> Result<(), NoMemory>
    ensures { OnOk result (text.new ≡ text.old ++ flat_map request_line requests.now) }
{
    for request in requests {
        put_request(text, request)?;
    }
    Ok(())
}

fn put_head(alloc: Global, text: &mut Text, module: &Module, clash: Clash) -> Result<(), NoMemory>
    ensures { OnOk result (text.new
        ≡ text.old ++ (codes "clash " ++ (module_text «module».now ++ (codes " " ++ (clash_text clash ++ codes "\n"))))) }
{
    text.push_str("clash ")?;
    put_module(text, module)?;
    text.push_str(" ")?;
    text.push_str(clash_text(alloc, clash)?.as_str())?;
    text.push_str("\n")
}

fn put_row(alloc: Global, text: &mut Text, row: &ClashRow) -> Result<(), NoMemory>
    ensures { OnOk result (text.new ≡ text.old ++ clash_lines row.now) }
{
    put_head(alloc, text, &row.module, row.clash)?;
    put_requests(text, row.requests.as_slice())
}

/// The lines of clashes: `clash org:name KIND` for each, and below it `  WHO asks TEXT` for each
/// request.
pub fn clash_lines(alloc: Global, rows: &List<ClashRow>) -> Result<Text, NoMemory>
    ensures { IfOk result (λ text. text ≡ flat_map clash_lines rows.now) }
{
    let mut text = Text::new(alloc);
    for row in rows.as_slice() {
        put_row(alloc, &mut text, row)?;
    }
    Ok(text)
}
