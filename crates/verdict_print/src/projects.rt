//! Projects that are wanted and not there.
ghost use Rattle.std.specs.Prelude.{◌≡◌, ◌++◌, IfOk, OnOk, codes};
ghost use Rattle.std.specs.List.{flat_map};
ghost use Rattle.verdict_print.specs.Lines.{coord_text, failed_lines, fault_lines, last_text, path_text, project_lines, reason_line, reason_lines};

use crate::reasons::reason_text;
use crate::texts::put_coord;
use pom_build::BuildFault;
use res_base::{Coord, List, NoMemory, Reason, Text};
use resolution::{FaultRow, ProjectFault};
use std::alloc::Global;

fn put_reason(alloc: Global, text: &mut Text, address: &str, reason: Reason) -> Result<(), NoMemory>
    ensures { OnOk result (text.new ≡ text.old ++ reason_line address.now reason) }
{
    text.push_str("  ")?;
    text.push_str(address)?;
    text.push_str(" ")?;
    text.push_str(reason_text(alloc, reason)?.as_str())?;
    text.push_str("\n")
}

/// A line for each address that has a reason, in their order.
fn put_reasons(
    alloc: Global,
    text: &mut Text,
    addresses: &[Text],
    reasons: &[Reason],
) -> Result<(), NoMemory>
    ensures { OnOk result (text.new ≡ text.old ++ reason_lines addresses.now reasons.now) }
{
    let mut left = reasons;
    for address in addresses {
        let Some((reason, rest)) = left.split_first() else {
            return Ok(());
        };
        put_reason(alloc, text, address.as_str(), *reason)?;
        left = rest;
    }
    Ok(())
}

fn put_path(text: &mut Text, path: &[Coord]) -> Result<(), NoMemory>
    ensures { OnOk result (text.new ≡ text.old ++ path_text path.now) }
{
    for coord in path {
        text.push_str(" ")?;
        put_coord(text, coord)?;
    }
    Ok(())
}

fn put_last(text: &mut Text, path: &[Coord]) -> Result<(), NoMemory>
    ensures { OnOk result (text.new ≡ text.old ++ last_text path.now) }
{
    match path.last() {
        None => text.push_str("-"),
        Some(coord) => put_coord(text, coord),
    }
}

fn put_cycle(text: &mut Text, name: &str, path: &List<Coord>) -> Result<(), NoMemory>
    ensures { OnOk result (text.new ≡ text.old ++ (name.now ++ (path_text path.now ++ codes "\n"))) }
{
    text.push_str(name)?;
    put_path(text, path.as_slice())?;
    text.push_str("\n")
}

fn put_deep(text: &mut Text, path: &List<Coord>) -> Result<(), NoMemory>
    ensures { OnOk result (text.new ≡ text.old ++ (codes "too-deep " ++ (last_text path.now ++ codes "\n"))) }
{
    text.push_str("too-deep ")?;
    put_last(text, path.as_slice())?;
    text.push_str("\n")
}

/// A line that names a coordinate, and below it why each repository gave nothing.
fn put_absent(
    alloc: Global,
    text: &mut Text,
    addresses: &[Text],
    name: &str,
    coord: &Coord,
    reasons: &List<Reason>,
) -> Result<(), NoMemory>
    ensures { OnOk result (text.new
        ≡ text.old ++ ((name.now ++ (coord_text coord.now ++ codes "\n")) ++ reason_lines addresses.now reasons.now)) }
{
    text.push_str(name)?;
    put_coord(text, coord)?;
    text.push_str("\n")?;
    put_reasons(alloc, text, addresses, reasons.as_slice())
}

fn put_fault(
    alloc: Global,
    text: &mut Text,
    addresses: &[Text],
    fault: &BuildFault,
) -> Result<(), NoMemory>
    ensures { OnOk result (text.new ≡ text.old ++ fault_lines addresses.now fault.now) }
{
    match fault {
        BuildFault::ParentCycle(path) => put_cycle(text, "parent-cycle", path),
        BuildFault::ImportCycle(path) => put_cycle(text, "import-cycle", path),
        BuildFault::TooDeep(path) => put_deep(text, path),
        BuildFault::LineAbsent(coord, reasons) => {
            put_absent(alloc, text, addresses, "line-absent ", coord, reasons)
        }
    }
}

fn put_refused(
    alloc: Global,
    text: &mut Text,
    addresses: &[Text],
    coord: &Coord,
    fault: &BuildFault,
) -> Result<(), NoMemory>
    ensures { OnOk result (text.new
        ≡ text.old ++ (codes "refused " ++ (coord_text coord.now ++ (codes " " ++ fault_lines addresses.now fault.now)))) }
{
    text.push_str("refused ")?;
    put_coord(text, coord)?;
    text.push_str(" ")?;
    put_fault(alloc, text, addresses, fault)
}

fn put_row(
    alloc: Global,
    text: &mut Text,
    addresses: &[Text],
    row: &FaultRow,
) -> Result<(), NoMemory>
    ensures { OnOk result (text.new ≡ text.old ++ failed_lines addresses.now row.now) }
{
    match &row.fault {
        ProjectFault::NotFound(reasons) => {
            put_absent(alloc, text, addresses, "not-found ", &row.coord, reasons)
        }
        ProjectFault::Refused(fault) => put_refused(alloc, text, addresses, &row.coord, fault),
    }
}

/// The lines of projects that are wanted and not there: `not-found COORD` or `refused COORD WHY`
/// for each, and below it `  ADDRESS REASON` for each repository, where there is something to say of
/// each.
pub fn failed_lines(
    alloc: Global,
    addresses: &List<Text>,
    rows: &List<FaultRow>,
) -> Result<Text, NoMemory>
    ensures { IfOk result (λ text. text ≡ flat_map (failed_lines addresses.now) rows.now) }
{
    let mut text = Text::new(alloc);
    for row in rows.as_slice() {
        put_row(alloc, &mut text, addresses.as_slice(), row)?;
    }
    Ok(text)
}
