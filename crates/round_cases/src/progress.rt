//! What rounds give, in words.
//!
//! - `waiting N`, with the number of rounds done, then ` choice=ORG:NAME=CHOICE` for each choice and
//!   ` need=R:PATH` for each need, where CHOICE is `version:H` or the clash, as `apart:0:1`;
//! - `settled N`, with the round, and the words of what is settled;
//! - `clashes`, then ` clash=ORG:NAME=KIND=REQUESTS` for each, with the requests as `WHO>H` with
//!   commas between them, where WHO is `root:K` or a coordinate;
//! - `failed`, then ` fault=COORD=..` for each, with `not-found=REASONS`, `line-absent=COORD=REASONS`
//!   or the kind and the coordinates of a path, and reasons with commas between them and colons for
//!   their spaces;
//! - `unsettled N`.
//!
//! What is settled is ` node=COORD=R=H=MOVED` for each node, with its packaging and `moved` or
//! `kept`, and then ` edge=SOURCE=TARGET=H=H=H` for each edge, with `root` or the places of nodes,
//! the text that is asked for, the type and the classifier.
use case_words::hex_word::hex_word;
use case_words::names::coord_word;
use case_words::words::joined;
use pom_build::BuildFault;
use project_cases::effectives::key_word;
use project_cases::reasons::reason_line;
use reconcile_rules::{Asker, Clash, Request};
use res_base::{Coord, FileKey, Module, Reason};
use round_core::{
    Choice, ChoiceRow, ClashRow, Edge, FaultRow, Node, Progress, ProjectFault, Settled, Verdict,
};
use std::alloc::{AllocError, Global};

fn module_word(alloc: Global, module: &Module) -> Result<String, AllocError> {
    let org = hex_word(alloc, module.org.as_bytes())?;
    let name = hex_word(alloc, module.name.as_bytes())?;
    format!(in alloc; "{org}:{name}")
}

fn clash_word(alloc: Global, clash: Clash) -> Result<String, AllocError> {
    match clash {
        Clash::Apart(one, other) => format!(in alloc; "apart:{one}:{other}"),
        Clash::Above(number) => format!(in alloc; "above:{number}"),
        Clash::NotAccepted(number) => format!(in alloc; "not-accepted:{number}"),
        Clash::NoVersion => String::from_str(alloc, "no-version"),
        Clash::NoneListed => String::from_str(alloc, "none-listed"),
        Clash::BadConstraint(number) => format!(in alloc; "bad-constraint:{number}"),
    }
}

fn choice_word(alloc: Global, row: &ChoiceRow) -> Result<String, AllocError> {
    let module = module_word(alloc, &row.module)?;
    match &row.choice {
        Choice::Version(version) => {
            let version = hex_word(alloc, version.as_bytes())?;
            format!(in alloc; "choice={module}=version:{version}")
        }
        Choice::Clash(clash) => {
            let clash = clash_word(alloc, *clash)?;
            format!(in alloc; "choice={module}={clash}")
        }
    }
}

fn waiting_line(
    alloc: Global,
    round: u32,
    rows: &[ChoiceRow],
    needs: &[FileKey],
) -> Result<String, AllocError> {
    let mut words = Vec::new(alloc);
    words.push(format!(in alloc; "waiting {round}")?)?;
    for row in rows {
        words.push(choice_word(alloc, row)?)?;
    }
    for key in needs {
        let key = key_word(alloc, key)?;
        words.push(format!(in alloc; "need={key}")?)?;
    }
    joined(alloc, words.as_slice(), " ")
}

fn node_word(alloc: Global, node: &Node) -> Result<String, AllocError> {
    let coord = coord_word(alloc, &node.coord)?;
    let repo = node.repo;
    let packaging = hex_word(alloc, node.packaging.as_bytes())?;
    let moved = if node.moved { "moved" } else { "kept" };
    format!(in alloc; "node={coord}={repo}={packaging}={moved}")
}

fn source_word(alloc: Global, source: Option<u64>) -> Result<String, AllocError> {
    match source {
        None => String::from_str(alloc, "root"),
        Some(place) => format!(in alloc; "{place}"),
    }
}

fn edge_word(alloc: Global, edge: &Edge) -> Result<String, AllocError> {
    let source = source_word(alloc, edge.source)?;
    let target = edge.target;
    let asked = hex_word(alloc, edge.asked.as_bytes())?;
    let kind = hex_word(alloc, edge.kind.as_bytes())?;
    let classifier = hex_word(alloc, edge.classifier.as_bytes())?;
    format!(in alloc; "edge={source}={target}={asked}={kind}={classifier}")
}

fn settled_line(alloc: Global, settled: &Settled) -> Result<String, AllocError> {
    let round = settled.round;
    let mut words = Vec::new(alloc);
    words.push(format!(in alloc; "settled {round}")?)?;
    for node in settled.nodes.as_slice() {
        words.push(node_word(alloc, node)?)?;
    }
    for edge in settled.edges.as_slice() {
        words.push(edge_word(alloc, edge)?)?;
    }
    joined(alloc, words.as_slice(), " ")
}

fn request_word(alloc: Global, request: &Request) -> Result<String, AllocError> {
    let text = hex_word(alloc, request.text.as_bytes())?;
    match &request.from {
        Asker::Root(place) => format!(in alloc; "root:{place}>{text}"),
        Asker::Project(coord) => {
            let coord = coord_word(alloc, coord)?;
            format!(in alloc; "{coord}>{text}")
        }
    }
}

fn clash_row_word(alloc: Global, row: &ClashRow) -> Result<String, AllocError> {
    let module = module_word(alloc, &row.module)?;
    let clash = clash_word(alloc, row.clash)?;
    let mut requests = Vec::new(alloc);
    for request in row.requests.as_slice() {
        requests.push(request_word(alloc, request)?)?;
    }
    let requests = joined(alloc, requests.as_slice(), ",")?;
    format!(in alloc; "clash={module}={clash}={requests}")
}

fn clashes_line(alloc: Global, rows: &[ClashRow]) -> Result<String, AllocError> {
    let mut words = Vec::new(alloc);
    words.push(String::from_str(alloc, "clashes")?)?;
    for row in rows {
        words.push(clash_row_word(alloc, row)?)?;
    }
    joined(alloc, words.as_slice(), " ")
}

fn reason_word(alloc: Global, reason: Reason) -> Result<String, AllocError> {
    let line = reason_line(alloc, reason)?;
    line.replace(alloc, " ", ":")
}

fn reasons_word(alloc: Global, reasons: &[Reason]) -> Result<String, AllocError> {
    let mut words = Vec::new(alloc);
    for reason in reasons {
        words.push(reason_word(alloc, *reason)?)?;
    }
    joined(alloc, words.as_slice(), ",")
}

fn path_word(alloc: Global, kind: &str, path: &[Coord]) -> Result<String, AllocError> {
    let mut words = Vec::new(alloc);
    for coord in path {
        words.push(coord_word(alloc, coord)?)?;
    }
    let path = joined(alloc, words.as_slice(), ",")?;
    format!(in alloc; "{kind}={path}")
}

fn build_fault_word(alloc: Global, fault: &BuildFault) -> Result<String, AllocError> {
    match fault {
        BuildFault::ParentCycle(path) => path_word(alloc, "parent-cycle", path.as_slice()),
        BuildFault::ImportCycle(path) => path_word(alloc, "import-cycle", path.as_slice()),
        BuildFault::TooDeep(path) => path_word(alloc, "too-deep", path.as_slice()),
        BuildFault::LineAbsent(coord, reasons) => {
            let coord = coord_word(alloc, coord)?;
            let reasons = reasons_word(alloc, reasons.as_slice())?;
            format!(in alloc; "line-absent={coord}={reasons}")
        }
    }
}

fn fault_word(alloc: Global, row: &FaultRow) -> Result<String, AllocError> {
    let coord = coord_word(alloc, &row.coord)?;
    match &row.fault {
        ProjectFault::NotFound(reasons) => {
            let reasons = reasons_word(alloc, reasons.as_slice())?;
            format!(in alloc; "fault={coord}=not-found={reasons}")
        }
        ProjectFault::Refused(fault) => {
            let fault = build_fault_word(alloc, fault)?;
            format!(in alloc; "fault={coord}={fault}")
        }
    }
}

fn failed_line(alloc: Global, rows: &[FaultRow]) -> Result<String, AllocError> {
    let mut words = Vec::new(alloc);
    words.push(String::from_str(alloc, "failed")?)?;
    for row in rows {
        words.push(fault_word(alloc, row)?)?;
    }
    joined(alloc, words.as_slice(), " ")
}

pub fn progress_line(alloc: Global, progress: &Progress) -> Result<String, AllocError> {
    match progress {
        Progress::Waiting {
            round,
            choices,
            needs,
        } => waiting_line(alloc, *round, choices.rows.as_slice(), needs.as_slice()),
        Progress::Over(Verdict::Settled(settled)) => settled_line(alloc, settled),
        Progress::Over(Verdict::Clashes(rows)) => clashes_line(alloc, rows.as_slice()),
        Progress::Over(Verdict::Failed(rows)) => failed_line(alloc, rows.as_slice()),
        Progress::Over(Verdict::Unsettled(rounds)) => format!(in alloc; "unsettled {rounds}"),
    }
}
