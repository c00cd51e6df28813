//! The lines of verdicts.
ghost use Rattle.std.specs.Prelude.{ℕ};
ghost use Rattle.resolution.specs.Settlements.{HasRepositories, IfSettled, IsSettlement};

use cache_policy::Mode;
use command_lines::render;
use line_streams::Rendered;
use reconcile_rules::{Asker, Clash, Request, Rule};
use res_base::{Coord, List, Module, ReadFault, Reason, Text};
use resolution::{Ask, ClashRow, FaultRow, ProjectFault, Settled, Verdict};
use scope_rules::Configuration;
use std::alloc::Global;
use std::test::Fail;
use word_values::{Command, Job, Output, Pool};

fn module(alloc: Global, name: &str) -> Result<Module, Fail> {
    Ok(Module {
        org: Text::of(alloc, "x")?,
        name: Text::of(alloc, name)?,
    })
}

fn coord(alloc: Global, name: &str) -> Result<Coord, Fail> {
    Ok(Coord {
        module: module(alloc, name)?,
        version: Text::of(alloc, "1")?,
    })
}

fn ask(alloc: Global, command: Command) -> Ask {
    Ask {
        roots: List::new(alloc),
        forced: List::new(alloc),
        boms: List::new(alloc),
        excludes: List::new(alloc),
        configuration: Configuration::Default,
        rule: Rule::Default,
        rounds: 200,
        repos: 2,
        files: command == Command::Fetch,
    }
}

fn addresses(alloc: Global) -> Result<List<Text>, Fail> {
    let mut addresses: List<Text> = List::new(alloc);
    addresses.push(Text::of(alloc, "http://r1")?)?;
    addresses.push(Text::of(alloc, "http://r2")?)?;
    Ok(addresses)
}

fn job(alloc: Global, command: Command, output: Output) -> Result<Job, Fail> {
    Ok(Job {
        command,
        ask: ask(alloc, command),
        addresses: addresses(alloc)?,
        parallel: 6,
        retries: 1,
        checks: List::new(alloc),
        mode: Mode::Missing,
        ttl: 86400,
        pool: Pool::Board,
        eager: false,
        limit: 4_294_967_296,
        output,
        prefix: Text::new(alloc),
        sample: None,
    })
}

// What a command prints of a verdict without files, with three known answers.
fn printed(
    alloc: Global,
    command: Command,
    output: Output,
    verdict: &Verdict,
) -> Result<Rendered, Fail>
    requires settlement { IfSettled verdict.now IsSettlement }
    requires repositories { (count : ℕ) → IfSettled verdict.now (HasRepositories count) }
{
    let job = job(alloc, command, output)?;
    Ok(render(alloc, &job, verdict, &List::new(alloc), 3)?)
}

fn request(alloc: Global, text: &str, name: &str) -> Result<Request, Fail> {
    Ok(Request {
        text: Text::of(alloc, text)?,
        from: Asker::Project(coord(alloc, name)?),
    })
}

fn clash_rows(alloc: Global) -> Result<List<ClashRow>, Fail> {
    let mut requests: List<Request> = List::new(alloc);
    requests.push(request(alloc, "[1.0,2.0)", "a")?)?;
    requests.push(request(alloc, "", "b")?)?;
    let mut rows: List<ClashRow> = List::new(alloc);
    rows.push(ClashRow {
        module: module(alloc, "m")?,
        clash: Clash::Above(1),
        requests,
    })?;
    Ok(rows)
}

fn fault_rows(alloc: Global) -> Result<List<FaultRow>, Fail> {
    let mut reasons: List<Reason> = List::new(alloc);
    reasons.push(Reason::Absent)?;
    reasons.push(Reason::NotReadable(ReadFault::BadText(9)))?;
    let mut rows: List<FaultRow> = List::new(alloc);
    rows.push(FaultRow {
        coord: coord(alloc, "a")?,
        fault: ProjectFault::NotFound(reasons),
    })?;
    Ok(rows)
}

#[test]
fn verdicts_that_are_not_settled_have_their_lines(rt: HostRuntime) -> Result<(), Fail> {
    let alloc = rt.alloc();
    let verdict = Verdict::Clashes(clash_rows(alloc)?);
    let clashes = printed(alloc, Command::Resolve, Output::Plain, &verdict)?;
    let lines = b"clash x:m above 1\n  x:a:1 asks [1.0,2.0)\n  x:b:1 asks -\n".as_slice();
    assert_eq!(rt; clashes.status, 1);
    assert_eq!(rt; clashes.bytes.as_slice(), lines);
    let verdict = Verdict::Failed(fault_rows(alloc)?);
    let failed = printed(alloc, Command::Fetch, Output::Json, &verdict)?;
    let lines =
        b"not-found x:a:1\n  http://r1 absent\n  http://r2 not-readable bad-text 9\n".as_slice();
    assert_eq!(rt; failed.status, 1);
    assert_eq!(rt; failed.bytes.as_slice(), lines);
    let verdict = Verdict::Unsettled(4);
    let unsettled = printed(alloc, Command::Sample, Output::Plain, &verdict)?;
    assert_eq!(rt; unsettled.status, 1);
    assert_eq!(rt; unsettled.bytes.as_slice(), b"unsettled 4\n".as_slice());
    Ok(())
}

#[test]
fn what_is_settled_is_printed_as_the_job_asks(rt: HostRuntime) -> Result<(), Fail> {
    let alloc = rt.alloc();
    let verdict = Verdict::Settled(Settled {
        round: 2,
        nodes: List::new(alloc),
        edges: List::new(alloc),
    });
    let sample = printed(alloc, Command::Sample, Output::Plain, &verdict)?;
    let line = b"modules 0 rounds 2 reads 3\n".as_slice();
    assert_eq!(rt; sample.status, 0);
    assert_eq!(rt; sample.bytes.as_slice(), line);
    let report = printed(alloc, Command::Fetch, Output::Json, &verdict)?;
    let line = b"{\"configuration\":\"default\",\"files\":[],\"modules\":[]}\n".as_slice();
    assert_eq!(rt; report.status, 0);
    assert_eq!(rt; report.bytes.as_slice(), line);
    let class_path = printed(alloc, Command::Fetch, Output::Classpath, &verdict)?;
    assert_eq!(rt; class_path.bytes.as_slice(), b"\n".as_slice());
    let tree = printed(alloc, Command::Resolve, Output::Tree, &verdict)?;
    assert_eq!(rt; tree.bytes.as_slice(), b"".as_slice());
    Ok(())
}
