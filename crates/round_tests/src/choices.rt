use reconcile_rules::{Asker, Chosen, Clash, Request, Rule, choose};
use res_base::{List, NoMemory, Text};
use std::alloc::Global;
use std::test::Fail;

fn asks(alloc: Global, texts: &[&str]) -> Result<List<Request>, NoMemory> {
    let mut requests = List::new(alloc);
    for place in 0..texts.len() {
        requests.push(Request {
            text: Text::of(alloc, texts[place])?,
            from: Asker::Root(place as u64),
        })?;
    }
    Ok(requests)
}

fn choice(alloc: Global, rule: Rule, asked: &[&str], listed: &[&str]) -> Result<Chosen, NoMemory> {
    let mut versions = List::new(alloc);
    for version in listed {
        versions.push(Text::of(alloc, version)?)?;
    }
    choose(alloc, rule, None, &asks(alloc, asked)?, Some(&versions))
}

/// Whether this version is chosen.
fn is_chosen(
    alloc: Global,
    rule: Rule,
    asked: &[&str],
    listed: &[&str],
    wanted: &str,
) -> Result<bool, NoMemory> {
    match choice(alloc, rule, asked, listed)? {
        Chosen::Version(text) => Ok(text.as_str() == wanted),
        _ => Ok(false),
    }
}

#[test]
fn chosen_versions(rt: HostRuntime) -> Result<(), Fail> {
    use Rule::{Default, Relaxed, Semver, Strict};
    let alloc = rt.alloc();
    let two = &["[3,4)", "[1,2)"];
    assert!(rt; is_chosen(alloc, Default, &["1.9", "", " 1.10 "], &[], "1.10")?);
    assert!(rt; is_chosen(alloc, Default, &["1.0.0", "1.0"], &[], "1.0.0")?);
    assert!(rt; is_chosen(alloc, Default, &["[1,2)", "0.9"], &["1", "1.5"], "1.5")?);
    assert!(rt; is_chosen(alloc, Relaxed, two, &["3.0", "3.5"], "3.5")?);
    assert!(rt; is_chosen(alloc, Relaxed, &["[1,2)", "1.5", "2.5"], &[], "2.5")?);
    assert!(rt; is_chosen(alloc, Strict, &["1.0", "1-ga", "[1,2]"], &[], "1.0")?);
    assert!(rt; is_chosen(alloc, Semver, &["1.0", "1.1"], &[], "1.1")?);
    let many = &["1.0", "[1,3)", "1.2", "", "[1.1,2)", "1.10", " 1.3 ", "0.9"];
    assert!(rt; is_chosen(alloc, Default, many, &[], "1.10")?);
    Ok(())
}

#[test]
fn clashes(rt: HostRuntime) -> Result<(), Fail> {
    let rows: [(Rule, &[&str], Clash); 12] = [
        (Rule::Default, &["[2,1]"], Clash::Apart(0, 0)),
        (Rule::Default, &["1", "[1,2)", "[3,4)"], Clash::Apart(1, 2)),
        (
            Rule::Default,
            &["1", "[1,2)", "[1.5,3)", "1.6", "[1.7,1.8]", "", "[1.9,2)"],
            Clash::Apart(4, 6),
        ),
        (
            Rule::Default,
            &["[1,5]", "2", "[4,9]", "", "[3,3)", "1", "[2,3]"],
            Clash::Apart(0, 4),
        ),
        (Rule::Relaxed, &["[1,2)", "[2,1]"], Clash::Apart(1, 1)),
        (Rule::Default, &["[1.0,2.0)", "2.0"], Clash::Above(1)),
        (Rule::Strict, &["1.0", "1.1"], Clash::NotAccepted(0)),
        (Rule::Semver, &["0.1", "0.2"], Clash::NotAccepted(0)),
        (Rule::Semver, &["0.9", "[1,2]", "1"], Clash::NotAccepted(0)),
        (Rule::Default, &["", ""], Clash::NoVersion),
        (Rule::Default, &["[1,2)"], Clash::NoneListed),
        (
            Rule::Default,
            &["1", "[1,2),[3,4)"],
            Clash::BadConstraint(1),
        ),
    ];
    for (rule, asked, wanted) in &rows {
        match choice(rt.alloc(), *rule, asked, &[])? {
            Chosen::Clash(clash) => assert_eq!(rt; clash, *wanted),
            _ => return Err(Fail::from("no clash")),
        }
    }
    Ok(())
}
