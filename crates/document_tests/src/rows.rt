//! Rows in lists and tables, with ample memory.
use res_base::{DepRecord, List, Module, NoMemory, Text};
use row_lists::{RowSet, RowTable, joined, last_of_key};
use std::alloc::Global;
use std::test::Fail;

fn row(alloc: Global, name: &str, kind: &str, version: &str) -> Result<DepRecord, NoMemory> {
    Ok(DepRecord {
        module: Module {
            org: Text::of(alloc, "x")?,
            name: Text::of(alloc, name)?,
        },
        version: Text::of(alloc, version)?,
        kind: Text::of(alloc, kind)?,
        classifier: Text::new(alloc),
        scope: Text::new(alloc),
        optional: Text::new(alloc),
        exclusions: List::new(alloc),
    })
}

/// Rows by their names, types and versions.
fn rows(alloc: Global, texts: &[(&str, &str, &str)]) -> Result<List<DepRecord>, NoMemory> {
    let mut made: List<DepRecord> = List::new(alloc);
    for (name, kind, version) in texts {
        made.push(row(alloc, name, kind, version)?)?;
    }
    Ok(made)
}

/// Whether a row has this name and version.
fn is_row(row: Option<&DepRecord>, name: &str, version: &str) -> bool {
    match row {
        Some(row) => row.module.name.as_str() == name && row.version.as_str() == version,
        None => false,
    }
}

#[test]
fn last_rows_and_joined_lists(rt: HostRuntime) -> Result<(), Fail> {
    let alloc = rt.alloc();
    let own = rows(
        alloc,
        &[
            ("m", "", "1"),
            ("n", "", "1"),
            ("m", "jar", "2"),
            ("m", "test-jar", "3"),
        ],
    )?;
    let parent = rows(alloc, &[("n", "", "4"), ("k", "", "4"), ("k", "", "5")])?;
    {
        let joined = joined(alloc, &[&own, &parent])?;
        assert!(rt;
            joined.len() == 4
                && is_row(joined.get(0).copied(), "k", "5")
                && is_row(joined.get(1).copied(), "n", "1")
        );
    }
    {
        let sought = row(alloc, "n", "jar", "")?;
        let set = RowSet::new(alloc)
            .with_rows(own.as_slice())?
            .with_rows(parent.as_slice())?;
        assert!(rt; is_row(set.find(&sought), "n", "1") && set.into_rows().len() == 4);
    }
    let last = last_of_key(alloc, own)?;
    assert!(rt; last.len() == 3 && is_row(last.get(0), "n", "1") && is_row(last.get(1), "m", "2"));
    Ok(())
}

#[test]
fn imported_and_managed_rows(rt: HostRuntime) -> Result<(), Fail> {
    let alloc = rt.alloc();
    let table = RowTable::new(alloc).with_imported(rows(
        alloc,
        &[("m", "", "1"), ("n", "test-jar", "1")],
    )?)?;
    let table = table.with_imported(rows(alloc, &[("m", "jar", "2"), ("k", "", "2")])?)?;
    let managed = table.all_managed(
        alloc,
        rows(alloc, &[("m", "", ""), ("n", "", ""), ("k", "", "3")])?,
    )?;
    assert!(rt;
        is_row(managed.get(0), "m", "1")
            && is_row(managed.get(1), "n", "")
            && is_row(managed.get(2), "k", "3")
    );
    let all = table.into_rows();
    assert!(rt; all.len() == 3 && is_row(all.get(0), "m", "1") && is_row(all.get(2), "k", "2"));
    Ok(())
}
