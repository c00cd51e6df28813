//! The lines of refusals.
use command_lines::Refusal;
use disk_base::DiskCall;
use line_streams::Said;
use res_base::Text;
use std::alloc::Global;
use std::test::Fail;
use word_values::WordKind;

// What is said of a refusal: the status and the line.
fn told(alloc: Global, refusal: &Refusal) -> Result<(u8, Text), Fail> {
    match refusal.said(alloc)? {
        Said::Tells(status, line) => Ok((status, line)),
        Said::Prints(rendered) => Ok((rendered.status, Text::new(alloc))),
    }
}

#[test]
fn each_refusal_has_its_line(rt: HostRuntime) -> Result<(), Fail> {
    let alloc = rt.alloc();
    let words = told(alloc, &Refusal::Words(WordKind::Roots, 1))?;
    assert_eq!(rt; words.0, 2);
    assert_eq!(rt; words.1.as_str(), "coursier: words: roots 1\n");
    let url = Text::of(alloc, "http://r1/x/a/1/a-1.pom")?;
    let repository = told(alloc, &Refusal::Repository(url))?;
    assert_eq!(rt; repository.0, 3);
    assert_eq!(rt;
        repository.1.as_str(),
        "coursier: repository: http://r1/x/a/1/a-1.pom\n"
    );
    let disk = told(alloc, &Refusal::Disk(DiskCall::List))?;
    assert_eq!(rt; disk.0, 4);
    assert_eq!(rt; disk.1.as_str(), "coursier: disk: list\n");
    let url = Text::of(alloc, "http://r1/x/a/1/a-1.jar")?;
    let not_cached = told(alloc, &Refusal::NotCached(url))?;
    assert_eq!(rt; not_cached.0, 7);
    assert_eq!(rt;
        not_cached.1.as_str(),
        "coursier: not cached: http://r1/x/a/1/a-1.jar\n"
    );
    let many = told(alloc, &Refusal::TooManyFiles)?;
    assert_eq!(rt; many.0, 8);
    assert_eq!(rt; many.1.as_str(), "coursier: too many files\n");
    Ok(())
}
