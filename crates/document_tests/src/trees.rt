//! Faults with their places, trees, and a document of several MiB.

use pom_text::{TextErr, Tree, read_tree};
use res_base::NoMemory;
use std::alloc::Global;

/// Each text with its fault.
const FAULTS: [(&[u8], TextErr); 14] = [
    (b"x", TextErr::BadText(0)),
    (b"\xef\xbbx", TextErr::BadText(2)),
    (b"\xef\xbb\xbf <!--c-->\n<!DOCTYPE a>", TextErr::Doctype(13)),
    (b"<a><!DOCTYPE a></a>", TextErr::BadText(5)),
    (
        b"\xef\xbb\xbf<?xml encoding = 'utf-7'?><a/>",
        TextErr::UnknownEncoding(21),
    ),
    (b"<?xml encoding=\"UTF-16\"", TextErr::BadText(22)),
    (
        b"<?xml encoding=\"US-ASCII\"?><a>\xe9</a>",
        TextErr::BadText(30),
    ),
    (b"<a>\xed\xa0\x80</a>", TextErr::BadText(4)),
    (b"<a></a b>", TextErr::BadText(7)),
    (b"<a/><b/>", TextErr::BadText(5)),
    (b"<a b='<'/>", TextErr::BadText(6)),
    (b"<a b='1'c='2'/>", TextErr::BadText(8)),
    (b"<![CDATA[]]>", TextErr::BadText(2)),
    (b"<a><![CDATA[]]</a>", TextErr::BadText(18)),
];

/// Each text with its tree, as `show` writes it.
const TREES: [(&[u8], &str); 7] = [
    (b"<a/>", "a(){}"),
    (
        b"\xef\xbb\xbf<?xml encoding=\"x?><a>\xc3\xa9</a>",
        "a(\u{e9}){}",
    ),
    (
        b"<?xml-style?><a>&#9;b&#0;&#x41;&#x110000;&amp;lt;&#32;</a>",
        "a(b&#0;A&#x110000;&lt;){}",
    ),
    (b"<a> b <c/> d\n<!--e-->]]> </a>", "a(b  d\n]]>){c(){}}"),
    (b"<a>&l<!---->t;<?x?></a>", "a(&lt;){}"),
    (
        b"<x:y:z>&am<![CDATA[p;]]>&quot;&apos;&gt;</x:y:z >",
        "y:z(&amp;\"'>){}",
    ),
    (POM, SHOWN),
];

const POM: &[u8] = b"<?xml version=\"1.0\" encoding=\"ISO-8859-1\"?>
<!-- caf\xe9 -- a comment -->
<m:project xmlns:m=\"http://maven.apache.org/POM/4.0.0\" a='>'>
  <m:groupId> org.\xe9 </m:groupId>
  <artifactId>a&eacute;b&amp;&#x63;</artifactId>
  <description><![CDATA[ <b>&lt;\xe9 ]]></description>
  <empty  b = '' />
</m:project >";

const SHOWN: &str =
    "project(){groupId(org.\u{e9}){}artifactId(a&eacute;b&c){}description(<b>&lt;\u{e9}){}empty(){}}";

fn show(text: &mut String, tree: &Tree) -> Result<(), NoMemory> {
    text.push_str(tree.name.as_str())?;
    text.push_str("(")?;
    text.push_str(tree.text.as_str())?;
    text.push_str("){")?;
    for child in tree.children.as_slice() {
        show(text, child)?;
    }
    text.push_str("}")?;
    Ok(())
}

#[test]
fn faults_have_places(rt: HostRuntime) {
    for (text, wanted) in FAULTS {
        assert_eq!(rt;
            read_tree(rt.alloc(), text).err(),
            Some(wanted),
            "at {text:?}"
        );
    }
    for place in 0..POM.len() {
        let prefix = read_tree(rt.alloc(), &POM[..place]);
        assert_eq!(rt; prefix.err(), Some(TextErr::BadText(place as u64)));
    }
}

#[test]
fn trees_are_read(rt: HostRuntime) -> Result<(), NoMemory> {
    for (text, wanted) in TREES {
        let mut shown = String::new(rt.alloc());
        match read_tree(rt.alloc(), text) {
            Ok(tree) => show(&mut shown, &tree)?,
            Err(fault) => panic!(rt; "{fault:?} at {text:?}"),
        }
        assert_eq!(rt; shown.as_str(), wanted);
    }
    Ok(())
}

const ROW: &str =
    "<dependency><groupId>org.example</groupId><artifactId>a</artifactId></dependency>\n";

/// A document with so many rows.
fn rows(alloc: Global, count: usize) -> Result<String, NoMemory> {
    let mut text = String::new(alloc);
    text.push_str("<dependencies>")?;
    for _ in 0..count {
        text.push_str(ROW)?;
    }
    text.push_str("</dependencies>")?;
    Ok(text)
}

#[test]
fn a_document_of_several_mib(rt: HostRuntime) -> Result<(), NoMemory> {
    let text = rows(rt.alloc(), 60_000)?;
    assert!(rt; 4 * 1024 * 1024 < text.len());
    match read_tree(rt.alloc(), text.as_bytes()) {
        Ok(tree) => assert_eq!(rt; tree.children.len(), 60_000),
        Err(fault) => panic!(rt; "{fault:?}"),
    }
    Ok(())
}
