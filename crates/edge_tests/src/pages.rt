//! What no clause says: that calls succeed where memory is there.
use http_link::{HttpLink, MemWire, Page};
use http_visits::is_file_path;
use http_wire::request_bytes;
use link_base::{Got, Link, LinkErr, get_in_pieces};
use res_base::{List, Text};
use std::alloc::Global;
use std::test::Fail;

fn add_page(alloc: Global, pages: &mut List<Page>, target: &str, reply: &[u8]) -> Result<(), Fail> {
    pages.push(Page {
        authority: Text::of(alloc, "r1")?,
        request: request_bytes(alloc, "r1", target)?,
        reply: List::from_slice(alloc, reply)?,
    })?;
    Ok(())
}

/// A link over three files and a chain of six redirects, in pieces of this size.
fn make_link(alloc: Global, cut: u64) -> Result<HttpLink<MemWire>, Fail> {
    let mut pages = List::new(alloc);
    add_page(
        alloc,
        &mut pages,
        "/f",
        b"HTTP/1.1 200 OK\r\nContent-Length: 3\r\n\r\nabc",
    )?;
    add_page(
        alloc,
        &mut pages,
        "/a",
        b"HTTP/1.1 302 Found\r\nLocation: /f\r\n\r\n",
    )?;
    add_page(alloc, &mut pages, "/gone", b"HTTP/1.1 410 Gone\r\n\r\n")?;
    add_page(alloc, &mut pages, "/bad", b"HTTP/1.1 500 Error\r\n\r\n")?;
    add_page(
        alloc,
        &mut pages,
        "/cut",
        b"HTTP/1.1 200 OK\r\nContent-Length: 4\r\n\r\nabc",
    )?;
    add_page(
        alloc,
        &mut pages,
        "/r1",
        b"HTTP/1.1 302 Found\r\nLocation: /r2\r\n\r\n",
    )?;
    add_page(
        alloc,
        &mut pages,
        "/r2",
        b"HTTP/1.1 302 Found\r\nLocation: /r3\r\n\r\n",
    )?;
    add_page(
        alloc,
        &mut pages,
        "/r3",
        b"HTTP/1.1 302 Found\r\nLocation: /r4\r\n\r\n",
    )?;
    add_page(
        alloc,
        &mut pages,
        "/r4",
        b"HTTP/1.1 302 Found\r\nLocation: /r5\r\n\r\n",
    )?;
    add_page(
        alloc,
        &mut pages,
        "/r5",
        b"HTTP/1.1 302 Found\r\nLocation: /a\r\n\r\n",
    )?;
    let cuts = List::from_slice(alloc, &[cut])?;
    Ok(HttpLink::new(alloc, MemWire::new(alloc, pages, cuts, List::new(alloc))))
}

/// The number of bytes of a file; 100 of none, 101 where there are too many, 102 of a fault.
fn size_of(got: Result<Got, LinkErr>) -> u64 {
    match got {
        Ok(Got::Bytes(bytes)) => bytes.len() as u64,
        Ok(Got::Absent) => 100,
        Ok(Got::TooLarge) => 101,
        Err(_) => 102,
    }
}

#[test]
fn a_link_gives_what_pages_say(rt: HostRuntime) -> Result<(), Fail> {
    let alloc = rt.alloc();
    let rows = [
        ("http://r1", "f", 9, 3),
        ("http://r1", "f", 3, 3),
        ("http://r1", "f", 2, 101),
        ("http://r1", "a", 9, 3),
        ("http://r1", "gone", 9, 100),
        ("http://r1", "bad", 9, 102),
        ("http://r1", "cut", 9, 102),
        ("http://r1", "none", 9, 102),
        ("http://r1", "r2", 9, 3),
        ("http://r1", "r1", 9, 102),
        ("file:r1", "f", 9, 102),
    ];
    for (address, path, limit, wanted) in rows {
        for cut in [1u64, 7, 1000] {
            let mut link = make_link(alloc, cut)?;
            assert!(rt; is_file_path(path.as_bytes()));
            let whole = size_of(link.get(alloc, address, path, limit));
            assert_eq!(rt; whole, wanted);
            let pieces = size_of(get_in_pieces(alloc, &mut link, address, path, limit));
            assert_eq!(rt; pieces, wanted);
        }
    }
    Ok(())
}
