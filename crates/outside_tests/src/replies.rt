//! What no clause says: that calls succeed, and what `httparse` takes for a head.
use http_wire::{ReplyErr, ReplyReader, request_bytes};
use std::alloc::Global;
use std::test::Fail;

const CHUNKED: &[u8] =
    b"HTTP/1.1 200 OK\r\nTransfer-Encoding: chunked\r\n\r\n3\r\nabc\r\n0\r\n\r\n";

const ENDED_EARLY: &[u8] = b"HTTP/1.1 200 OK\r\nContent-Length: 4\r\n\r\nabc";

const TWO_LENGTHS: &[u8] = b"HTTP/1.1 200 OK\r\nContent-Length: 3\r\nContent-Length: 4\r\n\r\nabc";

const ENCODED: &[u8] = b"HTTP/1.1 200 OK\r\nContent-Encoding: gzip\r\n\r\nabc";

const UNTIL_CLOSE: &[u8] = b"\nHTTP/1.1 200 OK\nA: b\n\nabc";

const FOUR_DIGITS: &[u8] = b"HTTP/1.1 2000 OK\r\n\r\nabc";

const NOT_FOUND: &[u8] = b"HTTP/1.1 404 Not Found\r\nContent-Length: x\r\n\r\nabc";

/// What a reply gives that comes in pieces of this size and then ends.
fn read_cut(
    alloc: Global,
    reply: &[u8],
    size: usize,
    limit: u64,
    content: &mut Vec<u8>,
) -> Result<(), ReplyErr> {
    let mut reader = ReplyReader::new(alloc, limit);
    let mut at: usize = 0;
    for _piece in 0..reply.len() {
        let end = at.saturating_add(size).min(reply.len());
        if at < end {
            reader.feed(alloc, &reply[at..end], content)?;
            at = end;
        }
    }
    reader.finish()
}

#[test]
fn replies_are_read_for_every_cut(rt: HostRuntime) -> Result<(), Fail> {
    let alloc = rt.alloc();
    let rows = [
        (CHUNKED, 9, "abc", Ok(())),
        (CHUNKED, 3, "abc", Ok(())),
        (CHUNKED, 2, "ab", Err(ReplyErr::BodyTooLong)),
        (ENDED_EARLY, 9, "abc", Err(ReplyErr::EndedEarly)),
        (TWO_LENGTHS, 9, "", Err(ReplyErr::BadLength)),
        (ENCODED, 9, "", Err(ReplyErr::Encoded)),
        (UNTIL_CLOSE, 9, "abc", Ok(())),
        (FOUR_DIGITS, 9, "", Err(ReplyErr::BadHead)),
        (NOT_FOUND, 9, "", Ok(())),
    ];
    for (reply, limit, wanted, end) in rows {
        for size in 1..70usize {
            let mut content = Vec::new(alloc);
            let ended = read_cut(alloc, reply, size, limit, &mut content);
            assert!(rt; ended == end);
            assert!(rt; content.as_slice() == wanted.as_bytes());
        }
    }
    Ok(())
}

#[test]
fn a_head_is_handed_out(rt: HostRuntime) -> Result<(), Fail> {
    let alloc = rt.alloc();
    let request = request_bytes(alloc, "r1:8080", "/a")?;
    let wanted =
        b"GET /a HTTP/1.1\r\nHost: r1:8080\r\nAccept: */*\r\nAccept-Encoding: identity\r\nConnection: close\r\n\r\n";
    assert!(rt; request.as_slice() == wanted.as_slice());
    let mut reader = ReplyReader::new(alloc, 9);
    let mut content = Vec::new(alloc);
    assert!(rt; reader.head().is_none());
    let moved = b"HTTP/1.1 302 Found\r\nlocation: /b\r\n\r\nabc";
    let fed = reader.feed(alloc, moved, &mut content);
    assert!(rt; matches!(fed, Ok(http_wire::Fed::Done)));
    match reader.head() {
        None => assert!(rt; false),
        Some(head) => {
            assert_eq!(rt; head.status, 302);
            assert!(rt; matches!(&head.location, Some(text) if text.as_str() == "/b"));
        }
    }
    assert!(rt; content.is_empty());
    Ok(())
}
