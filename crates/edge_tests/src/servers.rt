//! What no clause says: that a link fetches what a server of this machine replies.
use link_base::{Got, Link, LinkErr, get_in_pieces};
use real_edge::RealLink;
use std::alloc::Global;
use std::io;
use std::io::{Read, Write};
use std::net::TcpListener;
use std::test::Fail;
use std::thread::join;

/// How many bytes a link has at `f` below an address, at most 9; nothing of no file.
fn size_at(
    alloc: Global,
    link: &mut RealLink<HostRuntime>,
    address: &str,
) -> Result<Option<u64>, LinkErr> {
    match link.get(alloc, address, "f", 9)? {
        Got::Bytes(bytes) => Ok(Some(bytes.len() as u64)),
        Got::Absent => Ok(None),
        Got::TooLarge => Ok(Some(10)),
    }
}

/// A link that may be handed to another thread.
fn may_cross<L: Link + Send>(_link: &L) {}

/// Takes a connection for each reply, and sends it once a request has come.
fn serve(listener: &TcpListener, replies: &[&[u8]]) -> io::Result<()> {
    for reply in replies {
        let (mut peer, _) = listener.accept()?;
        let mut last = [0; 4];
        for _turn in 0..4096 {
            let mut byte = [0];
            if peer.read(&mut byte)? == 0 {
                return Ok(());
            }
            last = [last[1], last[2], last[3], byte[0]];
            if last == *b"\r\n\r\n" {
                break;
            }
        }
        peer.write_all(reply)?;
    }
    Ok(())
}

#[test]
fn a_server_is_a_link(rt: HostRuntime) -> Result<(), Fail> {
    let alloc = rt.alloc();
    let listener = TcpListener::bind(&rt, "127.0.0.1:0")?;
    let port = listener.local_addr()?.port();
    let address = format!(in alloc; "http://127.0.0.1:{port}/m")?;
    let mut link = RealLink::new(alloc, rt);
    may_cross(&link);
    let replies: [&[u8]; 5] = [
        b"HTTP/1.1 302 Found\r\nLocation: /elsewhere\r\n\r\n",
        b"HTTP/1.1 200 OK\r\nContent-Length: 3\r\n\r\nabc",
        b"HTTP/1.1 200 OK\r\nTransfer-Encoding: chunked\r\n\r\n2\r\nab\r\n0\r\n\r\n",
        b"HTTP/1.1 404 Not Found\r\n\r\nnothing",
        b"HTTP/1.1 500 Error\r\n\r\n",
    ];
    let (served, sizes) = join(
        &rt,
        || serve(&listener, &replies),
        || {
            let mut sizes = [Ok(None); 4];
            for size in &mut sizes {
                *size = size_at(alloc, &mut link, address.as_str());
            }
            sizes
        },
    );
    served?;
    assert_eq!(rt; sizes[0], Ok(Some(3)));
    assert_eq!(rt; sizes[1], Ok(Some(2)));
    assert_eq!(rt; sizes[2], Ok(None));
    assert_eq!(rt; sizes[3], Err(LinkErr::Failed));
    let whole = b"HTTP/1.1 200 OK\r\n\r\nabcd".as_slice();
    let (served, got) = join(
        &rt,
        || serve(&listener, &[whole]),
        || get_in_pieces(alloc, &mut link, address.as_str(), "f", 4),
    );
    served?;
    assert!(rt; matches!(&got?, Got::Bytes(bytes) if bytes.as_slice() == b"abcd".as_slice()));
    drop(listener);
    assert_eq!(rt;
        size_at(alloc, &mut link, address.as_str()),
        Err(LinkErr::Failed)
    );
    Ok(())
}
