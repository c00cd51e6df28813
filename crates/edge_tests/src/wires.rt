//! What no clause says: that bytes go out and come in.
use http_link::{Failed, Wire};
use std::io::{Read, Write};
use std::net::TcpListener;
use std::test::Fail;
use tcp_wire::TcpWire;

#[test]
fn a_wire_carries_bytes(rt: HostRuntime) -> Result<(), Fail> {
    let alloc = rt.alloc();
    let listener = TcpListener::bind(&rt, "127.0.0.1:0")?;
    let port = listener.local_addr()?.port();
    let authority = format!(in alloc; "127.0.0.1:{port}")?;
    let mut wire = TcpWire::new(rt);
    assert_eq!(rt; wire.send(b"abc"), Err(Failed));
    assert_eq!(rt; wire.connect(authority.as_str()), Ok(()));
    assert_eq!(rt; wire.send(b"abc"), Ok(()));
    let (mut peer, _) = listener.accept()?;
    let mut heard = [0; 3];
    peer.read_exact(&mut heard)?;
    assert!(rt; heard == *b"abc");
    peer.write_all(b"defg")?;
    drop(peer);
    drop(listener);
    let mut room = [0];
    for wanted in b"defg" {
        assert_eq!(rt; wire.receive(&mut room), Ok(1));
        assert_eq!(rt; room[0], *wanted);
    }
    assert_eq!(rt; wire.receive(&mut room), Ok(0));
    assert_eq!(rt; wire.connect(authority.as_str()), Err(Failed));
    assert_eq!(rt; wire.connect("no port:x"), Err(Failed));
    Ok(())
}
