//! Names and lines, row by row.
use cache_layout::{
    BadLine, NameErr, RecordErr, cache_name, gone_line, is_address, read_gone, read_record,
    record_line,
};
use res_base::{Check, List};
use std::alloc::AllocError;

#[test]
fn names(rt: HostRuntime) -> Result<(), AllocError> {
    let rows = [
        ("http://r1:8080/m2", "http/r1%3A8080/m2/x/a/1/a-1.pom"),
        ("file:/srv", "file/srv/x/a/1/a-1.pom"),
        ("file:srv/~me", "here/srv/%7Eme/x/a/1/a-1.pom"),
    ];
    for (address, wanted) in rows {
        assert!(rt; is_address(address));
        match cache_name(rt.alloc(), address, "x/a/1/a-1.pom") {
            Ok(name) => assert_eq!(rt; name.as_str(), wanted),
            Err(_) => assert!(rt; false, "no name"),
        }
    }
    let refused = [
        ("", 0usize),
        ("ftp://r1", 1),
        ("http:/r1", 6),
        ("http://", 7),
        ("http://..", 9),
        ("http://..:1", 9),
        ("http://r1:0", 10),
        ("http://r1:65536", 14),
        ("http://r1:80/", 13),
        ("http://r1/a//b", 12),
        ("http://r1:8a/m", 11),
        ("file:", 5),
        ("file:/", 6),
        ("file://", 6),
        ("file:/a/..", 10),
        ("file:/a b", 7),
    ];
    for (address, place) in refused {
        assert!(rt; !is_address(address));
        let refusal = match cache_name(rt.alloc(), address, "p") {
            Ok(_) => None,
            Err(refusal) => Some(refusal),
        };
        assert_eq!(rt; refusal, Some(NameErr::BadAddress(place)));
    }
    Ok(())
}

const FIRST: &str = "coursier-cache 1 sha1|none a9993e364706816aba3e25717850c26c9cd0d89d 3 1000\n";

const SECOND: &str =
    "coursier-cache 2  da39a3ee5e6b4b0d3255bfef95601890afd80709 e3b0c44298fc1c149afbf4c8996fb92427ae41e4649b934ca495991b7852b855 0 18446744073709551615\n";

#[test]
fn lines(rt: HostRuntime) -> Result<(), AllocError> {
    for line in [FIRST, SECOND] {
        match read_record(rt.alloc(), line.as_bytes()) {
            Ok(entry) => match record_line(rt.alloc(), &entry) {
                Ok(written) => assert_eq!(rt; written.as_str(), line),
                Err(_) => assert!(rt; false, "no room"),
            },
            Err(_) => assert!(rt; false, "no record"),
        }
    }
    let refused = [
        ("coursier-cache 3", 15usize),
        ("coursier-cache 1  x", 18),
        ("coursier-cache 1 sha1|  ", 22),
        ("coursier-cache 1 sha2 ", 21),
        (
            "coursier-cache 1 sha1 a9993e364706816aba3e25717850c26c9cd0d89D 3 1000\n",
            61,
        ),
        (
            "coursier-cache 1 sha1 a9993e364706816aba3e25717850c26c9cd0d89d 03 1000\n",
            64,
        ),
        (
            "coursier-cache 1 sha1 a9993e364706816aba3e25717850c26c9cd0d89d 3 18446744073709551616\n",
            84,
        ),
        (
            "coursier-cache 1 sha1 a9993e364706816aba3e25717850c26c9cd0d89d 3 1\n\n",
            67,
        ),
    ];
    for (line, place) in refused {
        let refusal = match read_record(rt.alloc(), line.as_bytes()) {
            Ok(_) => None,
            Err(refusal) => Some(refusal),
        };
        assert_eq!(rt; refusal, Some(RecordErr::BadLine(place)));
    }
    match gone_line(rt.alloc(), 1000) {
        Ok(line) => {
            assert_eq!(rt; line.as_str(), "coursier-gone 1 1000\n");
            assert_eq!(rt; read_gone(line.as_bytes()), Ok(1000));
        }
        Err(_) => assert!(rt; false, "no room"),
    }
    assert_eq!(rt; read_gone(b"coursier-gone 1 01\n"), Err(BadLine(17)));
    Ok(())
}
