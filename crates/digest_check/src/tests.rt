//! Digests of standard messages.
use super::*;
use std::alloc::AllocError;

// FIPS 180-4 and RFC 1321 give these for a message of one block and for the empty one.
#[test]
fn sums_of_standard_messages(rt: HostRuntime) -> Result<(), AllocError> {
    for (pieces, sha1, md5, sha256) in [
        (
            ["a", "", "bc"],
            "a9993e364706816aba3e25717850c26c9cd0d89d",
            "900150983cd24fb0d6963f7d28e17f72",
            "ba7816bf8f01cfea414140de5dae2223b00361a396177a9cb410ff61f20015ad",
        ),
        (
            ["", "", ""],
            "da39a3ee5e6b4b0d3255bfef95601890afd80709",
            "d41d8cd98f00b204e9800998ecf8427e",
            "e3b0c44298fc1c149afbf4c8996fb92427ae41e4649b934ca495991b7852b855",
        ),
    ] {
        let mut sums = Sums::new();
        for piece in pieces {
            sums.update(piece.as_bytes());
        }
        let so_far = sums.so_far().expect(&rt, "room");
        let digests = sums.finish();
        assert!(rt; so_far == digests);
        assert_eq!(rt; hex::encode(rt.alloc(), digests.sha1)?.as_str(), sha1);
        assert_eq!(rt; hex::encode(rt.alloc(), digests.md5)?.as_str(), md5);
        assert_eq!(rt; hex::encode(rt.alloc(), digests.sha256)?.as_str(), sha256);
    }
    Ok(())
}
