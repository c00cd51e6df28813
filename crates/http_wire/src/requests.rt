//! Requests.
ghost use Rattle.std.specs.Prelude.{◌≡◌, IfOk};
ghost use Rattle.http_wire.specs.Requests.{request_of};

use res_base::{List, NoMemory};
use std::alloc::Global;

/// The bytes of a request that asks an authority for a target, on a connection of its own.
pub fn request_bytes(alloc: Global, authority: &str, target: &str) -> Result<List<u8>, NoMemory>
    ensures { IfOk result (λ bytes. bytes ≡ request_of authority.now target.now) }
{
    let mut bytes = Vec::new(alloc);
    bytes.extend_from_slice(b"GET ")?;
    bytes.extend_from_slice(target.as_bytes())?;
    bytes.extend_from_slice(b" HTTP/1.1\r\nHost: ")?;
    bytes.extend_from_slice(authority.as_bytes())?;
    bytes.extend_from_slice(
        b"\r\nAccept: */*\r\nAccept-Encoding: identity\r\nConnection: close\r\n\r\n",
    )?;
    Ok(List::from_vec(bytes))
}
