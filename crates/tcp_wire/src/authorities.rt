//! The hosts and ports of authorities.

/// The port of an authority that has none.
const HTTP_PORT: u16 = 80;

/// A port: decimal digits; none for the usual one.
fn port_of(digits: &str) -> Option<u16> {
    if digits.is_empty() {
        return Some(HTTP_PORT);
    }
    match digits.parse::<u16>() {
        Ok(port) => Some(port),
        Err(_) => None,
    }
}

/// What stands behind a host: nothing, or a colon and a port.
fn port_behind(rest: &str) -> Option<u16> {
    match rest.strip_prefix(':') {
        Some(digits) => port_of(digits),
        None => {
            if rest.is_empty() {
                Some(HTTP_PORT)
            } else {
                None
            }
        }
    }
}

/// The host of an authority and its port. An IPv6 address stands in brackets there.
pub(crate) fn host_and_port(authority: &str) -> Option<(&str, u16)> {
    if let Some(inner) = authority.strip_prefix('[') {
        let (host, rest) = inner.split_once(']')?;
        return Some((host, port_behind(rest)?));
    }
    match authority.split_once(':') {
        None => Some((authority, HTTP_PORT)),
        Some((host, digits)) => Some((host, port_of(digits)?)),
    }
}
