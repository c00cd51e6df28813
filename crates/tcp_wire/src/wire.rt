//! Connections over TCP.
ghost use Rattle.std.specs.Prelude.{◌≡◌, ◌≤◌, IfOk, None, length};
ghost use Rattle.res_base.specs.Causes.{counted};

use crate::authorities::host_and_port;
use http_link::{Failed, Wire};
use std::io;
use std::io::{ErrorKind, Read, Write};
use std::net::{IpAddr, Ipv4Addr, Net, OpenStream, SocketAddr};
use std::time::{Clock, Duration, Instant};

/// So long may connecting to an authority take, over all its addresses.
const CONNECT_SECONDS: u64 = 10;

/// So long may a read or a write wait.
const STALL_SECONDS: u64 = 60;

/// So many addresses of a name are tried.
const ADDRESSES: usize = 16;

/// A connection of the system, by IPv4 or IPv6. Connecting fails after 10 seconds, over all the
/// addresses of a name, each of which has its share of the time that is left; a read or a write
/// fails where it waits for 60.
#[derive(Drop)]
pub struct TcpWire<R: Net> {
    runtime: R,
    stream: Option<R::Stream>,
    faults: u64,
}

/// The error of a name without an address, and of no connection.
fn nowhere() -> io::Error {
    io::Error::from(ErrorKind::NotConnected)
}

/// Puts the addresses of a host into a room, and says how many.
fn look_up<R: Net>(
    runtime: &R,
    host: &str,
    port: u16,
    found: &mut [SocketAddr],
) -> io::Result<usize>
    ensures few { IfOk result (λ n. n ≤ length found.new) }
    ensures room { length found.new ≡ length found.old }
{
    match host.parse::<IpAddr>() {
        Err(_) => runtime.lookup_host(host, port, found),
        Ok(address) => match found.first_mut() {
            None => Ok(0),
            Some(first) => {
                *first = SocketAddr::new(address, port);
                Ok(1)
            }
        },
    }
}

/// Connects to the first of these addresses that answers in its time.
fn connect_first<R: Net + Clock>(runtime: &R, addresses: &[SocketAddr]) -> io::Result<R::Stream> {
    let began = Instant::now(runtime)?;
    let whole = Duration::from_secs(CONNECT_SECONDS);
    let mut others = u32::try_from(addresses.len()).unwrap_or(u32::MAX);
    for address in addresses {
        let left = whole.saturating_sub(began.elapsed(runtime)?);
        let share = left.checked_div(others).unwrap_or(left);
        others = others.saturating_sub(1);
        if share.is_zero() {
            return Err(nowhere());
        }
        if let Ok(stream) = runtime.connect_timeout(*address, share) {
            return Ok(stream);
        }
    }
    Err(nowhere())
}

/// A connection to an authority, whose reads and writes do not wait forever.
fn connect<R: Net + Clock>(runtime: &R, authority: &str) -> io::Result<R::Stream> {
    let Some((host, port)) = host_and_port(authority) else {
        return Err(nowhere());
    };
    let mut found = [SocketAddr::from((Ipv4Addr::UNSPECIFIED, port)); ADDRESSES];
    let count = look_up(runtime, host, port, &mut found)?;
    let stream = connect_first(runtime, &found[..count])?;
    let stall = Some(Duration::from_secs(STALL_SECONDS));
    stream.set_read_timeout(stall)?;
    stream.set_write_timeout(stall)?;
    Ok(stream)
}

/// Sends all bytes.
fn send<F: Write>(stream: Option<&mut F>, bytes: &[u8]) -> io::Result<()> {
    match stream {
        Some(stream) => stream.write_all(bytes),
        None => Err(nowhere()),
    }
}

impl<R: Net + Clock + Drop> TcpWire<R> {
    /// A wire without a connection.
    pub fn new(runtime: R) -> TcpWire<R>
        ensures { ⟦<TcpWire<R> as Wire>⟧.faults result ≡ 0 }
    {
        TcpWire {
            runtime,
            stream: None,
            faults: 0,
        }
    }

    // Counts a fault. There is no connection then.
    fn fail(&mut self) -> Failed
        ensures counts { self.new.faults ≡ counted self.old.faults }
        ensures closed { self.new.stream ≡ None }
    {
        self.stream = None;
        self.faults = self.faults.saturating_add(1);
        Failed
    }
}

impl<R: Net + Clock + Drop> Wire for TcpWire<R> {
    ghost faults = { λ wire. wire.faults };

    ghost pages = { λ wire. None };

    ghost connection = { λ wire. None };

    fn connect(&mut self, authority: &str) -> Result<(), Failed> {
        self.stream = None;
        match connect(&self.runtime, authority) {
            Ok(stream) => {
                self.stream = Some(stream);
                Ok(())
            }
            Err(_) => Err(self.fail()),
        }
    }

    fn send(&mut self, bytes: &[u8]) -> Result<(), Failed> {
        match send(self.stream.as_mut(), bytes) {
            Ok(()) => Ok(()),
            Err(_) => Err(self.fail()),
        }
    }

    fn receive(&mut self, into: &mut [u8]) -> Result<usize, Failed> {
        let outcome = match self.stream.as_mut() {
            Some(stream) => stream.read(into),
            None => Err(nowhere()),
        };
        match outcome {
            Ok(given) => Ok(given),
            Err(_) => Err(self.fail()),
        }
    }
}
