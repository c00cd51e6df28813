//! Feeds replies of 64 MiB in pieces of 64 KiB, or copies the same pieces, and prints how many
//! bytes of content came. The words on standard input are `feed` or `copy`, and how many replies.
#![tactic(auto)]

mod rounds;

use std::io;
use std::io::Read;

fn main(rt: HostRuntime) -> io::Result<()> {
    let mut words = String::new(rt.alloc());
    rt.reader().read_to_string(&mut words)?;
    let line = rounds::line(rt.alloc(), words.as_str())?;
    println!(rt; "{line}")
}
