//! The standard streams.
ghost use Rattle.std.specs.Prelude.{◌≡◌, None};

use link_base::{Sink, SinkErr};
use std::alloc::Global;
use std::io::{Stderr, Stdout, Write};

#[derive(Drop)]
enum Stream {
    Out(Stdout),
    Err(Stderr),
}

/// Standard output or standard error. It doesn't tell what went out.
#[derive(Drop)]
pub struct RealSink {
    stream: Stream,
    faults: u64,
}

impl RealSink {
    /// Standard output.
    pub fn out(stdout: Stdout) -> RealSink
        ensures { ⟦<RealSink as Sink>⟧.faults result ≡ 0 }
    {
        RealSink {
            stream: Stream::Out(stdout),
            faults: 0,
        }
    }

    /// Standard error.
    pub fn err(stderr: Stderr) -> RealSink
        ensures { ⟦<RealSink as Sink>⟧.faults result ≡ 0 }
    {
        RealSink {
            stream: Stream::Err(stderr),
            faults: 0,
        }
    }
}

impl Sink for RealSink {
    ghost written = { λ sink. None };

    ghost faults = { λ sink. sink.faults };

    fn put(&mut self, _alloc: Global, bytes: &[u8]) -> Result<(), SinkErr> {
        let outcome = match &mut self.stream {
            Stream::Out(stdout) => stdout.write_all(bytes),
            Stream::Err(stderr) => stderr.write_all(bytes),
        };
        match outcome {
            Ok(()) => Ok(()),
            Err(_) => {
                self.faults = self.faults.saturating_add(1);
                Err(SinkErr::Failed)
            }
        }
    }
}
