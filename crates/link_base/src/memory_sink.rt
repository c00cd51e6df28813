//! A sink in memory.
ghost use Rattle.std.specs.Prelude.{◌≡◌, [], Some, OnErr, OnOk};
ghost use Rattle.res_base.specs.Causes.{HasCause};
ghost use Rattle.link_base.specs.MemoryCalls.{IsNextCall, no_calls};
ghost use Rattle.link_base.specs.MemorySinks.{calls_of, written_of};
ghost use Rattle.link_base.specs.Sinks.{gained, GainsPrefix};

use crate::memory_calls::Calls;
use crate::{Sink, SinkErr};
use res_base::List;
use std::alloc::Global;

/// A sink that keeps what is put, and fails at the calls of `put` that it was told, counted from
/// 0. Of a call that fails nothing goes out.
#[derive(Drop)]
pub struct MemSink {
    bytes: Vec<u8>,
    calls: Calls,
}

impl MemSink {
    /// An empty sink that fails at the calls with these numbers.
    pub fn new(alloc: Global, failing: List<u64>) -> MemSink
        ensures written { ⟦<MemSink as Sink>⟧.written result ≡ Some [] }
        ensures faults { ⟦<MemSink as Sink>⟧.faults result ≡ 0 }
        ensures calls { calls_of result ≡ no_calls failing }
    {
        MemSink {
            bytes: Vec::new(alloc),
            calls: Calls::new(failing),
        }
    }

    /// What went out.
    pub fn bytes(&self) -> &[u8]
        ensures { ⟦<MemSink as Sink>⟧.written self.now ≡ Some result.now }
    {
        self.bytes.as_slice()
    }
}

impl Sink for MemSink {
    ghost written = { λ sink. Some sink.bytes.items };

    ghost faults = { λ sink. sink.calls.faults };

    fn put(&mut self, _alloc: Global, bytes: &[u8]) -> Result<(), SinkErr>
        ensures went { OnOk result (written_of self.new ≡ gained (written_of self.old) bytes.now) }
        ensures part { OnErr result (GainsPrefix (written_of self.old) (written_of self.new) bytes.now) }
        ensures cause { HasCause SinkErr.Failed (calls_of self.old).faults (calls_of self.new).faults result }
        ensures nothing { OnErr result (written_of self.new ≡ written_of self.old) }
        ensures call { IsNextCall SinkErr.Failed (calls_of self.old) (calls_of self.new) result }
    {
        if self.calls.next_fails() {
            self.calls.add_fault();
            return Err(SinkErr::Failed);
        }
        self.bytes.extend_from_slice(bytes)?;
        Ok(())
    }
}
