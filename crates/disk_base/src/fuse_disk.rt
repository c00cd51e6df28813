//! A disk that fails after some calls.
ghost use Rattle.std.specs.Prelude.{◌≡◌, ◌+◌, ◌-◌, ◌==◌, if◌then◌else◌, Some};
ghost use Rattle.res_base.specs.Causes.{counted};

use crate::{Disk, DiskCall, DiskErr, Read};
use res_base::{List, Text};
use std::alloc::Global;

/// Makes so many calls on the inner disk, and fails at each call after them. A call that it fails
/// is not made on the inner disk.
#[derive(Drop)]
pub struct FuseDisk<D: Disk> {
    inner: D,
    left: u64,
    own: u64,
    last: Option<DiskCall>,
}

impl<D: Disk> FuseDisk<D> {
    /// A disk that makes this many calls.
    pub fn new(_alloc: Global, inner: D, calls: u64) -> FuseDisk<D>
        ensures { result.inner ≡ inner }
    {
        FuseDisk {
            inner,
            left: calls,
            own: 0,
            last: None,
        }
    }

    pub fn into_inner(self) -> D
        ensures { result ≡ self.inner }
    {
        let FuseDisk { inner, .. } = self;
        inner
    }

    // Counts a call, and says whether it is to fail. Then it is a fault.
    fn is_stopped(&mut self, call: DiskCall) -> bool
        ensures stopped { result ≡ (self.old.left == 0) }
        ensures left { self.new.left ≡ self.old.left - 1 }
        ensures inner { self.new.inner ≡ self.old.inner }
        ensures own { self.new.own ≡ (if result then counted self.old.own else self.old.own) }
        ensures last { self.new.last ≡ (if result then Some call else self.old.last) }
    {
        if self.left > 0 {
            self.left -= 1;
            return false;
        }
        self.own = self.own.saturating_add(1);
        self.last = Some(call);
        true
    }
}

impl<D: Disk> Disk for FuseDisk<D> {
    ghost told = { λ disk. D.told disk.inner };

    ghost moment = { λ disk. D.moment disk.inner };

    ghost since = { λ disk. D.since disk.inner };

    ghost faults = { λ disk. D.faults disk.inner + disk.own };

    ghost last = { λ disk. disk.last };

    ghost counts_now = { λ disk. D.counts_now disk.inner };

    ghost only_now = { λ disk. D.only_now disk.inner };

    fn read_at(
        &mut self,
        alloc: Global,
        name: &str,
        at: u64,
        into: &mut [u8],
    ) -> Result<Read, DiskErr> {
        if self.is_stopped(DiskCall::Read) {
            return Err(DiskErr::Failed);
        }
        let result = self.inner.read_at(alloc, name, at, into);
        if let Err(DiskErr::Failed) = &result {
            self.last = Some(DiskCall::Read);
        }
        result
    }

    fn start(&mut self, alloc: Global, name: &str) -> Result<(), DiskErr> {
        if self.is_stopped(DiskCall::Start) {
            return Err(DiskErr::Failed);
        }
        let result = self.inner.start(alloc, name);
        if let Err(DiskErr::Failed) = &result {
            self.last = Some(DiskCall::Start);
        }
        result
    }

    fn append(&mut self, alloc: Global, name: &str, bytes: &[u8]) -> Result<(), DiskErr> {
        if self.is_stopped(DiskCall::Append) {
            return Err(DiskErr::Failed);
        }
        let result = self.inner.append(alloc, name, bytes);
        if let Err(DiskErr::Failed) = &result {
            self.last = Some(DiskCall::Append);
        }
        result
    }

    fn sync(&mut self, alloc: Global, name: &str) -> Result<(), DiskErr> {
        if self.is_stopped(DiskCall::Sync) {
            return Err(DiskErr::Failed);
        }
        let result = self.inner.sync(alloc, name);
        if let Err(DiskErr::Failed) = &result {
            self.last = Some(DiskCall::Sync);
        }
        result
    }

    fn rename(&mut self, alloc: Global, from: &str, to: &str) -> Result<(), DiskErr> {
        if self.is_stopped(DiskCall::Rename) {
            return Err(DiskErr::Failed);
        }
        let result = self.inner.rename(alloc, from, to);
        if let Err(DiskErr::Failed) = &result {
            self.last = Some(DiskCall::Rename);
        }
        result
    }

    fn remove(&mut self, alloc: Global, name: &str) -> Result<(), DiskErr> {
        if self.is_stopped(DiskCall::Remove) {
            return Err(DiskErr::Failed);
        }
        let result = self.inner.remove(alloc, name);
        if let Err(DiskErr::Failed) = &result {
            self.last = Some(DiskCall::Remove);
        }
        result
    }

    fn sync_names(&mut self, alloc: Global) -> Result<(), DiskErr> {
        if self.is_stopped(DiskCall::SyncNames) {
            return Err(DiskErr::Failed);
        }
        let result = self.inner.sync_names(alloc);
        if let Err(DiskErr::Failed) = &result {
            self.last = Some(DiskCall::SyncNames);
        }
        result
    }

    fn list(&mut self, alloc: Global, prefix: &str) -> Result<List<Text>, DiskErr> {
        if self.is_stopped(DiskCall::List) {
            return Err(DiskErr::Failed);
        }
        let result = self.inner.list(alloc, prefix);
        if let Err(DiskErr::Failed) = &result {
            self.last = Some(DiskCall::List);
        }
        result
    }
}
