//! Which calls of a disk in memory are to fail.
ghost use Rattle.std.specs.Prelude.{◌≡◌};
ghost use Rattle.vv_disk.specs.MemDisk.{is_planned, raised};

/// Calls are numbered from 0. Those that are listed fail, and those at or past the fuse.
#[derive(Debug, Drop)]
pub(crate) struct Plan {
    pub(crate) fail: Vec<u64>,
    pub(crate) fuse: Option<u64>,
    pub(crate) calls: u64,
}

impl Plan {
    /// Counts a call, and says whether it fails.
    pub(crate) fn count_call(&mut self) -> bool
        ensures fails { result ≡ is_planned self.old.fail.items self.old.fuse self.old.calls }
        ensures counted { self.new ≡ record self.old { calls = raised self.old.calls } }
    {
        let call = self.calls;
        self.calls = call.saturating_add(1);
        let is_past = match self.fuse {
            Some(fuse) => fuse <= call,
            None => false,
        };
        self.fail.contains(&call) || is_past
    }
}
