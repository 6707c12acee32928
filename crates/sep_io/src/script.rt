//! Calls that fail where they are told to.

ghost use Rattle.std.specs.Prelude.{◌≡◌, ◌≤◌, true};
ghost use Rattle.sep_io.specs.Faults.{Rose};

/// The calls that are to fail, by their numbers from 0, the calls so far, and the faults so far. Both counts stay at
/// 2^64 - 1 once they stand there.
#[derive(Drop)]
pub(crate) struct Script {
    fails: Vec<u64>,
    calls: u64,
    faults: u64,
}

impl Script {
    ghost use Rattle.sep_io.specs.Scripts.{fails_now, after_call, after_fault};

    /// Nothing was called yet.
    pub(crate) fn new(fails: Vec<u64>) -> Script
        ensures { result ≡ record { fails = fails; calls = 0; faults = 0 } }
    {
        Script {
            fails,
            calls: 0,
            faults: 0,
        }
    }

    /// Counts a call, and says whether it fails.
    pub(crate) fn call_fails(&mut self) -> bool
        ensures answer { result ≡ fails_now self.old }
        ensures after { self.new ≡ after_call self.old }
        ensures count { self.old.faults ≤ self.new.faults }
        ensures rose { result ≡ true → Rose self.old.faults self.new.faults }
    {
        let fails = self.fails.contains(&self.calls);
        self.calls = self.calls.saturating_add(1);
        if fails {
            self.fault();
        }
        fails
    }

    /// Counts a fault.
    pub(crate) fn fault(&mut self)
        ensures after { self.new ≡ after_fault self.old }
        ensures count { self.old.faults ≤ self.new.faults }
        ensures rose { Rose self.old.faults self.new.faults }
    {
        self.faults = self.faults.saturating_add(1);
    }
}
