ghost use Rattle.std.specs.Prelude.{◌≡◌, ◌≤◌, true, false, OnOk, OnErr};
ghost use Rattle.zst_outside.specs.Schedule.{Schedule, fresh, is_to_fail, after_done, with_fault, with_want};

use crate::Fault;
use std::marker::Model;

/// Which calls of an object in memory are to fail, and what it counted.
#[derive(Drop)]
pub struct Plan {
    fail: Vec<u64>,
    stop: Option<u64>,
    calls: u64,
    faults: u64,
    starved: u64,
}

impl Model for Plan {
    ghost Value = { Schedule };

    ghost view = { λ p. record { fail = p.fail.items; stop = p.stop; calls = p.calls; faults = p.faults; starved = p.starved } };
}

impl Plan {
    /// The calls of these numbers fail, and all from `stop` on.
    pub fn new(fail: Vec<u64>, stop: Option<u64>) -> Self
        ensures { result ≡ fresh fail.items stop }
    {
        Plan {
            fail,
            stop,
            calls: 0,
            faults: 0,
            starved: 0,
        }
    }

    /// The count of calls, which is the number of the next.
    pub fn calls(&self) -> u64
        ensures { result ≡ self.now.calls }
    {
        self.calls
    }

    /// The count of faults.
    pub fn faults(&self) -> u64
        ensures { result ≡ self.now.faults }
    {
        self.faults
    }

    /// The count of those faults that were a want of memory.
    pub fn starved(&self) -> u64
        ensures { result ≡ self.now.starved }
    {
        self.starved
    }

    /// Counts a call, and tells whether it is to fail.
    pub fn begin(&mut self) -> bool
        ensures counts { self.new ≡ after_done self.old }
        ensures fails { result ≡ is_to_fail self.old }
    {
        let number = self.calls;
        self.calls = number.saturating_add(1);
        let stopped = match self.stop {
            Some(stop) => stop <= number,
            None => false,
        };
        stopped || self.fail.contains(&number)
    }

    /// Counts the fault of a call that is to fail.
    pub fn refuse(&mut self) -> Fault
        ensures counts { self.new ≡ with_fault self.old }
        ensures later { self.old.faults ≤ self.new.faults }
    {
        self.faults = self.faults.saturating_add(1);
        Fault
    }

    /// Counts the fault of a call that finds no memory.
    pub fn starve(&mut self) -> Fault
        ensures counts { self.new ≡ with_want self.old }
        ensures later { self.old.faults ≤ self.new.faults }
    {
        self.starved = self.starved.saturating_add(1);
        self.faults = self.faults.saturating_add(1);
        Fault
    }

    /// Ends a call: it fails where it is to.
    pub fn end(&mut self, fails: bool) -> Result<(), Fault>
        ensures ok { OnOk result ((fails ≡ false) × (self.new ≡ self.old)) }
        ensures err { OnErr result ((fails ≡ true) × (self.new ≡ with_fault self.old)) }
        ensures later { self.old.faults ≤ self.new.faults }
    {
        if fails {
            return Err(self.refuse());
        }
        Ok(())
    }
}
