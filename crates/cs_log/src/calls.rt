ghost use Rattle.std.specs.Prelude.{◌≡◌, ◌≤◌, ◌↔◌, [], ◌∷◌, ◌++◌, IsTrue, Contains, OnOk, OnErr};
ghost use Rattle.std.specs.Bool.{OnFalse};
ghost use Rattle.cs_log.specs.Faults.{HasRisen};

use std::alloc::{AllocError, Global};

/// The calls of an object so far that may fail, numbered from 1, and the numbers of those that fail.
#[derive(Debug, Drop)]
pub struct Calls {
    count: u64,
    failing: Vec<u64>,
    faults: u64,
}

impl Calls {
    pub fn new(alloc: Global) -> Self
        ensures count { result.count ≡ 0 }
        ensures failing { result.failing.items ≡ [] }
        ensures faults { result.faults ≡ 0 }
    {
        Calls {
            count: 0,
            failing: Vec::new(alloc),
            faults: 0,
        }
    }

    /// Makes the call of this number fail.
    pub fn fail(&mut self, call: u64) -> Result<(), AllocError>
        ensures ok { OnOk result (self.new.failing.items ≡ self.old.failing.items ++ call ∷ []) }
        ensures err { OnErr result (self.new.failing.items ≡ self.old.failing.items) }
        ensures count { self.new.count ≡ self.old.count }
        ensures faults { self.new.faults ≡ self.old.faults }
    {
        self.failing.push(call)?;
        Ok(())
    }

    /// How often a call failed.
    pub fn faults(&self) -> u64
        ensures { result ≡ self.now.faults }
    {
        self.faults
    }

    /// Counts a call, and says whether it fails.
    pub fn fails(&mut self) -> bool
        ensures failing { self.new.failing.items ≡ self.old.failing.items }
        ensures fails { IsTrue result ↔ Contains self.old.failing.items self.new.count }
        ensures counts { self.old.faults ≤ self.new.faults }
        ensures quiet { OnFalse result (self.new.faults ≡ self.old.faults) }
        ensures risen { IsTrue result → HasRisen self.old.faults self.new.faults }
    {
        self.count = self.count.saturating_add(1);
        let fails = self.failing.contains(&self.count);
        if fails {
            self.faults = self.faults.saturating_add(1);
        }
        fails
    }
}

#[cfg(test)]
mod tests {
    use super::*;

    #[test]
    fn counts_stay_at_the_last_number(rt: HostRuntime) {
        let mut calls = Calls::new(rt.alloc());
        calls.fail(u64::MAX).expect(&rt, "memory");
        calls.count = u64::MAX - 2;
        calls.faults = u64::MAX - 1;
        assert!(rt; !calls.fails());
        assert_eq!(rt; calls.faults(), u64::MAX - 1);
        assert!(rt; calls.fails());
        assert_eq!(rt; calls.faults(), u64::MAX);
        assert!(rt; calls.fails());
        assert_eq!(rt; calls.faults(), u64::MAX);
    }
}
