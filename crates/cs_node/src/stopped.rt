ghost use Rattle.std.specs.Prelude.{◌≡◌};
ghost use Rattle.cs_log.specs.declared.fault.ReadAllFault.TheVariants as read_faults;
ghost use Rattle.cs_node.specs.declared.stopped.Why.TheVariants as why;

use cs_log::{LogFailed, ReadAllFault};
use std::alloc::AllocError;

/// Why a node stopped.
#[derive(Clone, Copy, Debug, PartialEq, Eq)]
pub enum Why {
    /// The log failed.
    Log,
    /// The frame at this place of the log is no entry, or doesn't continue the ones before it.
    Bad(u64),
    /// The log has no whole frame.
    Empty,
    Memory,
}

/// A node that stopped, with its link and its log.
#[derive(Drop)]
pub struct Stopped<L, G> {
    pub link: L,
    pub log: G,
    pub why: Why,
}

impl<L, G> Stopped<L, G> {
    pub fn stop(self) -> (L, G)
        ensures link { result.0 ≡ self.link }
        ensures log { result.1 ≡ self.log }
    {
        let Stopped { link, log, .. } = self;
        (link, log)
    }
}

impl From<AllocError> for Why {
    ghost from_gives = { λ _ reason. reason ≡ why.Memory };

    fn from(_error: AllocError) -> Why {
        Why::Memory
    }
}

impl From<LogFailed> for Why {
    ghost from_gives = { λ _ reason. reason ≡ why.Log };

    fn from(_error: LogFailed) -> Why {
        Why::Log
    }
}

impl From<ReadAllFault> for Why {
    ghost from_gives = { λ fault reason. (fault ≡ read_faults.Memory → reason ≡ why.Memory)
        × (fault ≡ read_faults.Failed → reason ≡ why.Log) };

    fn from(fault: ReadAllFault) -> Why {
        match fault {
            ReadAllFault::Failed => Why::Log,
            ReadAllFault::Memory => Why::Memory,
        }
    }
}
