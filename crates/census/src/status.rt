use crate::sink::WriteFailed;
use crate::source::ReadFailed;
use cs_drill::DrillFault;
use cs_world::WorldFault;
use std::alloc::AllocError;
use std::process::ExitCode;

/// Why a run ended.
#[derive(Clone, Copy, Debug, PartialEq, Eq)]
pub enum Status {
    /// The input was read to its end, and everything was written.
    Done,
    /// The words are no form of the program.
    Usage,
    /// A line is outside the grammar.
    Script,
    /// The source failed.
    Read,
    /// The sink failed.
    Write,
    /// A link failed, or none could be granted.
    Link,
    /// A log failed.
    Log,
    /// Memory ran out.
    Memory,
    /// The input goes on behind the bytes or the lines that count, or an event would go beyond what a run may send
    /// or write.
    Limit,
}

impl From<Status> for ExitCode {
    ghost use Rattle.census.specs.Numbers.{number_of};
    ghost use Rattle.std.specs.Prelude.{◌≡◌};
    ghost use Rattle.std.specs.Process.{exit_status};

    ghost from_gives = { λ status code. exit_status code ≡ number_of status };

    fn from(status: Status) -> ExitCode {
        ExitCode::from(match status {
            Status::Done => 0,
            Status::Usage => 2,
            Status::Script => 3,
            Status::Read => 4,
            Status::Write => 5,
            Status::Link => 6,
            Status::Log => 7,
            Status::Memory => 8,
            Status::Limit => 9,
        })
    }
}

impl From<ReadFailed> for Status {
    ghost use Rattle.census.specs.declared.status.Status.TheVariants.{Read};
    ghost use Rattle.std.specs.Prelude.{◌≡◌};

    ghost from_gives = { λ _ status. status ≡ Read };

    fn from(_failed: ReadFailed) -> Status {
        Status::Read
    }
}

impl From<WriteFailed> for Status {
    ghost use Rattle.census.specs.declared.status.Status.TheVariants.{Write};
    ghost use Rattle.std.specs.Prelude.{◌≡◌};

    ghost from_gives = { λ _ status. status ≡ Write };

    fn from(_failed: WriteFailed) -> Status {
        Status::Write
    }
}

impl From<AllocError> for Status {
    ghost use Rattle.census.specs.declared.status.Status.TheVariants.{Memory};
    ghost use Rattle.std.specs.Prelude.{◌≡◌};

    ghost from_gives = { λ _ status. status ≡ Memory };

    fn from(_refused: AllocError) -> Status {
        Status::Memory
    }
}

impl From<WorldFault> for Status {
    ghost use Rattle.census.specs.WorldFaults.{status_for};
    ghost use Rattle.std.specs.Prelude.{◌≡◌};

    ghost from_gives = { λ fault status. status ≡ status_for fault };

    fn from(fault: WorldFault) -> Status {
        match fault {
            WorldFault::Limit => Status::Limit,
            WorldFault::Link => Status::Link,
            WorldFault::Log => Status::Log,
            WorldFault::Memory => Status::Memory,
        }
    }
}

impl From<DrillFault> for Status {
    ghost use Rattle.census.specs.declared.status.Status.TheVariants.{Memory, Usage};
    ghost use Rattle.cs_drill.specs.declared.fault.DrillFault.TheVariants as faults;
    ghost use Rattle.std.specs.Prelude.{◌≡◌};

    ghost from_gives = { λ fault status. (fault ≡ faults.Range → status ≡ Usage)
        × (fault ≡ faults.Memory → status ≡ Memory) };

    fn from(fault: DrillFault) -> Status {
        match fault {
            DrillFault::Range => Status::Usage,
            DrillFault::Memory => Status::Memory,
        }
    }
}
