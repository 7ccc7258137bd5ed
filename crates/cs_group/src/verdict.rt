ghost use Rattle.std.specs.Prelude.{◌≡◌};
ghost use Rattle.cs_group.specs.Judging.{is_accepted};

use cs_base::{Change, Copied, Items};
use std::alloc::AllocError;

/// What becomes of a change.
#[derive(Clone, Copy, Debug, PartialEq, Eq)]
pub enum Verdict {
    Accepted,
    /// The id left the group before, and never returns.
    Retired,
    /// The joiner is a member.
    Present,
    /// No further member fits in.
    Full,
    /// The one who is to move or to leave isn't a member.
    Absent,
    /// The leader neither moves nor leaves.
    Leader,
    /// The member's last move has the same seq or a higher one.
    Stale,
}

impl Verdict {
    pub(crate) fn is_accepted(self) -> bool
        ensures { result ≡ is_accepted self }
    {
        matches!(self, Verdict::Accepted)
    }
}

impl Copied for Verdict {
    fn copied(&self) -> Result<Self, AllocError> {
        Ok(*self)
    }
}

/// Changes with their verdicts, in the order in which they were judged.
pub type Verdicts = Items<(Change, Verdict)>;
