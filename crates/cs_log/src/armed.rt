ghost use Rattle.std.specs.Prelude.{◌≡◌};
ghost use Rattle.cs_log.specs.Tears.{armed_number};
ghost use Rattle.cs_log.specs.declared.armed.Tear.TheVariants.{Append};

use crate::Log;

/// What an arm does to the calls that follow.
#[derive(Clone, Copy, Debug, PartialEq, Eq)]
pub enum Tear {
    /// Nothing is armed.
    Nothing,
    /// The next append fails where its piece is longer than so many bytes, which it leaves.
    Append(u64),
    /// So many bytes were enough for an append. The next sync fails.
    Sync(u64),
}

/// A log that can be armed to tear.
pub trait Armed: Log {
    /// Arms a number of bytes, in the place of what was armed before.
    fn arm(&mut self, b: u64)
        ensures tear { Self.tear self.new ≡ Append b }
        ensures bytes { Self.bytes self.new ≡ Self.bytes self.old }
        ensures synced { Self.synced self.new ≡ Self.synced self.old }
        ensures spare { Self.spare self.new ≡ Self.spare self.old }
        ensures faults { Self.faults self.new ≡ Self.faults self.old }
        ensures own_faults { Self.own_faults self.new ≡ Self.own_faults self.old };

    /// The number that is armed.
    fn armed(&self) -> Option<u64>
        ensures { result ≡ armed_number (Self.tear self.now) };
}
