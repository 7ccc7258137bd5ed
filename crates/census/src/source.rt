ghost use Rattle.std.specs.Prelude.{◌≡◌, ℕ, ◌<◌, ◌≤◌, List, length, Option, Ok, IfOk, OnErr};
ghost use Rattle.cs_log.specs.Faults.{HasRisen};
ghost use Rattle.census.specs.Streams.{Keeps, Reads, IsAtEnd};

/// A source couldn't be read.
#[derive(Clone, Copy, Debug, PartialEq, Eq)]
pub struct ReadFailed;

/// Where a schedule comes from.
pub trait Source {
    /// The bytes that are left, where the source tells.
    ghost left: { Self → Option (List ℕ) };

    /// How often it failed.
    ghost faults: { Self → ℕ };

    /// Reads some bytes into the front of the buffer, and says how many: 0 at the end of the input.
    fn read(&mut self, buf: &mut [u8]) -> Result<usize, ReadFailed>
        ensures bound { IfOk result (λ n. n ≤ length buf.old) }
        ensures reads { IfOk result (λ n. Reads (left self.old) (left self.new) n buf.new) }
        ensures end { result ≡ Ok 0 → 0 < length buf.old → IsAtEnd (left self.old) }
        ensures err { OnErr result (Keeps (left self.old) (left self.new)) }
        ensures counts { faults self.old ≤ faults self.new }
        ensures failed { OnErr result (HasRisen (faults self.old) (faults self.new)) };
}
