ghost use Rattle.std.specs.Prelude.{◌≡◌, ◌≢◌, ◌+◌, ◌≤◌, ◌⊎◌, min, List, ℕ, length, Option, Err, IsErr, IsErrOf};
ghost use Rattle.std.specs.Prelude.{IfOk, OnOk, OnErr, IfSome};
ghost use Rattle.cs_log.specs.Bytes.{appended, AppendsFront, cut_to};
ghost use Rattle.cs_log.specs.Faults.{HasRisen};
ghost use Rattle.cs_log.specs.Tears.{FailsAlone, FailsByTear, FailsSync, passed, TearsAppend, TornAppend};
ghost use Rattle.cs_log.specs.declared.armed.Tear.{Tear};
ghost use Rattle.cs_log.specs.declared.armed.Tear.TheVariants.{Nothing};
ghost use Rattle.cs_log.specs.declared.fault.ReadAllFault.TheVariants.{Failed, Memory};

use crate::{LogFailed, ReadAllFault};
use cs_piece::Piece;
use std::alloc::AllocError;

/// Bytes that outlive a crash, once they are synced.
pub trait Log {
    /// The bytes, where the log tells them.
    ghost bytes: { Self → Option (List ℕ) };

    /// How many bytes from the front are synced.
    ghost synced: { Self → ℕ };

    /// How many bytes can be appended without memory.
    ghost spare: { Self → ℕ };

    /// How often a call failed.
    ghost faults: { Self → ℕ };

    /// How often a call failed by itself, and not by what was armed.
    ghost own_faults: { Self → ℕ };

    /// What is armed.
    ghost tear: { Self → Tear } = { λ _. Nothing };

    /// Makes room for so many bytes.
    fn ready(&mut self, n: u64) -> Result<(), AllocError>
        ensures room { OnOk result (n ≤ spare self.new) }
        ensures spare { spare self.old ≤ spare self.new }
        ensures bytes { bytes self.new ≡ bytes self.old }
        ensures synced { synced self.new ≡ synced self.old }
        ensures faults { faults self.new ≡ faults self.old }
        ensures own_faults { own_faults self.new ≡ own_faults self.old }
        ensures tear { tear self.new ≡ tear self.old };

    /// Appends a piece for which there is room. Where it fails, some bytes from the front of the piece are there.
    fn append(&mut self, piece: &[u8]) -> Result<(), LogFailed>
        requires { length piece.now ≤ spare self.old }
        ensures ok { OnOk result (bytes self.new ≡ appended (bytes self.old) piece.now) }
        ensures part { OnErr result (AppendsFront (bytes self.old) (bytes self.new) piece.now) }
        ensures synced { synced self.new ≡ synced self.old }
        ensures spare { spare self.old ≤ spare self.new + length piece.now }
        ensures torn { (kept : ℕ) → TearsAppend (tear self.old) (length piece.now) kept → IsErr result }
        ensures passed { OnOk result (tear self.new ≡ passed (tear self.old)) }
        ensures quiet { OnOk result (faults self.new ≡ faults self.old) }
        ensures own_quiet { OnOk result (own_faults self.new ≡ own_faults self.old) }
        ensures failed { OnErr result (HasRisen (faults self.old) (faults self.new)) }
        ensures counts { faults self.old ≤ faults self.new }
        ensures cause { OnErr result
            (FailsAlone (own_faults self.old) (own_faults self.new) (tear self.old) (tear self.new)
            ⊎ (FailsByTear (own_faults self.old) (own_faults self.new) (tear self.new)
            × TornAppend (tear self.old) (bytes self.old) (bytes self.new) piece.now)) };

    /// Syncs all bytes: from then on a crash leaves all of them.
    fn sync(&mut self) -> Result<(), LogFailed>
        ensures ok { OnOk result (IfSome (bytes self.old) (λ bytes. synced self.new ≡ length bytes)) }
        ensures more { OnOk result (synced self.old ≤ synced self.new) }
        ensures err { OnErr result (synced self.new ≡ synced self.old) }
        ensures bytes { bytes self.new ≡ bytes self.old }
        ensures spare { spare self.old ≤ spare self.new }
        ensures torn { FailsSync (tear self.old) → IsErr result }
        ensures tear { OnOk result (tear self.new ≡ tear self.old) }
        ensures quiet { OnOk result (faults self.new ≡ faults self.old) }
        ensures own_quiet { OnOk result (own_faults self.new ≡ own_faults self.old) }
        ensures failed { OnErr result (HasRisen (faults self.old) (faults self.new)) }
        ensures counts { faults self.old ≤ faults self.new }
        ensures cause { OnErr result
            (FailsAlone (own_faults self.old) (own_faults self.new) (tear self.old) (tear self.new)
            ⊎ (FailsByTear (own_faults self.old) (own_faults self.new) (tear self.new)
            × FailsSync (tear self.old))) };

    /// Leaves the first so many bytes.
    fn cut(&mut self, len: u64) -> Result<(), LogFailed>
        requires { IfSome (bytes self.old) (λ bytes. len ≤ length bytes) }
        ensures ok { OnOk result (bytes self.new ≡ cut_to len (bytes self.old)) }
        ensures ok_synced { OnOk result (synced self.new ≡ min (synced self.old) len) }
        ensures err { OnErr result (bytes self.new ≡ bytes self.old) }
        ensures err_synced { OnErr result (synced self.new ≡ synced self.old) }
        ensures spare { spare self.old ≤ spare self.new }
        ensures tear { tear self.new ≡ tear self.old }
        ensures quiet { OnOk result (faults self.new ≡ faults self.old) }
        ensures own_quiet { OnOk result (own_faults self.new ≡ own_faults self.old) }
        ensures failed { OnErr result (HasRisen (faults self.old) (faults self.new)) }
        ensures counts { faults self.old ≤ faults self.new }
        ensures own { OnErr result (HasRisen (own_faults self.old) (own_faults self.new)) };

    /// All bytes.
    fn read_all(&mut self) -> Result<Piece, ReadAllFault>
        ensures all { IfOk result (λ all. IfSome (bytes self.old) (λ bytes. all ≡ bytes)) }
        ensures bytes { bytes self.new ≡ bytes self.old }
        ensures synced { synced self.new ≡ synced self.old }
        ensures spare { spare self.old ≤ spare self.new }
        ensures tear { tear self.new ≡ tear self.old }
        ensures quiet { result ≢ Err Failed → faults self.new ≡ faults self.old }
        ensures own_quiet { result ≢ Err Failed → own_faults self.new ≡ own_faults self.old }
        ensures failed { IsErrOf result Failed → HasRisen (faults self.old) (faults self.new) }
        ensures counts { faults self.old ≤ faults self.new }
        ensures own { IsErrOf result Failed → HasRisen (own_faults self.old) (own_faults self.new) };

    /// No more is synced than there is.
    ghost within: { (log : Self) → IfSome (bytes log) (λ bytes. synced log ≤ length bytes) };
}
