ghost use Rattle.std.specs.Prelude.{◌≡◌, ◌≢◌, ℕ, ◌≤◌, List, Option, Contains, Err, IfOk, OnOk, OnErr, IsErrOf, IsSome};
ghost use Rattle.cs_base.specs.Ascending.{placed_by, without_key};
ghost use Rattle.cs_log.specs.Faults.{HasRisen};
ghost use Rattle.cs_link.specs.Counts.{RisesWith, counted};
ghost use Rattle.cs_link.specs.Maps.{ById, EntersTold};
ghost use Rattle.cs_link.specs.Received.{IsNothing};
ghost use Rattle.cs_link.specs.Sent.{Datagram};
ghost use Rattle.cs_link.specs.declared.fault.GroundFault.TheVariants.{Failed};

use crate::{GroundFault, Link};
use cs_base::{Addr, NodeId};
use cs_log::Log;

/// Where nodes get their links and logs, and hand them back.
pub trait Ground {
    type Wire: Link;

    type Store: Log;

    /// The bytes of the log that was handed back of each node, where they are told.
    ghost logs: { Self → Option (ById (List ℕ)) };

    /// What the link that was handed back of each node had sent, where it is told.
    ghost traffic: { Self → Option (ById (List Datagram)) };

    /// The ids whose link and log were granted and not yet handed back, ascending.
    ghost out: { Self → List ℕ };

    /// How often granting failed.
    ghost faults: { Self → ℕ };

    /// Rises with each link handed back that had failed.
    ghost link_faults: { Self → ℕ };

    /// Rises with each log handed back that had failed.
    ghost log_faults: { Self → ℕ };

    /// How many datagrams the links handed back had received.
    ghost taken: { Self → ℕ };

    /// How often nothing had been waiting at the links handed back.
    ghost dry: { Self → ℕ };

    /// A link and a log for a node, and the room to keep them once they are handed back.
    fn grant(&mut self, id: NodeId, addr: Addr) -> Result<(Self::Wire, Self::Store), GroundFault>
        requires { ¬ (Contains (out self.old) id) }
        ensures out { OnOk result (out self.new ≡ placed_by (λ n. n) id (out self.old)) }
        ensures out_stays { OnErr result (out self.new ≡ out self.old) }
        ensures log { IfOk result (λ granted. IsNothing (Self.Store.bytes granted.1)) }
        ensures log_faults { IfOk result (λ granted. Self.Store.faults granted.1 ≡ 0) }
        ensures log_own_faults { IfOk result (λ granted. Self.Store.own_faults granted.1 ≡ 0) }
        ensures link { IfOk result (λ granted. IsNothing (Self.Wire.sent granted.0)) }
        ensures link_faults { IfOk result (λ granted. Self.Wire.faults granted.0 ≡ 0) }
        ensures link_taken { IfOk result (λ granted. Self.Wire.taken granted.0 ≡ 0) }
        ensures link_dry { IfOk result (λ granted. Self.Wire.dry granted.0 ≡ 0) }
        ensures logs { logs self.new ≡ logs self.old }
        ensures traffic { traffic self.new ≡ traffic self.old }
        ensures counts { faults self.old ≤ faults self.new }
        ensures quiet { result ≢ Err Failed → faults self.new ≡ faults self.old }
        ensures failed { IsErrOf result Failed → HasRisen (faults self.old) (faults self.new) }
        ensures kept_link_faults { link_faults self.new ≡ link_faults self.old }
        ensures kept_log_faults { log_faults self.new ≡ log_faults self.old }
        ensures kept_taken { taken self.new ≡ taken self.old }
        ensures kept_dry { dry self.new ≡ dry self.old };

    /// Takes back the link and the log of a node that has them.
    fn keep(&mut self, id: NodeId, wire: Self::Wire, store: Self::Store)
        requires { Contains (out self.old) id }
        ensures out { out self.new ≡ without_key (λ n. n) id (out self.old) }
        ensures logs { EntersTold id (Self.Store.bytes store) (logs self.old) (logs self.new) }
        ensures traffic { EntersTold id (Self.Wire.sent wire) (traffic self.old) (traffic self.new) }
        ensures link_faults { RisesWith (Self.Wire.faults wire) (link_faults self.old) (link_faults self.new) }
        ensures log_faults { RisesWith (Self.Store.faults store) (log_faults self.old) (log_faults self.new) }
        ensures taken { taken self.new ≡ counted (taken self.old) (Self.Wire.taken wire) }
        ensures dry { dry self.new ≡ counted (dry self.old) (Self.Wire.dry wire) }
        ensures faults { faults self.new ≡ faults self.old };

    /// Where the ground tells, its logs tell their bytes.
    ghost logs_tell: { (desk : Self) (store : Self.Store) → IsSome (logs desk) → IsSome (Self.Store.bytes store) };

    /// And its links tell what they sent.
    ghost links_tell: { (desk : Self) (wire : Self.Wire) → IsSome (traffic desk) → IsSome (Self.Wire.sent wire) };
}
