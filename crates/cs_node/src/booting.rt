//! Nodes start: each logs who it is.

ghost use Rattle.std.specs.Prelude.{◌≡◌, ◌≢◌, [], true, false, IfOk, IfErr, IfSome, OnOk};
ghost use Rattle.cs_base.specs.declared.change.Mode.TheVariants.{Full};
ghost use Rattle.cs_core.specs.Node.{joining};
ghost use Rattle.cs_lead.specs.Leading.{begun};
ghost use Rattle.cs_packet.specs.BootField.{IsLedBy};
ghost use Rattle.cs_packet.specs.EntryField.{IsEntry};
ghost use Rattle.cs_packet.specs.declared.entry.Entry.TheVariants.{Boot};
ghost use Rattle.cs_node.specs.Appending.{entry_frame, Keeps};
ghost use Rattle.cs_node.specs.Booting.{as_own, HasNotBooted, StartsAgain};
ghost use Rattle.cs_node.specs.Logged.{Survives};
ghost use Rattle.cs_node.specs.Told.{log_told};
ghost use Rattle.cs_node.specs.declared.node.Node.TheVariants as nodes;

use crate::appending::{framed_entry, keep};
use crate::{Joining, Leading, Stopped, Why};
use cs_base::{Keyed, Member, Mode};
use cs_core::Follower;
use cs_lead::Leader;
use cs_link::Link;
use cs_log::Log;
use cs_packet::{Entry, Own};
use std::alloc::Global;

// Logs how a node starts.
fn log_boot<G: Log>(alloc: Global, leader: bool, own: &Own, log: &mut G) -> Result<(), Why>
    requires { IsLedBy leader own.now }
    ensures allowed { IsEntry (Boot leader own.now) }
    ensures ok { OnOk result
        (Keeps (entry_frame (Boot leader own.now)) (log_told G.Log log.old) (log_told G.Log log.new)) }
    ensures err { IfErr result (λ why.
        HasNotBooted (Boot leader own.now) why (log_told G.Log log.old) (log_told G.Log log.new)) }
{
    // The ids, the addresses and the point tell their ranges where they are read.
    let _member = own.member();
    let _leader = own.leader.get();
    let _ip = own.leader_addr.ip();
    let frame = framed_entry(alloc, &Entry::Boot { leader, own: *own }, log)?;
    keep(log, &frame)?;
    Ok(())
}

/// Starts a node that isn't the leader: it logs who it is, and is joining. Where that fails, `Stopped` has the reason,
/// and hands link and log back.
pub fn boot<L: Link, G: Log>(
    alloc: Global,
    own: Own,
    link: L,
    mut log: G,
) -> Result<Joining<L, G>, Stopped<L, G>>
    requires empty { IfSome (G.bytes log) (λ bytes. bytes ≡ []) }
    requires led { own.id ≢ own.leader }
    ensures node { IfOk result (λ s. (s.node ≡ nodes.Follower (joining own)) × (s.link ≡ link)) }
    ensures kept { IfOk result (λ s.
        Keeps (entry_frame (Boot false own)) (log_told G.Log log) (log_told G.Log s.log)) }
    // Whatever a crash leaves of the log gives the node again.
    ensures survives { IfOk result (λ s. IfSome (G.bytes s.log) (λ bytes. Survives (G.synced s.log) bytes s.node)) }
    ensures stopped { IfErr result (λ s. (s.link ≡ link)
        × HasNotBooted (Boot false own) s.why (log_told G.Log log) (log_told G.Log s.log)) }
    // Whatever a crash leaves then gives no node, or this one.
    ensures again { IfErr result (λ s. StartsAgain (nodes.Follower (joining own)) (log_told G.Log s.log)) }
{
    match log_boot(alloc, false, &own, &mut log) {
        Ok(()) => Ok(Joining {
            alloc,
            node: Follower::start(alloc, own),
            link,
            log,
        }),
        Err(why) => Err(Stopped { link, log, why }),
    }
}

/// Starts the leader at epoch 0, alone in its group: it logs who it is. Where that fails, it is as with `boot`.
pub fn boot_leader<L: Link, G: Log>(
    alloc: Global,
    me: Member,
    link: L,
    mut log: G,
) -> Result<Leading<L, G>, Stopped<L, G>>
    requires { IfSome (G.bytes log) (λ bytes. bytes ≡ []) }
    ensures node { IfOk result (λ s. (s.node ≡ nodes.Leader (begun me)) × (s.link ≡ link)) }
    ensures kept { IfOk result (λ s.
        Keeps (entry_frame (Boot true (as_own me))) (log_told G.Log log) (log_told G.Log s.log)) }
    ensures survives { IfOk result (λ s. IfSome (G.bytes s.log) (λ bytes. Survives (G.synced s.log) bytes s.node)) }
    ensures stopped { IfErr result (λ s. (s.link ≡ link)
        × HasNotBooted (Boot true (as_own me)) s.why (log_told G.Log log) (log_told G.Log s.log)) }
    ensures again { IfErr result (λ s. StartsAgain (nodes.Leader (begun me)) (log_told G.Log s.log)) }
{
    match log_leader(alloc, me, &mut log) {
        Ok(node) => Ok(Leading {
            alloc,
            node,
            link,
            log,
        }),
        Err(why) => Err(Stopped { link, log, why }),
    }
}

// Logs how the leader starts.
fn log_leader<G: Log>(alloc: Global, me: Member, log: &mut G) -> Result<Leader, Why>
    ensures allowed { IsEntry (Boot true (as_own me)) }
    ensures node { IfOk result (λ node. node ≡ begun me) }
    ensures kept { OnOk result
        (Keeps (entry_frame (Boot true (as_own me))) (log_told G.Log log.old) (log_told G.Log log.new)) }
    ensures err { IfErr result (λ why.
        HasNotBooted (Boot true (as_own me)) why (log_told G.Log log.old) (log_told G.Log log.new)) }
{
    // The key says what the types keep.
    let _key = me.key();
    let node = Leader::start(alloc, me)?;
    let own = Own {
        id: me.id,
        addr: me.addr,
        at: me.at,
        mode: Mode::Full,
        leader: me.id,
        leader_addr: me.addr,
    };
    log_boot(alloc, true, &own, log)?;
    Ok(node)
}
