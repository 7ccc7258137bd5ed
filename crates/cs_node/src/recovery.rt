//! A node comes back from its log.

ghost use Rattle.std.specs.Prelude.{◌≡◌, ◌≤◌, ◌⊎◌, IfOk, IfErr, IfSome, OnOk, OnErr, length};
ghost use Rattle.cs_log.specs.Bytes.{cut_to};
ghost use Rattle.cs_log.specs.Faults.{HasRisen};
ghost use Rattle.cs_node.specs.Folding.{FoldsTo};
ghost use Rattle.cs_node.specs.Logged.{HasLogged};
ghost use Rattle.cs_node.specs.Recovery.{Explains, HasCause, IsLeft, IsQuiet, LeavesWhole};
ghost use Rattle.cs_node.specs.States.{link_of, running_in, stopped_in};
ghost use Rattle.cs_node.specs.Told.{log_told};
ghost use Rattle.cs_node.specs.declared.folding.Folded.TheVariants as folded;

use crate::folding::{Folded, fold};
use crate::{Node, State, Stopped, Why};
use cs_link::Link;
use cs_log::{Log, LogFailed, scan};
use std::alloc::Global;

// Reads the log, folds its entries, cuts a torn tail and syncs.
fn folded_log<G: Log>(alloc: Global, log: &mut G) -> Result<Node, Why>
    ensures node { IfOk result (λ node. IfSome (G.bytes log.old) (λ bytes. FoldsTo bytes (folded.Gives node))) }
    ensures logged { IfOk result (λ node. HasLogged (G.synced log.new) (G.bytes log.new) node) }
    ensures whole { OnOk result (LeavesWhole (G.bytes log.old) (G.bytes log.new)) }
    ensures quiet { OnOk result (IsQuiet (log_told G.Log log.old) (log_told G.Log log.new)) }
    ensures why { IfErr result (λ reason. IfSome (G.bytes log.old) (Explains reason)) }
    ensures left { IfErr result (λ reason. IsLeft reason (log_told G.Log log.old) (log_told G.Log log.new)) }
{
    let bytes = log.read_all()?;
    let frames = scan(alloc, bytes.as_slice())?;
    let node = match fold(alloc, &frames)? {
        Folded::Gives(node) => node,
        Folded::Empty => return Err(Why::Empty),
        Folded::Bad(place) => return Err(Why::Bad(place)),
    };
    keep_front(log, frames.whole_len())?;
    Ok(node)
}

// Leaves the first so many bytes, all of them synced.
fn keep_front<G: Log>(log: &mut G, len: u64) -> Result<(), LogFailed>
    requires { IfSome (G.bytes log.old) (λ bytes. len ≤ length bytes) }
    ensures ok { OnOk result (G.bytes log.new ≡ cut_to len (G.bytes log.old)) }
    ensures synced { OnOk result (IfSome (G.bytes log.new) (λ bytes. G.synced log.new ≡ length bytes)) }
    ensures err { OnErr result ((G.bytes log.new ≡ G.bytes log.old)
        ⊎ (G.bytes log.new ≡ cut_to len (G.bytes log.old))) }
    ensures quiet { OnOk result (IsQuiet (log_told G.Log log.old) (log_told G.Log log.new)) }
    ensures failed { OnErr result (HasRisen (G.faults log.old) (G.faults log.new)
        × HasCause (log_told G.Log log.old) (log_told G.Log log.new)) }
{
    log.cut(len)?;
    log.sync()
}

/// A node by its log: the one that the whole frames of the log give, in the state that it is in. A torn tail is cut
/// off. A log that gives no node stops with the reason, and so does one that fails.
pub fn recover<L: Link, G: Log>(alloc: Global, link: L, mut log: G) -> State<L, G>
    ensures link { link_of result ≡ link }
    ensures running { IfSome (running_in result) (λ s. IfSome (G.bytes log)
        (λ bytes. FoldsTo bytes (folded.Gives s.node) × LeavesWhole (G.bytes log) (G.bytes s.log))) }
    ensures logged { IfSome (running_in result) (λ s. HasLogged (G.synced s.log) (G.bytes s.log) s.node) }
    ensures quiet { IfSome (running_in result) (λ s. IsQuiet (log_told G.Log log) (log_told G.Log s.log)) }
    ensures stopped { IfSome (stopped_in result) (λ s. IfSome (G.bytes log) (Explains s.why)
        × IsLeft s.why (log_told G.Log log) (log_told G.Log s.log)) }
{
    match folded_log(alloc, &mut log) {
        Ok(node) => State::of(alloc, node, link, log),
        Err(why) => State::Stopped(Stopped { link, log, why }),
    }
}
