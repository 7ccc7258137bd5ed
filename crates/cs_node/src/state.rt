ghost use Rattle.std.specs.Prelude.{◌≡◌, Some, IfSome, IfOk};
ghost use Rattle.std.specs.Option.{option_copied};
ghost use Rattle.cs_node.specs.Logged.{HasLogged, Survives};
ghost use Rattle.cs_node.specs.States.{IsOfItsKind, link_of, log_of, running_in, status_of, view_in};

use crate::{Following, Joining, Leading, Left, Node, Stopped};
use cs_core::ViewPool;
use cs_link::Link;
use cs_log::Log;
use cs_view::View;
use std::alloc::Global;

/// A node with its link and its log, in any state.
#[derive(Drop)]
pub enum State<L: Link, G: Log> {
    Joining(Joining<L, G>),
    Following(Following<L, G>),
    Leading(Leading<L, G>),
    Left(Left<L, G>),
    Stopped(Stopped<L, G>),
}

impl<L: Link, G: Log> State<L, G> {
    /// The state that a node is in.
    pub(crate) fn of(alloc: Global, node: Node, link: L, log: G) -> Self
        requires { HasLogged (G.synced log) (G.bytes log) node }
        ensures running { running_in result ≡ Some (record { node = node; link = link; log = log }) }
        ensures status { status_of result ≡ Ok node }
        ensures link { link_of result ≡ link }
        ensures log { log_of result ≡ log }
    {
        match node {
            Node::Follower(node) if node.view().is_some() => State::Following(Following {
                alloc,
                node,
                link,
                log,
            }),
            Node::Follower(node) => State::Joining(Joining {
                alloc,
                node,
                link,
                log,
            }),
            Node::Leader(node) => State::Leading(Leading {
                alloc,
                node,
                link,
                log,
            }),
            Node::Left => State::Left(Left { alloc, link, log }),
        }
    }

    /// The same node in the same state. One that isn't the leader has a pool of views in common with other nodes from
    /// now on.
    pub fn sharing(self, pool: ViewPool) -> Self
        ensures { result ≡ self }
    {
        match self {
            State::Joining(s) => State::Joining(s.sharing(pool)),
            State::Following(s) => State::Following(s.sharing(pool)),
            state => state,
        }
    }

    /// The link, whatever the state.
    pub fn link(&self) -> &L
        ensures { result.now ≡ link_of self.now }
    {
        match self {
            State::Joining(s) => &s.link,
            State::Following(s) => &s.link,
            State::Leading(s) => &s.link,
            State::Left(s) => &s.link,
            State::Stopped(s) => &s.link,
        }
    }

    /// A law: a node that runs is of the kind that its state says.
    pub fn is_of_its_kind(&self)
        ensures { IsOfItsKind self.now }
    {
        // What a state's type keeps is known where its fields are read.
        match self {
            State::Joining(s) => {
                let _node = &s.node;
            }
            State::Following(s) => {
                let _node = &s.node;
            }
            State::Leading(s) => {
                let _node = &s.node;
            }
            State::Left(s) => {
                let _log = &s.log;
            }
            State::Stopped(_) => {}
        }
    }

    /// The view of a member and of the leader.
    pub fn view(&self) -> Option<&View>
        ensures { option_copied result ≡ view_in self.now }
    {
        self.is_of_its_kind();
        match self {
            State::Following(s) => Some(s.view()),
            State::Leading(s) => Some(s.view()),
            State::Joining(_) | State::Left(_) | State::Stopped(_) => None,
        }
    }

    /// Ends the node, in whatever state it is: its link and its log are handed back. Where it ran, whatever a crash
    /// leaves of the log gives it again.
    pub fn stop(self) -> (L, G)
        ensures link { result.0 ≡ link_of self }
        ensures log { result.1 ≡ log_of self }
        ensures survives { IfOk (status_of self) (λ node. IfSome (G.bytes (log_of self))
            (λ bytes. Survives (G.synced (log_of self)) bytes node)) }
    {
        match self {
            State::Joining(s) => s.stop(),
            State::Following(s) => s.stop(),
            State::Leading(s) => s.stop(),
            State::Left(s) => s.stop(),
            State::Stopped(s) => s.stop(),
        }
    }
}
