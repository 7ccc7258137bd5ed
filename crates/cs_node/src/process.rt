//! A node in its place, where bytes come to it.

ghost use Rattle.std.specs.Prelude.{◌≡◌, ◌≤◌, length, None, Some, IfSome, IsSomeAnd, IsOk, IfOk, IfErr, is_some};
ghost use Rattle.std.specs.Option.{option_and_then, option_copied};
ghost use Rattle.cs_link.specs.Received.{most_datagram};
ghost use Rattle.cs_node.specs.Logged.{Survives};
ghost use Rattle.cs_node.specs.Node.{view_of};
ghost use Rattle.cs_node.specs.Placed.{running};
ghost use Rattle.cs_node.specs.States.{link_of, log_of, status_of};
ghost use Rattle.cs_node.specs.Receiving.{HasReceived};
ghost use Rattle.cs_node.specs.Told.{link_told};
ghost use Rattle.cs_node.specs.declared.node.Node.{Node as ANode};

use crate::acting::{Carried, carry_out_on};
use crate::{Following, Joining, Leading, Left, Node, Note, State, Stopped};
use cs_link::{Link, LinkFailed};
use cs_log::Log;
use cs_view::View;
use std::alloc::Global;
use std::marker::Model;

/// A node with its link and its log in their place: bytes that come to it move none of them. None runs there after a
/// crash, and where its log failed.
#[derive(Drop)]
pub struct Process<L: Link, G: Log> {
    pub(crate) alloc: Global,
    pub(crate) node: Option<Node>,
    pub(crate) link: L,
    pub(crate) log: G,
}

impl<L: Link, G: Log> Model for Process<L, G> {
    ghost use Rattle.std.specs.Prelude.{IfSome};
    ghost use Rattle.cs_node.specs.Logged.{HasLogged};
    ghost use Rattle.cs_node.specs.Placed.{Placed};

    ghost Value = { Placed L G };

    ghost view = { λ p. record { node = p.node; link = p.link; log = p.log } };

    ghost invariant = { λ p. IfSome p.node (HasLogged (G.synced p.log) (G.bytes p.log)) };
}

impl<L: Link, G: Log> Process<L, G> {
    ghost use Rattle.cs_node.specs.Effects.{on_bytes};
    ghost use Rattle.cs_node.specs.Placed.{HasActed};

    /// The node of a state. One that stopped doesn't run.
    pub fn of(alloc: Global, state: State<L, G>) -> Self
        ensures node { result.node ≡ running (status_of state) }
        ensures link { result.link ≡ link_of state }
        ensures log { result.log ≡ log_of state }
    {
        let (node, link, log) = match state {
            State::Joining(
                Joining {
                    node,
                    link,
                    log,
                    ..
                },
            ) => (Some(Node::Follower(node)), link, log),
            State::Following(
                Following {
                    node,
                    link,
                    log,
                    ..
                },
            ) => (Some(Node::Follower(node)), link, log),
            State::Leading(
                Leading {
                    node,
                    link,
                    log,
                    ..
                },
            ) => (Some(Node::Leader(node)), link, log),
            State::Left(Left { link, log, .. }) => (Some(Node::Left), link, log),
            State::Stopped(Stopped { link, log, .. }) => (None, link, log),
        };
        Process {
            alloc,
            node,
            link,
            log,
        }
    }

    /// One in which no node runs.
    pub fn down(alloc: Global, link: L, log: G) -> Self
        ensures node { result.node ≡ None }
        ensures link { result.link ≡ link }
        ensures log { result.log ≡ log }
    {
        Process {
            alloc,
            node: None,
            link,
            log,
        }
    }

    /// The state of the node that runs, or else the link and the log.
    pub fn state(self) -> Result<State<L, G>, (L, G)>
        ensures up { IfOk result (λ state. (self.node ≡ running (status_of state)) × IsOk (status_of state)
            × (self.link ≡ link_of state) × (self.log ≡ log_of state)) }
        ensures down { IfErr result (λ ends. (self.node ≡ None) × (self.link ≡ ends.0) × (self.log ≡ ends.1)) }
    {
        let Process {
            alloc,
            node,
            link,
            log,
        } = self;
        match node {
            Some(node) => Ok(State::of(alloc, node, link, log)),
            None => Err((link, log)),
        }
    }

    /// The node that runs.
    pub fn node(&self) -> Option<&Node>
        ensures { option_copied result ≡ self.now.node }
    {
        self.node.as_ref()
    }

    pub fn is_up(&self) -> bool
        ensures { result ≡ is_some self.now.node }
    {
        self.node.is_some()
    }

    pub fn link(&self) -> &L
        ensures { result.now ≡ self.now.link }
    {
        &self.link
    }

    /// The view of a member and of the leader.
    pub fn view(&self) -> Option<&View>
        ensures { option_copied result ≡ option_and_then view_of self.now.node }
    {
        match &self.node {
            Some(node) => node.view(),
            None => None,
        }
    }

    /// Receives the next datagram into the front of the buffer, and gives its size; nothing where none is waiting.
    /// Where no node runs the link receives too.
    pub fn recv(&mut self, buf: &mut [u8]) -> Result<Option<usize>, LinkFailed>
        requires { most_datagram ≤ length buf.old }
        ensures node { self.new.node ≡ self.old.node }
        ensures link { HasReceived (link_told L.Link self.old.link) buf.new result (link_told L.Link self.new.link) }
        ensures log { self.new.log ≡ self.old.log }
    {
        self.link.recv(buf)
    }

    /// Bytes come, those of a packet or not. Where no node runs nothing is done.
    pub fn deliver(&mut self, bytes: &[u8]) -> Option<Note>
        ensures up { (node : ANode) → self.old.node ≡ Some node
            → IsSomeAnd result (λ note. HasActed L.Link G.Log node (on_bytes node bytes.now) self.old note self.new) }
        ensures down { self.old.node ≡ None → (result ≡ None) × (self.new ≡ self.old) }
    {
        let node = self.node.take()?;
        let decided = node.deliver(self.alloc, bytes);
        let Carried { node, note } = carry_out_on(
            self.alloc,
            node,
            decided,
            &mut self.link,
            &mut self.log,
        );
        self.node = node;
        Some(note)
    }

    /// Ends the process: its link and its log are handed back. Where a node ran, whatever a crash leaves of the log
    /// gives it again.
    pub fn stop(self) -> (L, G)
        ensures link { result.0 ≡ self.link }
        ensures log { result.1 ≡ self.log }
        ensures survives { IfSome self.node (λ node. IfSome (G.bytes self.log)
            (λ bytes. Survives (G.synced self.log) bytes node)) }
    {
        let Process { link, log, .. } = self;
        (link, log)
    }
}
