//! A node receives datagrams through its link.

ghost use Rattle.std.specs.Prelude.{◌≡◌, ◌≤◌, length};
ghost use Rattle.cs_link.specs.Received.{most_datagram};
ghost use Rattle.cs_node.specs.Receiving.{HasReceived};
ghost use Rattle.cs_node.specs.States.{link_of, log_of, status_of};
ghost use Rattle.cs_node.specs.Told.{link_told};

use crate::{Following, Joining, Leading, Left, State, Stopped};
use cs_link::{Link, LinkFailed};
use cs_log::Log;

impl<L: Link, G: Log> Joining<L, G> {
    /// Receives the next datagram into the front of the buffer, and gives its size; nothing where none is waiting.
    pub fn recv(&mut self, buf: &mut [u8]) -> Result<Option<usize>, LinkFailed>
        requires { most_datagram ≤ length buf.old }
        ensures node { self.new.node ≡ self.old.node }
        ensures link { HasReceived (link_told L.Link self.old.link) buf.new result (link_told L.Link self.new.link) }
        ensures log { self.new.log ≡ self.old.log }
    {
        self.link.recv(buf)
    }
}

impl<L: Link, G: Log> Following<L, G> {
    /// Receives the next datagram into the front of the buffer, and gives its size; nothing where none is waiting.
    pub fn recv(&mut self, buf: &mut [u8]) -> Result<Option<usize>, LinkFailed>
        requires { most_datagram ≤ length buf.old }
        ensures node { self.new.node ≡ self.old.node }
        ensures link { HasReceived (link_told L.Link self.old.link) buf.new result (link_told L.Link self.new.link) }
        ensures log { self.new.log ≡ self.old.log }
    {
        self.link.recv(buf)
    }
}

impl<L: Link, G: Log> Leading<L, G> {
    /// Receives the next datagram into the front of the buffer, and gives its size; nothing where none is waiting.
    pub fn recv(&mut self, buf: &mut [u8]) -> Result<Option<usize>, LinkFailed>
        requires { most_datagram ≤ length buf.old }
        ensures node { self.new.node ≡ self.old.node }
        ensures link { HasReceived (link_told L.Link self.old.link) buf.new result (link_told L.Link self.new.link) }
        ensures log { self.new.log ≡ self.old.log }
    {
        self.link.recv(buf)
    }
}

impl<L: Link, G: Log> Left<L, G> {
    /// Receives the next datagram into the front of the buffer, and gives its size; nothing where none is waiting.
    pub fn recv(&mut self, buf: &mut [u8]) -> Result<Option<usize>, LinkFailed>
        requires { most_datagram ≤ length buf.old }
        ensures node { self.new.node ≡ self.old.node }
        ensures link { HasReceived (link_told L.Link self.old.link) buf.new result (link_told L.Link self.new.link) }
        ensures log { self.new.log ≡ self.old.log }
    {
        self.link.recv(buf)
    }
}

impl<L: Link, G> Stopped<L, G> {
    /// Receives the next datagram into the front of the buffer, and gives its size; nothing where none is waiting.
    pub fn recv(&mut self, buf: &mut [u8]) -> Result<Option<usize>, LinkFailed>
        requires { most_datagram ≤ length buf.old }
        ensures why { self.new.why ≡ self.old.why }
        ensures link { HasReceived (link_told L.Link self.old.link) buf.new result (link_told L.Link self.new.link) }
        ensures log { self.new.log ≡ self.old.log }
    {
        self.link.recv(buf)
    }
}

impl<L: Link, G: Log> State<L, G> {
    /// Receives the next datagram into the front of the buffer, and gives its size, whatever the state; nothing where
    /// none is waiting.
    pub fn recv(&mut self, buf: &mut [u8]) -> Result<Option<usize>, LinkFailed>
        requires { most_datagram ≤ length buf.old }
        ensures status { status_of self.new ≡ status_of self.old }
        ensures link { HasReceived (link_told L.Link (link_of self.old)) buf.new result
            (link_told L.Link (link_of self.new)) }
        ensures log { log_of self.new ≡ log_of self.old }
    {
        match self {
            State::Joining(s) => s.recv(buf),
            State::Following(s) => s.recv(buf),
            State::Leading(s) => s.recv(buf),
            State::Left(s) => s.recv(buf),
            State::Stopped(s) => s.recv(buf),
        }
    }
}
