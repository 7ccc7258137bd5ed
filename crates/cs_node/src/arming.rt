//! A node whose log can be armed is armed by its log.

ghost use Rattle.std.specs.Prelude.{◌≡◌};
ghost use Rattle.cs_log.specs.Tears.{armed_number};
ghost use Rattle.cs_log.specs.declared.armed.Tear.TheVariants.{Append};
ghost use Rattle.cs_node.specs.States.{link_of, log_of, status_of};
ghost use Rattle.cs_node.specs.Told.{log_told};

use crate::{Following, Joining, Leading, Left, Process, State, Stopped};
use cs_link::Link;
use cs_log::Armed;

impl<L: Link, G: Armed> Joining<L, G> {
    /// Arms the log with a number of bytes, in the place of what was armed before.
    pub fn arm(&mut self, b: u64)
        ensures node { self.new.node ≡ self.old.node }
        ensures link { self.new.link ≡ self.old.link }
        ensures log { log_told G.Log self.new.log ≡ record (log_told G.Log self.old.log) { tear = Append b } }
    {
        self.log.arm(b);
    }

    /// The number that is armed.
    pub fn armed(&self) -> Option<u64>
        ensures { result ≡ armed_number (G.tear self.now.log) }
    {
        self.log.armed()
    }
}

impl<L: Link, G: Armed> Following<L, G> {
    /// Arms the log with a number of bytes, in the place of what was armed before.
    pub fn arm(&mut self, b: u64)
        ensures node { self.new.node ≡ self.old.node }
        ensures link { self.new.link ≡ self.old.link }
        ensures log { log_told G.Log self.new.log ≡ record (log_told G.Log self.old.log) { tear = Append b } }
    {
        self.log.arm(b);
    }

    /// The number that is armed.
    pub fn armed(&self) -> Option<u64>
        ensures { result ≡ armed_number (G.tear self.now.log) }
    {
        self.log.armed()
    }
}

impl<L: Link, G: Armed> Leading<L, G> {
    /// Arms the log with a number of bytes, in the place of what was armed before.
    pub fn arm(&mut self, b: u64)
        ensures node { self.new.node ≡ self.old.node }
        ensures link { self.new.link ≡ self.old.link }
        ensures log { log_told G.Log self.new.log ≡ record (log_told G.Log self.old.log) { tear = Append b } }
    {
        self.log.arm(b);
    }

    /// The number that is armed.
    pub fn armed(&self) -> Option<u64>
        ensures { result ≡ armed_number (G.tear self.now.log) }
    {
        self.log.armed()
    }
}

impl<L: Link, G: Armed> Left<L, G> {
    /// Arms the log with a number of bytes, in the place of what was armed before.
    pub fn arm(&mut self, b: u64)
        ensures node { self.new.node ≡ self.old.node }
        ensures link { self.new.link ≡ self.old.link }
        ensures log { log_told G.Log self.new.log ≡ record (log_told G.Log self.old.log) { tear = Append b } }
    {
        self.log.arm(b);
    }

    /// The number that is armed.
    pub fn armed(&self) -> Option<u64>
        ensures { result ≡ armed_number (G.tear self.now.log) }
    {
        self.log.armed()
    }
}

impl<L, G: Armed> Stopped<L, G> {
    /// Arms the log with a number of bytes, in the place of what was armed before.
    pub fn arm(&mut self, b: u64)
        ensures why { self.new.why ≡ self.old.why }
        ensures link { self.new.link ≡ self.old.link }
        ensures log { log_told G.Log self.new.log ≡ record (log_told G.Log self.old.log) { tear = Append b } }
    {
        self.log.arm(b);
    }

    /// The number that is armed.
    pub fn armed(&self) -> Option<u64>
        ensures { result ≡ armed_number (G.tear self.now.log) }
    {
        self.log.armed()
    }
}

impl<L: Link, G: Armed> State<L, G> {
    /// Arms the log with a number of bytes, in the place of what was armed before, whatever the state.
    pub fn arm(&mut self, b: u64)
        ensures status { status_of self.new ≡ status_of self.old }
        ensures link { link_of self.new ≡ link_of self.old }
        ensures log { log_told G.Log (log_of self.new)
            ≡ record (log_told G.Log (log_of self.old)) { tear = Append b } }
    {
        match self {
            State::Joining(s) => s.arm(b),
            State::Following(s) => s.arm(b),
            State::Leading(s) => s.arm(b),
            State::Left(s) => s.arm(b),
            State::Stopped(s) => s.arm(b),
        }
    }

    /// The number that is armed.
    pub fn armed(&self) -> Option<u64>
        ensures { result ≡ armed_number (G.tear (log_of self.now)) }
    {
        match self {
            State::Joining(s) => s.armed(),
            State::Following(s) => s.armed(),
            State::Leading(s) => s.armed(),
            State::Left(s) => s.armed(),
            State::Stopped(s) => s.armed(),
        }
    }
}

impl<L: Link, G: Armed> Process<L, G> {
    /// Arms the log with a number of bytes, in the place of what was armed before, whether a node runs or not.
    pub fn arm(&mut self, b: u64)
        ensures node { self.new.node ≡ self.old.node }
        ensures link { self.new.link ≡ self.old.link }
        ensures log { log_told G.Log self.new.log ≡ record (log_told G.Log self.old.log) { tear = Append b } }
    {
        self.log.arm(b);
    }

    /// The number that is armed.
    pub fn armed(&self) -> Option<u64>
        ensures { result ≡ armed_number (G.tear self.now.log) }
    {
        self.log.armed()
    }
}
