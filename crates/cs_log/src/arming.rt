ghost use Rattle.std.specs.Prelude.{◌≡◌, ◌+◌, ◌≤◌, IsErr};
ghost use Rattle.cs_log.specs.Faults.{HasRisen};
ghost use Rattle.cs_log.specs.declared.armed.Tear.TheVariants.{Nothing, Append, Sync};

use crate::{Armed, Log, LogFailed, ReadAllFault, Tear};
use cs_piece::Piece;
use std::alloc::AllocError;

/// Any log as one that can be armed. It passes each call on, and adds the failures that an arm causes.
#[derive(Debug, Drop)]
pub struct Arming<G> {
    inner: G,
    tear: Tear,
    torn: u64,
}

impl<G: Log> Arming<G> {
    /// The log, with nothing armed.
    pub fn new(inner: G) -> Arming<G>
        ensures inner { result.inner ≡ inner }
        ensures tear { ⟦<Arming<G> as Log>⟧.tear result ≡ Nothing }
        ensures faults { ⟦<Arming<G> as Log>⟧.faults result ≡ G.faults inner }
    {
        Arming {
            inner,
            tear: Tear::Nothing,
            torn: 0,
        }
    }

    pub fn into_inner(self) -> G
        ensures { result ≡ self.inner }
    {
        let Arming {
            inner,
            tear: _,
            torn: _,
        } = self;
        inner
    }
}

// Counts a failure that an arm caused, after which nothing is armed.
fn fire(tear: &mut Tear, torn: &mut u64) -> Result<(), LogFailed>
    ensures fails { IsErr result }
    ensures tear { tear.new ≡ Nothing }
    ensures counts { torn.old ≤ torn.new }
    ensures risen { HasRisen torn.old torn.new }
{
    *tear = Tear::Nothing;
    *torn = torn.saturating_add(1);
    Err(LogFailed)
}

impl<G: Log> Log for Arming<G> {
    ghost bytes = { λ log. G.bytes log.inner };

    ghost synced = { λ log. G.synced log.inner };

    ghost spare = { λ log. G.spare log.inner };

    ghost faults = { λ log. G.faults log.inner + log.torn };

    ghost own_faults = { λ log. G.faults log.inner };

    ghost tear = { λ log. log.tear };

    ghost within = { λ log. G.within log.inner };

    fn ready(&mut self, n: u64) -> Result<(), AllocError> {
        self.inner.ready(n)
    }

    fn append(&mut self, piece: &[u8]) -> Result<(), LogFailed> {
        match self.tear {
            Tear::Append(kept) if kept < piece.len() as u64 => {
                self.inner.append(&piece[..kept as usize])?;
                fire(&mut self.tear, &mut self.torn)
            }
            Tear::Append(kept) => {
                self.inner.append(piece)?;
                self.tear = Tear::Sync(kept);
                Ok(())
            }
            Tear::Nothing | Tear::Sync(_) => self.inner.append(piece),
        }
    }

    fn sync(&mut self) -> Result<(), LogFailed> {
        match self.tear {
            Tear::Sync(_) => fire(&mut self.tear, &mut self.torn),
            Tear::Nothing | Tear::Append(_) => self.inner.sync(),
        }
    }

    fn cut(&mut self, len: u64) -> Result<(), LogFailed> {
        self.inner.cut(len)
    }

    fn read_all(&mut self) -> Result<Piece, ReadAllFault> {
        self.inner.read_all()
    }
}

impl<G: Log> Armed for Arming<G> {
    fn arm(&mut self, b: u64) {
        self.tear = Tear::Append(b);
    }

    fn armed(&self) -> Option<u64> {
        match self.tear {
            Tear::Nothing => None,
            Tear::Append(b) | Tear::Sync(b) => Some(b),
        }
    }
}

#[cfg(test)]
mod tests {
    use super::*;

    #[test]
    fn torn_calls_are_counted_up_to_the_last_number(rt: HostRuntime) {
        let mut tear = Tear::Sync(0);
        let mut torn = u64::MAX - 1;
        assert!(rt; fire(&mut tear, &mut torn).is_err());
        assert_eq!(rt; torn, u64::MAX);
        assert!(rt; fire(&mut tear, &mut torn).is_err());
        assert_eq!(rt; torn, u64::MAX);
        assert_eq!(rt; tear, Tear::Nothing);
    }
}
