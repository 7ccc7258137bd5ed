ghost use Rattle.std.specs.Prelude.{◌≡◌, ℕ, ◌≤◌, [], ◌∷◌, ◌++◌, length, take, drop, None, OnOk, OnErr, IfSome};
ghost use Rattle.std.specs.List.{AllByRecursion};
ghost use Rattle.cs_link.specs.Counts.{counted};
ghost use Rattle.cs_link.specs.Received.{IsSmall, most_datagram};
ghost use Rattle.std.proofs.Props.{props};

use cs_piece::Piece;
use std::alloc::{AllocError, Global};
use std::collections::VecDeque;

/// The datagrams that wait, and the counts of receiving.
#[derive(Debug, Drop)]
pub(crate) struct Inbox {
    alloc: Global,
    pub waiting: VecDeque<Piece>,
    /// How many datagrams were received.
    pub taken: u64,
    /// How often nothing was waiting.
    pub dry: u64,
    ghost small: { AllByRecursion IsSmall waiting.items } by { Prim.hlevel props },
}

impl Inbox {
    pub fn new(alloc: Global) -> Self
        ensures waiting { result.waiting.items ≡ [] }
        ensures taken { result.taken ≡ 0 }
        ensures dry { result.dry ≡ 0 }
    {
        Inbox {
            alloc,
            waiting: VecDeque::new(alloc),
            taken: 0,
            dry: 0,
        }
    }

    /// Puts a datagram behind those that wait.
    pub fn arrive(&mut self, bytes: &[u8]) -> Result<(), AllocError>
        requires { IsSmall bytes.now }
        ensures ok { OnOk result (self.new.waiting.items ≡ self.old.waiting.items ++ bytes.now ∷ []) }
        ensures err { OnErr result (self.new.waiting.items ≡ self.old.waiting.items) }
        ensures taken { self.new.taken ≡ self.old.taken }
        ensures dry { self.new.dry ≡ self.old.dry }
    {
        let datagram = Piece::from_slice(self.alloc, bytes)?;
        self.waiting.push_back(datagram)?;
        Ok(())
    }

    /// Takes the next datagram into the front of the buffer, and gives its size.
    pub fn next(&mut self, buf: &mut [u8]) -> Option<usize>
        requires { most_datagram ≤ length buf.old }
        ensures size { IfSome result (λ n. n ≤ most_datagram) }
        ensures some { IfSome result (λ n. self.old.waiting.items ≡ take n buf.new ∷ self.new.waiting.items) }
        ensures some_taken { IfSome result (λ n. self.new.taken ≡ counted self.old.taken 1) }
        ensures some_dry { IfSome result (λ n. self.new.dry ≡ self.old.dry) }
        ensures none { result ≡ None → (self.old.waiting.items ≡ []) × (self.new.waiting.items ≡ []) }
        ensures none_taken { result ≡ None → self.new.taken ≡ self.old.taken }
        ensures none_dry { result ≡ None → self.new.dry ≡ counted self.old.dry 1 }
        ensures small { AllByRecursion IsSmall self.old.waiting.items }
    {
        let Some(datagram) = self.waiting.pop_front() else {
            self.dry = self.dry.saturating_add(1);
            return None;
        };
        self.taken = self.taken.saturating_add(1);
        let size = datagram.len();
        buf[..size].copy_from_slice(datagram.as_slice());
        Some(size)
    }
}
