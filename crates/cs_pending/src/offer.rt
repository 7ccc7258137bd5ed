ghost use Rattle.std.specs.Prelude.{◌≡◌, ◌≢◌};
ghost use Rattle.cs_pending.specs.Counting.{counted, IsAtMost, no_counts};

/// What an offered change met.
#[derive(Clone, Copy, Debug, PartialEq, Eq)]
pub enum Offer {
    /// It went last.
    New,
    /// It took the place of a change about the same member with a smaller rank.
    Replaced,
    /// A change about the same member is there whose rank isn't smaller.
    Weaker,
    /// It would be one change too many.
    Full,
    /// It would have gone last, and there was no memory for it.
    Memory,
}

/// How many offers met what.
#[derive(Clone, Copy, Debug, PartialEq, Eq)]
pub struct Counts {
    pub fresh: u32,
    pub replaced: u32,
    pub weaker: u32,
    pub full: u32,
}

impl Counts {
    pub fn new() -> Self
        ensures { result ≡ no_counts }
    {
        Counts {
            fresh: 0,
            replaced: 0,
            weaker: 0,
            full: 0,
        }
    }

    /// One more offer met this. An offer for which there was no memory is in no count.
    pub fn count(&mut self, offer: Offer)
        requires { IsAtMost 4294967294 self.old }
        ensures { self.new ≡ counted self.old offer }
    {
        match offer {
            Offer::New => self.fresh += 1,
            Offer::Replaced => self.replaced += 1,
            Offer::Weaker => self.weaker += 1,
            Offer::Full => self.full += 1,
            Offer::Memory => {}
        }
    }
}
