ghost use Rattle.std.specs.Prelude.{◌≡◌};

use crate::holding::Holding;
use cs_base::RegionId;
use std::marker::Model;

/// What came: its region, what is held with it, and the colours that became held, in the order in which they are sent.
#[derive(Drop)]
pub(crate) struct Gain {
    pub region: RegionId,
    pub held: Holding,
    pub colours: Vec<u8>,
}

impl Model for Gain {
    ghost use Rattle.cs_core.specs.Taking.{Gain};

    ghost Value = { Gain };

    ghost view = { λ gain. record { region = gain.region; held = gain.held; colours = gain.colours.items } };
}
