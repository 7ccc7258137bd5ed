ghost use Rattle.std.specs.Prelude.{◌≡◌};
ghost use Rattle.cs_core.specs.declared.refusal.Refusal.TheVariants.{Memory};

use crate::Unfit;
use std::alloc::AllocError;

/// Why a rule comes to no plan: what came doesn't fit, or memory ran out.
#[derive(Clone, Copy, Drop)]
pub(crate) enum Refusal {
    Unfit(Unfit),
    Memory,
}

impl From<AllocError> for Refusal {
    ghost from_gives = { λ _ refusal. refusal ≡ Memory };

    fn from(_error: AllocError) -> Refusal {
        Refusal::Memory
    }
}
