ghost use Rattle.std.specs.Prelude.{◌≡◌};
ghost use Rattle.cs_fields.specs.declared.fault.PacketFault.TheVariants.{Memory};

use std::alloc::{AllocError, AllocFailed};
use thiserror::Error;

/// The first fault of bytes in the order of their fields. A place counts bytes from 0.
#[derive(Clone, Copy, Debug, PartialEq, Eq, Drop, Error)]
pub enum PacketFault {
    /// The bytes end inside the field that begins here.
    #[error("the bytes end within a field")]
    Short(u32),
    /// All fields were read, and bytes are left from here on.
    #[error("bytes are left behind the last field")]
    Extra(u32),
    #[error("another version")]
    Version(u8),
    #[error("another kind")]
    Kind(u8),
    /// The field that begins here has a value that isn't allowed.
    #[error("a field has a value that isn't allowed")]
    Value(u32),
    #[error("out of memory")]
    Memory,
}

impl From<AllocError> for PacketFault {
    ghost from_gives = { λ _ fault. fault ≡ Memory };

    fn from(_error: AllocError) -> PacketFault {
        PacketFault::Memory
    }
}

impl<T: Drop> From<AllocFailed<T>> for PacketFault {
    ghost from_gives = { λ _ fault. fault ≡ Memory };

    fn from(_error: AllocFailed<T>) -> PacketFault {
        PacketFault::Memory
    }
}
