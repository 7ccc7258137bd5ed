use crate::{Change, Copied, Items};
use std::alloc::AllocError;

impl Copied for Change {
    fn copied(&self) -> Result<Self, AllocError> {
        Ok(*self)
    }
}

/// A list of changes.
pub type Changes = Items<Change>;
