//! What was shown last, for the next one who shows the same.

ghost use Rattle.std.specs.Prelude.{◌≡◌, IfOk, IfSome};
ghost use Rattle.std.specs.String.{string_bytes};
ghost use Rattle.cs_show.specs.Block.{IsCommonOf};

use crate::common::Common;
use cs_view::View;
use std::alloc::{AllocError, Global};
use std::cell::RefCell;
use std::rc::Rc;

/// The lines and the digest that the blocks of an epoch have in common, as they were made last. What is in the memo
/// stands in no clause: it saves time alone.
#[derive(Drop)]
pub struct BlockMemo {
    last: Option<RefCell<Option<Rc<Common>>>>,
}

impl BlockMemo {
    /// Nothing was made.
    pub fn new() -> Self {
        BlockMemo {
            last: Some(RefCell::new(None)),
        }
    }

    /// A memo that keeps nothing, for who shows one block alone.
    pub(crate) fn none() -> Self {
        BlockMemo { last: None }
    }

    /// What a view has in common with those of its epoch, where it was made last.
    pub(crate) fn find(&self, view: &View) -> Option<Rc<Common>>
        ensures { IfSome result (λ found. IsCommonOf view.now
            (string_bytes found.value.regions) (string_bytes found.value.inters) found.value.digest) }
    {
        let last = self.last.as_ref()?.try_borrow().ok()?;
        let found = last.as_ref()?;
        if !found.is_of(view) {
            return None;
        }
        match found.clone() {
            Ok(found) => Some(found),
            Err(_) => None,
        }
    }

    /// Keeps this in the place of what was made before, where there is memory for it.
    pub(crate) fn keep(&self, alloc: Global, common: Common) -> Result<Rc<Common>, AllocError>
        ensures { IfOk result (λ kept. kept.value ≡ common) }
    {
        let common = Rc::new(alloc, common)?;
        let _put = self.put(&common);
        Ok(common)
    }

    fn put(&self, common: &Rc<Common>) -> Option<()> {
        let common = common.clone().ok()?;
        let mut last = self.last.as_ref()?.try_borrow_mut().ok()?;
        *last = Some(common);
        Some(())
    }
}
