//! What the blocks of all who hold an epoch have in common.

ghost use Rattle.std.specs.Prelude.{◌≡◌, ◌++◌, IfOk, IsTrue, OnOk};
ghost use Rattle.std.specs.String.{string_bytes};
ghost use Rattle.cs_tree.specs.Kept.{kept_trees};
ghost use Rattle.cs_show.specs.Block.{digest_of, inter_lines, shared_lines};
ghost use Rattle.cs_show.specs.Text.{text_of};
ghost use Rattle.sha2.specs.Sha256.{sha256};
ghost use Rattle.std.proofs.Props.{props};

use crate::lines::put_regions;
use crate::trees::{put_inters, put_kept_inters};
use cs_roll::are_alike;
use cs_tree::Kept;
use cs_view::View;
use sha2::{Digest, Sha256};
use std::alloc::{AllocError, Global};
use std::fmt::Write;

/// The lines that stand in the blocks of all who hold an epoch, and their digest. They don't depend on which regions
/// are known.
#[derive(Drop)]
pub(crate) struct Common {
    /// A view of the epoch.
    pub view: View,
    /// The epoch, and each region with its globals.
    pub regions: String,
    /// The trees of the regions.
    pub inters: String,
    pub digest: [u8; 32],
    ghost listed: { string_bytes regions ≡ text_of (shared_lines view) } by { Prim.hlevel props },
    ghost rooted: { string_bytes inters ≡ text_of (inter_lines view.summaries) } by { Prim.hlevel props },
    ghost digested: { digest ≡ digest_of view } by { Prim.hlevel props },
}

impl Common {
    /// What a view has in common with those of its epoch.
    pub fn new(alloc: Global, view: &View) -> Result<Self, AllocError>
        ensures { IfOk result (λ common. common.view ≡ view.now) }
    {
        let mut inters = String::new(alloc);
        put_inters(&mut inters, view)?;
        Common::with(alloc, view, inters)
    }

    /// The same, with the trees of the view that are kept beside it.
    pub fn kept(alloc: Global, view: &View, kept: &Kept) -> Result<Self, AllocError>
        requires { kept.now ≡ kept_trees view.now.summaries view.now.rolls }
        ensures { IfOk result (λ common. common.view ≡ view.now) }
    {
        let mut inters = String::new(alloc);
        put_kept_inters(&mut inters, view, kept)?;
        Common::with(alloc, view, inters)
    }

    // The same, with the lines of the trees.
    fn with(alloc: Global, view: &View, inters: String) -> Result<Self, AllocError>
        requires { string_bytes inters ≡ text_of (inter_lines view.now.summaries) }
        ensures { IfOk result (λ common. common.view ≡ view.now) }
    {
        let mut regions = String::new(alloc);
        put_shared(&mut regions, view)?;
        let digest = sha256(regions.as_bytes(), inters.as_bytes());
        let view = view.copy()?;
        Ok(Common {
            view,
            regions,
            inters,
            digest,
        })
    }

    /// Whether a view has the same epoch and summaries.
    pub fn is_of(&self, view: &View) -> bool
        ensures { IsTrue result → (self.now.view.epoch ≡ view.now.epoch)
            × (self.now.view.summaries ≡ view.now.summaries) }
    {
        self.view.epoch() == view.epoch() && are_alike(self.view.summaries(), view.summaries())
    }
}

// The epoch, and each region with its globals.
fn put_shared(out: &mut String, view: &View) -> Result<(), AllocError>
    ensures { OnOk result (string_bytes out.new ≡ string_bytes out.old ++ text_of (shared_lines view.now)) }
{
    let epoch = view.epoch();
    writeln!(out, "epoch {epoch}")?;
    put_regions(out, view)
}

// The SHA-256 of two texts, one behind the other.
fn sha256(front: &[u8], back: &[u8]) -> [u8; 32]
    ensures { result ≡ sha256 (front.now ++ back.now) }
{
    let mut hasher = Sha256::new();
    hasher.update(front);
    hasher.update(back);
    hasher.finalize()
}
