ghost use Rattle.std.specs.Prelude.{◌≡◌, ◌++◌, IfOk, OnOk, OnErr};
ghost use Rattle.std.specs.String.{string_bytes};
ghost use Rattle.cs_tree.specs.Kept.{kept_trees};
ghost use Rattle.cs_show.specs.Block.{IsCommonOf, block_lines, digest_line, digest_of};
ghost use Rattle.cs_show.specs.Text.{ended, text_of};

use crate::common::Common;
use crate::lines::put_rolls;
use crate::memo::BlockMemo;
use crate::trees::put_locals;
use cs_tree::Kept;
use cs_view::View;
use std::alloc::{AllocError, Global};
use std::fmt::Write;
use std::rc::Rc;

/// Appends the block of a view: its epoch, each region with its globals, the members of the known regions, the trees
/// of the regions, the local trees of the known regions, the digest and `end`.
pub fn show(view: &View, out: &mut Vec<u8>) -> Result<(), AllocError>
    ensures ok { OnOk result (out.new.items ≡ out.old.items ++ text_of (block_lines view.now)) }
    ensures err { OnErr result (out.new.items ≡ out.old.items) }
{
    // What every view keeps says that it lists some region.
    let _known = view.known();
    let kept = Kept::new(*out.allocator(), view)?;
    show_kept(view, &kept, out)
}

/// As `show`, with the trees of the view that are kept beside it.
pub fn show_kept(view: &View, kept: &Kept, out: &mut Vec<u8>) -> Result<(), AllocError>
    requires { kept.now ≡ kept_trees view.now.summaries view.now.rolls }
    ensures ok { OnOk result (out.new.items ≡ out.old.items ++ text_of (block_lines view.now)) }
    ensures err { OnErr result (out.new.items ≡ out.old.items) }
{
    show_kept_by(&BlockMemo::none(), view, kept, out)
}

/// As `show_kept`, by what a memo has where the same epoch was shown last.
pub fn show_kept_by(
    memo: &BlockMemo,
    view: &View,
    kept: &Kept,
    out: &mut Vec<u8>,
) -> Result<(), AllocError>
    requires { kept.now ≡ kept_trees view.now.summaries view.now.rolls }
    ensures ok { OnOk result (out.new.items ≡ out.old.items ++ text_of (block_lines view.now)) }
    ensures err { OnErr result (out.new.items ≡ out.old.items) }
{
    let text = block_text(memo, *out.allocator(), view, kept)?;
    out.extend_from_slice(text.as_bytes())
}

/// The SHA-256 of what the blocks of all who hold the epoch share: the epoch, region, global and inter lines.
pub fn digest(alloc: Global, view: &View) -> Result<[u8; 32], AllocError>
    ensures { IfOk result (λ digest. digest ≡ digest_of view.now) }
{
    digest_by(&BlockMemo::none(), alloc, view)
}

/// As `digest`, by what a memo has where the same epoch was shown last.
pub fn digest_by(memo: &BlockMemo, alloc: Global, view: &View) -> Result<[u8; 32], AllocError>
    ensures { IfOk result (λ digest. digest ≡ digest_of view.now) }
{
    match memo.find(view) {
        Some(common) => Ok(common.digest),
        None => {
            let common = memo.keep(alloc, Common::new(alloc, view)?)?;
            Ok(common.digest)
        }
    }
}

// What the view has in common with those of its epoch.
fn common_of(
    memo: &BlockMemo,
    alloc: Global,
    view: &View,
    kept: &Kept,
) -> Result<Rc<Common>, AllocError>
    requires { kept.now ≡ kept_trees view.now.summaries view.now.rolls }
    ensures { IfOk result (λ common. IsCommonOf view.now
        (string_bytes common.value.regions) (string_bytes common.value.inters) common.value.digest) }
{
    match memo.find(view) {
        Some(common) => Ok(common),
        None => {
            let common = memo.keep(alloc, Common::kept(alloc, view, kept)?)?;
            Ok(common)
        }
    }
}

// The block as a text.
fn block_text(
    memo: &BlockMemo,
    alloc: Global,
    view: &View,
    kept: &Kept,
) -> Result<String, AllocError>
    requires { kept.now ≡ kept_trees view.now.summaries view.now.rolls }
    ensures { IfOk result (λ text. string_bytes text ≡ text_of (block_lines view.now)) }
{
    let common = common_of(memo, alloc, view, kept)?;
    let mut text = String::new(alloc);
    text.push_str(&common.regions)?;
    put_rolls(&mut text, view.known())?;
    text.push_str(&common.inters)?;
    put_locals(&mut text, view, kept)?;
    put_digest(&mut text, common.digest)?;
    writeln!(text, "end")?;
    Ok(text)
}

fn put_digest(out: &mut String, digest: [u8; 32]) -> Result<(), AllocError>
    ensures { OnOk result (string_bytes out.new ≡ string_bytes out.old ++ ended (digest_line digest)) }
{
    let digits = hex::encode(*out.allocator(), digest)?;
    writeln!(out, "digest {digits}")
}
