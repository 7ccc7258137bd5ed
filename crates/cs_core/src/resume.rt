//! What a node becomes by an entry of its log.

ghost use Rattle.std.specs.Prelude.{◌≡◌, IfOk, Ok};
ghost use Rattle.std.specs.Option.{option_copied};
ghost use Rattle.cs_item.specs.PictureField.{IsPicture};
ghost use Rattle.cs_packet.specs.EntryField.{IsEntry};
ghost use Rattle.cs_packet.specs.SlicesField.{AreSlices};
ghost use Rattle.cs_core.specs.Kept.{IsGoodView};
ghost use Rattle.cs_core.specs.Node.{member};
ghost use Rattle.cs_core.specs.Resume.{after_seq, after_slices, after_view, as_taken, by_slices, is_below, resumed_by};
ghost use Rattle.cs_core.specs.Resume.{seq_of};

use crate::following::Following;
use crate::pool::ViewPool;
use crate::refusal::Refusal;
use crate::snapshots::no_pending;
use crate::taking::step_with;
use crate::{Follower, Resumed};
use cs_base::Epoch;
use cs_item::Picture;
use cs_packet::{Entry, Own, Slices};
use cs_view::{Next, View, ViewFault};
use std::alloc::{AllocError, Global};

pub(crate) fn resumed_by(
    alloc: Global,
    pool: &ViewPool,
    own: &Own,
    member: Option<&Following>,
    entry: &Entry,
) -> Result<Resumed, AllocError>
    requires { IsEntry entry.now }
    ensures { IfOk result (λ resumed. resumed ≡ resumed_by own.now (option_copied member.entry) entry.now) }
{
    match entry {
        Entry::Boot { .. } | Entry::Item { .. } | Entry::Base { .. } => Ok(Resumed::Breaks),
        Entry::Seq { seq, .. } => after_seq(own, member, *seq),
        Entry::View(picture) => after_view(alloc, pool, own, member, picture),
        Entry::Step(slices) => after_slices(own, member, slices),
        Entry::Gone { .. } => Ok(Resumed::Gone),
    }
}

// The node goes on as a member.
fn resumes_as(own: &Own, following: Following) -> Result<Resumed, AllocError>
    ensures { IfOk result (λ resumed. resumed ≡ Resumed.Next (member own.now following)) }
{
    Ok(Resumed::Next(Follower::member(own, following)?))
}

// The number of a move has to be one higher than the last one.
fn after_seq(own: &Own, member: Option<&Following>, seq: u32) -> Result<Resumed, AllocError>
    ensures { IfOk result (λ resumed. resumed ≡ after_seq own.now (option_copied member.entry) seq) }
{
    match member {
        Some(member) if member.seq() < seq && seq - member.seq() == 1 => {
            resumes_as(own, member.lasting(seq)?)
        }
        _ => Ok(Resumed::Breaks),
    }
}

// Whether the epoch is below that of the view.
fn is_below(epoch: Epoch, member: Option<&Following>) -> bool
    ensures { result ≡ is_below epoch (option_copied member.entry) }
{
    match member {
        Some(member) => epoch < member.view().epoch(),
        None => false,
    }
}

fn seq_of(member: Option<&Following>) -> u32
    ensures { result ≡ seq_of (option_copied member.entry) }
{
    match member {
        Some(member) => member.seq(),
        None => 0,
    }
}

// A view's epoch isn't below that of the last one.
fn after_view(
    alloc: Global,
    pool: &ViewPool,
    own: &Own,
    member: Option<&Following>,
    picture: &Picture,
) -> Result<Resumed, AllocError>
    requires { IsPicture picture.now }
    ensures { IfOk result (λ resumed. resumed ≡ after_view own.now (option_copied member.entry) picture.now) }
{
    if is_below(picture.epoch, member) {
        return Ok(Resumed::Breaks);
    }
    match View::take(alloc, own.id, own.mode, picture) {
        Ok(view) => as_taken(alloc, pool, own, seq_of(member), picture, view),
        Err(ViewFault::Memory) => Err(AllocError),
        Err(_) => Ok(Resumed::Breaks),
    }
}

// A view has to be one that the node keeps whole: of its rolls none is missing.
fn as_taken(
    alloc: Global,
    pool: &ViewPool,
    own: &Own,
    seq: u32,
    picture: &Picture,
    view: View,
) -> Result<Resumed, AllocError>
    requires { IsGoodView view }
    ensures { IfOk result (λ resumed. resumed ≡ as_taken own.now seq picture.now (Ok view)) }
{
    if view.known().len() != picture.rolls.len() {
        return Ok(Resumed::Breaks);
    }
    let view = pool.with_trees(alloc, None, view)?;
    let member = Following::at_view(alloc, pool.share(), view, no_pending(alloc)?, seq)?;
    resumes_as(own, member)
}

fn after_slices(
    own: &Own,
    member: Option<&Following>,
    slices: &Slices,
) -> Result<Resumed, AllocError>
    requires { AreSlices slices.now }
    ensures { IfOk result (λ resumed. resumed ≡ after_slices own.now (option_copied member.entry) slices.now) }
{
    match member {
        Some(member) => by_slices(own, member, slices),
        None => Ok(Resumed::Breaks),
    }
}

// Slices with one head, by which the view makes a step.
fn by_slices(own: &Own, member: &Following, slices: &Slices) -> Result<Resumed, AllocError>
    requires { AreSlices slices.now }
    ensures { IfOk result (λ resumed. resumed ≡ by_slices own.now member.now slices.now) }
{
    let Some(first) = slices.as_slice().first() else {
        return Ok(Resumed::Breaks);
    };
    match step_with(
        member.alloc(),
        member.pool(),
        own,
        member.view(),
        first,
        slices,
    ) {
        Ok(Next::Member(view)) => resumes_as(own, member.at_step(slices.copy()?, view)?),
        Ok(Next::Departed) | Err(Refusal::Unfit(_)) => Ok(Resumed::Breaks),
        Err(Refusal::Memory) => Err(AllocError),
    }
}
