//! The summary of a drill.

ghost use Rattle.std.specs.Prelude.{◌≡◌, ◌+◌, ◌++◌, ◌≤◌, Some, length, IfOk, OnOk};
ghost use Rattle.std.specs.List.{range_with_len};
ghost use Rattle.std.specs.String.{string_bytes};
ghost use Rattle.cs_base.specs.Ranges.{IsFromTo};
ghost use Rattle.cs_drill.specs.Limits.{fewest_nodes, most_nodes};
ghost use Rattle.cs_drill.specs.Schedule.{leader};
ghost use Rattle.cs_item.specs.Picture.{members_in};
ghost use Rattle.cs_item.specs.declared.picture.Picture.{Picture};
ghost use Rattle.cs_machine.specs.Names.{World as Machine};
ghost use Rattle.cs_show.specs.Block.{digest_of};
ghost use Rattle.cs_show.specs.Text.{text_of};
ghost use Rattle.cs_world.specs.Stands.{Stands};
ghost use Rattle.census.specs.Drilled.{agreeing, of_epoch, shows, summary_lines, totals_lines, totals_of, views_of};

use cs_base::{Epoch, NodeId};
use cs_link::{Ground, Link};
use cs_log::{Arming, Log};
use cs_show::digest;
use cs_view::View;
use cs_world::{Tap, World};
use std::alloc::{AllocError, Global};
use std::fmt::Write;

/// The id of a drill's leader.
const LEADER: u32 = 1;

/// What the views of all blocks of one epoch share.
#[derive(Clone, Copy, Drop)]
struct Shown {
    epoch: Epoch,
    digest: [u8; 32],
}

/// What the leader's view tells, what was sent, and how many views are of its epoch and agree with it.
#[derive(Drop)]
pub struct Totals {
    epoch: Epoch,
    members: u64,
    regions: usize,
    packets: u32,
    bytes: u64,
    views: u32,
    agree: u32,
    digest: [u8; 32],
}

/// How many views are of an epoch, and how many of these have a digest.
#[derive(Drop)]
struct Tally {
    views: u32,
    agree: u32,
}

/// The id of a node of a drill or of a live run, by its number.
pub fn node_id(node: u32) -> NodeId
    requires { IsFromTo 1 most_nodes node }
    ensures { result ≡ node }
{
    NodeId::new(node).unwrap()
}

/// What a world came to in which so many nodes were started, as lines of text.
pub fn summary<D: Ground>(alloc: Global, world: &World<D>, nodes: u32) -> Result<String, AllocError>
    requires { IsFromTo fewest_nodes most_nodes nodes }
    ensures { (machine : Machine)
        → Stands ⟦<Tap<D::Wire> as Link>⟧ ⟦<Arming<D::Store> as Log>⟧ world.now.nodes machine
        → IfOk result (λ text. string_bytes text ≡ text_of (summary_lines nodes machine)) }
{
    let mut text = String::new(alloc);
    writeln!(text, "nodes {nodes}")?;
    if let Some(view) = world.view(node_id(LEADER)) {
        put_totals(&mut text, &totals_of(alloc, world, nodes, view)?)?;
    }
    Ok(text)
}

// What the leader's view tells.
fn totals_of<D: Ground>(
    alloc: Global,
    world: &World<D>,
    nodes: u32,
    view: &View,
) -> Result<Totals, AllocError>
    requires { IsFromTo fewest_nodes most_nodes nodes }
    ensures { (machine : Machine)
        → Stands ⟦<Tap<D::Wire> as Link>⟧ ⟦<Arming<D::Store> as Log>⟧ world.now.nodes machine
        → IfOk result (λ totals. totals ≡ totals_of nodes machine view.now) }
{
    let lead = Shown {
        epoch: view.epoch(),
        digest: digest(alloc, view)?,
    };
    let tally = tally_of(world, nodes, &lead)?;
    let (packets, bytes) = world.sent();
    Ok(Totals {
        epoch: lead.epoch,
        members: members_of(view),
        regions: view.known().len(),
        packets,
        bytes,
        views: tally.views,
        agree: tally.agree,
        digest: lead.digest,
    })
}

// The lines of what the leader's view tells.
fn put_totals(out: &mut String, totals: &Totals) -> Result<(), AllocError>
    ensures { OnOk result (string_bytes out.new ≡ string_bytes out.old ++ text_of (totals_lines totals.now)) }
{
    let digest = hex::encode(*out.allocator(), totals.digest)?;
    writeln!(out, "epoch {}", totals.epoch)?;
    writeln!(out, "members {}", totals.members)?;
    writeln!(out, "regions {}", totals.regions)?;
    writeln!(out, "sent {} {}", totals.packets, totals.bytes)?;
    writeln!(out, "views {}", totals.views)?;
    writeln!(out, "agree {}", totals.agree)?;
    writeln!(out, "digest {digest}")
}

// How many members the known rolls have together.
fn members_of(view: &View) -> u64
    ensures { result ≡ members_in view.now.rolls }
{
    let mut members = 0;
    for pair in view.known() {
        members += pair.1.len() as u64;
    }
    members
}

// How many of the first so many nodes have a view of the epoch, and how many of these have the digest.
fn tally_of<D: Ground>(world: &World<D>, nodes: u32, lead: &Shown) -> Result<Tally, AllocError>
    requires { IsFromTo fewest_nodes most_nodes nodes }
    ensures views { (machine : Machine)
        → Stands ⟦<Tap<D::Wire> as Link>⟧ ⟦<Arming<D::Store> as Log>⟧ world.now.nodes machine
        → IfOk result (λ tally. tally.views ≡ length (of_epoch lead.now.epoch (views_of nodes machine))) }
    ensures agree { (machine : Machine) (view : Picture)
        → Stands ⟦<Tap<D::Wire> as Link>⟧ ⟦<Arming<D::Store> as Log>⟧ world.now.nodes machine
        → lead.now.digest ≡ digest_of view
        → IfOk result (λ tally. tally.agree
        ≡ length (agreeing view (of_epoch lead.now.epoch (views_of nodes machine)))) }
{
    let mut tally = Tally { views: 0, agree: 0 };
    for before in 0..nodes {
        let Some(told) = world.digest(node_id(before + 1))? else {
            continue;
        };
        let (epoch, digest) = told;
        if epoch == lead.epoch {
            tally.views += 1;
            tally.agree += u32::from(digest == lead.digest);
        }
    }
    Ok(tally)
}
