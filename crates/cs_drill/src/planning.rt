ghost use Rattle.std.specs.Prelude.{◌≡◌, ℕ, ◌≤◌, ◌++◌, OnOk, IfOk};
ghost use Rattle.std.specs.List.{AllByRecursion};
ghost use Rattle.cs_base.specs.Limits.{farthest};
ghost use Rattle.cs_base.specs.Ranges.{IsFromTo};
ghost use Rattle.cs_drill.specs.Limits.{fewest_nodes, first_port, last_port, most_live};
ghost use Rattle.cs_drill.specs.Plan as parts;
ghost use Rattle.cs_drill.specs.Planned.{IsPlanned};
ghost use Rattle.cs_drill.specs.Schedule.{others as other_ids};

use crate::draws::point_of;
use crate::parts::{asked, id_of, leader, others, put_each};
use crate::{Plan, Planned};
use cs_base::{Addr, Mode, NodeId, Point};
use cs_script::Event;
use std::alloc::{AllocError, Global};

fn address_behind(port: u16, node: u32) -> Addr
    requires port { IsFromTo first_port last_port port }
    requires node { IsFromTo 1 most_live node }
    ensures { result ≡ parts.address_behind port node }
{
    Addr::new([127, 0, 0, 1], port + node as u16).unwrap()
}

fn at_distance(x: u32) -> Point
    requires { x ≤ farthest }
    ensures { result ≡ parts.at_distance x }
{
    point_of(x as i32, 0, 0)
}

// All nodes start.
fn put_live_starts(plan: &mut Vec<Planned>, port: u16, nodes: u32) -> Result<(), AllocError>
    requires port { IsFromTo first_port last_port port }
    requires nodes { IsFromTo fewest_nodes most_live nodes }
    ensures { OnOk result (plan.new.items ≡ plan.old.items ++ parts.live_starts nodes port) }
{
    let start = Event::Lead(leader(), address_behind(port, 1), at_distance(0));
    plan.push(Planned::Event(start))?;
    for node in 2..nodes + 1 {
        let (addr, at) = (address_behind(port, node), at_distance(1000 * node));
        plan.push(Planned::Event(Event::Boot(id_of(node), addr, at, Mode::Partial)))?;
    }
    Ok(())
}

// The others join.
fn put_live_joins(plan: &mut Vec<Planned>, others: &[NodeId]) -> Result<(), AllocError>
    ensures { (nodes : ℕ) → others.now ≡ other_ids nodes
        → OnOk result (plan.new.items ≡ plan.old.items ++ parts.live_joins nodes) }
{
    put_each(plan, others, |node| Planned::Event(Event::Join(node)))?;
    plan.push(Planned::Poll)?;
    Ok(())
}

// The leader closes an epoch.
fn put_live_close(plan: &mut Vec<Planned>) -> Result<(), AllocError>
    ensures { OnOk result (plan.new.items ≡ plan.old.items ++ parts.live_close) }
{
    plan.push(Planned::Event(Event::Close))?;
    plan.push(Planned::Poll)?;
    Ok(())
}

// The others ask the leader, and all print.
fn put_live_ends(plan: &mut Vec<Planned>, nodes: u32, others: &[NodeId]) -> Result<(), AllocError>
    requires nodes { IsFromTo fewest_nodes most_live nodes }
    requires others { others.now ≡ other_ids nodes }
    ensures { OnOk result (plan.new.items ≡ plan.old.items ++ parts.live_ends nodes) }
{
    put_each(plan, others, |node| Planned::Event(asked(node)))?;
    plan.push(Planned::Poll)?;
    plan.push(Planned::Event(Event::Print(leader())))?;
    put_each(plan, others, |node| Planned::Event(Event::Print(node)))
}

/// The plan of a live run of so many nodes, whose ports come behind this one.
pub fn live_plan(alloc: Global, nodes: u32, port: u16) -> Result<Plan, AllocError>
    requires nodes { IsFromTo fewest_nodes most_live nodes }
    requires port { IsFromTo first_port last_port port }
    ensures value { IfOk result (λ plan. plan ≡ parts.live_plan nodes port) }
    // Each of its events is one that a line can say.
    ensures allowed { IfOk result (AllByRecursion IsPlanned) }
{
    let mut plan = Vec::new(alloc);
    let others = others(alloc, nodes)?;
    put_live_starts(&mut plan, port, nodes)?;
    put_live_joins(&mut plan, &others)?;
    put_live_close(&mut plan)?;
    put_live_close(&mut plan)?;
    put_live_ends(&mut plan, nodes, &others)?;
    Ok(Plan::from(plan))
}
