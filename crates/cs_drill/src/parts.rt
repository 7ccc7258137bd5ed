ghost use Rattle.std.specs.Prelude.{◌≡◌, ℕ, ◌+◌, ◌*◌, ◌<◌, ◌≤◌, [], ◌∷◌, ◌++◌, map, OnOk, IfOk};
ghost use Rattle.std.specs.List.{range_with_len};
ghost use Rattle.cs_base.specs.Ranges.{IsFromTo};
ghost use Rattle.cs_drill.specs.Draws.{state_after};
ghost use Rattle.cs_drill.specs.Limits.{fewest_nodes, most_nodes, moves};
ghost use Rattle.cs_drill.specs.Schedule as parts;

use crate::draws::Draws;
use crate::limits::{MOVES, SETTLING, TOGETHER};
use cs_base::{Addr, Mode, NodeId};
use cs_script::Event;
use std::alloc::{AllocError, Global};

/// The id of this number.
pub fn id_of(node: u32) -> NodeId
    requires { 0 < node }
    ensures { result ≡ node }
{
    NodeId::new(node).unwrap()
}

fn address_of(node: u32) -> Addr
    requires { IsFromTo 1 most_nodes node }
    ensures { result ≡ parts.address_of node }
{
    Addr::new([127, 0, 0, 1], 20_000 + node as u16).unwrap()
}

/// The id of the leader.
pub fn leader() -> NodeId
    ensures { result ≡ parts.leader }
{
    id_of(1)
}

fn settle() -> Event
    ensures { result ≡ parts.settle }
{
    Event::Settle(SETTLING)
}

/// A node asks the leader.
pub fn asked(node: NodeId) -> Event
    ensures { result ≡ parts.asked node }
{
    Event::Ask(node, leader())
}

fn mode_of(nodes: u32, node: u32) -> Mode
    ensures { result ≡ parts.mode_of nodes node }
{
    if node == nodes {
        Mode::Full
    } else {
        Mode::Partial
    }
}

/// The nodes but the leader.
pub fn others(alloc: Global, nodes: u32) -> Result<Vec<NodeId>, AllocError>
    requires { IsFromTo fewest_nodes most_nodes nodes }
    ensures { IfOk result (λ ids. ids.items ≡ parts.others nodes) }
{
    (2..nodes + 1).map(id_of).collect(alloc)
}

/// All nodes start.
pub fn put_starts(events: &mut Vec<Event>, nodes: u32, draws: &mut Draws) -> Result<(), AllocError>
    requires { IsFromTo fewest_nodes most_nodes nodes }
    ensures value { (seed : ℕ) → draws.old.state ≡ state_after seed 0
        → OnOk result (events.new.items ≡ events.old.items ++ parts.starts nodes seed) }
    ensures state { (seed : ℕ) → draws.old.state ≡ state_after seed 0
        → OnOk result (draws.new.state ≡ state_after seed (3 * nodes)) }
{
    events.push(Event::Lead(leader(), address_of(1), draws.point()))?;
    for node in 2..nodes + 1 {
        let (id, mode) = (id_of(node), mode_of(nodes, node));
        events.push(Event::Boot(id, address_of(node), draws.point(), mode))?;
    }
    Ok(())
}

/// An item for each of these nodes.
pub fn put_each<T: Drop, F: Fn(NodeId) -> T>(
    items: &mut Vec<T>,
    nodes: &[NodeId],
    item_of: F,
) -> Result<(), AllocError>
    requires { F.IsAlwaysCallable item_of }
    ensures { (stands_for : ℕ → T)
        → ((node : ℕ) (item : T) → F.post item_of node item → item ≡ stands_for node)
        → OnOk result (items.new.items ≡ items.old.items ++ map stands_for nodes.now) }
{
    for node in nodes {
        items.push(item_of(*node))?;
    }
    Ok(())
}

// These join, and the leader closes the epoch.
fn put_batch(events: &mut Vec<Event>, nodes: &[NodeId]) -> Result<(), AllocError>
    ensures { OnOk result (events.new.items ≡ events.old.items ++ parts.joined nodes.now) }
{
    put_each(events, nodes, Event::Join)?;
    events.push(settle())?;
    events.push(Event::Close)?;
    events.push(settle())?;
    Ok(())
}

/// All join.
pub fn put_joins(events: &mut Vec<Event>, nodes: u32, others: &[NodeId]) -> Result<(), AllocError>
    requires nodes { IsFromTo fewest_nodes most_nodes nodes }
    requires others { others.now ≡ parts.others nodes }
    ensures { OnOk result (events.new.items ≡ events.old.items ++ parts.joins nodes) }
{
    for batch in others.chunks(TOGETHER) {
        put_batch(events, batch)?;
    }
    Ok(())
}

// Some nodes move, and these are they.
fn put_moves(
    events: &mut Vec<Event>,
    nodes: u32,
    draws: &mut Draws,
) -> Result<[NodeId; MOVES], AllocError>
    requires nodes { IsFromTo fewest_nodes most_nodes nodes }
    ensures movers { (seed before : ℕ) → draws.old.state ≡ state_after seed before
        → IfOk result (λ movers. movers ≡ map (parts.mover nodes seed before) (range_with_len 0 moves)) }
    ensures value { (seed before : ℕ) → draws.old.state ≡ state_after seed before
        → OnOk result (events.new.items
        ≡ events.old.items ++ map (parts.moved nodes seed before) (range_with_len 0 moves)) }
    ensures state { (seed before : ℕ) → draws.old.state ≡ state_after seed before
        → OnOk result (draws.new.state ≡ state_after seed (before + 4 * moves)) }
{
    let mut movers = [leader(); MOVES];
    for place in 0..MOVES {
        let mover = draws.id(nodes);
        events.push(Event::Move(mover, draws.point()))?;
        movers[place] = mover;
    }
    Ok(movers)
}

// What is pending comes to the leader, which closes the epoch while one node is down.
fn put_turn(events: &mut Vec<Event>, others: &[NodeId], down: NodeId) -> Result<(), AllocError>
    ensures { (nodes : ℕ) → others.now ≡ parts.others nodes
        → OnOk result (events.new.items ≡ events.old.items ++ parts.turn nodes down) }
{
    put_each(events, others, Event::Flush)?;
    events.push(settle())?;
    events.push(Event::Crash(down))?;
    events.push(Event::Close)?;
    events.push(settle())?;
    events.push(Event::Restart(down))?;
    Ok(())
}

/// One round of changes.
pub fn put_round(
    events: &mut Vec<Event>,
    nodes: u32,
    others: &[NodeId],
    draws: &mut Draws,
) -> Result<(), AllocError>
    requires nodes { IsFromTo fewest_nodes most_nodes nodes }
    requires others { others.now ≡ parts.others nodes }
    ensures value { (seed before : ℕ) → draws.old.state ≡ state_after seed before
        → OnOk result (events.new.items ≡ events.old.items ++ parts.round_behind nodes seed before) }
    ensures state { (seed before : ℕ) → draws.old.state ≡ state_after seed before
        → OnOk result (draws.new.state ≡ state_after seed (before + 4 * moves + 2)) }
{
    let movers = put_moves(events, nodes, draws)?;
    events.push(Event::Leave(draws.id(nodes)))?;
    events.push(settle())?;
    let down = draws.id(nodes);
    put_turn(events, others, down)?;
    put_each(events, &movers, asked)?;
    events.push(asked(down))?;
    events.push(settle())?;
    Ok(())
}

/// Every node asks once more, and all print.
pub fn put_ends(events: &mut Vec<Event>, nodes: u32, others: &[NodeId]) -> Result<(), AllocError>
    requires nodes { IsFromTo fewest_nodes most_nodes nodes }
    requires others { others.now ≡ parts.others nodes }
    ensures { OnOk result (events.new.items ≡ events.old.items ++ parts.ends nodes) }
{
    put_each(events, others, asked)?;
    events.push(settle())?;
    events.push(Event::Print(leader()))?;
    put_each(events, others, Event::Print)
}
