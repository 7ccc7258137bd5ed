ghost use Rattle.std.specs.Prelude.{◌≡◌, ℕ, ◌*◌, ◌↔◌, ◌++◌, OnOk, IfOk, Err};
ghost use Rattle.std.specs.List.{AllByRecursion};
ghost use Rattle.cs_base.specs.Ranges.{IsFromTo};
ghost use Rattle.cs_drill.specs.Draws.{state_after};
ghost use Rattle.cs_drill.specs.declared.fault.DrillFault.TheVariants.{Range};
ghost use Rattle.cs_drill.specs.Limits.{fewest_nodes, most_nodes};
ghost use Rattle.cs_drill.specs.Schedule.{all_rounds, others as other_ids, schedule};
ghost use Rattle.cs_script.specs.Event.{IsEvent};

use crate::draws::Draws;
use crate::limits::ROUNDS;
use crate::parts::{others, put_ends, put_joins, put_round, put_starts};
use crate::{DrillFault, Events, FEWEST_NODES, MOST_NODES};
use cs_base::NodeId;
use cs_script::Event;
use std::alloc::{AllocError, Global};

// Rounds of changes, behind the draws of all nodes.
fn put_rounds(
    events: &mut Vec<Event>,
    nodes: u32,
    others: &[NodeId],
    draws: &mut Draws,
) -> Result<(), AllocError>
    requires nodes { IsFromTo fewest_nodes most_nodes nodes }
    requires others { others.now ≡ other_ids nodes }
    ensures { (seed : ℕ) → draws.old.state ≡ state_after seed (3 * nodes)
        → OnOk result (events.new.items ≡ events.old.items ++ all_rounds nodes seed) }
{
    for _ in 0..ROUNDS {
        put_round(events, nodes, others, draws)?;
    }
    Ok(())
}

fn put_all(alloc: Global, nodes: u32, seed: u64) -> Result<Vec<Event>, AllocError>
    requires { IsFromTo fewest_nodes most_nodes nodes }
    ensures { IfOk result (λ events. events.items ≡ schedule nodes seed) }
{
    let mut events = Vec::new(alloc);
    let mut draws = Draws::new(seed);
    let others = others(alloc, nodes)?;
    put_starts(&mut events, nodes, &mut draws)?;
    put_joins(&mut events, nodes, &others)?;
    put_rounds(&mut events, nodes, &others, &mut draws)?;
    put_ends(&mut events, nodes, &others)?;
    Ok(events)
}

/// The schedule of so many nodes.
pub fn generate(alloc: Global, nodes: u32, seed: u64) -> Result<Events, DrillFault>
    ensures value { IfOk result (λ events. events ≡ schedule nodes seed) }
    ensures range { (result ≡ Err Range) ↔ (IsFromTo fewest_nodes most_nodes nodes → ⊥) }
    // Each of its events is one that a line can say.
    ensures allowed { IfOk result (AllByRecursion IsEvent) }
{
    if nodes < FEWEST_NODES || nodes > MOST_NODES {
        return Err(DrillFault::Range);
    }
    Ok(Events::from(put_all(alloc, nodes, seed)?))
}
