//! Which events are actions on a node.

ghost use Rattle.std.specs.Prelude.{◌≡◌};
ghost use Rattle.std.specs.Option.{option_map};
ghost use Rattle.cs_world.specs.Events.{action_for};

use crate::action::Action;
use crate::call::Call;
use cs_base::NodeId;
use cs_script::Event;

/// An action, and the node on which it acts.
#[derive(Debug, Drop)]
pub struct ActionOn<'a> {
    pub id: NodeId,
    pub action: Action<'a>,
}

/// The action that an event is, where that needs no more to be known than the event.
pub fn action_of(event: &Event) -> Option<ActionOn<'_>>
    ensures { option_map (λ on. (on.id, on.action)) result ≡ action_for event.now }
{
    let (id, action) = match event {
        Event::Join(id) => (*id, Action::Call(Call::Join)),
        Event::Leave(id) => (*id, Action::Call(Call::Leave)),
        Event::Flush(id) => (*id, Action::Call(Call::Flush)),
        Event::Move(id, at) => (*id, Action::Call(Call::Move(*at))),
        Event::Need(id, to, region) => (*id, Action::Call(Call::Need(*to, *region))),
        Event::Crash(id) => (*id, Action::Crash),
        Event::Restart(id) => (*id, Action::Restart),
        Event::Tear(id, b) => (*id, Action::Arm(u64::from(*b))),
        _ => return None,
    };
    Some(ActionOn { id, action })
}
