//! What nodes of each kind do with bytes.

ghost use Rattle.std.specs.Prelude.{◌≡◌, None};

use crate::{Effects, Node, Note};
use cs_base::{Addr, Member, Mode, NodeId, Point};
use cs_core::{Call, FollowNote, Follower};
use cs_fields::PacketFault;
use cs_lead::{LeadCall, LeadNote, Leader};
use cs_packet::{Entry, Own};
use std::process::Abort;

// A bye of epoch 5 from node 1 to node 2, and one from node 2 to node 1.
const BYE: &[u8] = &[1, 7, 0, 0, 0, 1, 0, 0, 0, 2, 0, 0, 0, 5];

const BYE_TO_LEADER: &[u8] = &[1, 7, 0, 0, 0, 2, 0, 0, 0, 1, 0, 0, 0, 5];

// The member with this id.
fn member(rt: &impl Abort, number: u32) -> Member {
    Member {
        id: NodeId::new(number).expect(rt, "id"),
        addr: Addr::new([127, 0, 0, 1], 9001).expect(rt, "address"),
        at: Point::new(0, 0, 0).expect(rt, "point"),
    }
}

// Node 2, which wants to join under node 1.
fn follower<R: AllocGlobal + Abort>(rt: &R) -> Follower
    ensures { result.following ≡ None }
{
    let Member { id, addr, at } = member(rt, 2);
    let leader = member(rt, 1);
    let own = Own {
        id,
        addr,
        at,
        mode: Mode::Partial,
        leader: leader.id,
        leader_addr: leader.addr,
    };
    Follower::start(rt.alloc(), own)
}

fn leader<R: AllocGlobal + Abort>(rt: &R) -> Leader {
    Leader::start(rt.alloc(), member(rt, 1)).expect(rt, "memory")
}

fn deliver<R: AllocGlobal + Abort>(rt: &R, node: &Node, bytes: &[u8]) -> Effects {
    node.deliver(rt.alloc(), bytes).expect(rt, "memory")
}

#[test]
fn a_joining_node_departs_by_a_bye(rt: HostRuntime) {
    let node = Node::Follower(follower(&rt));
    assert!(rt; node.view().is_none());
    let effects = deliver(&rt, &node, BYE);
    assert!(rt; matches!(effects.note, Note::Departed));
    assert!(rt; matches!(effects.entry, Some(Entry::Gone { .. })));
    assert!(rt; matches!(effects.after, Some(Node::Left)));
}

#[test]
fn the_leader_has_no_use_for_a_bye(rt: HostRuntime) {
    let node = Node::Leader(leader(&rt));
    assert!(rt; node.view().is_some());
    let effects = deliver(&rt, &node, BYE_TO_LEADER);
    assert!(rt; matches!(effects.note, Note::Idle));
    assert!(rt; effects.after.is_none());
    let effects = deliver(&rt, &node, b"");
    assert!(rt; matches!(effects.note, Note::Bad(PacketFault::Short(0))));
}

#[test]
fn a_node_that_left_has_departed(rt: HostRuntime) {
    assert!(rt; Node::Left.view().is_none());
    let effects = deliver(&rt, &Node::Left, BYE);
    assert!(rt; matches!(effects.note, Note::Departed));
    assert!(rt; effects.entry.is_none());
    assert!(rt; effects.sends.is_empty());
    assert!(rt; effects.after.is_none());
}

#[test]
fn plans_of_both_kinds_are_effects(rt: HostRuntime) {
    let plan = follower(&rt).decide(&Call::Join).expect(&rt, "memory");
    let effects = Effects::from(plan);
    assert!(rt; matches!(effects.note, Note::Told { kept: None }));
    assert_eq!(rt; effects.sends.len(), 1);
    let plan = leader(&rt).decide(&LeadCall::Close).expect(&rt, "memory");
    let effects = Effects::from(plan);
    assert!(rt; matches!(effects.note, Note::Closed { .. }));
    assert!(rt; matches!(effects.after, Some(Node::Leader(_))));
    assert!(rt; matches!(Note::from(FollowNote::Held), Note::Held));
    assert!(rt; matches!(Note::from(LeadNote::Silent), Note::Silent));
}
