// What a copy of a node makes of the bytes that come to the node.
ghost use Rattle.cs_core.specs.Sound.{IsSound};
ghost use Rattle.cs_packet.specs.PacketField.{AreSends};

use super::fields::{R0, ROLL_OF_TRIO, SAME, TRIO};
use super::steps::{Came, Note, bytes_of, next_of, node_2, note_of};
use crate::{Call, Follower, Plan};
use cs_base::{Addr, Mode};
use cs_packet::{Packet, encode, encode_entry};
use std::process::Abort;

/// What comes to a node, and what it answers.
struct Step<'a>(Came<'a>, Note);

const SNAPSHOT: Step = Step(Came::Snap(1, TRIO, ROLL_OF_TRIO), Note::Jumped(1));

const SAME_AT_2: &[&str] = &["00000002", R0, SAME];

// Node 1 asks for a snapshot of any epoch.
const ASK: Step = Step(
    Came::Packet(5, 1, &["7f000001 2352 00 00000000"]),
    Note::Answered,
);

// And for the slice of region 0 at epoch 2.
const NEED: Step = Step(
    Came::Packet(3, 1, &["7f000001 2352 00 00000002", R0]),
    Note::Answered,
);

const PIECE_0: Step = Step(Came::Piece(2, 0, 0, SAME_AT_2), Note::Held);

const PIECE_3: Step = Step(Came::Piece(2, 0, 3, SAME_AT_2), Note::Held);

const PIECE_2: Step = Step(Came::Piece(2, 0, 2, SAME_AT_2), Note::Advanced(2));

const PIECE_1: Step = Step(Came::Piece(2, 0, 1, SAME_AT_2), Note::Already);

// Where memory runs out, the node is as before.
fn copy_of(rt: &impl Abort, node: &Follower) -> Follower {
    match node.copy() {
        Ok(copy) => copy,
        Err(_) => node.copy().expect(rt, "memory"),
    }
}

fn plan_on(rt: &impl Abort, node: &Follower, bytes: &[u8]) -> Plan
    ensures { IsSound result }
{
    let call = Call::Deliver { bytes };
    match node.decide(&call) {
        Ok(plan) => plan,
        Err(_) => node.decide(&call).expect(rt, "memory"),
    }
}

// The bytes of the entry; none where there isn't one.
fn logged_by<R: AllocGlobal + Abort>(rt: &R, plan: &Plan) -> Vec<u8>
    requires { IsSound plan.now }
{
    let mut bytes = Vec::new(rt.alloc());
    if let Some(entry) = &plan.entry {
        let spelling = encode_entry(rt.alloc(), entry).expect(rt, "memory");
        push_all(rt, &mut bytes, spelling.as_slice());
    }
    bytes
}

// The packets, each behind the address that it goes to.
fn sent_by<R: AllocGlobal + Abort>(rt: &R, sends: &[(Addr, Packet)]) -> Vec<u8>
    requires { AreSends sends.now }
{
    let mut bytes = Vec::new(rt.alloc());
    for (addr, packet) in sends {
        let spelling = encode(rt.alloc(), packet).expect(rt, "memory");
        push_all(rt, &mut bytes, &addr.ip());
        push_all(rt, &mut bytes, &addr.port().to_be_bytes());
        push_all(rt, &mut bytes, spelling.as_slice());
    }
    bytes
}

fn push_all(rt: &impl Abort, bytes: &mut Vec<u8>, others: &[u8]) {
    bytes.extend_from_slice(others).expect(rt, "memory");
}

// Both plans answer, log and send the same.
fn check_same<R: AllocGlobal + Abort>(rt: &R, plan: &Plan, other: &Plan)
    requires plan { IsSound plan.now }
    requires other { IsSound other.now }
{
    assert_eq!(rt; plan.note, other.note);
    assert_eq!(rt;
        logged_by(rt, plan).as_slice(),
        logged_by(rt, other).as_slice()
    );
    let sent = sent_by(rt, plan.sends.as_slice());
    assert_eq!(rt;
        sent.as_slice(),
        sent_by(rt, other.sends.as_slice()).as_slice()
    );
}

// The node and the copy after the same bytes, at which both do the same.
fn both_after<R: AllocGlobal + Abort>(
    rt: &R,
    node: Follower,
    copy: Follower,
    step: &Step,
) -> (Follower, Follower) {
    let Step(came, note) = *step;
    let bytes = bytes_of(rt, 2, came);
    let plan = plan_on(rt, &node, &bytes);
    let other = plan_on(rt, &copy, &bytes);
    assert_eq!(rt; plan.note, note_of(rt, note));
    check_same(rt, &plan, &other);
    (
        next_of(rt, node, plan.after),
        next_of(rt, copy, other.after),
    )
}

// The node after the steps. A copy that is made of it before them goes on beside it.
fn after_copied<R: AllocGlobal + Abort>(rt: &R, node: Follower, steps: &[Step]) -> Follower {
    let copy = copy_of(rt, &node);
    let mut both = (node, copy);
    for step in steps {
        both = both_after(rt, both.0, both.1, step);
    }
    both.0
}

// Node 2 is copied as it joins, as a member, while it holds two pieces, and after its step. What was reported stays.
#[test]
fn a_copy_goes_on_as_the_node(rt: HostRuntime) {
    let node = node_2(&rt, Mode::Partial);
    const LEAVES: Step = Step(Came::Leaves(100), Note::Noted(64, 0, 0, 0));
    let node = after_copied(&rt, node, &[SNAPSHOT, LEAVES, ASK]);
    let node = after_copied(&rt, node, &[PIECE_0, PIECE_3]);
    let node = after_copied(&rt, node, &[PIECE_2, PIECE_1, NEED]);
    const AGAIN: Step = Step(Came::Leaves(100), Note::Noted(0, 0, 64, 0));
    after_copied(&rt, node, &[PIECE_1, NEED, ASK, AGAIN]);
}
