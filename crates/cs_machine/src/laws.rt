//! What holds of every world that is reached. A law is the contract of a function that does nothing: calling it gives
//! the caller its clauses.
ghost use Rattle.std.specs.Prelude.{◌≡◌, ℕ, ◌+◌, ◌≤◌, ◌++◌, true, false, List, [], ◌∷◌, length, Some, IsSomeAnd};
ghost use Rattle.std.specs.List.{AllByRecursion};
ghost use Rattle.cs_base.specs.Address.{Address};
ghost use Rattle.cs_base.specs.Axes.{Axes, IsPoint};
ghost use Rattle.cs_base.specs.Ranges.{IsRegion};
ghost use Rattle.cs_base.specs.declared.change.Change.{Change};
ghost use Rattle.cs_base.specs.declared.change.Mode.{Mode};
ghost use Rattle.cs_core.specs.Changes.{flush_plan, leave_plan, move_plan};
ghost use Rattle.cs_core.specs.Asking.{ask_plan, need_plan};
ghost use Rattle.cs_core.specs.Decision.{ask_leader_plan, join_plan};
ghost use Rattle.cs_core.specs.Node.{has_pair};
ghost use Rattle.cs_group.specs.Group.{is_among};
ghost use Rattle.cs_lead.specs.Closing.{close_plan};
ghost use Rattle.cs_lead.specs.Decision.{body_plan};
ghost use Rattle.cs_machine.specs.Asking.{ask_leader_step, ask_step, need_step};
ghost use Rattle.cs_machine.specs.Changes.{flush_step, join_step, leave_step, move_step};
ghost use Rattle.cs_machine.specs.Closing.{close_step};
ghost use Rattle.cs_machine.specs.Contents.{Contents, contents_of, group_of, items};
ghost use Rattle.cs_machine.specs.Entries.{Entry};
ghost use Rattle.cs_machine.specs.Happens.{happens};
ghost use Rattle.cs_machine.specs.Held.{are_whole, gain_of_piece, gain_of_slice, is_whole, least_whole};
ghost use Rattle.cs_machine.specs.Machine.{deliver_step};
ghost use Rattle.cs_machine.specs.Answers.{Wish, wish_step};
ghost use Rattle.cs_machine.specs.Names.{Ask, Bye, Following, Joining, Leading, Membership, Need, Node, Sent, State};
ghost use Rattle.cs_machine.specs.Names.{World, empty_world, leader_of, node_of};
ghost use Rattle.cs_machine.specs.Packets.{bytes_of, bytes_sent, most_datagram, packet_for};
ghost use Rattle.cs_machine.specs.Pieces.{piece_step, slice_step};
ghost use Rattle.cs_machine.specs.Progress.{needed};
ghost use Rattle.cs_machine.specs.Reached.{IsReached, IsSent};
ghost use Rattle.cs_machine.specs.Restoring.{restored};
ghost use Rattle.cs_machine.specs.Squares.{GoesOn, IsStep, StandsForStep, address_in};
ghost use Rattle.cs_machine.specs.Values.{entry_for, leader_for, member_for, node_for};
ghost use Rattle.cs_node.specs.Effects.{effects_of_follower, effects_of_leader, on_bytes};
ghost use Rattle.cs_node.specs.Logged.{restarted};
ghost use Rattle.cs_packet.specs.EntryField.{IsEntry};
ghost use Rattle.cs_packet.specs.PacketField.{IsPacket};
ghost use Rattle.cs_packet.specs.declared.own.Own.{Own};
ghost use Rattle.cs_packet.specs.declared.packet.Body.TheVariants as bodies;
ghost use Rattle.cs_script.specs.Event.{IsEvent};
ghost use Rattle.cs_script.specs.declared.event.Event.{Event};

/// The world without nodes is reached, and so is what an event leads to from a reached world.
pub fn reached_worlds()
    ensures first { IsReached empty_world }
    ensures next { (world : World) (event : Event) → IsEvent event → IsReached world →
        IsReached (happens world event).world }
{}

/// Contents don't change: the groups so far stay, and so do the bytes of what was sent, which never get fewer, and
/// what nodes have logged.
pub fn contents_stay()
    ensures groups { (world : World) (event : Event) (leader : Node) (epoch : ℕ) → IsEvent event → IsReached world →
        leader_of world ≡ Some leader → epoch ≤ length (items world) →
        group_of (happens world event).world epoch ≡ group_of world epoch }
    ensures bytes { (world : World) (event : Event) → IsEvent event → IsReached world →
        AllByRecursion (λ (sent : Sent). bytes_of (happens world event).world sent ≡ bytes_of world sent) world.sent }
    ensures sent { (world : World) (event : Event) → IsEvent event → IsReached world →
        bytes_sent world ≤ bytes_sent (happens world event).world }
    ensures entries { (world : World) (event : Event) (id : ℕ) (node : Node) → IsEvent event → IsReached world →
        node_of world id ≡ Some node →
        AllByRecursion (λ (entry : Entry). entry_for (contents_of (happens world event).world) entry
        ≡ entry_for (contents_of world) entry) node.entries }
    ensures restored { (world : World) (event : Event) (id : ℕ) (node : Node) → IsEvent event → IsReached world →
        node_of world id ≡ Some node →
        restored (contents_of (happens world event).world) node.own node.entries
        ≡ restored (contents_of world) node.own node.entries }
{}

/// What was sent are well-formed packets, and each fits a datagram.
pub fn sent_packets_fit()
    ensures packets { (world : World) → IsReached world →
        AllByRecursion (λ (sent : Sent). IsPacket (packet_for (contents_of world) sent)) world.sent }
    ensures short { (world : World) → IsReached world →
        AllByRecursion (λ (sent : Sent). length (bytes_of world sent) ≤ most_datagram) world.sent }
{}

/// What nodes have logged are well-formed entries.
pub fn logged_entries_fit()
    ensures { (world : World) (id : ℕ) (node : Node) → IsReached world → node_of world id ≡ Some node →
        AllByRecursion (λ (entry : Entry). IsEntry (entry_for (contents_of world) entry)) node.entries }
{}

/// What a node that is up decides is its step in names: on the bytes of a packet of the run, so no such packet is bad,
/// unfit or another node's; when a joining one asks the leader to let it in, or for a snapshot; when a member wants to
/// leave, moves, hands on what is pending, or asks another node for a snapshot or a slice; and when the leader closes
/// the epoch.
pub fn decisions_are_steps()
    ensures delivers { (world : World) (node : Node) (state : State) (sent : Sent) → IsReached world →
        IsSent world sent → node_of world sent.to ≡ Some node → node.state ≡ Some state →
        IsStep world node state (deliver_step (contents_of world) node.own state sent.from sent.name)
        (on_bytes (node_for (contents_of world) node.own state) (bytes_of world sent)) }
    ensures joins { (world : World) (node : Node) → IsReached world → node_of world node.own.id ≡ Some node →
        node.state ≡ Some Joining →
        IsStep world node Joining (join_step node.own) (effects_of_follower (join_plan node.own)) }
    ensures leaves { (world : World) (node : Node) (m : Membership) → IsReached world →
        node_of world node.own.id ≡ Some node → node.state ≡ Some (Following m) →
        IsStep world node (Following m) (leave_step (contents_of world) node.own m)
        (effects_of_follower (leave_plan node.own (member_for (contents_of world) m))) }
    ensures moves { (world : World) (node : Node) (m : Membership) (at : Axes) → IsReached world →
        node_of world node.own.id ≡ Some node → node.state ≡ Some (Following m) → IsPoint at →
        IsStep world node (Following m) (move_step (contents_of world) node.own at m)
        (effects_of_follower (move_plan node.own (member_for (contents_of world) m) at)) }
    ensures flushes { (world : World) (node : Node) (m : Membership) → IsReached world →
        node_of world node.own.id ≡ Some node → node.state ≡ Some (Following m) →
        IsStep world node (Following m) (flush_step node.own m m.pending)
        (effects_of_follower (flush_plan node.own (member_for (contents_of world) m) m.pending)) }
    ensures asks_leader { (world : World) (node : Node) → IsReached world → node_of world node.own.id ≡ Some node →
        node.state ≡ Some Joining →
        IsStep world node Joining (ask_leader_step node.own) (effects_of_follower (ask_leader_plan node.own)) }
    ensures asks { (world : World) (node : Node) (m : Membership) (to : ℕ) → IsReached world →
        node_of world node.own.id ≡ Some node → node.state ≡ Some (Following m) →
        IsStep world node (Following m) (ask_step (contents_of world) node.own to m)
        (effects_of_follower (ask_plan node.own (member_for (contents_of world) m) to)) }
    ensures needs { (world : World) (node : Node) (m : Membership) (to region : ℕ) → IsReached world →
        node_of world node.own.id ≡ Some node → node.state ≡ Some (Following m) → IsRegion region →
        IsStep world node (Following m) (need_step (contents_of world) node.own to region m)
        (effects_of_follower (need_plan node.own (member_for (contents_of world) m) to region)) }
    ensures closes { (world : World) (node : Node) (epoch : ℕ) (pending : List Change) → IsReached world →
        leader_of world ≡ Some node → node.state ≡ Some (Leading epoch pending) →
        IsStep world node (Leading epoch pending) (close_step (contents_of world) node.own.id epoch pending)
        (effects_of_leader (close_plan (leader_for (contents_of world) node.own epoch pending))) }
{}

/// A restart brings back of a node that is up what the entries of its log lead to.
pub fn logs_bring_nodes_back()
    ensures { (world : World) (node : Node) (state : State) → IsReached world →
        node_of world node.own.id ≡ Some node → node.state ≡ Some state →
        restarted (node_for (contents_of world) node.own state)
        ≡ node_for (contents_of world) node.own (restored (contents_of world) node.own node.entries) }
{}

/// Nodes don't go away, and a log is only added to.
pub fn logs_only_grow()
    ensures { (world : World) (event : Event) (id : ℕ) (node : Node) → IsEvent event → IsReached world →
        node_of world id ≡ Some node →
        IsSomeAnd (node_of (happens world event).world id)
        (λ later. (later.own ≡ node.own) × (more : List Entry) × (later.entries ≡ node.entries ++ more)) }
{}

/// One that left and asks the leader, for a snapshot or for a slice, is told so: what the leader decides is its step
/// in names, which sends a bye, and goes to the address that the one was started with.
pub fn who_left_is_told_so()
    ensures asks { (world : World) (node : Node) (epoch asker least : ℕ) (pending : List Change) (addr : Address)
        (mode : Mode) → IsReached world → leader_of world ≡ Some node →
        node.state ≡ Some (Leading epoch pending) →
        is_among (group_of world epoch).retired asker ≡ true → address_in world asker ≡ Some addr →
        StandsForStep world node (Leading epoch pending)
        (deliver_step (contents_of world) node.own (Leading epoch pending) asker (Ask addr mode least))
        (effects_of_leader (body_plan (leader_for (contents_of world) node.own epoch pending) asker
        (bodies.Ask addr mode least))) }
    ensures needs { (world : World) (node : Node) (epoch asker wanted region : ℕ) (pending : List Change)
        (addr : Address) (mode : Mode) → IsReached world → leader_of world ≡ Some node →
        node.state ≡ Some (Leading epoch pending) → is_among (group_of world epoch).retired asker ≡ true →
        address_in world asker ≡ Some addr →
        StandsForStep world node (Leading epoch pending)
        (deliver_step (contents_of world) node.own (Leading epoch pending) asker (Need addr mode wanted region))
        (effects_of_leader (body_plan (leader_for (contents_of world) node.own epoch pending) asker
        (bodies.Need addr mode wanted region))) }
    ensures byes { (c : Contents) (epoch asker : ℕ) (pending : List Change) (wish : Wish) →
        is_among (c.group epoch).retired asker ≡ true →
        (wish_step c (Leading epoch pending) asker wish).sends ≡ (asker, Bye epoch) ∷ [] }
{}

/// A member that gets the piece which makes the slices whole that it needs, that of the least whole region and those
/// of the known regions that the next item touches, is at the next epoch in this very step, or has left. So it is with
/// the slice that it had asked for.
pub fn whole_slices_move_members_on()
    ensures by_piece { (c : Contents) (own : Own) (m : Membership) (region colour w : ℕ) →
        has_pair m.held region colour ≡ false → least_whole (gain_of_piece m region colour).held ≡ Some w →
        are_whole (gain_of_piece m region colour).held (needed c m w) ≡ true →
        GoesOn m.epoch (piece_step c own m (m.epoch + 1) region colour).note }
    ensures by_slice { (c : Contents) (own : Own) (m : Membership) (region w : ℕ) →
        is_whole m.held region ≡ false → least_whole (gain_of_slice m region).held ≡ Some w →
        are_whole (gain_of_slice m region).held (needed c m w) ≡ true →
        GoesOn m.epoch (slice_step c own m (m.epoch + 1) region).note }
{}
