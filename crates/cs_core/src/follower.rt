ghost use Rattle.std.specs.Prelude.{◌≡◌, IfOk, None, Some};
ghost use Rattle.std.specs.Option.{option_copied, option_map};
ghost use Rattle.cs_packet.specs.EntryField.{IsEntry};
ghost use Rattle.cs_core.specs.Decision.{bytes_plan, HasCall, member_call, joining_call, plan_of};
ghost use Rattle.cs_core.specs.Kept.{IsNode};
ghost use Rattle.cs_core.specs.Node.{joining, member, view_of};
ghost use Rattle.cs_core.specs.Resume.{resumed_by};
ghost use Rattle.cs_core.specs.Routing.{view_trees};
ghost use Rattle.cs_core.specs.Sound.{IsSound};

use crate::deliver::{ask_leader, deliver, join};
use crate::following::Following;
use crate::plans::only;
use crate::pool::ViewPool;
use crate::resume::resumed_by;
use crate::{Call, FollowNote, Plan, Resumed};
use cs_packet::{Entry, Own};
use cs_tree::Kept;
use cs_view::View;
use std::alloc::{AllocError, Global};
use std::marker::Model;

/// A node that isn't the leader: joining as long as it has no view, and a member from then on.
#[derive(Drop)]
pub struct Follower {
    alloc: Global,
    own: Own,
    pool: ViewPool,
    following: Option<Box<Following>>,
}

impl Model for Follower {
    ghost use Rattle.cs_core.specs.Node.{Node};

    ghost Value = { Node };

    ghost use Rattle.std.specs.Option.{option_map};

    ghost view = { λ f. record { own = f.own; following = option_map (λ b. b.value) f.following } };
}

impl Follower {
    /// A joining node.
    pub fn start(alloc: Global, own: Own) -> Self
        ensures { result ≡ joining own }
    {
        Follower {
            alloc,
            own,
            pool: ViewPool::none(),
            following: None,
        }
    }

    /// The same node, which has this pool in common with other nodes from now on.
    pub fn sharing(self, pool: ViewPool) -> Self
        ensures { result ≡ self }
    {
        let Follower {
            alloc,
            own,
            pool: _,
            following,
        } = self;
        let following = match following {
            Some(mut following) => {
                following.share(pool.share());
                Some(following)
            }
            None => None,
        };
        Follower {
            alloc,
            own,
            pool,
            following,
        }
    }

    // A node that goes by a view.
    pub(crate) fn member(own: &Own, following: Following) -> Result<Self, AllocError>
        ensures { IfOk result (λ node. node ≡ member own.now following) }
    {
        let alloc = following.alloc();
        let pool = following.pool().share();
        Ok(Follower {
            alloc,
            own: *own,
            pool,
            following: Some(Box::new(alloc, following)?),
        })
    }

    // Whether both are members that go by one and the same view.
    #[cfg(test)]
    pub(crate) fn shares_view(&self, other: &Follower) -> bool {
        match (&self.following, &other.following) {
            (Some(member), Some(other)) => member.shares_view(other),
            _ => false,
        }
    }

    /// Who the node is.
    pub fn own(&self) -> Own
        ensures { result ≡ self.now.own }
    {
        self.own
    }

    pub fn view(&self) -> Option<&View>
        ensures value { option_copied result ≡ view_of self.now }
        ensures keeps { IsNode self.now }
    {
        match &self.following {
            Some(following) => Some(following.view()),
            None => None,
        }
    }

    /// The trees of the view, while there is one.
    pub fn kept(&self) -> Option<&Kept>
        ensures { option_copied result ≡ option_map view_trees (view_of self.now) }
    {
        match &self.following {
            Some(following) => Some(following.with_trees().kept()),
            None => None,
        }
    }

    pub fn copy(&self) -> Result<Self, AllocError>
        ensures { IfOk result (λ copy. copy ≡ self.now) }
    {
        let following = match &self.following {
            Some(following) => Some(Box::new(self.alloc, following.copy()?)?),
            None => None,
        };
        Ok(Follower {
            alloc: self.alloc,
            own: self.own,
            pool: self.pool.share(),
            following,
        })
    }

    /// What the node does at a call. Nothing changes by it: whoever runs the node keeps the entry, sends the packets
    /// and goes on with the node in the plan. The time goes by what came, by what is stepped and by the routes taken;
    /// what a call leaves as it is, the next node shares with this one.
    pub fn decide(&self, call: &Call<'_>) -> Result<Plan, AllocError>
        requires { HasCall self.now.following call.now }
        ensures plan { IfOk result (λ plan. plan ≡ plan_of self.now.own self.now.following call.now) }
        // What is logged and sent is well formed, and an answer that changes nothing sends nothing.
        ensures sound { IfOk result IsSound }
    {
        match &self.following {
            Some(following) => self.decide_as_member(following, call),
            None => self.decide_joining(call),
        }
    }

    fn decide_joining(&self, call: &Call<'_>) -> Result<Plan, AllocError>
        requires { self.now.following ≡ None }
        ensures plan { IfOk result (λ plan. plan ≡ joining_call self.now.own call.now) }
        ensures sound { IfOk result IsSound }
    {
        match call {
            Call::Join => join(self.alloc, &self.own),
            Call::AskLeader => ask_leader(self.alloc, &self.own),
            Call::Deliver { bytes } => deliver(self.alloc, &self.pool, &self.own, None, bytes),
            Call::Moved { .. } | Call::Leave | Call::Flush | Call::Ask { .. } | Call::Need { .. } =>
                { Ok(only(self.alloc, FollowNote::Idle)) }
        }
    }

    fn decide_as_member(&self, member: &Following, call: &Call<'_>) -> Result<Plan, AllocError>
        ensures plan { IfOk result (λ plan. plan ≡ member_call self.now.own member.now call.now) }
        ensures sound { IfOk result IsSound }
    {
        let own = &self.own;
        match call {
            Call::Join | Call::AskLeader => Ok(only(self.alloc, FollowNote::Idle)),
            Call::Moved { at } => member.moved(own, *at),
            Call::Leave => member.leave(own),
            Call::Flush => member.flush(own),
            Call::Ask { to } => member.ask(own, *to),
            Call::Need { to, region } => member.need(own, *to, *region),
            Call::Deliver { bytes } => deliver(self.alloc, &self.pool, own, Some(member), bytes),
        }
    }

    /// What the node is after an entry of its log. An entry brings back no held piece, no pending change and no past.
    pub fn resume(&self, e: &Entry) -> Result<Resumed, AllocError>
        requires { IsEntry e.now }
        ensures { IfOk result (λ resumed. resumed ≡ resumed_by self.now.own self.now.following e.now) }
    {
        match &self.following {
            Some(following) => resumed_by(self.alloc, &self.pool, &self.own, Some(following), e),
            None => resumed_by(self.alloc, &self.pool, &self.own, None, e),
        }
    }
}
