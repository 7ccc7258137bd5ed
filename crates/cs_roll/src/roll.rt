ghost use Rattle.std.specs.Prelude.{◌≡◌, [], ◌∷◌, ◌++◌, length, take, IsTrue, ◌↔◌};
ghost use Rattle.std.specs.Prelude.{None, All, IfOk, OnOk, OnErr};
ghost use Rattle.std.specs.List.Sorted.{IsPermutation};
ghost use Rattle.std.specs.Option.{option_copied};
ghost use Rattle.cs_base.specs.Split.{lower_part, upper_part};
ghost use Rattle.cs_roll.specs.Same.{are_same_members};
ghost use Rattle.cs_roll.specs.Roll.{IsById, IsRoll, member_of, with_member, without_member};

use cs_base::{Member, NodeId, Ordered, Split};
use std::alloc::{AllocError, Global};
use std::marker::Model;

/// The members of a region, ascending by id.
#[derive(Debug, Drop)]
pub struct Roll {
    members: Ordered<Member>,
}

impl Model for Roll {
    ghost use Rattle.std.specs.Prelude.{List};
    ghost use Rattle.cs_base.specs.declared.member.Member.{Member};

    ghost Value = { List Member };

    ghost view = { λ roll. roll.members };
}

// The lower members, and the others.
fn parted(
    alloc: Global,
    members: &[Member],
    s: &Split,
) -> Result<(Vec<Member>, Vec<Member>), AllocError>
    ensures lower { IfOk result (λ parts. parts.0.items ≡ lower_part s.now members.now) }
    ensures upper { IfOk result (λ parts. parts.1.items ≡ upper_part s.now members.now) }
{
    members.iter().copied().partition(alloc, |m| s.is_lower(m))
}

impl Roll {
    pub fn new(alloc: Global) -> Self
        ensures { result ≡ [] }
    {
        Roll {
            members: Ordered::new(alloc),
        }
    }

    /// An empty roll with room for so many members.
    pub fn with_room(alloc: Global, count: usize) -> Result<Self, AllocError>
        ensures { IfOk result (λ roll. roll ≡ []) }
    {
        Ok(Roll {
            members: Ordered::from_vec(Vec::with_capacity(alloc, count)?),
        })
    }

    pub fn len(&self) -> usize
        ensures { result ≡ length self.now }
    {
        self.members.len()
    }

    pub fn is_empty(&self) -> bool
        ensures { IsTrue result ↔ (self.now ≡ []) }
    {
        self.members.is_empty()
    }

    pub fn as_slice(&self) -> &[Member]
        ensures value { result.now ≡ self.now }
        ensures roll { IsRoll self.now }
    {
        self.members.as_slice()
    }

    pub fn push(&mut self, x: Member) -> Result<(), AllocError>
        requires { IsById (self.old ++ x ∷ []) }
        ensures ok { OnOk result (self.new ≡ self.old ++ x ∷ []) }
        ensures err { OnErr result (self.new ≡ self.old) }
    {
        self.members.push(x)
    }

    /// Puts the member in its place, and gives the member of its id that was there before.
    pub fn insert(&mut self, m: Member) -> Result<Option<Member>, AllocError>
        ensures placed { OnOk result (self.new ≡ with_member m self.old) }
        ensures before { IfOk result (λ before. before ≡ member_of m.id self.old) }
        ensures err { OnErr result (self.new ≡ self.old) }
    {
        self.members.put(m)
    }

    /// Takes out the member with this id.
    pub fn remove(&mut self, id: NodeId) -> Option<Member>
        ensures removed { self.new ≡ without_member id self.old }
        ensures found { result ≡ member_of id self.old }
    {
        self.members.remove(id.get())
    }

    pub fn find(&self, id: NodeId) -> Option<&Member>
        ensures { option_copied result ≡ member_of id self.now }
    {
        self.members.get(id.get())
    }

    pub fn copy(&self) -> Result<Self, AllocError>
        ensures { IfOk result (λ copy. copy ≡ self.now) }
    {
        Ok(Roll {
            members: self.members.copy()?,
        })
    }

    /// Whether both have the same members.
    pub fn is_same(&self, other: &Roll) -> bool
        ensures same { IsTrue result ↔ (self.now ≡ other.now) }
        ensures test { result ≡ are_same_members self.now other.now }
    {
        self.as_slice() == other.as_slice()
    }

    /// The first `count` members, or all where there are fewer.
    pub fn first(&self, count: usize) -> Result<Self, AllocError>
        ensures { IfOk result (λ front. front ≡ take count self.now) }
    {
        Ok(Roll {
            members: self.members.first(count)?,
        })
    }

    /// The members that are lower by the split, and those that are upper.
    pub fn part(&self, s: &Split) -> Result<(Roll, Roll), AllocError>
        ensures lower { IfOk result (λ parts. parts.0 ≡ lower_part s.now self.now) }
        ensures upper { IfOk result (λ parts. parts.1 ≡ upper_part s.now self.now) }
        ensures together { IfOk result (λ parts. IsPermutation self.now (parts.0 ++ parts.1)) }
        ensures disjoint { IfOk result (λ parts. All (λ m. member_of m.id parts.1 ≡ None) parts.0) }
    {
        let (lower, upper) = parted(self.members.allocator(), self.as_slice(), s)?;
        let lower = Ordered::from_vec(lower);
        let upper = Ordered::from_vec(upper);
        Ok((Roll { members: lower }, Roll { members: upper }))
    }
}
