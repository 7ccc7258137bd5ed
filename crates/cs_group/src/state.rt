//! The state of a group while changes are taken in: a group whose regions aren't looked at yet.
ghost use Rattle.std.specs.Prelude.{◌≡◌, true, ◌≤◌, IfOk, OnOk};
ghost use Rattle.cs_base.specs.Limits.{last_id};
ghost use Rattle.std.specs.List.{AllByRecursion};
ghost use Rattle.cs_group.specs.Group.{is_among};
ghost use Rattle.cs_group.specs.Judging.{join_verdict, leave_verdict, move_verdict, verdict_on, is_full};
ghost use Rattle.cs_group.specs.Judging.{accepted, after_change, is_accepted, judged};
ghost use Rattle.cs_group.specs.Rows.{row_of};
ghost use Rattle.cs_group.specs.Taking.{FitsRow, without_leaver, with_change, with_item};

use crate::place::place_of;
use crate::retired::Retired;
use crate::table::Table;
use crate::{Row, Verdict, Verdicts};
use cs_base::{Change, MOST_MEMBERS, MOST_TOGETHER, Member, NodeId, Point};
use cs_near::RegionSum;
use std::alloc::AllocError;
use std::marker::Model;

/// A group's leader, rows, next region number and retired ids.
#[derive(Debug, Drop)]
pub struct State {
    pub leader: NodeId,
    pub table: Table,
    pub next_region: u32,
    pub retired: Retired,
}

impl Model for State {
    ghost use Rattle.cs_group.specs.Group.{GroupState, state_of};

    ghost Value = { GroupState };

    ghost view = { λ s. state_of s.leader s.table s.next_region s.retired };
}

impl State {
    // Whether no further member fits in.
    fn is_full(&self) -> bool
        ensures { result ≡ is_full self.now }
    {
        let members = self.table.len();
        members >= MOST_MEMBERS || self.retired.len() >= MOST_TOGETHER - members
    }

    // Whether the id is retired.
    pub(crate) fn is_retired(&self, id: NodeId) -> bool
        ensures { result ≡ is_among self.now.retired id }
    {
        self.retired.has(id)
    }

    fn judge_join(&self, id: NodeId) -> Verdict
        ensures { result ≡ join_verdict self.now id }
    {
        if self.is_retired(id) {
            Verdict::Retired
        } else if self.table.has(id) {
            Verdict::Present
        } else if self.is_full() {
            Verdict::Full
        } else {
            Verdict::Accepted
        }
    }

    fn judge_leave(&self, id: NodeId) -> Verdict
        ensures { result ≡ leave_verdict self.now id }
    {
        if !self.table.has(id) {
            Verdict::Absent
        } else if id == self.leader {
            Verdict::Leader
        } else {
            Verdict::Accepted
        }
    }

    fn judge_move(&self, id: NodeId, seq: u32) -> Verdict
        ensures value { result ≡ move_verdict self.now id seq (row_of id self.now.rows) }
        ensures few_bits { seq ≤ last_id }
    {
        match self.table.find(id) {
            None => Verdict::Absent,
            Some(_) if id == self.leader => Verdict::Leader,
            Some(row) if seq <= row.seq => Verdict::Stale,
            Some(_) => Verdict::Accepted,
        }
    }

    // The verdict on a change.
    pub fn judge(&self, change: &Change) -> Verdict
        ensures value { result ≡ verdict_on self.now change.now }
        ensures allowed { FitsRow change.now }
    {
        let id = change.id();
        match *change {
            Change::Join(_) => self.judge_join(id),
            Change::Move { seq, .. } => self.judge_move(id, seq),
            Change::Leave { .. } => self.judge_leave(id),
        }
    }

    // A joiner stands in its place.
    fn take_joiner(&mut self, sums: &[RegionSum], member: Member) -> Result<(), AllocError>
        requires { is_accepted (join_verdict self.old member.id) ≡ true }
        ensures { OnOk result (self.new ≡ with_change sums.now self.old (Change.Join member)) }
    {
        let region = place_of(sums, member.at);
        let row = Row {
            region,
            member,
            seq: 0,
        };
        let table = self.table.with(&row)?;
        self.table = table;
        Ok(())
    }

    // A mover's row gives way to the one in its new place.
    fn take_mover(
        &mut self,
        sums: &[RegionSum],
        id: NodeId,
        seq: u32,
        at: Point,
    ) -> Result<(), AllocError>
        ensures { OnOk result (self.new ≡ with_change sums.now self.old (Change.Move id seq at)) }
    {
        let Some(row) = self.table.find(id).copied() else {
            return Ok(());
        };
        let region = place_of(sums, at);
        let member = Member { at, ..row.member };
        let row = Row {
            region,
            member,
            seq,
        };
        let table = self.table.with(&row)?;
        self.table = table;
        Ok(())
    }

    // A leaver goes out, and its id is retired.
    fn take_leaver(&mut self, id: NodeId) -> Result<(), AllocError>
        ensures { OnOk result (self.new ≡ without_leaver self.old id) }
    {
        let table = self.table.without(id)?;
        self.table = table;
        self.retired.insert(id)
    }

    // Takes an accepted change in.
    fn take(&mut self, sums: &[RegionSum], change: &Change) -> Result<(), AllocError>
        requires { is_accepted (verdict_on self.old change.now) ≡ true }
        ensures { OnOk result (self.new ≡ with_change sums.now self.old change.now) }
    {
        match *change {
            Change::Join(member) => self.take_joiner(sums, member),
            Change::Move { id, seq, at } => self.take_mover(sums, id, seq, at),
            Change::Leave { id } => self.take_leaver(id),
        }
    }

    // Judges a change, and takes it in where it is accepted.
    fn judge_and_take(&mut self, sums: &[RegionSum], change: &Change) -> Result<Verdict, AllocError>
        ensures verdict { IfOk result (λ verdict. verdict ≡ verdict_on self.old change.now) }
        ensures after { OnOk result (self.new ≡ after_change sums.now self.old change.now) }
        ensures allowed { FitsRow change.now }
    {
        let verdict = self.judge(change);
        if verdict.is_accepted() {
            self.take(sums, change)?;
        }
        Ok(verdict)
    }

    // Judges the changes in order, each by the state as the accepted ones before it leave it.
    pub fn take_all(
        &mut self,
        sums: &[RegionSum],
        changes: &[Change],
    ) -> Result<Verdicts, AllocError>
        ensures verdicts { IfOk result (λ verdicts. verdicts ≡ judged sums.now self.old changes.now) }
        ensures after { OnOk result
            (self.new ≡ with_item sums.now self.old (accepted (judged sums.now self.old changes.now))) }
        ensures allowed { OnOk result (AllByRecursion FitsRow changes.now) }
    {
        let mut verdicts = Verdicts::new(self.table.allocator());
        for change in changes {
            let verdict = self.judge_and_take(sums, change)?;
            verdicts.push((*change, verdict))?;
        }
        Ok(verdicts)
    }

    pub fn copy(&self) -> Result<Self, AllocError>
        ensures { IfOk result (λ copy. copy ≡ self.now) }
    {
        Ok(State {
            leader: self.leader,
            table: self.table.copy()?,
            next_region: self.next_region,
            retired: self.retired.copy()?,
        })
    }
}
