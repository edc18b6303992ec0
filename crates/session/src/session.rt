//! A session and its calls.
ghost use Rattle.std.specs.Prelude.{◌≡◌, ℕ, ◌-◌, ◌^◌, ◌<◌, ◌≤◌, ◌||◌, ◌==◌, [], length};
ghost use Rattle.std.specs.Prelude.{min, sum_by, IfOk, OnOk, OnErr};
ghost use Rattle.session.specs.Session.{octets_of, uid_of, started, picked, picked_for};
ghost use Rattle.session.specs.Session.{marking, IsPlan};
ghost use Rattle.session.specs.View.{is_marked, marked, unmarked, sizes_of, uids_of};
ghost use Rattle.session.specs.View.{total_of};

use crate::listing::{Sizes, Uids};
use crate::pick::{Pick, Readable};
use crate::quit_plan::QuitPlan;
use crate::removals::Removals;
use crate::row::{
    Row, head_at, judge_mark, marked_count, planned, retrieval, totals, unmark_all, visible_rows,
};
use creds::{LoginName, Name};
use policy::Policy;
use std::alloc::{AllocError, Global};
use std::marker::Model;
use vault::Head;

/// One logged-in session: the messages that the clerk sees, numbered from 1, and which of them are
/// marked as deleted.
///
/// The view is that of the login: what comes into the maildrop or leaves it afterwards changes
/// nothing here.
#[derive(Drop)]
pub struct Session {
    name: LoginName,
    removals: Removals,
    rows: Vec<Row>,
}

impl Model for Session {
    ghost use Rattle.session.specs.Rows.{session_of};
    ghost use Rattle.session.specs.Session.{Session};

    ghost Value = { Session };

    ghost view = { λ s. session_of s.name s.removals s.rows.items };
}

impl Session {
    /// Starts the session of a clerk who logged in to a maildrop whose messages, in order of
    /// arrival, have these heads.
    ///
    /// The view is what the policy lets the clerk read, in order, numbered from 1, and nothing is
    /// marked. `removals` says when removals are judged. The memory for the marks is allocated
    /// here. An `Err` is want of memory.
    pub fn start(
        alloc: Global,
        clerk: Name,
        maildrop: Name,
        heads: &[Head],
        policy: &Policy,
        removals: Removals,
    ) -> Result<Session, AllocError>
        ensures session { IfOk result (λ s. s ≡ started policy.now removals clerk maildrop
            heads.now) }
        ensures octets { IfOk result (λ s. sum_by octets_of s.view ≤ sum_by octets_of heads.now) }
    {
        let name = LoginName { clerk, maildrop };
        let lane = policy.lane(&clerk, &maildrop);
        let rows = visible_rows(alloc, &lane, heads)?;
        Ok(Session {
            name,
            removals,
            rows,
        })
    }

    /// The clerk who is logged in.
    pub fn clerk(&self) -> Name
        ensures { result ≡ self.now.name.clerk }
    {
        self.name.clerk
    }

    /// The maildrop that the clerk is logged in to.
    pub fn maildrop(&self) -> Name
        ensures { result ≡ self.now.name.maildrop }
    {
        self.name.maildrop
    }

    /// The number of unmarked messages, and the sum of their octets (RFC 1939, 5: STAT).
    ///
    /// A sum above `u64::MAX` counts as `u64::MAX`. No maildrop reaches it: the octets of 10,000
    /// messages of 26,214,400 octets fit. It allocates nothing.
    pub fn stat(&self) -> (u64, u64)
        ensures messages { result.0 ≡ length (unmarked self.now.marks self.now.view) }
        ensures octets { result.1 ≡ min (total_of octets_of (unmarked self.now.marks self.now.view))
            u64.MAX }
        ensures exact { sum_by octets_of self.now.view < 2 ^ 64
            → result.1 ≡ total_of octets_of (unmarked self.now.marks self.now.view) }
    {
        totals(&self.rows)
    }

    /// How many messages are marked as deleted. It allocates nothing.
    pub fn marked(&self) -> usize
        ensures { result ≡ length (marked self.now.marks self.now.view) }
    {
        marked_count(&self.rows)
    }

    /// The numbers and octets of the unmarked messages, in ascending order of the numbers (RFC
    /// 1939, 5: LIST). It allocates nothing.
    pub fn list(&self) -> Sizes<'_>
        ensures { result ≡ sizes_of octets_of (unmarked self.now.marks self.now.view) }
    {
        Sizes::new(&self.rows)
    }

    /// The numbers and unique-ids of the unmarked messages, in ascending order of the numbers (RFC
    /// 1939, 7: UIDL). It allocates nothing.
    pub fn uidl(&self) -> Uids<'_>
        ensures { result ≡ uids_of uid_of (unmarked self.now.marks self.now.view) }
    {
        Uids::new(&self.rows)
    }

    /// The head of message `n`. `NoSuch` if the view has no such message, `Deleted` if it is
    /// marked. It allocates nothing.
    pub fn pick(&self, n: u64) -> Result<Head, Pick>
        ensures { result ≡ picked self.now n }
    {
        head_at(&self.rows, n)
    }

    /// The head of message `n`, if this policy lets the clerk read its class (RFC 1939, 5: RETR;
    /// 7: TOP), and the rule that lets it.
    ///
    /// `NoSuch` if the view has no such message, else `Deleted` if it is marked, else
    /// `Denied` if the policy denies it. It allocates nothing.
    pub fn pick_for(&self, n: u64, policy: &Policy) -> Result<Readable, Pick>
        ensures { result ≡ picked_for policy.now self.now n }
    {
        let head = head_at(&self.rows, n)?;
        let lane = policy.lane(&self.name.clerk, &self.name.maildrop);
        let decision = retrieval(&lane, &head.class);
        if !decision.allowed {
            return Err(Pick::Denied(decision.rule));
        }
        Ok(Readable {
            head,
            rule: decision.rule,
        })
    }

    /// Marks message `n` as deleted (RFC 1939, 5: DELE). The policy must let the clerk remove its
    /// class if removals are judged at the DELE, and isn't asked if they are judged at the
    /// QUIT.
    ///
    /// `NoSuch` if the view has no such message, else `Deleted` if it is marked already, else
    /// `Denied` if the policy denies it at the DELE. After an error the marks are as they were.
    /// It allocates nothing.
    pub fn mark(&mut self, n: u64, policy: &Policy) -> Result<(), Pick>
        ensures answer { result ≡ marking policy.now self.old n }
        ensures kept { self.new ≡ record self.old { marks = self.new.marks } }
        ensures marked { OnOk result ((m : ℕ) → is_marked self.new.marks m
            ≡ (is_marked self.old.marks m || m == n)) }
        ensures err { OnErr result (self.new ≡ self.old) }
    {
        let head = head_at(&self.rows, n)?;
        let lane = policy.lane(&self.name.clerk, &self.name.maildrop);
        judge_mark(self.removals, &lane, &head.class)?;
        self.rows[n as usize - 1].is_marked = true;
        Ok(())
    }

    /// Unmarks all messages (RFC 1939, 5: RSET). It allocates nothing.
    pub fn reset(&mut self)
        ensures { self.new ≡ record self.old { marks = [] } }
    {
        unmark_all(&mut self.rows);
    }

    /// What a QUIT does under this policy (RFC 1939, 6). Each marked message is judged once. An
    /// `Err` is want of memory.
    pub fn plan_quit(&self, policy: &Policy) -> Result<QuitPlan, AllocError>
        ensures { IfOk result (λ plan. IsPlan policy.now self.now plan) }
    {
        let alloc = *self.rows.allocator();
        let lane = policy.lane(&self.name.clerk, &self.name.maildrop);
        let plan = planned(alloc, &lane, &self.rows)?;
        Ok(plan)
    }
}
