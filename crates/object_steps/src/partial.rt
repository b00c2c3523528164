//! What the members of a reduction contribute, in any order, and what it makes.

ghost use Rattle.std.specs.Prelude.{◌≡◌, ◌≤◌, ◌<◌, ◌^◌, ◌↔◌, length, replicate, slice_set, not, is_some, if◌then◌else◌, None, Some, IfOk, OnOk, OnErr, IsErr, IsSome};
ghost use Rattle.object_steps.specs.Partial.{Gathered, given_at, missing, total_of, whole, with_given};

use chare_base::memory::Memory;
use chare_base::plan::How;
use std::alloc::Global;
use std::marker::Model;

/// The member contributed already.
#[derive(Clone, Copy, Debug, PartialEq, Eq)]
pub struct Again;

/// What the members of a reduction contributed in one iteration so far. Members are numbered from 0.
///
/// Contracts see a `Gathered` of `specs/Partial`: how contributions are joined, and for each member its contribution,
/// if it made one. So two that hold the same contributions are equal there, in whatever order these came.
#[derive(Drop)]
pub struct Partial {
    how: How,
    left: u32,
    given: Vec<Option<i64>>,
}

impl Model for Partial {
    ghost use Rattle.object_steps.specs.Partial.{Gathered, Keeps};

    ghost Value = { Gathered };

    ghost view = { λ p. record { how = p.how; given = p.given.items } };

    ghost invariant = { λ p. Keeps p.left p.given.items };
}

impl Partial {
    /// The contributions of `members` members, none of which came yet.
    ///
    /// `Memory`: an allocation was refused.
    #[tactic(auto, using(crate::proofs::Missing::all_missing))]
    pub fn start(alloc: Global, how: How, members: u32) -> Result<Partial, Memory>
        requires { 1 ≤ members }
        ensures { IfOk result (λ p. p ≡ record { how = how; given = replicate members None }) }
    {
        let given = nothing_given(alloc, members)?;
        Ok(Partial {
            how,
            left: members,
            given,
        })
    }

    /// Takes a member's contribution. It takes no memory.
    ///
    /// `Again`: the member contributed already, and all is as before.
    pub fn add(&mut self, member: u32, value: i64) -> Result<(), Again>
        requires { member < length self.old.given }
        ensures ok { OnOk result (self.new ≡ with_given self.old member value) }
        ensures err { OnErr result (self.new ≡ self.old) }
        ensures again { IsErr result ↔ IsSome (given_at self.old.given member) }
    {
        if give(&mut self.given, &mut self.left, member as usize, value) {
            Ok(())
        } else {
            Err(Again)
        }
    }

    /// The total of all contributions, joined in the members' order; None exactly where a member has not contributed
    /// yet. It takes no memory.
    #[tactic(auto, using(crate::proofs::Missing::whole_some))]
    pub fn whole(&self) -> Option<i64>
        ensures exact { result ≡ whole self.now }
        ensures some { IsSome result ↔ (missing self.now.given ≡ 0) }
    {
        whole(self.how, &self.given, self.left)
    }
}

// No contribution of any of `members` members.
fn nothing_given(alloc: Global, members: u32) -> Result<Vec<Option<i64>>, Memory>
    ensures { IfOk result (λ given. given.items ≡ replicate members None) }
{
    let mut given = Vec::new(alloc);
    given.resize(members as usize, None)?;
    Ok(given)
}

// Takes a member's contribution, if it made none yet, and says whether it did.
#[tactic(auto, using(crate::proofs::Missing::one_less))]
fn give(given: &mut [Option<i64>], left: &mut u32, member: usize, value: i64) -> bool
    requires within { member < length given.old }
    requires count { left.old ≡ missing given.old }
    ensures fresh { result ≡ not (is_some (given_at given.old member)) }
    ensures given { given.new ≡ (if result then slice_set given.old member (Some value)
        else given.old) }
    ensures count { left.new ≡ missing given.new }
{
    match given[member] {
        Some(_) => false,
        None => {
            given[member] = Some(value);
            *left -= 1;
            true
        }
    }
}

#[tactic(auto, using(crate::proofs::Missing::none_missing, crate::proofs::Missing::some_missing))]
fn whole(how: How, given: &[Option<i64>], left: u32) -> Option<i64>
    requires { left ≡ missing given.now }
    ensures { result ≡ whole (record { how = how; given = given.now }) }
{
    if left == 0 {
        total_of(how, given)
    } else {
        None
    }
}

// The contributions that were made, joined in the members' order.
#[tactic(auto, using(crate::proofs::Missing::joined_next))]
fn total_of(how: How, given: &[Option<i64>]) -> Option<i64>
    ensures { result ≡ total_of how given.now }
{
    let mut total = None;
    for value in given {
        total = how.both(total, *value);
    }
    total
}
