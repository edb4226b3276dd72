//! Lines that are tried against the rules and handed on, and not kept.
ghost use Rattle.std.specs.Prelude.{◌≡◌, ℕ, ◌+◌, List, [], length, true, IfOk, IfErr, OnOk};
ghost use Rattle.et_base.specs.declared.line.TraceLine.{TraceLine};
ghost use Rattle.et_text.specs.Followed.{IsFollowed, IsLineFollowed, RefusesNext, LacksFinish};
ghost use Rattle.et_text.specs.Ranges.{IsInRange};
ghost use Rattle.et_text.specs.Rules.{has_ended};

use crate::fault::{TraceFault, UNENDED};
use crate::follow::follow;
use crate::follower::Follower;
use crate::standing::Standing;
use et_base::TraceLine;
use std::alloc::Global;

/// The lines of a trace so far: what they say, and what follows them.
#[derive(Drop)]
pub struct Following<F: Follower> {
    alloc: Global,
    standing: Standing,
    /// The number of the next line, from 1 on.
    number: u64,
    follower: F,
}

impl<F: Follower> Following<F> {
    /// No line yet.
    pub fn begin(alloc: Global, follower: F) -> Following<F>
        ensures { (version : ℕ) → F.follows follower [] → IsFollowed F.follows version result [] }
    {
        Following {
            alloc,
            standing: Standing::begin(alloc),
            number: 1,
            follower,
        }
    }

    /// The number of the next line, from 1 on.
    pub fn next_number(&self) -> u64
        ensures { (version : ℕ) (past : List TraceLine) →
            IsFollowed F.follows version self.now past → result ≡ length past + 1 }
    {
        self.number
    }

    /// Whether the last line was taken.
    pub fn has_ended(&self) -> bool
        ensures { (version : ℕ) (past : List TraceLine) →
            IsFollowed F.follows version self.now past → result ≡ has_ended past }
    {
        self.standing.ended
    }

    /// Hands the next line on, or says which rule it is the first to break, as `Rules::take` does. After an error it may only
    /// be dropped. More lines than 2^64 - 2 are as memory that ran out.
    #[inline(always)]
    pub fn take(&mut self, line: &TraceLine) -> Result<(), TraceFault>
        requires range { (version : ℕ) × (past : List TraceLine)
            × IsFollowed F.follows version self.old past × IsInRange version line.now }
        ensures ok { (version : ℕ) (past : List TraceLine) →
            IsFollowed F.follows version self.old past → IsInRange version line.now →
            OnOk result (IsLineFollowed F.follows version self.new past line.now) }
        ensures err { (version : ℕ) (past : List TraceLine) →
            IsFollowed F.follows version self.old past → IsInRange version line.now →
            IfErr result (RefusesNext past line.now) }
    {
        let Some(next) = self.number.checked_add(1) else {
            return Err(TraceFault::NoMemory);
        };
        match follow(self.alloc, &mut self.standing, line)? {
            Some(kind) => Err(TraceFault::At {
                kind,
                line: self.number,
            }),
            None => {
                self.follower.line(line)?;
                self.number = next;
                Ok(())
            }
        }
    }

    /// No line comes any more: what followed the lines, where the last one was taken. Else the fault is 5 at the number behind
    /// the lines. It takes no memory.
    pub fn finish(self) -> Result<F, TraceFault>
        ensures ok { (version : ℕ) (past : List TraceLine) →
            IsFollowed F.follows version self past →
            IfOk result (λ follower. F.follows follower past × (has_ended past ≡ true)) }
        ensures err { (version : ℕ) (past : List TraceLine) →
            IsFollowed F.follows version self past → IfErr result (LacksFinish past) }
    {
        if !self.standing.ended {
            return Err(TraceFault::At {
                kind: UNENDED,
                line: self.number,
            });
        }
        Ok(self.follower)
    }
}
