//! The lines of a trace, taken one by one.
ghost use Rattle.std.specs.Prelude.{◌≡◌, ◌+◌, [], length, reverse, true, None, Some, Err, IfOk, IfErr, OnOk};
ghost use Rattle.et_text.specs.Rules.{has_ended};

use crate::fault::{TraceFault, UNENDED};
use crate::follow::follow;
use crate::standing::Standing;
use crate::trace::Trace;
use et_base::TraceLine;
use std::alloc::Global;
use std::marker::Model;

/// Tries the lines of a trace of version 1 or 2 against the rules, whichever way they are spelled. A contract sees the
/// lines that were taken, the oldest first, and the fault that came, if one did.
#[derive(Drop)]
pub struct Rules {
    alloc: Global,
    standing: Standing,
    lines: Vec<TraceLine>,
    fault: Option<TraceFault>,
}

impl Model for Rules {
    ghost use Rattle.et_text.specs.Taken.{Taken, KeepsTextRules};

    ghost Value = { Taken };

    ghost view = { λ a. record { lines = a.lines.items; fault = a.fault } };

    ghost invariant = { λ a. KeepsTextRules a.fault a.standing a.lines.items };
}

impl Rules {
    ghost use Rattle.et_text.specs.Taken.{Taken, IsInSomeRange, IsShortBehind, TakesLine, Refuses, LacksEnd};
    ghost use Rattle.et_text.specs.declared.fault.TraceFault.{TraceFault};

    /// No line yet.
    pub fn begin(alloc: Global) -> Rules
        ensures { result ≡ record { lines = []; fault = None } }
    {
        Rules {
            alloc,
            standing: Standing::begin(alloc),
            lines: Vec::new(alloc),
            fault: None,
        }
    }

    /// The number of the next line, from 1 on.
    pub fn next_number(&self) -> u64
        ensures { result ≡ length self.now.lines + 1 }
    {
        self.lines.len() as u64 + 1
    }

    /// Whether the last line was taken. After a fault the answer says nothing.
    pub fn has_ended(&self) -> bool
        ensures { self.now.fault ≡ None → result ≡ has_ended (reverse self.now.lines) }
    {
        self.standing.ended
    }

    /// Takes the next line, or says which rule it is the first to break: 6 the last line was taken before, 2 it may not
    /// stand here, 3 it mentions what no line before it defines, 4 it names again or reports dead again. Its numbers are
    /// in their ranges, the version of a header is 1 or 2, and no name or descriptor is empty, nor longer than 2^32 - 1
    /// bytes behind a header of version 2. After any fault, want of memory too, each further call answers that fault and
    /// changes nothing.
    pub fn take(&mut self, line: TraceLine) -> Result<(), TraceFault>
        requires range { IsInSomeRange line }
        requires short { IsShortBehind self.old.lines line }
        ensures ok { OnOk result (TakesLine self.old self.new line) }
        ensures again { (fault : TraceFault) →
            self.old.fault ≡ Some fault → (result ≡ Err fault) × (self.new ≡ self.old) }
        ensures err { self.old.fault ≡ None → IfErr result (Refuses self.old self.new line) }
    {
        match self.fault {
            Some(fault) => return Err(fault),
            None => {}
        }
        self.fault = Some(TraceFault::NoMemory);
        match follow(self.alloc, &mut self.standing, &line)? {
            Some(kind) => {
                let fault = TraceFault::At {
                    kind,
                    line: self.next_number(),
                };
                self.fault = Some(fault);
                Err(fault)
            }
            None => {
                self.lines.push(line)?;
                self.fault = None;
                Ok(())
            }
        }
    }

    /// No line comes any more. The lines are a trace exactly where no fault came and the last line was taken; where only
    /// that line lacks, the fault is 5 at the number behind the lines. It takes no memory.
    pub fn finish(self) -> Result<Trace, TraceFault>
        ensures ok { IfOk result (λ trace. trace ≡ self.lines) }
        ensures ended { OnOk result
            ((self.fault ≡ None) × (has_ended (reverse self.lines) ≡ true)) }
        ensures again { (fault : TraceFault) → self.fault ≡ Some fault → result ≡ Err fault }
        ensures err { self.fault ≡ None → IfErr result (LacksEnd self.lines) }
    {
        match self.fault {
            Some(fault) => return Err(fault),
            None => {}
        }
        if !self.standing.ended {
            return Err(TraceFault::At {
                kind: UNENDED,
                line: self.next_number(),
            });
        }
        Ok(Trace::of(self.lines))
    }
}
