//! The objects of a trace.
ghost use Rattle.std.specs.Prelude.{◌≡◌, [], reverse, IfOk, OnOk};
ghost use Rattle.et_replay.specs.Lives.{with_time, born_with, died_with, born_by, died_by};

use et_base::{NoMemory, TraceLine};
use std::alloc::Global;

/// The time of the death of what no D line tells of.
pub const NEVER: u64 = u64::MAX;

/// The objects of a trace, by number.
#[derive(Drop)]
pub struct Lives {
    /// The event that made each, and its size in bytes.
    pub born: Vec<(u64, u64)>,
    /// The last event at which each was reached, and its size in bytes.
    pub died: Vec<(u64, u64)>,
}

fn set_time(died: &mut Vec<(u64, u64)>, place: usize, time: u64)
    ensures { died.new.items ≡ with_time died.old.items place time }
{
    if place < died.len() {
        died[place] = (time, died[place].1);
    }
}

impl Lives {
    /// No line yet.
    pub fn begin(alloc: Global) -> Lives
        ensures born { result.born.items ≡ [] }
        ensures died { result.died.items ≡ [] }
    {
        Lives {
            born: Vec::new(alloc),
            died: Vec::new(alloc),
        }
    }

    /// Takes the next line.
    #[inline]
    pub fn note(&mut self, line: &TraceLine) -> Result<(), NoMemory>
        ensures born { OnOk result
            (self.new.born.items ≡ born_with self.old.born.items line.now) }
        ensures died { OnOk result
            (self.new.died.items ≡ died_with self.old.died.items line.now) }
    {
        match line {
            TraceLine::Alloc { event, size, .. } => {
                self.born.push((*event, *size))?;
                self.died.push((NEVER, *size))?;
            }
            TraceLine::Death { object, time } => {
                set_time(&mut self.died, (*object as usize).saturating_sub(1), *time);
            }
            _ => {}
        }
        Ok(())
    }
}

/// The objects that the lines tell of.
pub fn lives_of(alloc: Global, lines: &[TraceLine]) -> Result<Lives, NoMemory>
    ensures born { IfOk result (λ lives. lives.born.items ≡ born_by (reverse lines.now)) }
    ensures died { IfOk result (λ lives. lives.died.items ≡ died_by (reverse lines.now)) }
{
    let mut lives = Lives::begin(alloc);
    for line in lines {
        lives.note(line)?;
    }
    Ok(lives)
}
