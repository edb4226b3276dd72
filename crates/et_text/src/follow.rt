//! A line tried against the rules, and noted.
ghost use Rattle.std.specs.Prelude.{IfOk, List, ℕ};
ghost use Rattle.et_base.specs.declared.line.TraceLine.{TraceLine};
ghost use Rattle.et_text.specs.Follows.{Notes, Follows};

use crate::breaking::fault_of;
use crate::fault::TWICE;
use crate::notes::{
    note_class, note_death, note_event, note_finish, note_flush, note_header, note_method,
    note_object,
};
use crate::standing::Standing;
use et_base::{NoMemory, TraceLine};
use std::alloc::Global;

/// Notes the line, and says whether its names are new.
#[inline(always)]
fn note(alloc: Global, s: &mut Standing, line: &TraceLine) -> Result<bool, NoMemory>
    ensures { IfOk result (Notes s.old s.new line.now) }
{
    match line {
        TraceLine::Header { interval, .. } => {
            note_header(s, *interval);
            Ok(true)
        }
        TraceLine::Class { number, name } => note_class(alloc, s, *number, name),
        TraceLine::Method {
            number,
            class,
            name,
            descriptor,
        } => note_method(alloc, s, *number, *class, name, descriptor),
        TraceLine::Alloc { event, .. } => {
            note_object(s, *event)?;
            Ok(true)
        }
        TraceLine::Update { event, .. }
        | TraceLine::Enter { event, .. }
        | TraceLine::Exit { event, .. }
        | TraceLine::Unwind { event, .. } => {
            note_event(s, *event);
            Ok(true)
        }
        TraceLine::Flush { event, deaths } => {
            note_flush(s, *event, *deaths);
            Ok(true)
        }
        TraceLine::Death { object, .. } => {
            note_death(s, *object);
            Ok(true)
        }
        TraceLine::Finish { .. } => {
            note_finish(s);
            Ok(true)
        }
    }
}

/// The kind of the first rule that the line breaks after those so far; where it breaks none, it is noted.
#[inline(always)]
pub fn follow(alloc: Global, s: &mut Standing, line: &TraceLine) -> Result<Option<u8>, NoMemory>
    ensures { (version : ℕ) (past : List TraceLine) →
        IfOk result (λ found. Follows s.old s.new version past line.now found) }
{
    match fault_of(s, line) {
        Some(kind) => Ok(Some(kind)),
        None => {
            let added = note(alloc, s, line)?;
            if added { Ok(None) } else { Ok(Some(TWICE)) }
        }
    }
}
