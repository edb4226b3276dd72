//! The event call of the methods of texts, and of the reading of System.out.
ghost use Rattle.std.specs.Prelude.{◌≡◌, ◌+◌, ◌≤◌, ◌⊎◌, None, IfNone, IfOk, IfSome, IsSome};
ghost use Rattle.et_event.specs.Answered.{TextAnswers};
ghost use Rattle.et_event.specs.Beginning.{BeginsEvent};
ghost use Rattle.et_event.specs.Moments.{Moment};
ghost use Rattle.et_event.specs.Out.{out_turn};
ghost use Rattle.et_event.specs.Selected.{text_call, text_call_at};
ghost use Rattle.et_event.specs.Sites.{Site};
ghost use Rattle.et_event.specs.SoundTexts.{HasSoundTexts};
ghost use Rattle.et_event.specs.Told.{event_with_texts, said_by};
ghost use Rattle.et_event.specs.declared.rows.CallRow.TheVariants as calls;
ghost use Rattle.et_event.specs.declared.rows.Row.TheVariants as rows;
ghost use Rattle.et_state.specs.Answers.{SaysWhereDone};
ghost use Rattle.et_state.specs.Spoken.{spoken};
ghost use Rattle.et_state.specs.State.{kept_of};
ghost use Rattle.et_state.specs.Texts.{Texts as TextList};

use crate::calls::text_called;
use crate::rows::{is_fit, row_event};
use crate::texts::Texts;
use et_base::{NoMemory, Steps, ThreadId};
use et_event::{CallKind, CallRow, Place, Row, ill_typed, place_of};
use et_program::Program;
use et_refs::out_event;
use et_state::{EventEnd, Machine, Output};
use std::alloc::Global;
use std::sync::ledger::Ledger;

/// The kind of the invoke at a place, if that is one.
fn invoke_kind(place: &Place<'_>) -> Option<CallKind>
    ensures some { IfSome result (λ kind. place.now.row ≡ rows.Call (calls.Invoke kind)) }
    ensures none { IfNone result
        ((e : Moment) (at : Site) → text_call_at e at place.now.row ≡ None) }
{
    match place.row {
        Row::Call(CallRow::Invoke(kind)) => Some(kind),
        Row::Call(CallRow::Return(_))
        | Row::Frame(_)
        | Row::PoolConstant
        | Row::Divide(_, _)
        | Row::Heap(_)
        | Row::Throw
        | Row::Monitor(_) => None,
    }
}

/// The event of a thread that reads System.out.
fn read_event(
    program: &Program,
    machine: &mut Machine,
    thread: ThreadId,
    out: &mut Output,
) -> Result<EventEnd, NoMemory>
    requires begins { BeginsEvent program.now machine.old thread }
    requires turn { IsSome (out_turn program.now (kept_of machine.old) thread) }
    ensures event { IfOk result (λ end. (x : TextList) → TextAnswers (event_with_texts program.now
        (spoken x (kept_of machine.old)) thread) end machine.old machine.new x x
        out.old.records out.new.records) }
    ensures said { IfOk result (λ end. (x : TextList) → SaysWhereDone end (said_by program.now
        (spoken x (kept_of machine.old)) thread) out.old.said.items out.new.said.items) }
{
    let end = out_event(program, machine, thread, &mut out.records)?;
    // Laws: they tell the prover, and do nothing.
    machine.has_no_texts();
    Ok(end)
}

/// The event of a thread whose turn calls a method of strings, of string builders or of print streams, or reads System.out.
/// It answers what the table of events with texts says: `Done`, and then the machine keeps the next state but for its texts,
/// which are the texts beside it, and the records of the event and the bytes that it prints stand behind those that were
/// there; or `IllTyped` or `ObjectLimit`, and then all is as before. After `NoMemory` the event may be half done, and
/// machine, texts and output may only be dropped.
pub fn strings_event<L: Ledger>(
    alloc: Global,
    program: &Program,
    machine: &mut Machine,
    texts: &mut Texts,
    thread: ThreadId,
    out: &mut Output,
    visits: &mut Steps<L>,
) -> Result<EventEnd, NoMemory>
    requires begins { BeginsEvent program.now machine.old thread }
    requires texts { HasSoundTexts program.now (spoken texts.old (kept_of machine.old)) }
    requires turn { IsSome (text_call program.now (kept_of machine.old) thread)
        ⊎ IsSome (out_turn program.now (kept_of machine.old) thread) }
    ensures event { IfOk result (λ end. TextAnswers (event_with_texts program.now
        (spoken texts.old (kept_of machine.old)) thread) end machine.old machine.new
        texts.old texts.new out.old.records out.new.records) }
    ensures said { IfOk result (λ end. SaysWhereDone end (said_by program.now
        (spoken texts.old (kept_of machine.old)) thread) out.old.said.items out.new.said.items) }
    ensures visits { visits.new ≤ visits.old + 6 }
{
    // Laws: they tell the prover, and do nothing.
    machine.has_no_texts();
    let Some(place) = place_of(program, machine, thread) else {
        unreachable!()
    };
    match invoke_kind(&place) {
        Some(kind) => {
            let call = text_called(program, machine, thread, &place, kind, visits);
            if !is_fit(program, machine, &call, visits) {
                return Ok(ill_typed(machine, thread));
            }
            row_event(alloc, program, machine, texts, &call, out, visits)
        }
        None => read_event(program, machine, thread, out),
    }
}
