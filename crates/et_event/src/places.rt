//! The instruction at which a thread stands.
ghost use Rattle.std.specs.Prelude.{◌≡◌, None, Some, IfNone, IfSome};
ghost use Rattle.et_state.specs.declared.stage.Turn.TheVariants as turns;
ghost use Rattle.et_state.specs.Threads.{turn_of};
ghost use Rattle.et_state.specs.State.{kept_of};
ghost use Rattle.et_state.specs.Words.{thread_at, top};
ghost use Rattle.et_event.specs.Event.{event, does};
ghost use Rattle.et_event.specs.Moments.{ill_typed, moment};
ghost use Rattle.et_event.specs.Sites.{decoded_at};
ghost use Rattle.et_event.specs.Sound.{IsSoundFor};
ghost use Rattle.et_event.specs.Families.{family_of, family_of_row, row_at};
ghost use Rattle.et_event.specs.declared.families.Family.TheVariants as families;
ghost use Rattle.et_event.specs.Places.{IsFound, IsPlace};

use crate::codes::{code_of, instruction, method_of};
use crate::place_laws;
use crate::rows::Row;
use crate::sites::Site;
use crate::table::row_of;
use et_base::ThreadId;
use et_program::Program;
use et_state::Machine;

/// The instruction at which a thread stands, with what it names read in place.
#[derive(Drop)]
pub struct Place<'a> {
    /// What it does.
    pub row: Row,
    /// Where it stands.
    pub site: Site<'a>,
}

/// The instruction at the pc of the frame; `None` where the code ends there, or has an opcode without a row.
fn find_place<'a>(program: &'a Program, machine: &Machine, thread: ThreadId) -> Option<Place<'a>>
    requires sound { IsSoundFor program.now (kept_of machine.now) }
    requires turn { turn_of (thread_at machine.now.guest thread) ≡ turns.Instruction }
    ensures { IsFound program.now (top machine.now.guest thread) result }
{
    // Laws: they tell the prover, and do nothing.
    place_laws::switch();
    let method = method_of(program, machine, thread);
    let code = code_of(method);
    let (instr, next) = instruction(code, machine.pc(thread)).ok()?;
    let row = row_of(instr.opcode)?;
    let site = Site::new(instr, next, code, program.pool(method.class), method.class);
    Some(Place { row, site })
}

/// The instruction that a thread does in its turn, of which the table of events says what its row does there. `None` where
/// the code ends there or has an opcode without a row, and then the event has no meaning. The code and the pool are borrowed
/// from the program.
pub fn place_of<'a>(program: &'a Program, machine: &Machine, thread: ThreadId) -> Option<Place<'a>>
    requires sound { IsSoundFor program.now (kept_of machine.now) }
    requires turn { turn_of (thread_at machine.now.guest thread) ≡ turns.Instruction }
    ensures found { IfSome result
        (λ place. IsPlace program.now (top machine.now.guest thread) place) }
    ensures none { IfNone result
        (row_at (decoded_at program.now (top machine.now.guest thread)) ≡ None) }
    ensures event { IfSome result (λ place. event program.now (kept_of machine.now) thread
        ≡ does (moment program.now machine.now thread) place.site place.row) }
    ensures no_event { IfNone result (event program.now (kept_of machine.now) thread
        ≡ ill_typed (moment program.now machine.now thread)) }
    ensures family { IfSome result (λ place. family_of program.now (kept_of machine.now) thread
        ≡ family_of_row (Some place.row)) }
    ensures no_family { IfNone result
        (family_of program.now (kept_of machine.now) thread ≡ families.Ops) }
{
    // Laws: they tell the prover, and do nothing.
    place_laws::instruction();
    find_place(program, machine, thread)
}
