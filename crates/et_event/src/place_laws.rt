//! What the table says of a turn in which an instruction is done. Each law is a function with an empty body: what it promises
//! is its contract.

ghost use Rattle.std.specs.Prelude.{◌≡◌, ℕ, List, Some, None, Ok, Err};
ghost use Rattle.et_code.specs.declared.instr.Instr.{Instr as Decoded};
ghost use Rattle.et_code.specs.declared.instr.CodeFault.{CodeFault};
ghost use Rattle.et_code.specs.Decoding.{instruction_at};
ghost use Rattle.et_code.specs.Switches.{IsSwitch};
ghost use Rattle.et_program.specs.Entries.{Linked};
ghost use Rattle.et_state.specs.declared.stage.Turn.TheVariants as turns;
ghost use Rattle.et_state.specs.Threads.{turn_of};
ghost use Rattle.et_state.specs.State.{Kept};
ghost use Rattle.et_state.specs.Words.{thread_at, top};
ghost use Rattle.et_event.specs.declared.rows.Row.{Row};
ghost use Rattle.et_event.specs.declared.rows.Row.TheVariants as rows;
ghost use Rattle.et_event.specs.declared.rows.FrameRow.TheVariants as frame_rows;
ghost use Rattle.et_event.specs.Event.{event, does};
ghost use Rattle.et_event.specs.Moments.{ill_typed};
ghost use Rattle.et_event.specs.Sites.{decoded_at, site_of};
ghost use Rattle.et_event.specs.Table.{row_of};

/// An event that does an instruction is what `does` says of the row of its opcode, at the place where it was decoded. At
/// the end of the code, and where the opcode has no row, it has no meaning.
pub fn instruction()
    ensures row { (p : Linked) (s : Kept) (t : ℕ) (x : Decoded × ℕ) (r : Row) →
        turn_of (thread_at s.guest t) ≡ turns.Instruction →
        decoded_at p (top s.guest t) ≡ Ok x → row_of x.0.opcode ≡ Some r → event p s t
        ≡ does (record { program = p; before = s; thread = t }) (site_of p (top s.guest t) x) r }
    ensures no_row { (p : Linked) (s : Kept) (t : ℕ) (x : Decoded × ℕ) →
        turn_of (thread_at s.guest t) ≡ turns.Instruction →
        decoded_at p (top s.guest t) ≡ Ok x → row_of x.0.opcode ≡ None →
        event p s t ≡ ill_typed (record { program = p; before = s; thread = t }) }
    ensures end { (p : Linked) (s : Kept) (t : ℕ) (fault : CodeFault) →
        turn_of (thread_at s.guest t) ≡ turns.Instruction → decoded_at p (top s.guest t)
        ≡ Err fault → event p s t ≡ ill_typed (record { program = p; before = s; thread = t }) }
{}

/// What is decoded from code and has the row of a switch is one.
pub fn switch()
    ensures { (code : List ℕ) (pc : ℕ) (x : Decoded × ℕ) → instruction_at code pc ≡ Ok x →
        row_of x.0.opcode ≡ Some (rows.Frame frame_rows.Switch) → IsSwitch code x.0 }
{}
