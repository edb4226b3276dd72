//! The code of a method, as the search for its typing goes over it.
ghost use Rattle.std.specs.Prelude.{◌≡◌, ℕ, ◌+◌, ◌<◌, ◌≤◌, ◌^◌, ◌++◌, [], true, false, length, map, None, Some, IfNone, IfOk, OnOk, IsSome, ◌||◌};
ghost use Rattle.std.specs.List.{flat_map};
ghost use Rattle.et_code.specs.Bodies.{body_of};
ghost use Rattle.et_program.specs.Entries.{Linked, is_static as static_at, method_at};
ghost use Rattle.et_event.specs.Programs.{is_initializing};
ghost use Rattle.et_pool.specs.Operands.{shape_in};
ghost use Rattle.et_verify.specs.Methods.{StandsAt};
ghost use Rattle.et_flow.specs.Stores.{with_free};
ghost use Rattle.et_verify.specs.Typings.{parameter_entries, argument_entries, HasTyping};

use crate::decoded::{Decoded, decoded_at, simple_decoded_at};
use crate::leads::{
    catching_rows, find_handlers, go_on, go_past, is_flagged, may_enter, may_go, next_places,
};
use crate::plain::plain_row;
use crate::rows::{step, step_returned, step_within};
use crate::simple::simple_at;
use crate::targets::mark_method;
use et_base::{ClassId, MethodId, NoMemory};
use et_class::flags::{STATIC, has};
use et_code::{RawCode, TableRow};
use et_event::{CallRow, Operand, Place, Row, Site};
use et_flow::{EntryType, Flow, Lead, Search, Types, find_typing};
use et_pool::{CallShape, Pool, Returned};
use et_program::{MethodInfo, Program};
use std::alloc::Global;
use std::marker::Model;

/// The code of a method, and what is read off the method once.
#[derive(Drop)]
struct MethodFlow<'a> {
    program: &'a Program,
    method: MethodId,
    info: &'a MethodInfo,
    code: &'a RawCode,
    returned: Returned,
    handling: &'a [TableRow],
    starts: &'a [bool],
    targets: &'a [bool],
}

impl<'a> Model for MethodFlow<'a> {
    ghost use Rattle.et_code.specs.Bodies.{body_of};
    ghost use Rattle.et_verify.specs.Methods.{MethodOf, IsMethod};

    ghost Value = { MethodOf };

    ghost view = { λ f. record { program = f.program.now; method = f.method; body = body_of f.code.now; targets = f.targets.now } };

    ghost invariant = { λ f. IsMethod f.program.now f.method f.info.now (body_of f.code.now) f.returned f.handling.now f.starts.now f.targets.now };
}

impl<'a> Flow for MethodFlow<'a> {
    ghost use Rattle.std.specs.Prelude.{◌≡◌, IfOk, not};
    ghost use Rattle.et_code.specs.Rules.{flag};
    ghost use Rattle.et_flow.specs.Flows.{IsLed};
    ghost use Rattle.et_verify.specs.Typings.{leads_in};

    ghost leads = { λ f. leads_in f.program f.method f.body };

    ghost straight = { λ f place. not (flag f.targets place) };

    fn lead(&self, place: u32, types: &mut Types, lead: &mut Lead) -> Result<bool, NoMemory> {
        if !is_flagged(self.starts, place) {
            return Ok(false);
        }
        find_handlers(self.handling, place, types, lead)?;
        if !self.step_at(place, types, lead)? {
            return Ok(false);
        }
        if !may_go(self.starts, lead) {
            return Ok(false);
        }
        if !may_enter(self.starts, lead, self.code.max_stack as usize) {
            return Ok(false);
        }
        Ok(true)
    }
}

impl<'a> MethodFlow<'a> {
    ghost use Rattle.std.specs.Prelude.{◌≡◌, true, IfOk};
    ghost use Rattle.et_code.specs.Starts.{is_start};
    ghost use Rattle.et_verify.specs.Methods.{StandsAt, types_after_it, IsAnswered, IsStepped};

    /// Makes types those after an instruction that may name an entry of the pool. `false` where it doesn't accept them; some
    /// entries may be gone then.
    #[inline(always)]
    fn step_named(&self, pc: u32, at: &Decoded, types: &mut Types) -> Result<bool, NoMemory>
        requires { StandsAt self.now.body.code pc at.now }
        ensures { IfOk result
            (IsAnswered (types_after_it self.now at.now types.old) types.new) }
    {
        let code = self.code.code.as_slice();
        let class = self.info.class;
        let pool = self.program.pool(class);
        let site = Site::new(at.instr, at.next, code, pool, class);
        let place = Place { row: at.row, site };
        let room = self.code.max_stack as usize;
        let done = step(types, self.program, &place, self.returned, room)?;
        Ok(done)
    }

    /// The same. One that changes the frame alone names no entry.
    #[inline(always)]
    fn step_decoded(&self, pc: u32, at: &Decoded, types: &mut Types) -> Result<bool, NoMemory>
        requires { StandsAt self.now.body.code pc at.now }
        ensures { IfOk result
            (IsAnswered (types_after_it self.now at.now types.old) types.new) }
    {
        let room = self.code.max_stack as usize;
        let done = match at.row {
            Row::Frame(row) => step_within(types, row, &at.instr, room)?,
            _ => self.step_named(pc, at, types)?,
        };
        Ok(done)
    }

    /// The same. A return names no entry.
    #[inline(always)]
    fn step_other(&self, pc: u32, at: &Decoded, types: &mut Types) -> Result<bool, NoMemory>
        requires { StandsAt self.now.body.code pc at.now }
        ensures { IfOk result
            (IsAnswered (types_after_it self.now at.now types.old) types.new) }
    {
        let room = self.code.max_stack as usize;
        let done = match at.row {
            Row::Call(CallRow::Return(kind)) => step_returned(types, kind, self.returned, room),
            _ => self.step_named(pc, at, types)?,
        };
        Ok(done)
    }

    /// Makes types those after the instruction at a place, and finds the places at which the code goes on. `false` where no
    /// instruction with a row stands there, or it doesn't accept the types.
    #[inline(never)]
    fn step_any(&self, pc: u32, types: &mut Types, lead: &mut Lead) -> Result<bool, NoMemory>
        requires { is_start self.now.body.code pc ≡ true }
        ensures { IfOk result
            (IsStepped self.now pc types.old types.new lead.old lead.new) }
    {
        let code = self.code.code.as_slice();
        let Some(at) = decoded_at(code, pc) else {
            return Ok(false);
        };
        if !self.step_decoded(pc, &at, types)? {
            return Ok(false);
        }
        next_places(self.targets, code, pc, &at, lead)?;
        Ok(true)
    }

    /// The same of a simple instruction.
    #[inline(never)]
    fn step_simple(&self, pc: u32, types: &mut Types, lead: &mut Lead) -> Result<bool, NoMemory>
        requires { is_start self.now.body.code pc ≡ true }
        ensures { IfOk result
            (IsStepped self.now pc types.old types.new lead.old lead.new) }
    {
        let code = self.code.code.as_slice();
        let Some(at) = simple_decoded_at(code, pc) else {
            return self.step_any(pc, types, lead);
        };
        if !self.step_other(pc, &at, types)? {
            return Ok(false);
        }
        go_on(self.targets, at.row, at.next, lead)?;
        Ok(true)
    }

    /// The same of any instruction. A plain and simple one, as most are, is looked up by its opcode alone.
    #[inline(always)]
    fn step_at(&self, pc: u32, types: &mut Types, lead: &mut Lead) -> Result<bool, NoMemory>
        requires { is_start self.now.body.code pc ≡ true }
        ensures { IfOk result
            (IsStepped self.now pc types.old types.new lead.old lead.new) }
    {
        let Some((instr, next)) = simple_at(self.code.code.as_slice(), pc as usize) else {
            return self.step_any(pc, types, lead);
        };
        let Some(row) = plain_row(instr.opcode) else {
            return self.step_simple(pc, types, lead);
        };
        let room = self.code.max_stack as usize;
        if !step_within(types, row, &instr, room)? {
            return Ok(false);
        }
        go_past(self.targets, next as u32, lead)?;
        Ok(true)
    }
}

/// Adds the local variables of a parameter.
fn push_parameter(locals: &mut Vec<EntryType>, kind: Option<Operand>) -> Result<(), NoMemory>
    ensures { OnOk result (locals.new.items ≡ locals.old.items ++ parameter_entries kind) }
{
    match kind {
        Some(Operand::Int) => locals.push(EntryType::Int)?,
        Some(Operand::Long) => {
            locals.push(EntryType::Long)?;
            locals.push(EntryType::LongHigh)?;
        }
        Some(Operand::Reference) => locals.push(EntryType::Reference)?,
        None => {}
    }
    Ok(())
}

/// Makes types the local variables of the receiver, if there is one, and of parameters of these kinds.
fn put_arguments(
    locals: &mut Vec<EntryType>,
    is_static: bool,
    kinds: &[Option<Operand>],
) -> Result<(), NoMemory>
    ensures { OnOk result (locals.new.items ≡ argument_entries is_static kinds.now) }
{
    locals.clear();
    if !is_static {
        locals.push(EntryType::Reference)?;
    }
    for kind in kinds {
        push_parameter(locals, *kind)?;
    }
    Ok(())
}

/// Whether a method is entered without a receiver: it is static, or named `<clinit>`.
fn has_no_receiver(info: &MethodInfo) -> bool
    ensures { (p : Linked) (m : ℕ) → info.now ≡ method_at p m →
        result ≡ (static_at p m || is_initializing p m) }
{
    has(info.flags, STATIC) || info.name.as_slice() == b"<clinit>".as_slice()
}

/// Makes types those with which a method begins. `false` where its arguments are more than its local variables.
fn begin_types(
    types: &mut Types,
    arguments: &mut Vec<EntryType>,
    is_static: bool,
    kinds: &[Option<Operand>],
    count: usize,
) -> Result<bool, NoMemory>
    requires { count < 2 ^ 16 }
    ensures some { IfOk result (λ b. b ≡ true → (types.new.operands ≡ [])
        × (types.new.locals ≡ with_free count (argument_entries is_static kinds.now))) }
    ensures fits { IfOk result (λ b. b ≡ true → length types.new.locals ≡ count) }
    ensures none { IfOk result (λ b. b ≡ false →
        count < length (argument_entries is_static kinds.now)) }
{
    put_arguments(arguments, is_static, kinds)?;
    if arguments.len() > count {
        return Ok(false);
    }
    types.begin(arguments, count)?;
    Ok(true)
}

/// What is kept from one method to the next: the room of its flags, its arguments, its first types and the search.
#[derive(Drop)]
pub(crate) struct Room {
    starts: Vec<bool>,
    targets: Vec<bool>,
    places: Vec<u32>,
    arguments: Vec<EntryType>,
    entry: Types,
    search: Search,
}

impl Room {
    /// Nothing is kept yet.
    pub(crate) fn new(alloc: Global) -> Self {
        Room {
            starts: Vec::new(alloc),
            targets: Vec::new(alloc),
            places: Vec::new(alloc),
            arguments: Vec::new(alloc),
            entry: Types::new(alloc),
            search: Search::new(alloc),
        }
    }
}

/// Whether a method with code has a typing.
fn code_has_typing(
    alloc: Global,
    room: &mut Room,
    program: &Program,
    method: MethodId,
    shape: &CallShape,
    code: &RawCode,
) -> Result<bool, NoMemory>
    requires method { method < length program.now.methods }
    requires shape { Some shape.now ≡ shape_in (method_at program.now method).descriptor }
    requires code { (method_at program.now method).code ≡ Some (body_of code.now) }
    requires some { 0 < length code.now.code.items }
    requires few { length code.now.code.items < 2 ^ 16 }
    ensures yes { IfOk result (λ b. b ≡ true → HasTyping program.now method) }
    ensures no { IfOk result (λ b. b ≡ false → HasTyping program.now method → ⊥) }
{
    let info = program.method(method);
    let count = code.max_locals as usize;
    if !begin_types(
        &mut room.entry,
        &mut room.arguments,
        has_no_receiver(info),
        shape.kinds(),
        count,
    )? {
        return Ok(false);
    }
    mark_method(
        &mut room.starts,
        &mut room.targets,
        &mut room.places,
        &code.code,
        &code.table,
    )?;
    let handling = catching_rows(alloc, program, program.pool(info.class), &code.table)?;
    let flow = MethodFlow {
        program,
        method,
        info,
        code,
        returned: shape.returned(),
        handling: &handling,
        starts: &room.starts,
        targets: &room.targets,
    };
    let found = find_typing(alloc, &mut room.search, &flow, code.code.len(), &room.entry)?;
    Ok(found)
}

/// Whether a method has a typing, if it has code.
pub(crate) fn has_typing(
    alloc: Global,
    room: &mut Room,
    program: &Program,
    method: MethodId,
) -> Result<bool, NoMemory>
    requires { method < length program.now.methods }
    ensures yes { IfOk result (λ b. b ≡ true → HasTyping program.now method) }
    ensures no { IfOk result (λ b. b ≡ false → HasTyping program.now method → ⊥) }
    ensures code { IfOk result (λ b. b ≡ false → IsSome (method_at program.now method).code) }
{
    let info = program.method(method);
    let Some(code) = &info.code else {
        return Ok(true);
    };
    let Some(shape) = program.method_shape(method) else {
        return Ok(false);
    };
    let found = code_has_typing(alloc, room, program, method, shape, code.raw())?;
    Ok(found)
}
