//! Whether what an event makes fits, with the strings that the constants of classes make.
ghost use Rattle.std.specs.Prelude.{◌≡◌, ℕ, ◌<◌, ◌||◌, true, All, IfOk, OnOk, length, fold, option_map, is_some};
ghost use Rattle.std.specs.List.{list_all, list_any};
ghost use Rattle.et_heap.specs.Objects.{has_room};
ghost use Rattle.et_state.specs.declared.class_state.ClassState.{ClassState as State};
ghost use Rattle.et_state.specs.declared.class_state.ClassState.TheVariants as states;
ghost use Rattle.et_state.specs.Words.{class_state_at};
ghost use Rattle.et_event.specs.InitializationOrder.{IsInOrder};
ghost use Rattle.et_state.specs.Interned.{object_of};
ghost use Rattle.et_event.specs.Moments.{moment, Doing, begins, fits_heap as all_fit};
ghost use Rattle.et_event.specs.Initialization.{state_of, field_set, constants_set, with_state, class_done, quietly_done, is_ready, prepared};
ghost use Rattle.et_initialize.specs.Texts.{constant_text as text_in, has_text, string_slots as slots_of_string, has_room_for as room_for, Adds, AddsOfDone, AreFields, Counted, CountedAll, MayCount};

use et_base::{ClassId, FieldId, NoMemory};
use et_event::{class_called, slots_of};
use et_heap::{MOST_OBJECTS, MOST_SLOTS};
use et_program::{BuiltInClass, Program};
use et_state::{ClassState, Machine};
use std::alloc::Global;

/// The bytes of the constant of a field, where that is a string.
fn text_of(program: &Program, field: FieldId) -> Option<&[u8]>
    requires { field < length program.now.fields }
    ensures { option_map (λ s. s.now) result ≡ text_in program.now field }
{
    let info = program.field(field);
    match program.pool(info.class) {
        Some(pool) => pool.string(info.constant),
        None => None,
    }
}

/// Whether the constant of a field is the string of these bytes.
fn is_text(program: &Program, field: FieldId, bytes: &[u8]) -> bool
    requires { field < length program.now.fields }
    ensures { result ≡ has_text program.now bytes.now field }
{
    match text_of(program, field) {
        Some(text) => bytes == text,
        None => false,
    }
}

/// Whether one of these fields has the constant of these bytes.
fn is_seen(program: &Program, seen: &[FieldId], bytes: &[u8]) -> bool
    requires { AreFields program.now seen.now }
    ensures { result ≡ list_any (has_text program.now bytes.now) seen.now }
{
    for k in 0..seen.len() {
        if is_text(program, seen[k], bytes) {
            return true;
        }
    }
    false
}

/// Whether the string of these bytes is there, or will be once the constants of these fields are set.
fn is_known(program: &Program, machine: &Machine, seen: &[FieldId], bytes: &[u8]) -> bool
    requires { AreFields program.now seen.now }
    ensures { result ≡ (is_some (object_of machine.now.guest.interned bytes.now) || list_any
        (has_text program.now bytes.now) seen.now) }
{
    machine.interned(bytes).is_some() || is_seen(program, seen, bytes)
}

/// How many slots a string has.
fn string_slots(program: &Program) -> u32
    ensures { result ≡ slots_of_string program.now }
{
    slots_of(program, class_called(program, BuiltInClass::String))
}

/// Whether so many strings, of so many slots each, and so many objects and slots besides may be made.
fn has_room_for(machine: &Machine, strings: usize, each: u32, objects: u32, slots: u32) -> bool
    ensures value { result ≡ room_for machine.now.heap strings each objects slots }
    ensures some { 0 < length machine.now.heap }
{
    let room = (MOST_OBJECTS - machine.heap.count()) as u64;
    if objects as u64 > room || strings as u64 > room - objects as u64 {
        return false;
    }
    let room = (MOST_SLOTS - machine.heap.slots()) as u64;
    strings as u64 * each as u64 + slots as u64 <= room
}

/// A count of the strings that the constants of classes make in a program, from the state of its machine on: the fields are
/// listed that make them.
#[derive(Clone, Copy)]
pub(crate) struct Count<'a> {
    program: &'a Program,
    machine: &'a Machine,
}

impl<'a> Count<'a> {
    /// Adds a field to those that were seen, where its constant is a string that isn't there yet.
    fn count_field(&self, field: FieldId, seen: &mut Vec<FieldId>) -> Result<(), NoMemory>
        requires field { field < length self.now.program.now.fields }
        requires within { AreFields self.now.program.now seen.old.items }
        ensures within { OnOk result (AreFields self.now.program.now seen.new.items) }
        ensures counted { OnOk result (Adds self.now.program.now self.now.machine.now
            seen.old.items seen.new.items (λ e d. field_set e d field)) }
    {
        if let Some(text) = text_of(self.program, field) {
            if !is_known(self.program, self.machine, seen.as_slice(), text) {
                seen.push(field)?;
            }
        }
        Ok(())
    }

    /// Adds the constants of a class that make strings.
    fn count_constants(&self, class: ClassId, seen: &mut Vec<FieldId>) -> Result<(), NoMemory>
        requires class { class < length self.now.program.now.classes }
        requires within { AreFields self.now.program.now seen.old.items }
        ensures within { OnOk result (AreFields self.now.program.now seen.new.items) }
        ensures counted { OnOk result (Adds self.now.program.now self.now.machine.now
            seen.old.items seen.new.items (λ e d. constants_set e class d)) }
    {
        let constants = self.program.class(class).constants.as_slice();
        for k in 0..constants.len() {
            self.count_field(constants[k], seen)?;
        }
        Ok(())
    }

    /// Adds the constants of a class that make strings, where it is untouched.
    fn count_class(&self, class: ClassId, seen: &mut Vec<FieldId>) -> Result<(), NoMemory>
        requires class { class < length self.now.program.now.classes }
        requires counts { MayCount self.now.program.now self.now.machine.now seen.old.items }
        ensures within { OnOk result (AreFields self.now.program.now seen.new.items) }
        ensures counted { OnOk result (AddsOfDone self.now.program.now self.now.machine.now
            seen.old.items seen.new.items (λ e d. class_done e class (state_of d class) d)) }
    {
        match self.machine.class_state(class) {
            ClassState::Untouched => self.count_constants(class, seen),
            _ => Ok(()),
        }
    }

    /// Adds the constants of all untouched classes among these that make strings.
    fn count_classes(&self, classes: &[ClassId], seen: &mut Vec<FieldId>) -> Result<(), NoMemory>
        requires all { All (λ c. c < length self.now.program.now.classes) classes.now }
        requires counts { MayCount self.now.program.now self.now.machine.now seen.old.items }
        ensures within { OnOk result (AreFields self.now.program.now seen.new.items) }
        ensures counted { OnOk result (AddsOfDone self.now.program.now self.now.machine.now
            seen.old.items seen.new.items
            (λ e d. fold (λ x k. class_done e k (state_of x k) x) d classes.now)) }
    {
        for k in 0..classes.len() {
            self.count_class(classes[k], seen)?;
        }
        Ok(())
    }

    /// Adds the constants that make strings of an untouched quiet class and of what is initialized with it.
    fn count_quiet(&self, class: ClassId, seen: &mut Vec<FieldId>) -> Result<(), NoMemory>
        requires class { class < length self.now.program.now.classes }
        requires counts { MayCount self.now.program.now self.now.machine.now seen.old.items }
        ensures within { OnOk result (AreFields self.now.program.now seen.new.items) }
        ensures counted { OnOk result (class_state_at self.now.machine.now.guest class
            ≡ states.Untouched →
            AddsOfDone self.now.program.now self.now.machine.now
            seen.old.items seen.new.items (λ e d. quietly_done e class d)) }
        ensures other { OnOk result ((class_state_at self.now.machine.now.guest class
            ≡ states.Untouched → ⊥) → seen.new.items ≡ seen.old.items) }
    {
        match self.machine.class_state(class) {
            ClassState::Untouched => self.count_classes(self.program.init_order(class), seen),
            _ => Ok(()),
        }
    }

    /// Adds the constants that make strings as these classes, for which nothing is waited, become done where they are quiet.
    fn count_prepared(&self, classes: &[ClassId], seen: &mut Vec<FieldId>) -> Result<(), NoMemory>
        requires program { IsInOrder self.now.program.now }
        requires all { All (λ c. c < length self.now.program.now.classes) classes.now }
        requires counts { MayCount self.now.program.now self.now.machine.now seen.old.items }
        ensures within { OnOk result (AreFields self.now.program.now seen.new.items) }
        ensures counted { OnOk result ((thread : ℕ) →
            let e = moment self.now.program.now self.now.machine.now thread in
            list_all (is_ready e (begins e)) classes.now ≡ true →
            CountedAll self.now.program.now self.now.machine.now seen.old.items (begins e) →
            CountedAll self.now.program.now self.now.machine.now seen.new.items
            (prepared e classes.now (begins e))) }
    {
        for k in 0..classes.len() {
            self.count_quiet(classes[k], seen)?;
        }
        Ok(())
    }

    /// Whether the strings of the fields that were seen, so many objects and so many slots besides may be made.
    fn seen_fit(&self, seen: &[FieldId], objects: u32, slots: u32) -> bool
        ensures { (d : Doing) → Counted self.now.program.now self.now.machine.now seen.now d →
            result ≡ has_room d.state.heap objects slots }
    {
        has_room_for(
            self.machine,
            seen.len(),
            string_slots(self.program),
            objects,
            slots,
        )
    }
}

/// Whether the strings that the constants of a quiet class make, with those of what is initialized with it, each once, fit
/// together with so many objects and slots besides. Nothing is changed.
pub fn quiet_fits(
    alloc: Global,
    program: &Program,
    machine: &Machine,
    class: ClassId,
    objects: u32,
    slots: u32,
) -> Result<bool, NoMemory>
    requires class { class < length program.now.classes }
    requires classes { length machine.now.guest.classes ≡ length program.now.classes }
    ensures { IfOk result (λ fits. (thread : ℕ) →
        fits ≡ has_room (quietly_done (moment program.now machine.now thread) class
        (begins (moment program.now machine.now thread))).state.heap objects slots) }
{
    let count = Count { program, machine };
    let mut seen = Vec::new(alloc);
    count.count_classes(program.init_order(class), &mut seen)?;
    Ok(count.seen_fit(seen.as_slice(), objects, slots))
}

/// Whether what these classes make, as the quiet ones become done, fits together with so many objects and slots besides
/// (JVMS 5.5, 4.7.2). Nothing is changed.
pub fn prepared_fit(
    alloc: Global,
    program: &Program,
    machine: &Machine,
    classes: &[ClassId],
    objects: u32,
    slots: u32,
) -> Result<bool, NoMemory>
    requires program { IsInOrder program.now }
    requires all { All (λ c. c < length program.now.classes) classes.now }
    requires classes { length machine.now.guest.classes ≡ length program.now.classes }
    ensures { IfOk result (λ fits. (thread : ℕ) → list_all (is_ready (moment program.now
        machine.now thread) (begins (moment program.now machine.now thread))) classes.now ≡ true →
        fits ≡ has_room (prepared (moment program.now machine.now thread) classes.now
        (begins (moment program.now machine.now thread))).state.heap objects slots) }
{
    let count = Count { program, machine };
    let mut seen = Vec::new(alloc);
    count.count_prepared(classes, &mut seen)?;
    Ok(count.seen_fit(seen.as_slice(), objects, slots))
}

/// Whether what these classes make, as the quiet ones become done, fits together with the constants of a class. Nothing is
/// changed.
pub(crate) fn prepared_class_fits(
    alloc: Global,
    program: &Program,
    machine: &Machine,
    classes: &[ClassId],
    class: ClassId,
) -> Result<bool, NoMemory>
    requires program { IsInOrder program.now }
    requires all { All (λ c. c < length program.now.classes) classes.now }
    requires class { class < length program.now.classes }
    requires classes { length machine.now.guest.classes ≡ length program.now.classes }
    ensures { IfOk result (λ fits. (thread : ℕ) →
        list_all (is_ready (moment program.now machine.now thread)
        (begins (moment program.now machine.now thread))) classes.now ≡ true → (state : State) →
        fits ≡ all_fit (constants_set (moment program.now machine.now thread) class
        (with_state class state (prepared (moment program.now machine.now thread) classes.now
        (begins (moment program.now machine.now thread))))).state.heap) }
{
    let count = Count { program, machine };
    let mut seen = Vec::new(alloc);
    count.count_prepared(classes, &mut seen)?;
    count.count_constants(class, &mut seen)?;
    Ok(count.seen_fit(seen.as_slice(), 0, 0))
}
