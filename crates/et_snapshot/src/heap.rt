//! What the lines of a trace tell of the heap at an event.
ghost use Rattle.std.specs.Prelude.{◌≡◌, ℕ, ◌∷◌, ◌++◌, [], reverse, IfOk, OnOk};
ghost use Rattle.std.specs.List.{filter_map};
ghost use Rattle.et_text.specs.Rules.{IsGoodTrace};
ghost use Rattle.et_text.specs.Spelling.{text_field};
ghost use Rattle.et_snapshot.specs.Heap.{objects_of, numbers_of, lists_of, note_kept, note_static, field_of, kept_by, statics_by, RiseTo, IsAbove, top_after};

use crate::objects::{Entry, Seen, forget, make, write};
use et_base::{Name, NoMemory, TraceLine};
use et_text::put_name;
use std::alloc::Global;
use std::collections::BTreeMap;

/// The heap at an event.
#[derive(Drop)]
pub struct Heap {
    pub statics: BTreeMap<u32, u32>,
    /// The objects that are live, by number, and the numbers of some that are dead.
    pub objects: Vec<Entry>,
    /// The name of each class, as a field of a line.
    pub names: Vec<Vec<u8>>,
}

/// The class has the next number.
fn name_class(alloc: Global, names: &mut Vec<Vec<u8>>, name: &Name) -> Result<(), NoMemory>
    ensures { OnOk result
        (lists_of names.new.items ≡ lists_of names.old.items ++ text_field name.now ∷ []) }
{
    let mut field = Vec::new(alloc);
    put_name(&mut field, name)?;
    names.push(field)?;
    Ok(())
}

/// Takes the next line of the trace. What happens behind the event is passed over, and an object that was last reached
/// before it is dropped.
fn note(alloc: Global, heap: &mut Heap, event: u64, line: &TraceLine) -> Result<(), NoMemory>
    requires { (top : ℕ) × RiseTo top 0 (numbers_of heap.old.objects.items) }
    ensures statics { OnOk result (heap.new.statics.entries
        ≡ note_static event heap.old.statics.entries line.now) }
    ensures objects { OnOk result (objects_of heap.new.objects.items
        ≡ note_kept event (objects_of heap.old.objects.items) line.now) }
    ensures rise { (top : ℕ) → RiseTo top 0 (numbers_of heap.old.objects.items) →
        IsAbove top line.now →
        OnOk result (RiseTo (top_after top line.now) 0 (numbers_of heap.new.objects.items)) }
    ensures names { OnOk result (lists_of heap.new.names.items
        ≡ lists_of heap.old.names.items ++ filter_map field_of (line.now ∷ [])) }
{
    match line {
        TraceLine::Class { name, .. } => name_class(alloc, &mut heap.names, name)?,
        TraceLine::Alloc {
            event: born,
            object,
            class,
            size,
            ..
        } if *born <= event => {
            let seen = Seen {
                class: *class,
                size: *size,
                slots: BTreeMap::new(alloc),
            };
            make(&mut heap.objects, *object, seen)?;
        }
        TraceLine::Update {
            event: at,
            object: 0,
            slot,
            new,
            ..
        } if *at <= event => {
            heap.statics.insert(*slot, *new)?;
        }
        TraceLine::Update {
            event: at,
            object,
            slot,
            new,
            ..
        } if *at <= event => write(&mut heap.objects, *object, *slot, *new)?,
        TraceLine::Death { object, time } if *time < event => {
            forget(&mut heap.objects, *object);
        }
        _ => {}
    }
    Ok(())
}

/// The heap after the lines of a trace.
pub fn heap_at(alloc: Global, lines: &[TraceLine], event: u64) -> Result<Heap, NoMemory>
    requires { IsGoodTrace lines.now }
    ensures statics { IfOk result (λ heap.
        heap.statics.entries ≡ statics_by event (reverse lines.now)) }
    ensures objects { IfOk result (λ heap.
        objects_of heap.objects.items ≡ kept_by event (reverse lines.now)) }
    ensures names { IfOk result (λ heap.
        lists_of heap.names.items ≡ filter_map field_of lines.now) }
{
    let mut heap = Heap {
        statics: BTreeMap::new(alloc),
        objects: Vec::new(alloc),
        names: Vec::new(alloc),
    };
    for line in lines {
        note(alloc, &mut heap, event, line)?;
    }
    Ok(heap)
}
